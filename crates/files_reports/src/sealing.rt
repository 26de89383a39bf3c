//! What stands before and behind what is said in a file.

ghost use Rattle.std.specs.Prelude.{◌≡◌, ◌++◌, ◌≤◌, ◌<◌, ◌↔◌, List, ℕ, length, IfOk, IfErr, OnOk, MatchOption, IsTrue};
ghost use Rattle.sha2.specs.Sha256.{sha256};
ghost use Rattle.files_reports.specs.File.{format, sealed, headed, IsNamed, IsReadFault};
ghost use Rattle.files_reports.specs.declared.layout.TheConstants.{LONGEST_REPORT};

use crate::file_digests::FileDigests;
use crate::layout::{DIGEST_SIZE, LONGEST_REPORT};
use crate::read_fault::ReadFault;
use sha2::{Digest, Sha256};

/// The name of the format, with its version.
pub fn name() -> &'static [u8]
    ensures { result.now ≡ format }
{
    b"fedrep 1"
}

/// What is said in a file of a run of these files.
pub fn said_behind<'b>(files: &FileDigests, bytes: &'b [u8]) -> Result<&'b [u8], ReadFault>
    ensures named { IfOk result (λ said. IsNamed bytes.now) }
    ensures found { IfOk result (λ said. bytes.now ≡ sealed (headed files.now said.now)) }
    ensures fault { IfErr result (IsReadFault files.now bytes.now) }
{
    check_name(files, bytes)?;
    let Some(content) = unsealed(bytes) else {
        return Err(ReadFault::CutShort);
    };
    match behind_head(files, content) {
        Some(said) => Ok(said),
        None => Err(ReadFault::OtherFiles),
    }
}

// Whether a file has the name of the format, and no more bytes than it may have.
fn check_name(files: &FileDigests, bytes: &[u8]) -> Result<(), ReadFault>
    ensures named { OnOk result (IsNamed bytes.now) }
    ensures fault { IfErr result (IsReadFault files.now bytes.now) }
{
    let Some(_) = behind(bytes, name()) else {
        return Err(ReadFault::NoReport);
    };
    if bytes.len() > LONGEST_REPORT {
        return Err(ReadFault::TooLong);
    }
    Ok(())
}

// The bytes before the digest, if that is theirs.
fn unsealed(bytes: &[u8]) -> Option<&[u8]>
    ensures { MatchOption result ((content : List ℕ) → ¬ (bytes.now ≡ sealed content))
        (λ content. bytes.now ≡ sealed content.now) }
{
    if bytes.len() < DIGEST_SIZE {
        return None;
    }
    let (content, seal) = bytes.split_at(bytes.len() - DIGEST_SIZE);
    if is_digest(seal, content) {
        Some(content)
    } else {
        None
    }
}

// Whether this is the digest of these bytes.
fn is_digest(digest: &[u8], bytes: &[u8]) -> bool
    ensures { IsTrue result ↔ (digest.now ≡ sha256 bytes.now) }
{
    let own = Sha256::digest(bytes);
    digest == own.as_slice()
}

// What is said behind the name of the format and the digests of these files, if they stand there.
fn behind_head<'b>(files: &FileDigests, content: &'b [u8]) -> Option<&'b [u8]>
    ensures { MatchOption result ((said : List ℕ) → ¬ (content.now ≡ headed files.now said))
        (λ said. content.now ≡ headed files.now said.now) }
{
    let rest = behind(content, name())?;
    let rest = behind(rest, &files.federation)?;
    behind(rest, &files.inputs)
}

// What stands behind these bytes, if the others begin with them.
fn behind<'b>(bytes: &'b [u8], front: &[u8]) -> Option<&'b [u8]>
    ensures { MatchOption result ((rest : List ℕ) → ¬ (bytes.now ≡ front.now ++ rest))
        (λ rest. bytes.now ≡ front.now ++ rest.now) }
{
    bytes.strip_prefix(front)
}
