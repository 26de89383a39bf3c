//! Which files a node has.

ghost use Rattle.std.specs.Prelude.{◌≡◌, ℕ, List, ◌++◌};
ghost use Rattle.sha2.specs.Hashers.{Holds256};
ghost use Rattle.wires_greeting.specs.Files.{with_length, files_digest};

use crate::sizes::DIGEST_SIZE;
use sha2::{Digest, Sha256};

/// The digest by which both sides know that they have the same federation file and the same input file; of no input
/// file the bytes are empty.
pub fn files_digest(federation: &[u8], inputs: &[u8]) -> [u8; DIGEST_SIZE]
    ensures { result ≡ files_digest federation.now inputs.now }
{
    let mut hasher = Sha256::new();
    add_file(&mut hasher, federation);
    add_file(&mut hasher, inputs);
    hasher.finalize()
}

// Takes in a file behind its length.
fn add_file(hasher: &mut Sha256, file: &[u8])
    ensures { (before : List ℕ) → Holds256 hasher.old before → Holds256 hasher.new (before ++ with_length file.now) }
{
    hasher.update((file.len() as u64).to_be_bytes());
    hasher.update(file);
}
