//! Saving what a source becomes for each value of a parameter.
//!
//! All of them are expanded before the first is saved: where one isn't, none is.
ghost use Rattle.std.specs.Prelude.{◌≡◌, ◌≢◌, ◌+ℤ◌, ◌++◌, ◌∷◌, [], pos, IfErr, IfOk, OnOk, string_bytes};
ghost use Rattle.files_saving.specs.Contents.{KnownOf};
ghost use Rattle.files_saving.specs.Saved.{IsCreated};
ghost use Rattle.fedrun_expand.specs.Faults.{status_of};
ghost use Rattle.fedrun_expand.specs.Saved.{comment_text, value_at, IsFileFor, IsNamedFile, IsOneSaved};
ghost use Rattle.fedrun_expand.specs.Saved.{IsUnmarked, AreSaved, SavesFile};

use crate::fault::ExpandFailure;
use crate::naming::{FileName, ValueText, ValuesComment};
use crate::telling::told;
use crate::words::EachRequest;
use expand_federation::{ExpandFault, expand};
use expand_source::{Given, SourceFault, SourceFaultKind};
use fedrun_files::{Files, bytes_of};
use fedrun_words::Fault;
use files_saving::{Disk, ReserveFault, SaveFault, reserve, save, temporary_name};
use files_text::Memory;
use loadfed::{LoadFault, MOST_BYTES, load};
use plan_names::Text;
use std::alloc::{AllocError, Global};

/// Saves what the source in the file of this name becomes, for each value of a parameter in a file of its own, with
/// these values of the other parameters.
pub(crate) fn save_federations<'a, F: Files, D: Disk>(
    alloc: Global,
    source: &'a str,
    given: &[Given],
    each: EachRequest<'_>,
    files: &mut F,
    disk: &mut D,
) -> Result<(), Fault<'a, ExpandFailure>>
    ensures saved { OnOk result (SavesFile (F.contents files.old source.entry.now) given.now each.entry
        (D.contents disk.old) (D.contents disk.new)) }
    ensures untouched { IfErr result (λ fault. status_of fault ≢ 3 → D.contents disk.new ≡ D.contents disk.old) }
{
    match bytes_of(source, files, MOST_BYTES) {
        Ok(bytes) => save_expansions(alloc, source, bytes.as_slice(), given, each, disk),
        Err(fault) => Err(fault),
    }
}

// The same, of the source with these bytes, which stands in a file of this name.
fn save_expansions<D: Disk>(
    alloc: Global,
    file: &str,
    source: &[u8],
    given: &[Given],
    each: EachRequest<'_>,
    disk: &mut D,
) -> Result<(), Fault<'static, ExpandFailure>>
    ensures saved { OnOk result (KnownOf (D.contents disk.old) (D.contents disk.new)
        (AreSaved source.now given.now each.entry each.entry.range.count)) }
    ensures untouched { IfErr result (λ fault. status_of fault ≢ 3 → D.contents disk.new ≡ D.contents disk.old) }
{
    match look_at_each(alloc, file, source, given, each) {
        Ok(()) => save_each(alloc, source, given, each, disk),
        Err(fault) => Err(fault),
    }
}

// Makes the file for each value, and keeps none of them.
fn look_at_each(
    alloc: Global,
    file: &str,
    source: &[u8],
    given: &[Given],
    each: EachRequest<'_>,
) -> Result<(), Fault<'static, ExpandFailure>> {
    for k in 0..each.range.count {
        match named_file(alloc, source, given, each, k) {
            Ok(_) => {}
            Err(fault) => return Err(fault_at(alloc, file, each, k, fault)),
        }
    }
    Ok(())
}

// The fault of a source that isn't expanded for a value.
fn fault_at(
    alloc: Global,
    file: &str,
    each: EachRequest<'_>,
    k: usize,
    fault: ExpandFault,
) -> Fault<'static, ExpandFailure> {
    match told_at(alloc, file, each, k, fault) {
        Ok(why) => Fault::More(ExpandFailure::Unexpanded(why)),
        Err(_) => Fault::Load(LoadFault::Memory),
    }
}

// Why it isn't, with the value behind.
fn told_at(
    alloc: Global,
    file: &str,
    each: EachRequest<'_>,
    k: usize,
    fault: ExpandFault,
) -> Result<String, ExpandFault> {
    let why = told(alloc, file, fault)?;
    let value = value_at(alloc, each, k)?;
    let value_text = ValueText(&value);
    Ok(format!(in alloc; "{why} ({value_text})")?)
}

fn save_each<D: Disk>(
    alloc: Global,
    source: &[u8],
    given: &[Given],
    each: EachRequest<'_>,
    disk: &mut D,
) -> Result<(), Fault<'static, ExpandFailure>>
    ensures saved { OnOk result (KnownOf (D.contents disk.old) (D.contents disk.new)
        (AreSaved source.now given.now each.entry each.entry.range.count)) }
    ensures late { IfErr result (λ fault. status_of fault ≡ 3) }
{
    for k in 0..each.range.count {
        match save_one(alloc, source, given, each, k, disk) {
            Ok(()) => {}
            Err(fault) => return Err(fault),
        }
    }
    Ok(())
}

// Saves the file for a value.
fn save_one<D: Disk>(
    alloc: Global,
    source: &[u8],
    given: &[Given],
    each: EachRequest<'_>,
    k: usize,
    disk: &mut D,
) -> Result<(), Fault<'static, ExpandFailure>>
    ensures saved { OnOk result (KnownOf (D.contents disk.old) (D.contents disk.new)
        (IsOneSaved source.now given.now each.entry k)) }
    ensures late { IfErr result (λ fault. status_of fault ≡ 3) }
{
    match named_file(alloc, source, given, each, k) {
        Ok(file) => save_new(alloc, &file, disk),
        // All of them were expanded before, so it is memory that lacks.
        Err(_) => Err(Fault::Print(Memory)),
    }
}

/// A file that is to be saved.
#[derive(Drop)]
struct NamedFile {
    name: String,
    text: Vec<u8>,
}

// The file for a value.
fn named_file(
    alloc: Global,
    source: &[u8],
    given: &[Given],
    each: EachRequest<'_>,
    k: usize,
) -> Result<NamedFile, ExpandFault>
    ensures { IfOk result (λ file. IsNamedFile source.now given.now each.entry k (string_bytes file.name)
        file.text.items) }
{
    let values = values_at(alloc, given, each, k)?;
    let text = file_text(alloc, source, values.as_slice())?;
    let value = value_at(alloc, each, k)?;
    let called = FileName {
        folder: each.folder,
        value: &value,
    };
    let name = format!(in alloc; "{called}")?;
    Ok(NamedFile { name, text })
}

// Saves a file of which there is none yet.
#[tactic(auto, using(files_saving::proofs::Reserved::saved_where_reserved))]
fn save_new<D: Disk>(
    alloc: Global,
    file: &NamedFile,
    disk: &mut D,
) -> Result<(), Fault<'static, ExpandFailure>>
    ensures saved { OnOk result (KnownOf (D.contents disk.old) (D.contents disk.new)
        (IsCreated (string_bytes file.now.name) file.now.text.items)) }
    ensures late { IfErr result (λ fault. status_of fault ≡ 3) }
{
    let name = file.name.as_str();
    let Ok(temporary) = temporary_name(alloc, name) else {
        return Err(Fault::Print(Memory));
    };
    match reserve(disk, temporary.as_str(), name) {
        Ok(()) => {}
        Err(ReserveFault::NameTaken) => return Err(unsaved(alloc, name, SaveFault::Exists)),
        Err(ReserveFault::TemporaryTaken) => {
            return Err(unsaved(alloc, temporary.as_str(), SaveFault::Exists));
        }
        Err(ReserveFault::Failed(why)) => return Err(unsaved(alloc, name, why)),
    }
    match save(disk, temporary.as_str(), name, file.text.as_slice()) {
        Ok(()) => Ok(()),
        Err(why) => {
            disk.remove(temporary.as_str());
            Err(unsaved(alloc, name, why))
        }
    }
}

// The fault of a file of this name that isn't saved.
fn unsaved(alloc: Global, name: &str, why: SaveFault) -> Fault<'static, ExpandFailure>
    ensures { status_of result ≡ 3 }
{
    match String::from_str(alloc, name) {
        Ok(name) => Fault::More(ExpandFailure::Unsaved(name, why)),
        Err(_) => Fault::Print(Memory),
    }
}

// The text of the file for these values: they as a comment, and then what the source becomes.
fn file_text(alloc: Global, source: &[u8], values: &[Given]) -> Result<Vec<u8>, ExpandFault>
    ensures { IfOk result (λ text. IsFileFor source.now values.now text.items) }
{
    let made = expand(alloc, source, values)?;
    let text = commented(alloc, values, unmarked(made.as_slice()))?;
    match load(alloc, text.as_slice()) {
        Ok(_) => Ok(text),
        Err(LoadFault::Memory) => Err(ExpandFault::Memory),
        // With the comment it is too long.
        Err(_) => Err(ExpandFault::Source(SourceFault {
            line: 0,
            kind: SourceFaultKind::OverLimit,
        })),
    }
}

// A text without the mark of its byte order, which is one at the beginning of a file alone.
fn unmarked(text: &[u8]) -> &[u8]
    ensures { IsUnmarked text.now result.now }
{
    match text {
        [0xEF, 0xBB, 0xBF, rest @ ..] => rest,
        _ => text,
    }
}

// A text behind the comment of these values.
fn commented(alloc: Global, values: &[Given], text: &[u8]) -> Result<Vec<u8>, AllocError>
    ensures { IfOk result (λ file. file.items ≡ comment_text values.now ++ text.now) }
{
    let comment = ValuesComment(values);
    let first = format!(in alloc; "{comment}")?;
    let mut file = Vec::new(alloc);
    file.extend_from_slice(first.as_bytes())?;
    file.extend_from_slice(text)?;
    Ok(file)
}

// All values that are given for the k-th file, counted from 0.
fn values_at(
    alloc: Global,
    given: &[Given],
    each: EachRequest<'_>,
    k: usize,
) -> Result<Vec<Given>, ExpandFault>
    ensures { IfOk result (λ values. values.items ≡ given.now ++ value_at each.entry k ∷ []) }
{
    let mut values = copied(alloc, given)?;
    values.push(value_at(alloc, each, k)?)?;
    Ok(values)
}

// The value for the k-th file.
fn value_at(alloc: Global, each: EachRequest<'_>, k: usize) -> Result<Given, ExpandFault>
    ensures { IfOk result (λ value. value ≡ value_at each.entry k) }
{
    let value = number_at(each.range.first, k)?;
    Ok(Given {
        name: Text::new(String::from_str(alloc, each.range.name)?),
        value,
    })
}

// A number behind another one. None of a range is beyond 64 bits.
fn number_at(first: i64, k: usize) -> Result<i64, ExpandFault>
    ensures { IfOk result (λ n. n ≡ first +ℤ pos k) }
{
    match i64::try_from(k) {
        Ok(behind) => match first.checked_add(behind) {
            Some(number) => Ok(number),
            None => Err(ExpandFault::Memory),
        },
        Err(_) => Err(ExpandFault::Memory),
    }
}

fn copied(alloc: Global, given: &[Given]) -> Result<Vec<Given>, AllocError>
    ensures { IfOk result (λ copy. copy.items ≡ given.now) }
{
    let mut copy = Vec::new(alloc);
    for one in given {
        copy.push(copy_of(one)?)?;
    }
    Ok(copy)
}

fn copy_of(one: &Given) -> Result<Given, AllocError>
    ensures { IfOk result (λ copy. copy ≡ one.now) }
{
    Ok(Given {
        name: one.name.clone()?,
        value: one.value,
    })
}
