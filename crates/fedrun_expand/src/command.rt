ghost use Rattle.std.specs.Prelude.{◌≡◌, ◌≢◌, ◌≤◌, OnOk, IfErr};
ghost use Rattle.fedrun_expand.specs.Faults.{status_of};
ghost use Rattle.fedrun_expand.specs.Printed.{PrintsFederation};
ghost use Rattle.fedrun_expand.specs.Saved.{SavesEach};

use crate::fault::ExpandFailure;
use crate::printing::print_federation;
use crate::saving::save_federations;
use crate::words::{read_each_words, read_expand_words};
use fedrun_files::Files;
use fedrun_words::{Fault, refuse};
use files_saving::Disk;
use std::alloc::Global;
use std::io::Write;

/// Expands the source for which the words ask, and answers the exit status: 0 where what it becomes was printed; 1 where
/// the source can't be read or isn't expanded; 2 where the words are no command; 3 where it can't be written. What it has
/// to say of a failure is one line to `err`.
pub fn expand_command<F: Files, O: Write, E: Write>(
    alloc: Global,
    words: &[String],
    files: &mut F,
    out: &mut O,
    err: &mut E,
) -> u8
    ensures done { result ≡ 0 → PrintsFederation (F.contents files.old) (O.contents out.old) (O.contents out.new) }
    ensures quiet { result ≡ 0 → err.new ≡ err.old }
    ensures untouched { result ≡ 1 → out.new ≡ out.old }
    ensures unused { result ≡ 2 → out.new ≡ out.old }
    ensures statuses { result ≤ 3 }
{
    match perform(alloc, words, files, out) {
        Ok(()) => 0,
        Err(fault) => refuse(&fault, err).status,
    }
}

// Does what the words ask for.
fn perform<'a, F: Files, O: Write>(
    alloc: Global,
    words: &'a [String],
    files: &mut F,
    out: &mut O,
) -> Result<(), Fault<'a, ExpandFailure>>
    ensures ok { OnOk result (PrintsFederation (F.contents files.old) (O.contents out.old) (O.contents out.new)) }
    ensures untouched { IfErr result (λ fault. status_of fault ≢ 3 → out.new ≡ out.old) }
{
    match read_expand_words(alloc, words) {
        Ok(request) => print_federation(
            alloc,
            request.source,
            request.given.as_slice(),
            files,
            out,
        ),
        Err(why) => Err(Fault::of_words(why)),
    }
}

/// Saves what the source becomes for which the words ask, for each value of a parameter in a file of its own, and answers
/// the exit status: 0 where all are saved; 1 where the source can't be read or isn't expanded for one of the values, and
/// none is saved; 2 where the words are no command; 3 where one isn't saved: those before it are. What it has to say of a
/// failure is one line to `err`. Nothing is printed.
pub fn expand_each_command<F: Files, D: Disk, E: Write>(
    alloc: Global,
    words: &[String],
    files: &mut F,
    disk: &mut D,
    err: &mut E,
) -> u8
    ensures done { result ≡ 0 → SavesEach (F.contents files.old) (D.contents disk.old) (D.contents disk.new) }
    ensures quiet { result ≡ 0 → err.new ≡ err.old }
    ensures untouched { result ≡ 1 → D.contents disk.new ≡ D.contents disk.old }
    ensures unused { result ≡ 2 → D.contents disk.new ≡ D.contents disk.old }
    ensures statuses { result ≤ 3 }
{
    match perform_each(alloc, words, files, disk) {
        Ok(()) => 0,
        Err(fault) => refuse(&fault, err).status,
    }
}

// Does what the words ask for.
fn perform_each<'a, F: Files, D: Disk>(
    alloc: Global,
    words: &'a [String],
    files: &mut F,
    disk: &mut D,
) -> Result<(), Fault<'a, ExpandFailure>>
    ensures saved { OnOk result (SavesEach (F.contents files.old) (D.contents disk.old) (D.contents disk.new)) }
    ensures untouched { IfErr result (λ fault. status_of fault ≢ 3 → D.contents disk.new ≡ D.contents disk.old) }
{
    match read_each_words(alloc, words) {
        Ok((request, each)) => save_federations(
            alloc,
            request.source,
            request.given.as_slice(),
            each,
            files,
            disk,
        ),
        Err(why) => Err(Fault::of_words(why)),
    }
}
