ghost use Rattle.std.specs.Prelude.{◌≡◌, ◌≤◌, OnOk};
ghost use Rattle.fedrun_lint_source.specs.Looked.{PrintsLint, PrintsSome};

use crate::fault::NotTaken;
use crate::looking::lint_source;
use crate::words::read_lint_words;
use fedrun_files::Files;
use fedrun_words::{Fault, refuse};
use std::alloc::Global;
use std::io::Write;

/// Looks at the source for which the words ask, prints what is wrong in it or odd in what it becomes, and answers the
/// exit status: 0 where nothing is wrong; 1 where something is, once it was printed, or a file can't be read; 2 where
/// the words are no command; 3 where it can't be written. What it has to say of a failure is one line to `err`.
pub fn lint_source_command<F: Files, O: Write, E: Write>(
    alloc: Global,
    words: &[String],
    files: &mut F,
    out: &mut O,
    err: &mut E,
) -> u8
    ensures done { result ≡ 0 → PrintsSome (F.contents files.old) (O.contents out.old) (O.contents out.new) }
    ensures quiet { result ≡ 0 → err.new ≡ err.old }
    ensures statuses { result ≤ 3 }
{
    match perform(alloc, words, files, out) {
        Ok(()) => 0,
        Err(fault) => refuse(&fault, err).status,
    }
}

// Does what the words ask for.
fn perform<'a, F: Files, O: Write>(
    alloc: Global,
    words: &'a [String],
    files: &mut F,
    out: &mut O,
) -> Result<(), Fault<'a, NotTaken>>
    ensures { OnOk result (PrintsSome (F.contents files.old) (O.contents out.old) (O.contents out.new)) }
{
    match read_lint_words(alloc, words) {
        Ok(request) => lint_source(alloc, &request, files, out),
        Err(why) => Err(Fault::of_words(why)),
    }
}
