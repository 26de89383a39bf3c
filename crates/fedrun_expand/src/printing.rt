//! Expanding a source, and printing what it becomes.
ghost use Rattle.std.specs.Prelude.{◌≡◌, ◌≢◌, OnOk, IfErr};
ghost use Rattle.std.specs.Io.KnownBytes.{Appends};
ghost use Rattle.fedrun_words.specs.declared.fault.Fault.TheVariants.{CannotWrite as cannot_write};
ghost use Rattle.fedrun_expand.specs.Faults.{status_of};
ghost use Rattle.fedrun_expand.specs.Printed.{PrintsExpansion, PrintsFile};

use crate::fault::ExpandFailure;
use crate::telling::told;
use expand_federation::{ExpandFault, expand};
use expand_source::Given;
use fedrun_files::{Files, bytes_of};
use fedrun_words::Fault;
use loadfed::{LoadFault, MOST_BYTES};
use std::alloc::Global;
use std::io::Write;

/// Prints what the source in the file of this name becomes, with these values of its parameters.
pub(crate) fn print_federation<'a, F: Files, O: Write>(
    alloc: Global,
    source: &'a str,
    given: &[Given],
    files: &mut F,
    out: &mut O,
) -> Result<(), Fault<'a, ExpandFailure>>
    ensures ok { OnOk result
        (PrintsFile (F.contents files.old source.entry.now) given.now (O.contents out.old) (O.contents out.new)) }
    ensures untouched { IfErr result (λ fault. status_of fault ≢ 3 → out.new ≡ out.old) }
{
    match bytes_of(source, files, MOST_BYTES) {
        Ok(bytes) => print_expansion(alloc, source, bytes.as_slice(), given, out),
        Err(fault) => Err(fault),
    }
}

// Prints what the source with these bytes becomes, which stands in a file of this name.
fn print_expansion<O: Write>(
    alloc: Global,
    file: &str,
    bytes: &[u8],
    given: &[Given],
    out: &mut O,
) -> Result<(), Fault<'static, ExpandFailure>>
    ensures ok { OnOk result (PrintsExpansion bytes.now given.now (O.contents out.old) (O.contents out.new)) }
    ensures untouched { IfErr result (λ fault. status_of fault ≢ 3 → out.new ≡ out.old) }
{
    match expand(alloc, bytes, given) {
        Ok(text) => print(out, text.as_slice()),
        Err(fault) => Err(fault_of(alloc, file, fault)),
    }
}

// Prints a text, and sends it on.
fn print<O: Write>(out: &mut O, text: &[u8]) -> Result<(), Fault<'static, ExpandFailure>>
    ensures ok { OnOk result (Appends (O.contents out.old) (O.contents out.new) text.now) }
    ensures err { IfErr result (λ fault. fault ≡ cannot_write) }
{
    out.write_all(text).map_err(|_| Fault::CannotWrite)?;
    out.flush().map_err(|_| Fault::CannotWrite)
}

// The fault of a source that isn't expanded.
fn fault_of(alloc: Global, file: &str, fault: ExpandFault) -> Fault<'static, ExpandFailure> {
    match told(alloc, file, fault) {
        Ok(why) => Fault::More(ExpandFailure::Unexpanded(why)),
        Err(_) => Fault::Load(LoadFault::Memory),
    }
}
