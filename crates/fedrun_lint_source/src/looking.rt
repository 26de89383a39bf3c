//! Looking at a source, and at recorded inputs beside it.
ghost use Rattle.std.specs.Prelude.{◌≡◌, IfOk, OnOk};
ghost use Rattle.fedrun_files.specs.Contents.{AreBytesOf};
ghost use Rattle.fedrun_files.specs.Loaded.{input_file};
ghost use Rattle.fedrun_lint_source.specs.Looked.{PrintsRight, PrintsRightText, PrintsLint};

use crate::fault::NotTaken;
use crate::printing::{print_mistake, print_report};
use expand_federation::{ExpandFault, Federation, NoFederation, expand_with_lines};
use fedrun_files::{Files, bytes_of};
use fedrun_lint::LintFault;
use fedrun_words::{Fault, LintRequest};
use loadfed::{LoadFault, MOST_BYTES, MOST_INPUT_BYTES};
use std::alloc::Global;
use std::io::Write;

/// Prints all that is wrong or odd in a source and in the recorded inputs beside it. Something that is wrong is a fault,
/// once it was printed.
pub(crate) fn lint_source<'a, F: Files, O: Write>(
    alloc: Global,
    request: &LintRequest<'a>,
    files: &mut F,
    out: &mut O,
) -> Result<(), Fault<'a, NotTaken>>
    ensures { OnOk result (PrintsLint (F.contents files.old) request.now.federation.now request.now.inputs.now
        (O.contents out.old) (O.contents out.new)) }
{
    let source = match bytes_of(request.federation, files, MOST_BYTES) {
        Ok(bytes) => bytes,
        Err(fault) => return Err(fault),
    };
    let inputs = match input_bytes(alloc, request.inputs, files) {
        Ok(bytes) => bytes,
        Err(fault) => return Err(fault),
    };
    look_at(alloc, request, source.as_slice(), inputs.as_slice(), out)
}

// The bytes of a file of recorded inputs; `-` is one without any.
fn input_bytes<'a, F: Files>(
    alloc: Global,
    name: &'a str,
    files: &mut F,
) -> Result<Vec<u8>, Fault<'a, NotTaken>>
    ensures { IfOk result (λ bytes. AreBytesOf (input_file (F.contents files.old) name.now) bytes.items) }
{
    if name == "-" {
        Ok(Vec::new(alloc))
    } else {
        bytes_of(name, files, MOST_INPUT_BYTES)
    }
}

// Looks at a source and at inputs with these bytes.
fn look_at<O: Write>(
    alloc: Global,
    names: &LintRequest<'_>,
    source: &[u8],
    inputs: &[u8],
    out: &mut O,
) -> Result<(), Fault<'static, NotTaken>>
    ensures { OnOk result (PrintsRight names.now.federation.now source.now names.now.inputs.now inputs.now
        (O.contents out.old) (O.contents out.new)) }
{
    match expand_with_lines(alloc, source, &[]) {
        Ok(federation) => look_at_federation(alloc, names, &federation, inputs, out),
        Err(ExpandFault::NoFederation(text)) => Err(refused(alloc, names, &text, inputs, out)),
        Err(ExpandFault::Memory) => Err(Fault::Load(LoadFault::Memory)),
        Err(mistake) => Err(mistaken(alloc, names, &mistake, inputs, out)),
    }
}

// Looks at a federation file that a source became.
fn look_at_federation<O: Write>(
    alloc: Global,
    names: &LintRequest<'_>,
    federation: &Federation,
    inputs: &[u8],
    out: &mut O,
) -> Result<(), Fault<'static, NotTaken>>
    ensures { OnOk result (PrintsRightText names.now.federation.now federation.now.text.items names.now.inputs.now
        inputs.now (O.contents out.old) (O.contents out.new)) }
{
    let text = federation.text.as_slice();
    let lines = federation.lines.as_slice();
    match print_report(alloc, names, text, lines, inputs, out) {
        Ok(false) => Ok(()),
        Ok(true) => Err(Fault::More(NotTaken)),
        Err(why) => Err(unprinted(why)),
    }
}

// The fault of a source that becomes no federation file, once it was printed why.
fn refused<O: Write>(
    alloc: Global,
    names: &LintRequest<'_>,
    no_federation: &NoFederation,
    inputs: &[u8],
    out: &mut O,
) -> Fault<'static, NotTaken> {
    let text = no_federation.text.as_slice();
    let lines = no_federation.lines.as_slice();
    match print_report(alloc, names, text, lines, inputs, out) {
        Ok(_) => Fault::More(NotTaken),
        Err(why) => unprinted(why),
    }
}

// The fault of a source with a mistake of its own, once that was printed.
fn mistaken<O: Write>(
    alloc: Global,
    names: &LintRequest<'_>,
    mistake: &ExpandFault,
    inputs: &[u8],
    out: &mut O,
) -> Fault<'static, NotTaken> {
    match print_mistake(alloc, names, mistake, inputs, out) {
        Ok(()) => Fault::More(NotTaken),
        Err(why) => unprinted(why),
    }
}

// The fault where a report isn't printed.
fn unprinted(why: LintFault) -> Fault<'static, NotTaken> {
    match why {
        LintFault::Memory => Fault::Load(LoadFault::Memory),
        LintFault::CannotWrite => Fault::CannotWrite,
    }
}
