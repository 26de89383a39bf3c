ghost use Rattle.std.specs.Prelude.{◌≡◌, ◌≤◌, [], ◌∷◌, OnOk, IfOk, IfErr, vec_len};
ghost use Rattle.fedrun_files.specs.Answers.{Answers, given};
ghost use Rattle.fedrun_files.specs.Contents.{AreBytesOf};
ghost use Rattle.fedrun_files.specs.Loaded.{input_file, IsFederation, RecordsInputs, AreSources};
ghost use Rattle.fedrun_files.specs.Refused.{asked_inputs, asked_sources, IsUnread, IsFederationFault, IsInputFault};
ghost use Rattle.fedrun_files.specs.Refused.{IsSourcesFault, fault_of_file};

use crate::{FileFault, Files};
use fedrun_words::Fault;
use loadfed::{LoadFault, MOST_BYTES, MOST_INPUT_BYTES, load, load_inputs};
use plan::{Inputs, Plan};
use reactor_programs::Programs;
use std::alloc::Global;

/// A federation with its programs and its recorded inputs.
#[derive(Drop)]
pub struct Sources {
    pub plan: Plan,
    pub programs: Programs,
    pub inputs: Inputs,
}

/// The bytes of a federation file and of an input file, of which `-` has none.
#[derive(Drop)]
pub struct SourceBytes {
    pub federation: Vec<u8>,
    pub inputs: Vec<u8>,
}

/// The federation in a file, with the recorded inputs in another; `-` is a file without any.
pub fn read_sources<'a, M, F: Files>(
    alloc: Global,
    federation: &'a str,
    inputs: &'a str,
    files: &mut F,
) -> Result<Sources, Fault<'a, M>>
    ensures ok { IfOk result (AreSources (F.contents files.old federation.entry.now)
        (input_file (F.contents files.old) inputs.entry.now)) }
    ensures asked { OnOk result (Answers (F.answers files.old) (F.answers files.new)
        (asked_sources federation.entry.now inputs.entry.now)) }
    ensures err { IfErr result (IsSourcesFault federation.entry inputs.entry (F.contents files.old)
        (Answers (F.answers files.old) (F.answers files.new))) }
    ensures same { F.contents files.new ≡ F.contents files.old }
{
    match read_sources_and_bytes(alloc, federation, inputs, files) {
        Ok((sources, _)) => Ok(sources),
        Err(fault) => Err(fault),
    }
}

/// The same, and the bytes of both files.
pub fn read_sources_and_bytes<'a, M, F: Files>(
    alloc: Global,
    federation: &'a str,
    inputs: &'a str,
    files: &mut F,
) -> Result<(Sources, SourceBytes), Fault<'a, M>>
    ensures ok { IfOk result (λ read.
        AreSources (F.contents files.old federation.entry.now)
        (input_file (F.contents files.old) inputs.entry.now) read.0) }
    ensures federation { IfOk result
        (λ read. AreBytesOf (F.contents files.old federation.entry.now) read.1.federation.items) }
    ensures inputs { IfOk result (λ read.
        AreBytesOf (input_file (F.contents files.old) inputs.entry.now) read.1.inputs.items) }
    ensures asked { OnOk result (Answers (F.answers files.old) (F.answers files.new)
        (asked_sources federation.entry.now inputs.entry.now)) }
    ensures err { IfErr result (IsSourcesFault federation.entry inputs.entry (F.contents files.old)
        (Answers (F.answers files.old) (F.answers files.new))) }
    ensures same { F.contents files.new ≡ F.contents files.old }
{
    let (plan, programs, federation) = read_federation_and_bytes(alloc, federation, files)?;
    let (recorded, inputs) = read_inputs(alloc, inputs, &plan, files)?;
    let sources = Sources {
        plan,
        programs,
        inputs: recorded,
    };
    Ok((sources, SourceBytes { federation, inputs }))
}

/// The federation in a file, with its programs.
pub fn read_federation<'a, M, F: Files>(
    alloc: Global,
    name: &'a str,
    files: &mut F,
) -> Result<(Plan, Programs), Fault<'a, M>>
    ensures ok { IfOk result (λ read. IsFederation (F.contents files.old name.entry.now) read.0 read.1) }
    ensures asked { OnOk result (Answers (F.answers files.old) (F.answers files.new) (given name.entry.now ∷ [])) }
    ensures err { IfErr result (IsFederationFault name.entry (F.contents files.old)
        (Answers (F.answers files.old) (F.answers files.new))) }
    ensures same { F.contents files.new ≡ F.contents files.old }
{
    match read_federation_and_bytes(alloc, name, files) {
        Ok((plan, programs, _)) => Ok((plan, programs)),
        Err(fault) => Err(fault),
    }
}

// The same, and the file's bytes.
fn read_federation_and_bytes<'a, M, F: Files>(
    alloc: Global,
    name: &'a str,
    files: &mut F,
) -> Result<(Plan, Programs, Vec<u8>), Fault<'a, M>>
    ensures ok { IfOk result (λ read. IsFederation (F.contents files.old name.entry.now) read.0 read.1) }
    ensures bytes { IfOk result (λ read. AreBytesOf (F.contents files.old name.entry.now) read.2.items) }
    ensures asked { OnOk result (Answers (F.answers files.old) (F.answers files.new) (given name.entry.now ∷ [])) }
    ensures err { IfErr result (IsFederationFault name.entry (F.contents files.old)
        (Answers (F.answers files.old) (F.answers files.new))) }
    ensures same { F.contents files.new ≡ F.contents files.old }
{
    let bytes = bytes_of(name, files, MOST_BYTES)?;
    match load(alloc, bytes.as_slice()) {
        Ok((plan, programs)) => Ok((plan, programs, bytes)),
        Err(fault) => Err(Fault::Load(fault)),
    }
}

// The recorded inputs in a file, and its bytes; `-` is a file without any.
fn read_inputs<'a, M, F: Files>(
    alloc: Global,
    name: &'a str,
    plan: &Plan,
    files: &mut F,
) -> Result<(Inputs, Vec<u8>), Fault<'a, M>>
    ensures ok { IfOk result (λ read.
        RecordsInputs (input_file (F.contents files.old) name.entry.now) plan.now read.0) }
    ensures bytes { IfOk result (λ read. AreBytesOf (input_file (F.contents files.old) name.entry.now) read.1.items) }
    ensures asked { OnOk result (Answers (F.answers files.old) (F.answers files.new) (asked_inputs name.entry.now)) }
    ensures err { IfErr result (IsInputFault plan.now name.entry (F.contents files.old)
        (Answers (F.answers files.old) (F.answers files.new))) }
    ensures same { F.contents files.new ≡ F.contents files.old }
{
    let bytes = if name == "-" {
        Vec::new(alloc)
    } else {
        bytes_of(name, files, MOST_INPUT_BYTES)?
    };
    match load_inputs(alloc, bytes.as_slice(), plan) {
        Ok(inputs) => Ok((inputs, bytes)),
        Err(fault) => Err(Fault::Load(fault)),
    }
}

/// The bytes of a file that has at most this many.
pub fn bytes_of<'a, M, F: Files>(
    name: &'a str,
    files: &mut F,
    most: usize,
) -> Result<Vec<u8>, Fault<'a, M>>
    ensures ok { IfOk result (λ bytes. AreBytesOf (F.contents files.old name.entry.now) bytes.items) }
    ensures few { IfOk result (λ bytes. vec_len bytes ≤ most) }
    ensures asked { OnOk result (Answers (F.answers files.old) (F.answers files.new) (given name.entry.now ∷ [])) }
    ensures err { IfErr result (IsUnread most name.entry (F.contents files.old name.entry.now)
        (Answers (F.answers files.old) (F.answers files.new))) }
    ensures same { F.contents files.new ≡ F.contents files.old }
{
    match files.bytes(name, most) {
        Ok(bytes) => Ok(bytes),
        Err(why) => Err(fault_of(name, why)),
    }
}

/// The fault of a file of this name whose bytes can't be had.
pub fn fault_of<'a, M>(name: &'a str, why: FileFault) -> Fault<'a, M>
    ensures { result ≡ fault_of_file name.entry why }
{
    match why {
        FileFault::Unreadable => Fault::CannotRead(name),
        FileFault::OverLimit => Fault::Load(LoadFault::OverLimit),
        FileFault::Memory => Fault::Load(LoadFault::Memory),
    }
}
