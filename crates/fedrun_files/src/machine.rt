ghost use Rattle.std.specs.Prelude.{◌≡◌, ◌≢◌, ◌<◌, ◌≤◌, true, None, Some, IfOk, IfSome, OnOk, length, vec_len};
ghost use Rattle.std.specs.Prelude.{option_and_then};
ghost use Rattle.std.specs.IoError.{error_kind};
ghost use Rattle.std.specs.Io.KnownBytes.{Consumes, IsAtEnd};
ghost use Rattle.fedrun_files.specs.Contents.{AreBytesOf};
ghost use Rattle.fedrun_files.specs.StandardInput.{is_stdin, stdin_after};
ghost use Rattle.fedrun_files.specs.declared.named.FileFault.TheVariants.{Unreadable, OverLimit, Memory};

use crate::named::{FileFault, Files};
use std::alloc::Global;
use std::io::{ErrorKind, Read};
use std::{fs, io, rt};

/// The machine's files, among which `-` is standard input. That is read once: the second time it can't be.
#[derive(Drop)]
pub struct MachineFiles<'a, R, I: Drop> {
    rt: &'a R,
    // None once it was read.
    stdin: Option<I>,
}

impl<'a, R, I: Drop> MachineFiles<'a, R, I> {
    pub fn new(rt: &'a R, stdin: I) -> MachineFiles<'a, R, I>
        ensures rt { result.rt ≡ rt.entry }
        ensures stdin { result.stdin ≡ Some stdin }
    {
        MachineFiles {
            rt,
            stdin: Some(stdin),
        }
    }
}

impl<R: AllocGlobal, I: Read + Drop> MachineFiles<'_, R, I> {
    // All of standard input, if that is at most this many bytes and wasn't read before.
    #[tactic(auto, using(crate::proofs::Readers::answered_to_its_end))]
    fn read_stdin(&mut self, most: usize) -> Result<Vec<u8>, FileFault>
        ensures few { IfOk result (λ bytes. vec_len bytes ≤ most) }
        ensures whole { IfOk result (λ bytes. AreBytesOf (option_and_then I.remaining self.old.stdin) bytes.items) }
        ensures over { result ≡ Err OverLimit
            → IfSome (option_and_then I.remaining self.old.stdin) (λ left. most < length left) }
        ensures twice { self.old.stdin ≡ None → result ≡ Err Unreadable }
        ensures after { self.new.stdin ≡ None }
    {
        match self.stdin.take() {
            Some(mut stdin) => read_to_end(self.rt.alloc(), &mut stdin, most),
            None => Err(FileFault::Unreadable),
        }
    }
}

impl<R: rt::Files + AllocGlobal, I: Read + Drop> MachineFiles<'_, R, I> {
    // All bytes of a file, or of standard input.
    fn read(&mut self, name: &str, most: usize) -> Result<Vec<u8>, FileFault>
        ensures few { IfOk result (λ bytes. vec_len bytes ≤ most) }
        ensures stdin_whole { is_stdin name.now ≡ true → IfOk result (λ bytes.
            AreBytesOf (option_and_then I.remaining self.old.stdin) bytes.items) }
        ensures stdin_over { is_stdin name.now ≡ true → result ≡ Err OverLimit
            → IfSome (option_and_then I.remaining self.old.stdin) (λ left. most < length left) }
        ensures stdin_twice { is_stdin name.now ≡ true → self.old.stdin ≡ None → result ≡ Err Unreadable }
        ensures stdin_once { self.new.stdin ≡ stdin_after self.old.stdin name.now }
    {
        if name == "-" {
            return self.read_stdin(most);
        }
        let mut file = fs::open(self.rt, name).map_err(|error| fault_of(&error))?;
        read_to_end(self.rt.alloc(), &mut file, most)
    }
}

impl<R: rt::Files + AllocGlobal, I: Read + Drop> Files for MachineFiles<'_, R, I> {
    fn bytes(&mut self, name: &str, most: usize) -> Result<Vec<u8>, FileFault> {
        self.read(name, most)
    }
}

// Why a file's bytes can't be had, where the machine has this error.
fn fault_of(error: &io::Error) -> FileFault
    ensures memory { error_kind error.now ≡ ErrorKind.OutOfMemory → result ≡ Memory }
    ensures other { error_kind error.now ≢ ErrorKind.OutOfMemory → result ≡ Unreadable }
    ensures short { result ≢ OverLimit }
{
    if error.kind() == ErrorKind::OutOfMemory {
        FileFault::Memory
    } else {
        FileFault::Unreadable
    }
}

/// What is left of a file, if it is at most this many bytes.
pub fn read_to_end<F: Read>(alloc: Global, file: &mut F, most: usize) -> Result<Vec<u8>, FileFault>
    ensures few { IfOk result (λ bytes. vec_len bytes ≤ most) }
    ensures all { IfOk result (λ bytes. Consumes (F.remaining file.old) (F.remaining file.new) bytes.items) }
    ensures end { OnOk result (IsAtEnd (F.remaining file.new)) }
    ensures over { result ≡ Err OverLimit → IfSome (F.remaining file.old) (λ left. most < length left) }
{
    let mut bytes = Vec::new(alloc);
    let mut piece = [0u8; 4096];
    for _ in 0..u64::MAX {
        let count = match file.read(&mut piece) {
            Ok(count) => count,
            Err(error) if error.kind() == ErrorKind::Interrupted => continue,
            Err(error) => return Err(fault_of(&error)),
        };
        if count == 0 {
            return Ok(bytes);
        }
        if count > most - bytes.len() {
            return Err(FileFault::OverLimit);
        }
        bytes
            .extend_from_slice(&piece[..count])
            .map_err(|_| FileFault::Memory)?;
    }
    Err(FileFault::Unreadable)
}
