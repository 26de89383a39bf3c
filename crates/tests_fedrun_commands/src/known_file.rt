//! A file in memory, of which all is known.
ghost use Rattle.std.specs.Prelude.{◌≡◌, ◌++◌, ◌∷◌, [], ◌<◌, ◌≤◌, IfOk, IfSome, Err, length, vec_len};
ghost use Rattle.fedrun_files.specs.Contents.{AreBytesOf};
ghost use Rattle.fedrun_files.specs.declared.named.FileFault.TheVariants.{OverLimit as over_limit};
ghost use Rattle.tests_fedrun_commands.specs.KnownFile.{contents_of};

use fedrun_files::{FileFault, Files};
use std::marker::Model;
use std::process::Abort;

/// What was answered about a file: its name, and why its bytes weren't given.
#[derive(Drop)]
pub struct Answered {
    pub name: Vec<u8>,
    pub fault: Option<FileFault>,
}

impl Model for Answered {
    ghost use Rattle.fedrun_files.specs.Answers.{Answer};

    ghost Value = { Answer };

    ghost view = { λ a. record { name = a.name.items; fault = a.fault } };
}

/// One file, and no other. Its bytes are known, and so is what was answered: where there is no memory to note an
/// answer, the program ends.
#[derive(Drop)]
pub struct KnownFile<'a, R> {
    rt: &'a R,
    name: &'a str,
    text: &'a str,
    answers: Vec<Answered>,
}

impl<'a, R: AllocGlobal> KnownFile<'a, R> {
    pub fn new(rt: &'a R, name: &'a str, text: &'a str) -> KnownFile<'a, R> {
        KnownFile {
            rt,
            name,
            text,
            answers: Vec::new(rt.alloc()),
        }
    }

    /// Oldest first.
    pub fn answers(&self) -> &[Answered] {
        self.answers.as_slice()
    }

    // The bytes of a file.
    fn look_up(&self, name: &str, most: usize) -> Result<Vec<u8>, FileFault>
        ensures whole { IfOk result (λ bytes.
            AreBytesOf (contents_of self.now.name.now self.now.text.now name.now) bytes.items) }
        ensures few { IfOk result (λ bytes. vec_len bytes ≤ most) }
        ensures over { result ≡ Err over_limit
            → IfSome (contents_of self.now.name.now self.now.text.now name.now) (λ bytes. most < length bytes) }
    {
        if name != self.name {
            return Err(FileFault::Unreadable);
        }
        if self.text.len() > most {
            return Err(FileFault::OverLimit);
        }
        Vec::from_slice(self.rt.alloc(), self.text.as_bytes()).map_err(|_| FileFault::Memory)
    }
}

impl<R: AllocGlobal + Abort> KnownFile<'_, R> {
    // Notes what is answered about a file.
    fn note(&mut self, name: &str, fault: Option<FileFault>)
        ensures noted { self.new.answers.items ≡ self.old.answers.items
            ++ record { name = name.now; fault = fault } ∷ [] }
        ensures name { self.new.name ≡ self.old.name }
        ensures text { self.new.text ≡ self.old.text }
    {
        let bytes = Vec::from_slice(self.rt.alloc(), name.as_bytes());
        let name = bytes.expect(self.rt, "memory for a name");
        let room = self.answers.reserve(1);
        room.expect(self.rt, "memory for an answer");
        self.answers.push_reserved(Answered { name, fault });
    }
}

impl<R: AllocGlobal + Abort> Files for KnownFile<'_, R> {
    ghost use Rattle.std.specs.Prelude.{Some};

    ghost contents = { λ f name. contents_of f.name.now f.text.now name };

    ghost answers = { λ f. Some f.answers.items };

    fn bytes(&mut self, name: &str, most: usize) -> Result<Vec<u8>, FileFault> {
        let answer = self.look_up(name, most);
        match answer {
            Ok(bytes) => {
                self.note(name, None);
                Ok(bytes)
            }
            Err(why) => {
                self.note(name, Some(why));
                Err(why)
            }
        }
    }
}
