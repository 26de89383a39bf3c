use crate::reading::WordsFault;
use std::io::ErrorKind;
use std::rt::Env;
use std::{env, io};

/// The machine's words, after the program's name. Words that are no text are no command.
pub fn given_words<R: Env + AllocGlobal>(rt: &R) -> Result<Vec<String>, WordsFault> {
    let mut words = Vec::new(rt.alloc());
    let given = env::args(rt).map_err(|error| fault_of(&error))?;
    for word in given.skip(1) {
        words.push(word).map_err(|_| WordsFault::Memory)?;
    }
    Ok(words)
}

fn fault_of(error: &io::Error) -> WordsFault {
    if error.kind() == ErrorKind::OutOfMemory {
        WordsFault::Memory
    } else {
        WordsFault::Usage
    }
}
