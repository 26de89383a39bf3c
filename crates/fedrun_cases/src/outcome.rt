//! What the program answers.
use crate::files::{Folder, Given, Stored};
use fedrun_logs::MachineLogs;
use fedrun_program::{Edges, Machine, Version, run};
use std::alloc::{AllocError, Global};
use std::fs::File;
use std::net::{Net, TcpListener, TcpStream};
use std::rt;

const VERSION: Version<'static> = Version {
    commit: "fedrun, of no known commit",
    proof: "",
};

/// What words are answered.
#[derive(Drop)]
pub struct Outcome {
    pub status: u8,
    pub out: String,
    pub err: String,
    /// The files that were saved.
    pub saved: Vec<Stored>,
    /// Of each file whether it was asked for.
    pub asked: Vec<bool>,
}

/// What words are answered over these files; hints are told where the words ask for them.
pub fn outcome_of<
    'a,
    R: Machine + Net<Stream = TcpStream, Listener = TcpListener> + rt::Files<File = File>,
>(rt: &'a R, words: &'a [String], files: &'a [Stored]) -> Result<Outcome, AllocError> {
    let alloc = rt.alloc();
    let mut given = Given::new(alloc, files, true)?;
    let mut regular = Given::new(alloc, files, false)?;
    let mut disk = Folder::new(alloc, files)?;
    let mut out = Vec::new(alloc);
    let mut err = Vec::new(alloc);
    let mut shown = Vec::new(alloc);
    let status = {
        let mut edges = Edges {
            files: &mut given,
            regular: &mut regular,
            disk: &mut disk,
            logs: &mut MachineLogs::new(rt),
            out: &mut out,
            err: &mut err,
            hints: false,
        };
        run(rt, words, VERSION, &mut edges, &mut shown)
    };
    let asked = both(given.asked, regular.asked.as_slice());
    let asked = both(asked, disk.asked.as_slice());
    Ok(Outcome {
        status,
        out: text_of(alloc, out.as_slice())?,
        err: text_of(alloc, err.as_slice())?,
        saved: disk.saved,
        asked,
    })
}

// What is so in one of two lists.
fn both(one: Vec<bool>, other: &[bool]) -> Vec<bool> {
    let mut one = one;
    for (flag, also) in one.iter_mut().zip(other.iter()) {
        *flag = *flag || *also;
    }
    one
}

// A text of these bytes; what isn't UTF-8 in them is shown as such.
fn text_of(alloc: Global, bytes: &[u8]) -> Result<String, AllocError> {
    String::from_utf8_lossy(alloc, bytes)
}

/// The words of a line, parted by spaces; what stands between two apostrophes is one word, or a part of one.
pub fn words_of(alloc: Global, line: &str) -> Result<Vec<String>, AllocError> {
    let mut words = Vec::new(alloc);
    let mut word = String::new(alloc);
    let mut is_word = false;
    let mut is_quoted = false;
    for letter in line.chars() {
        if letter == '\'' {
            is_quoted = !is_quoted;
            is_word = true;
        } else if letter == ' ' && !is_quoted {
            if is_word {
                words.push(word)?;
                word = String::new(alloc);
            }
            is_word = false;
        } else {
            word.push(letter)?;
            is_word = true;
        }
    }
    if is_word {
        words.push(word)?;
    }
    Ok(words)
}
