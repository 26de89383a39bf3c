use crate::OUT_BYTES;
use fedrun_words::{WordsFault, given_words};
use std::io::{BufWriter, Stdout};
use std::rt::Env;

/// What a program begins with: the machine's words, and its output through a buffer.
pub fn given<R: Env + AllocGlobal>(
    rt: &R,
    out: Stdout,
) -> Result<(Vec<String>, BufWriter<Stdout>), WordsFault> {
    let words = given_words(rt)?;
    match BufWriter::with_capacity(rt.alloc(), OUT_BYTES, out) {
        Ok(out) => Ok((words, out)),
        Err(_) => Err(WordsFault::Memory),
    }
}
