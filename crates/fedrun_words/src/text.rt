ghost use Rattle.std.specs.Prelude.{◌≡◌, ◌≤◌, IfSome, IsTrue, length, take, drop};
ghost use Rattle.std.specs.Io.KnownBytes.{Appends};
ghost use Rattle.fedrun_words.specs.Lines.{line_of};
ghost use Rattle.fedrun_words.specs.Pieces.{AppendsPrefix, AppendsPrinted};
ghost use Rattle.fedrun_words.specs.declared.piece.TheConstants.{PIECE};

use crate::line::ProgramLine;
use crate::piece::{PIECE, Piece};
use arrayvec::ArrayVec;
use std::fmt::{Display, Write as _};
use std::io::{ErrorKind, Write};

/// Prints a text on a line of the program's own, and says whether all of it was written.
pub fn print_line<E: Write, D: Display>(err: &mut E, text: &D) -> bool
    ensures { IfSome (D.output text.now)
        (λ bytes. AppendsPrinted result (E.contents err.old) (E.contents err.new) (line_of bytes)) }
{
    print_text(err, &ProgramLine(text))
}

/// Prints a text, and says whether all of it was written. A writer that was interrupted is asked again.
pub fn print_text<E: Write, D: Display>(err: &mut E, text: &D) -> bool
    ensures begun { IfSome (D.output text.now) (AppendsPrefix (E.contents err.old) (E.contents err.new)) }
    ensures whole { IsTrue result → IfSome (D.output text.now) (Appends (E.contents err.old) (E.contents err.new)) }
{
    let mut told = 0usize;
    for _ in 0..u64::MAX {
        let Some(piece) = piece_of(text, told) else {
            return false;
        };
        let count = write_prefix(err, piece.as_slice());
        if count < PIECE {
            return count == piece.len();
        }
        let Some(next) = told.checked_add(count) else {
            return false;
        };
        told = next;
    }
    false
}

// What a text has after this many bytes, as far as there is room for a piece; none where it can't be displayed.
fn piece_of<D: Display>(text: &D, from: usize) -> Option<ArrayVec<u8, PIECE>>
    ensures { IfSome result (λ piece.
        IfSome (D.output text.now) (λ bytes. piece.items ≡ take PIECE (drop from bytes))) }
{
    let mut piece = Piece {
        before: from,
        kept: ArrayVec::new(),
    };
    match write!(piece, "{text}") {
        Ok(()) => Some(piece.kept),
        Err(_) => None,
    }
}

// Writes a prefix of the bytes, and says how many; fewer than all only where they are refused.
fn write_prefix<E: Write>(err: &mut E, bytes: &[u8]) -> usize
    ensures begun { Appends (E.contents err.old) (E.contents err.new) (take result bytes.now) }
    ensures few { result ≤ length bytes.now }
{
    let mut done = 0usize;
    for _ in 0..u64::MAX {
        if done == bytes.len() {
            break;
        }
        match err.write(&bytes[done..]) {
            Ok(0) => break,
            Ok(count) => done += count,
            Err(error) if error.kind() == ErrorKind::Interrupted => {}
            Err(_) => break,
        }
    }
    done
}
