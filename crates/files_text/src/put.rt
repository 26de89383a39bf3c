//! Bytes to a writer. Which error it refuses them with isn't kept, so that a row's many small writes hand nothing large
//! back.
ghost use Rattle.std.specs.Prelude.{OnOk};
ghost use Rattle.std.specs.Io.KnownBytes.{Appends};

use std::io;
use std::io::{ErrorKind, Write};

/// The writer refused a write. How much of the text it took isn't known.
#[derive(Clone, Copy, Debug, PartialEq, Eq)]
pub struct CannotWrite;

impl From<CannotWrite> for io::Error {
    fn from(_refused: CannotWrite) -> io::Error {
        io::Error::from(ErrorKind::Other)
    }
}

/// Writes bytes.
#[inline(always)]
pub(crate) fn put<W: Write>(out: &mut W, bytes: &[u8]) -> Result<(), CannotWrite>
    ensures { OnOk result (Appends (W.contents out.old) (W.contents out.new) bytes.now) }
{
    match out.write_all(bytes) {
        Ok(()) => Ok(()),
        Err(_) => Err(CannotWrite),
    }
}
