use arrayvec::ArrayVec;
use std::fmt;
use std::io::Write;

/// How many bytes of a text are written at once, at most.
pub(crate) const PIECE: usize = 1024;

/// What a text has after some bytes, as far as there is room. It takes every text.
#[derive(Drop)]
pub(crate) struct Piece {
    /// This many bytes are still passed over.
    pub before: usize,
    pub kept: ArrayVec<u8, PIECE>,
}

impl fmt::Write for Piece {
    ghost use Rattle.std.specs.Prelude.{ℕ, List, ◌++◌};
    ghost use Rattle.fedrun_words.specs.Pieces.{IsPiece};

    ghost write_str_gives = { λ s bytes t. (from : ℕ) (text : List ℕ) → IsPiece from text s.before s.kept.items
        → IsPiece from (text ++ bytes) t.before t.kept.items };

    fn write_str(&mut self, s: &str) -> fmt::Result {
        let bytes = s.as_bytes();
        let passed = self.before.min(bytes.len());
        self.before -= passed;
        let _taken = self.kept.write(&bytes[passed..]);
        Ok(())
    }
}
