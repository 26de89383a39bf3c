//! Frames as they are written.

ghost use Rattle.std.specs.Prelude.{◌≡◌, ◌<◌, ◌++◌, ◌∷◌, [], ℕ, List, OnOk, OnErr, take};
ghost use Rattle.std.specs.List.{AllByRecursion};
ghost use Rattle.signal.specs.Frame.{frame_bytes, IsFrame, Spells};
ghost use Rattle.signal.specs.Stream.{Splits};
ghost use Rattle.signal.specs.Pieces.{written, Extends};

use crate::frame::Frame;
use crate::memory::Memory;
use crate::pieces::piece_size;
use crate::wire::{BATCHING, FIRST_VERSION, MOST_SIGNALS};
use crate::writing::{write_by, write_piece};

/// Appends the frame's bytes. Where there is no memory for them, the bytes are as they were.
pub fn write_frame(frame: &Frame, bytes: &mut Vec<u8>) -> Result<(), Memory>
    ensures written { OnOk result (bytes.new.items ≡ bytes.old.items ++ frame_bytes frame.now) }
    ensures unchanged { OnErr result (bytes.new.items ≡ bytes.old.items) }
    ensures readable { Spells (frame_bytes frame.now) (frame.now ∷ []) }
{
    let before = bytes.len();
    let result = write_by(FIRST_VERSION, frame, bytes);
    or_as_before(result, before, bytes)
}

/// Appends the bytes of frames that are sent one after the other. A Hello has the version `own`; `peer` is the version
/// of the last Hello that came from the peer, 1 before any. Where both are 2 or more, Data frames of one incarnation
/// that are numbered by steps of one go into Batches, as many at a time as one may have. Where there is no memory for
/// all of the bytes, they are as they were.
pub fn write_frames(frames: &[Frame], own: u8, peer: u8, bytes: &mut Vec<u8>) -> Result<(), Memory>
    requires { 0 < own }
    ensures written { OnOk result (bytes.new.items ≡ bytes.old.items ++ written own peer frames.now) }
    ensures unchanged { OnErr result (bytes.new.items ≡ bytes.old.items) }
    ensures readable { OnOk result ((rest : List ℕ) → Splits (written own peer frames.now ++ rest) frames.now rest) }
{
    let before = bytes.len();
    let result = write_pieces(frames, own, peer, bytes);
    or_as_before(result, before, bytes)
}

// Appends the bytes of the frames, piece by piece.
fn write_pieces(frames: &[Frame], own: u8, peer: u8, bytes: &mut Vec<u8>) -> Result<(), Memory>
    ensures written { OnOk result (bytes.new.items ≡ bytes.old.items ++ written own peer frames.now) }
    ensures extended { OnErr result (Extends bytes.old.items bytes.new.items) }
    ensures are_frames { OnOk result (AllByRecursion IsFrame frames.now) }
{
    let most = if own >= BATCHING && peer >= BATCHING {
        MOST_SIGNALS
    } else {
        1
    };
    let mut left = frames;
    while !left.is_empty() {
        let (piece, behind) = left.split_at(piece_size(left, most));
        write_piece(own, piece, bytes)?;
        left = behind;
    }
    Ok(())
}

// Cuts the bytes back to those that were there before, where there was no memory for all that should stand behind them.
fn or_as_before(
    written: Result<(), Memory>,
    before: usize,
    bytes: &mut Vec<u8>,
) -> Result<(), Memory>
    ensures same { result ≡ written }
    ensures all { OnOk result (bytes.new.items ≡ bytes.old.items) }
    ensures nothing { OnErr result (bytes.new.items ≡ take before bytes.old.items) }
{
    if written.is_err() {
        bytes.truncate(before);
    }
    written
}
