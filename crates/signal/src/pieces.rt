//! How many frames at the front of a list are written as one piece.

ghost use Rattle.std.specs.Prelude.{◌≡◌, ◌≤◌, ◌<◌, ◌⊎◌, length, take, drop, false};
ghost use Rattle.signal.specs.Pieces.{follows, goes_on, IsStretch};

use crate::frame::Frame;

/// How many of the frames are one piece of at most `most`: the first, and those that go on with it.
pub fn piece_size(frames: &[Frame], most: usize) -> usize
    requires some { 0 < length frames.now }
    requires place { 0 < most }
    ensures within { result ≤ length frames.now }
    ensures few { result ≤ most }
    ensures stretch { IsStretch (take result frames.now) }
    ensures longest { (result ≡ most) ⊎ (goes_on (take result frames.now) (drop result frames.now) ≡ false) }
{
    let mut size = 1;
    while size < most && size < frames.len() && follows(&frames[size - 1], &frames[size]) {
        size += 1;
    }
    size
}

// Whether a frame has the next signal of the same incarnation.
fn follows(frame: &Frame, next: &Frame) -> bool
    ensures { result ≡ follows frame.now next.now }
{
    match (*frame, *next) {
        (
            Frame::Data {
                incarnation,
                number,
                ..
            },
            Frame::Data {
                incarnation: other,
                number: next,
                ..
            },
        ) => other == incarnation && next > number && next - number == 1,
        _ => false,
    }
}
