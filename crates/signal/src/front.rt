//! What stands at the front of some bytes.

ghost use Rattle.std.specs.Prelude.{◌≡◌, true, Some, IfOk, IfErr, MatchOption};
ghost use Rattle.signal.specs.Fault.{is_partial, fault_at};
ghost use Rattle.signal.specs.Begun.{IsFront};

use crate::batch::Begun;
use crate::body::first_of;
use crate::fault::FrameFault;
use crate::frame::Frame;
use crate::numbers::take_u32;
use crate::wire::{LENGTH_SIZE, LONGEST_BODY};

/// The first frame of a spelling at the front of some bytes.
#[derive(Clone, Copy, Debug)]
pub struct Front {
    pub frame: Frame,
    /// Bytes up to the signals that are still to be given.
    pub size: usize,
    /// What else the spelling carries.
    pub begun: Begun,
    /// The version of the last Hello, once the frame was given.
    pub version: u8,
}

/// What stands at the front, or None where the bytes end inside it. `version` is that of the last Hello before.
pub fn front_of(bytes: &[u8], version: u8) -> Result<Option<Front>, FrameFault>
    ensures ok { IfOk result (λ front. MatchOption front (is_partial bytes.now ≡ true) (IsFront version bytes.now)) }
    ensures fault { IfErr result (λ e. fault_at bytes.now ≡ Some e) }
{
    if bytes.len() < LENGTH_SIZE {
        return Ok(None);
    }
    let (length, rest) = take_u32(bytes);
    let length = length as usize;
    if length == 0 || length > LONGEST_BODY {
        return Err(FrameFault::BadLength);
    }
    if rest.len() < length {
        return Ok(None);
    }
    let (body, _) = rest.split_at(length);
    let front = first_of(body, version)?;
    Ok(Some(Front {
        size: LENGTH_SIZE + front.size,
        ..front
    }))
}
