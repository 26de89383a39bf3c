//! What a whole body says.

ghost use Rattle.std.specs.Prelude.{◌≡◌, ◌≢◌, ◌<◌, length, slice_index, IfOk, IfErr, Some};
ghost use Rattle.signal.specs.Frame.{IsBody};
ghost use Rattle.signal.specs.Fault.{body_fault};
ghost use Rattle.signal.specs.Begun.{IsFirst};
ghost use Rattle.signal.specs.Stream.{version_after};
ghost use Rattle.signal.specs.declared.wire.TheConstants.{ACK_KIND, BATCH_KIND, DATA_KIND, HELLO_KIND, REFUSE_KIND};

use crate::batch::{Begun, batch_of};
use crate::fault::FrameFault;
use crate::frame::{Frame, Hello};
use crate::front::Front;
use crate::numbers::{take_u16, take_u32, take_u64};
use crate::reading::{check_size, signal_of};
use crate::wire::{
    ACK_KIND, ACK_SIZE, BATCH_KIND, BEFORE_SIGNAL, BEFORE_SIGNALS, DATA_KIND, HELLO_KIND,
    HELLO_SIZE, REFUSE_KIND, REFUSE_SIZE,
};

/// The first frame that all of these bytes carry, and what is begun behind it. `version` is that of the last Hello
/// before.
pub fn first_of(body: &[u8], version: u8) -> Result<Front, FrameFault>
    requires { 0 < length body.now }
    ensures first { IfOk result (IsFirst version body.now) }
    ensures fault { IfErr result (λ e. body_fault body.now ≡ Some e) }
{
    if body[0] == BATCH_KIND {
        let mut begun = batch_of(body)?;
        let (frame, size) = begun.give(&body[BEFORE_SIGNALS..]);
        return Ok(Front {
            frame,
            size: BEFORE_SIGNALS + size,
            begun,
            version,
        });
    }
    let frame = frame_of(body)?;
    Ok(Front {
        frame,
        size: body.len(),
        begun: Begun::none(),
        version: version_after(version, body),
    })
}

// The version once the frame of this body was given.
fn version_after(before: u8, body: &[u8]) -> u8
    requires there { 0 < length body.now }
    requires hello { slice_index body.now 0 ≡ HELLO_KIND → 1 < length body.now }
    ensures { result ≡ version_after before body.now }
{
    if body[0] == HELLO_KIND {
        body[1]
    } else {
        before
    }
}

// The frame that all of these bytes spell, where they are no Batch.
fn frame_of(body: &[u8]) -> Result<Frame, FrameFault>
    requires there { 0 < length body.now }
    requires no_batch { slice_index body.now 0 ≢ BATCH_KIND }
    ensures spelled { IfOk result (IsBody body.now) }
    ensures fault { IfErr result (λ e. body_fault body.now ≡ Some e) }
{
    match body[0] {
        HELLO_KIND => hello_of(body),
        DATA_KIND => data_of(body),
        ACK_KIND => ack_of(body),
        REFUSE_KIND => refuse_of(body),
        _ => Err(FrameFault::BadKind),
    }
}

fn hello_of(body: &[u8]) -> Result<Frame, FrameFault>
    requires there { 0 < length body.now }
    requires kind { slice_index body.now 0 ≡ HELLO_KIND }
    ensures spelled { IfOk result (IsBody body.now) }
    ensures fault { IfErr result (λ e. body_fault body.now ≡ Some e) }
{
    check_size(body.len(), HELLO_SIZE)?;
    if body[1] == 0 {
        return Err(FrameFault::BadKind);
    }
    let (federate, rest) = take_u16(&body[2..]);
    let (incarnation, rest) = take_u32(rest);
    let (last_taken, _) = take_u64(rest);
    Ok(Frame::Hello(Hello {
        federate,
        incarnation,
        last_taken,
    }))
}

fn data_of(body: &[u8]) -> Result<Frame, FrameFault>
    requires there { 0 < length body.now }
    requires kind { slice_index body.now 0 ≡ DATA_KIND }
    ensures spelled { IfOk result (IsBody body.now) }
    ensures fault { IfErr result (λ e. body_fault body.now ≡ Some e) }
{
    if body.len() <= BEFORE_SIGNAL {
        return Err(FrameFault::BadLength);
    }
    let (incarnation, rest) = take_u32(&body[1..]);
    let (number, rest) = take_u64(rest);
    let signal = signal_of(rest)?;
    Ok(Frame::Data {
        incarnation,
        number,
        signal,
    })
}

fn ack_of(body: &[u8]) -> Result<Frame, FrameFault>
    requires there { 0 < length body.now }
    requires kind { slice_index body.now 0 ≡ ACK_KIND }
    ensures spelled { IfOk result (IsBody body.now) }
    ensures fault { IfErr result (λ e. body_fault body.now ≡ Some e) }
{
    check_size(body.len(), ACK_SIZE)?;
    let (incarnation, rest) = take_u32(&body[1..]);
    let (last_taken, _) = take_u64(rest);
    Ok(Frame::Ack {
        incarnation,
        last_taken,
    })
}

fn refuse_of(body: &[u8]) -> Result<Frame, FrameFault>
    requires there { 0 < length body.now }
    requires kind { slice_index body.now 0 ≡ REFUSE_KIND }
    ensures spelled { IfOk result (IsBody body.now) }
    ensures fault { IfErr result (λ e. body_fault body.now ≡ Some e) }
{
    check_size(body.len(), REFUSE_SIZE)?;
    let (incarnation, rest) = take_u32(&body[1..]);
    let (refusal, _) = take_u16(rest);
    Ok(Frame::Refuse {
        incarnation,
        refusal,
    })
}
