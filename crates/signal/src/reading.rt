//! The signal that some bytes spell.

ghost use Rattle.std.specs.Prelude.{◌≡◌, ◌≤◌, ◌<◌, length, take, drop, slice_index, MatchResult, IfOk, IfErr, Some};
ghost use Rattle.std.specs.Prelude.{false, true, nat_lt, MatchBool};
ghost use Rattle.byteorder.specs.Endian.{big_number};
ghost use Rattle.tag.specs.LogicalTime.{IsFinite, IsLogicalTime};
ghost use Rattle.signal.specs.Signal.{tag_bytes, signal_bytes, IsSignal};
ghost use Rattle.signal.specs.Fault.{is_tag, signal_fault};
ghost use Rattle.signal.specs.declared.wire.TheConstants.{MSG_KIND};

use crate::fault::FrameFault;
use crate::numbers::{take_u16, take_u32, take_u64};
use crate::signal::Signal;
use crate::wire::{
    FOREVER_MICROSTEP, FOREVER_TIME, LTC_KIND, MSG_KIND, MSG_SIZE, NET_KIND, TAG_KIND, TAG_SIZE,
};
use tag::{FiniteTag, Time};

// The tag at the front, or a fault for a time that isn't before FOREVER's.
fn finite_tag_of(bytes: &[u8]) -> Result<FiniteTag, FrameFault>
    requires { 12 ≤ length bytes.now }
    ensures found { IfOk result (λ g. IsFinite g × (take 12 bytes.now ≡ tag_bytes g)) }
    ensures fault { IfErr result (λ e. (e ≡ FrameFault.BadTag)
        × (is_tag false (big_number 8 bytes.now) (big_number 4 (drop 8 bytes.now)) ≡ false)) }
{
    let (time, rest) = take_u64(bytes);
    let (microstep, _) = take_u32(rest);
    match Time::new(time) {
        Some(time) => {
            let tag = FiniteTag::new(time, microstep);
            tag.invariant();
            Ok(tag)
        }
        None => Err(FrameFault::BadTag),
    }
}

// The same, and FOREVER for twelve bytes ff.
fn tag_of(bytes: &[u8]) -> Result<tag::Tag, FrameFault>
    requires { 12 ≤ length bytes.now }
    ensures found { IfOk result (λ g. IsLogicalTime g × (take 12 bytes.now ≡ tag_bytes g)) }
    ensures fault { IfErr result (λ e. (e ≡ FrameFault.BadTag)
        × (is_tag true (big_number 8 bytes.now) (big_number 4 (drop 8 bytes.now)) ≡ false)) }
{
    let (time, rest) = take_u64(bytes);
    let (microstep, _) = take_u32(rest);
    let tag = match Time::new(time) {
        Some(time) => tag::Tag::new(time, microstep),
        None if time == FOREVER_TIME && microstep == FOREVER_MICROSTEP => tag::Tag::FOREVER,
        None => return Err(FrameFault::BadTag),
    };
    tag.invariant();
    Ok(tag)
}

/// Whether there are as many bytes as are needed.
pub fn check_size(size: usize, needed: usize) -> Result<(), FrameFault>
    ensures { MatchResult result (λ _. size ≡ needed)
        (λ e. MatchBool (nat_lt size needed) (e ≡ FrameFault.BadLength) ((needed < size) × (e ≡ FrameFault.Trailing))) }
{
    if size < needed {
        return Err(FrameFault::BadLength);
    }
    if size > needed {
        return Err(FrameFault::Trailing);
    }
    Ok(())
}

/// The signal that all of these bytes spell.
pub fn signal_of(bytes: &[u8]) -> Result<Signal, FrameFault>
    requires { 0 < length bytes.now }
    ensures spelled { IfOk result (λ signal. IsSignal signal × (bytes.now ≡ signal_bytes signal)) }
    ensures fault { IfErr result (λ e. signal_fault bytes.now ≡ Some e) }
{
    match bytes[0] {
        NET_KIND | LTC_KIND | TAG_KIND => tag_signal_of(bytes),
        MSG_KIND => message_of(bytes),
        _ => Err(FrameFault::BadKind),
    }
}

// The NET, LTC or TAG that all of these bytes spell.
fn tag_signal_of(bytes: &[u8]) -> Result<Signal, FrameFault>
    requires there { 0 < length bytes.now }
    requires is_kind { 0 < slice_index bytes.now 0 }
    requires no_message { slice_index bytes.now 0 < MSG_KIND }
    ensures spelled { IfOk result (λ signal. IsSignal signal × (bytes.now ≡ signal_bytes signal)) }
    ensures fault { IfErr result (λ e. signal_fault bytes.now ≡ Some e) }
{
    check_size(bytes.len(), TAG_SIZE)?;
    if bytes[0] == NET_KIND {
        let tag = tag_of(&bytes[1..])?;
        return Ok(Signal::Net(tag));
    }
    let tag = finite_tag_of(&bytes[1..])?;
    if bytes[0] == LTC_KIND {
        Ok(Signal::Ltc(tag))
    } else {
        Ok(Signal::Tag(tag))
    }
}

// The message that all of these bytes spell.
fn message_of(bytes: &[u8]) -> Result<Signal, FrameFault>
    requires there { 0 < length bytes.now }
    requires kind { slice_index bytes.now 0 ≡ MSG_KIND }
    ensures spelled { IfOk result (λ signal. IsSignal signal × (bytes.now ≡ signal_bytes signal)) }
    ensures fault { IfErr result (λ e. signal_fault bytes.now ≡ Some e) }
{
    check_size(bytes.len(), MSG_SIZE)?;
    let (connection, fields) = take_u16(&bytes[1..]);
    let (value, _) = take_u64(&fields[12..]);
    let tag = finite_tag_of(fields)?;
    Ok(Signal::Msg {
        connection,
        tag,
        value: value.cast_signed(),
    })
}
