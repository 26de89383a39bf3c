//! Several signals in one body.

ghost use Rattle.std.specs.Prelude.{◌≡◌, ◌-◌, ◌≤◌, ◌<◌, ◌∷◌, length, drop, slice_index, MatchResult, OnOk, IfOk, IfErr};
ghost use Rattle.std.specs.Prelude.{Some, None};
ghost use Rattle.signal.specs.Fault.{signal_size, shape_fault, tags_fault, signals_fault, body_fault};
ghost use Rattle.signal.specs.Begun.{signal_at, AreSignals, BeginsSignal, HasSignals, IsBegun, frames_at};
ghost use Rattle.signal.specs.declared.wire.TheConstants.{BATCH_KIND};

use crate::fault::FrameFault;
use crate::frame::Frame;
use crate::numbers::{take_u32, take_u64};
use crate::reading::signal_of;
use crate::signal::Signal;
use crate::wire::{BEFORE_SIGNALS, LEAST_SIGNALS, MOST_SIGNALS, MSG_KIND, MSG_SIZE, TAG_SIZE};

/// A Batch of which signals are still to be given. Their bytes are known to spell them, and stay where they were read.
#[derive(Clone, Copy, Debug)]
pub struct Begun {
    pub incarnation: u32,
    /// The number of the last signal.
    pub last: u64,
    /// How many signals are still to be given.
    pub count: usize,
    /// Bytes of these signals.
    pub size: usize,
}

impl Begun {
    /// No Batch: nothing is to be given.
    pub fn none() -> Begun
        ensures count { result.count ≡ 0 }
        ensures size { result.size ≡ 0 }
    {
        Begun {
            incarnation: 0,
            last: 0,
            count: 0,
            size: 0,
        }
    }

    /// The next frame, and how many bytes its signal takes, which stands at the front of these.
    pub fn give(&mut self, bytes: &[u8]) -> (Frame, usize)
        requires there { 0 < self.old.count }
        requires signals { HasSignals self.old bytes.now }
        ensures frame { frames_at self.old bytes.now ≡ result.0 ∷ frames_at self.new (drop result.1 bytes.now) }
        ensures signals { HasSignals self.new (drop result.1 bytes.now) }
        ensures within { result.1 ≤ self.old.size }
        ensures size { self.new.size ≡ self.old.size - result.1 }
    {
        let (signal, size) = first_signal(bytes);
        self.count -= 1;
        self.size -= size;
        let frame = Frame::Data {
            incarnation: self.incarnation,
            number: self.last - self.count as u64,
            signal,
        };
        (frame, size)
    }
}

/// The Batch that all of these bytes spell. Nothing of it was given yet.
pub fn batch_of(body: &[u8]) -> Result<Begun, FrameFault>
    requires there { 0 < length body.now }
    requires kind { slice_index body.now 0 ≡ BATCH_KIND }
    ensures spelled { IfOk result (IsBegun body.now) }
    ensures fault { IfErr result (λ e. body_fault body.now ≡ Some e) }
{
    if body.len() < BEFORE_SIGNALS {
        return Err(FrameFault::BadLength);
    }
    let (incarnation, rest) = take_u32(&body[1..]);
    let (number, rest) = take_u64(rest);
    let (count, signals) = (usize::from(rest[0]), &rest[1..]);
    if count < LEAST_SIGNALS || count > MOST_SIGNALS {
        return Err(FrameFault::BadKind);
    }
    let Some(last) = number.checked_add(count as u64 - 1) else {
        return Err(FrameFault::BadKind);
    };
    check_signals(signals, count)?;
    Ok(Begun {
        incarnation,
        last,
        count,
        size: signals.len(),
    })
}

// Whether this many signals fill these bytes.
#[tactic(auto, using(crate::proofs::Checking::shape_first, crate::proofs::Checking::then_tags))]
fn check_signals(bytes: &[u8], count: usize) -> Result<(), FrameFault>
    ensures filled { OnOk result (AreSignals count bytes.now) }
    ensures fault { IfErr result (λ e. signals_fault count bytes.now ≡ Some e) }
{
    check_shape(bytes, count)?;
    check_tags(bytes, count)
}

// Whether this many signals fill these bytes, whatever their tags are.
fn check_shape(bytes: &[u8], count: usize) -> Result<(), FrameFault>
    ensures { MatchResult result (λ _. shape_fault count bytes.now ≡ None) (λ e. shape_fault count bytes.now ≡ Some e) }
{
    let mut rest = bytes;
    let mut left = count;
    while left > 0 {
        if rest.is_empty() {
            return Err(FrameFault::BadLength);
        }
        let kind = rest[0];
        if kind == 0 || kind > MSG_KIND {
            return Err(FrameFault::BadKind);
        }
        let size = signal_size(kind);
        if rest.len() < size {
            return Err(FrameFault::BadLength);
        }
        let (_, behind) = rest.split_at(size);
        rest = behind;
        left -= 1;
    }
    if rest.is_empty() {
        Ok(())
    } else {
        Err(FrameFault::Trailing)
    }
}

// Whether each of the signals has a tag.
fn check_tags(bytes: &[u8], count: usize) -> Result<(), FrameFault>
    requires { shape_fault count bytes.now ≡ None }
    ensures filled { OnOk result (AreSignals count bytes.now) }
    ensures fault { IfErr result (λ e. tags_fault count bytes.now ≡ Some e) }
{
    let mut rest = bytes;
    let mut left = count;
    while left > 0 {
        let (signal, behind) = rest.split_at(signal_size(rest[0]));
        signal_of(signal)?;
        rest = behind;
        left -= 1;
    }
    Ok(())
}

// The signal that begins these bytes, and how many of them it takes.
fn first_signal(bytes: &[u8]) -> (Signal, usize)
    requires { BeginsSignal bytes.now }
    ensures signal { result.0 ≡ signal_at bytes.now }
    ensures size { result.1 ≡ signal_size (slice_index bytes.now 0) }
{
    let size = signal_size(bytes[0]);
    let (signal, _) = bytes.split_at(size);
    match signal_of(signal) {
        Ok(signal) => (signal, size),
        Err(_) => unreachable!(),
    }
}

// Bytes of a signal of this kind.
fn signal_size(kind: u8) -> usize
    ensures { result ≡ signal_size kind }
{
    if kind == MSG_KIND { MSG_SIZE } else { TAG_SIZE }
}
