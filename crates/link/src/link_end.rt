ghost use Rattle.std.specs.Prelude.{◌≡◌, ◌≢◌, ◌+◌, ◌-◌, ◌<◌, ◌≤◌, ◌⊎◌, length, drop, ◌^◌, IsOk, IsOkUnless, OnOk};
ghost use Rattle.std.specs.Prelude.{OnErr, IfOk};
ghost use Rattle.signal.specs.Batch.{numbered};
ghost use Rattle.std.specs.VecDeque.{deque_capacity, deque_len};

use crate::arrival::Arrival;
use crate::fault::LinkFault;
use crate::memory::Memory;
use signal::{Frame, Hello, Signal};
use std::alloc::Global;
use std::collections::VecDeque;
use std::marker::Model;

/// One end of the link of a federate in an incarnation. After a fault it is as it was.
#[derive(Drop)]
pub struct LinkEnd {
    federate: u16,
    incarnation: u32,
    room: usize,
    kept: VecDeque<Signal>,
    acknowledged: u64,
    taken: u64,
    closed: bool,
}

impl Model for LinkEnd {
    ghost use Rattle.std.specs.Prelude.{◌-◌};
    ghost use Rattle.std.specs.VecDeque.{deque_capacity, deque_len};
    ghost use Rattle.link.specs.Image.{Image, EndView, IsImage};

    ghost Value = { EndView };

    ghost use Rattle.link.specs.Inside.{image};

    ghost view = { λ e. record { image = image e; reserved = deque_capacity e.kept - deque_len e.kept } };

    ghost invariant = { λ e. IsImage (image e) };
}

impl LinkEnd {
    ghost use Rattle.signal.specs.declared.frame.Frame.TheVariants.{Data};
    ghost use Rattle.link.specs.Answer.{is_own};
    ghost use Rattle.link.specs.Image.{blank, last_number, acknowledge, IsImage, room_left, offer_of, after_offer};
    ghost use Rattle.link.specs.Image.{answer_of, after_frame, after_close, ack_of, hello_of, resent_by};

    /// An open end that has offered and taken nothing. It keeps at most `room` signals.
    pub fn new(alloc: Global, federate: u16, incarnation: u32, room: usize) -> LinkEnd
        ensures { result.image ≡ blank federate incarnation room }
    {
        LinkEnd {
            federate,
            incarnation,
            room,
            kept: VecDeque::new(alloc),
            acknowledged: 0,
            taken: 0,
            closed: false,
        }
    }

    /// What every end keeps.
    pub fn invariant(&self)
        ensures { IsImage self.now.image }
    {
        let _ = &self.room;
    }

    /// Whose link it is.
    pub fn federate(&self) -> u16
        ensures { result ≡ self.now.image.federate }
    {
        self.federate
    }

    /// In which incarnation.
    pub fn incarnation(&self) -> u32
        ensures { result ≡ self.now.image.incarnation }
    {
        self.incarnation
    }

    /// How many signals are kept at most.
    pub fn room(&self) -> usize
        ensures { result ≡ self.now.image.room }
    {
        self.room
    }

    /// Whether it was closed, by this side or by the other.
    pub fn is_closed(&self) -> bool
        ensures { result ≡ self.now.image.closed }
    {
        self.closed
    }

    /// How many signals are kept.
    pub fn unacked(&self) -> usize
        ensures { result ≡ length self.now.image.kept }
    {
        self.kept.len()
    }

    /// How many signals may still be offered.
    pub fn room_left(&self) -> usize
        ensures { result ≡ room_left self.now.image }
    {
        let places = self.room - self.kept.len();
        let numbers = u64::MAX - self.last_number();
        places.min(numbers as usize)
    }

    /// Makes room in memory, so that the next `offers` offers take none.
    pub fn reserve(&mut self, offers: usize) -> Result<(), LinkFault>
        ensures reserved { OnOk result (offers ≤ self.new.reserved) }
        ensures memory { OnErr result (self.old.reserved < offers) }
        ensures only_memory { IsOkUnless result LinkFault.Memory }
        ensures unchanged { self.new.image ≡ self.old.image }
        ensures none_lost { self.old.reserved ≤ self.new.reserved }
    {
        self.kept.reserve(offers)?;
        Ok(())
    }

    /// Keeps a signal and puts it into the frame that is to be sent.
    pub fn offer(&mut self, signal: Signal) -> Result<Frame, LinkFault>
        ensures answer { result ≢ Err LinkFault.Memory → result ≡ offer_of self.old.image signal }
        ensures memory { result ≡ Err LinkFault.Memory → IsOk (offer_of self.old.image signal) }
        ensures from_reserve { 0 < self.old.reserved → result ≢ Err LinkFault.Memory }
        ensures offered { OnOk result (self.new.image ≡ after_offer self.old.image signal) }
        ensures refused { OnErr result (self.new.image ≡ self.old.image) }
        ensures one_used { OnOk result (self.old.reserved ≤ self.new.reserved + 1) }
        ensures none_lost { OnErr result (self.old.reserved ≤ self.new.reserved) }
    {
        if self.closed {
            return Err(LinkFault::Closed);
        }
        if self.room_left() == 0 {
            return Err(LinkFault::Full);
        }
        let frame = self.next_frame(&signal);
        self.kept.push_back(signal)?;
        Ok(frame)
    }

    /// What this frame is to the end, which stays as it is.
    pub fn peek(&self, frame: &Frame) -> Result<Arrival, LinkFault>
        ensures { result ≡ answer_of self.now.image frame.now }
    {
        if !self.is_own(frame) {
            return Err(LinkFault::Stranger);
        }
        if self.closed {
            return Err(LinkFault::Closed);
        }
        let offered = self.last_number();
        match *frame {
            Frame::Hello(Hello { last_taken, .. }) | Frame::Ack { last_taken, .. }
                if last_taken > offered => { Err(LinkFault::AckOfUnsent) }
            Frame::Hello(_) => Ok(Arrival::Resume),
            Frame::Ack { .. } => Ok(Arrival::Acked),
            Frame::Data { number, .. } if number <= self.taken => Ok(Arrival::Repeated),
            Frame::Data { number, .. } if number - self.taken == 1 => Ok(Arrival::Signal),
            Frame::Data { .. } => Err(LinkFault::Gap),
            Frame::Refuse { .. } => Ok(Arrival::Closed),
        }
    }

    /// Takes in a frame that `peek` doesn't refuse.
    pub fn receive(&mut self, frame: &Frame)
        requires { IsOk (answer_of self.old.image frame.now) }
        ensures received { self.new.image ≡ after_frame self.old.image frame.now }
        ensures none_lost { self.old.reserved ≤ self.new.reserved }
    {
        match *frame {
            Frame::Hello(hello) => self.acknowledge(hello.last_taken),
            Frame::Data { number, .. } => self.taken = self.taken.max(number),
            Frame::Ack { last_taken, .. } => self.acknowledge(last_taken),
            Frame::Refuse { .. } => self.closed = true,
        }
    }

    /// The frame that acknowledges all that was taken.
    pub fn ack(&self) -> Frame
        ensures { result ≡ ack_of self.now.image }
    {
        Frame::Ack {
            incarnation: self.incarnation,
            last_taken: self.taken,
        }
    }

    /// The frame that asks the other side to send again, or None where the end is closed.
    pub fn hello(&self) -> Option<Frame>
        ensures { result ≡ hello_of self.now.image }
    {
        if self.closed {
            return None;
        }
        Some(Frame::Hello(Hello {
            federate: self.federate,
            incarnation: self.incarnation,
            last_taken: self.taken,
        }))
    }

    /// All that is kept, as the frames that it was sent in, or nothing where the end is closed.
    #[tactic(auto, using(signal::proofs::Numbered::lengths))]
    pub fn resend(&self) -> Result<Vec<Frame>, Memory>
        ensures frames { IfOk result (λ frames. frames.items ≡ resent_by self.now.image) }
        ensures none_needed { length (resent_by self.now.image) ≡ 0 → IsOk result }
    {
        let alloc = *self.kept.allocator();
        if self.closed {
            return Ok(Vec::new(alloc));
        }
        data_frames(alloc, self.incarnation, self.acknowledged, &self.kept)
    }

    /// From now on everything is refused here, and nothing is said any more.
    pub fn close(&mut self)
        ensures closed { self.new.image ≡ after_close self.old.image }
        ensures none_lost { self.old.reserved ≤ self.new.reserved }
    {
        self.closed = true;
    }

    // The number of the last signal offered.
    fn last_number(&self) -> u64
        ensures { result ≡ last_number self.now.image }
    {
        self.acknowledged + self.kept.len() as u64
    }

    // The frame of the next signal to be offered.
    fn next_frame(&self, signal: &Signal) -> Frame
        requires { last_number self.now.image + 1 < 2 ^ 64 }
        ensures { result ≡ Data self.now.image.incarnation (last_number self.now.image + 1) signal.now }
    {
        Frame::Data {
            incarnation: self.incarnation,
            number: self.last_number() + 1,
            signal: *signal,
        }
    }

    fn is_own(&self, frame: &Frame) -> bool
        ensures { result ≡ is_own self.now.image.federate self.now.image.incarnation frame.now }
    {
        match *frame {
            Frame::Hello(hello) => {
                hello.incarnation == self.incarnation && hello.federate == self.federate
            }
            Frame::Data { incarnation, .. }
            | Frame::Ack { incarnation, .. }
            | Frame::Refuse { incarnation, .. } => incarnation == self.incarnation,
        }
    }

    // Forgets the kept signals up to this number.
    fn acknowledge(&mut self, number: u64)
        requires { number ≤ last_number self.old.image }
        ensures forgotten { self.new.image ≡ acknowledge self.old.image number }
        ensures none_lost { self.old.reserved ≤ self.new.reserved }
    {
        if number > self.acknowledged {
            forget(&mut self.kept, number - self.acknowledged);
            self.acknowledged = number;
        }
    }
}

// Drops the oldest signals.
fn forget(kept: &mut VecDeque<Signal>, count: u64)
    requires { count ≤ deque_len kept.old }
    ensures items { kept.new.items ≡ drop count kept.old.items }
    ensures len { deque_len kept.new + count ≡ deque_len kept.old }
    ensures capacity { deque_capacity kept.new ≡ deque_capacity kept.old }
{
    for _ in 0..count {
        let _ = kept.pop_front();
    }
}

// The signals as frames, numbered from the number after `before`.
fn data_frames(
    alloc: Global,
    incarnation: u32,
    before: u64,
    kept: &VecDeque<Signal>,
) -> Result<Vec<Frame>, Memory>
    requires { before + length kept.now.items < 2 ^ 64 }
    ensures frames { IfOk result (λ frames. frames.items ≡ numbered incarnation (before + 1) kept.now.items) }
    ensures none_needed { length kept.now.items ≡ 0 → IsOk result }
{
    let mut frames = Vec::with_capacity(alloc, kept.len())?;
    let mut number = before;
    for signal in kept.iter() {
        number += 1;
        frames.push_reserved(Frame::Data {
            incarnation,
            number,
            signal: *signal,
        });
    }
    Ok(frames)
}
