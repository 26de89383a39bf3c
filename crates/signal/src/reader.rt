use crate::batch::Begun;
use crate::fault::FrameFault;
use crate::frame::Frame;
use crate::front::front_of;
use crate::memory::Memory;
use crate::wire::FIRST_VERSION;
use std::alloc::Global;
use std::marker::Model;

/// Reads frames from a stream of bytes that comes in any pieces. The signals of a Batch come as the Data frames that
/// they stand for, one after the other.
#[derive(Debug, Drop)]
pub struct FrameReader {
    buffer: Vec<u8>,
    // Bytes of the buffer before here were read.
    position: usize,
    // The Batch whose signals stand here and are still to be given.
    begun: Begun,
    fault: Option<FrameFault>,
    version: u8,
}

impl Model for FrameReader {
    ghost use Rattle.signal.specs.Stream.{Stream};

    ghost Value = { Stream };

    ghost use Rattle.signal.specs.Inside.{stream_of, IsReader};

    ghost view = { stream_of };

    ghost invariant = { IsReader };
}

impl FrameReader {
    ghost use Rattle.std.specs.Prelude.{◌≡◌, ◌+◌, ◌<◌, [], OnOk, OnErr, IsSome, IsOk, Result, Option, Ok, None, length};
    ghost use Rattle.signal.specs.Stream.{Stream, start, fed, Gives};
    ghost use Rattle.signal.specs.declared.frame.Frame.{Frame};
    ghost use Rattle.signal.specs.declared.fault.FrameFault.{FrameFault};
    ghost use Rattle.signal.specs.declared.wire.TheConstants.{LENGTH_SIZE, LONGEST_BODY};

    pub fn new(alloc: Global) -> FrameReader
        ensures { result ≡ start }
    {
        FrameReader {
            buffer: Vec::new(alloc),
            position: 0,
            begun: Begun::none(),
            fault: None,
            version: FIRST_VERSION,
        }
    }

    /// The version of the last Hello that `next` gave, 1 before any.
    pub fn version(&self) -> u8
        ensures { result ≡ self.now.version }
    {
        self.version
    }

    /// Takes the next bytes of the stream. Where there is no memory for them, nothing was taken.
    pub fn feed(&mut self, bytes: &[u8]) -> Result<(), Memory>
        ensures ok { OnOk result (self.new ≡ fed self.old bytes.now) }
        ensures unchanged { OnErr result (self.new ≡ self.old) }
        ensures faulty { IsSome self.old.fault → IsOk result }
        ensures no_bytes { bytes.now ≡ [] → IsOk result }
    {
        if self.fault.is_some() || bytes.is_empty() {
            return Ok(());
        }
        self.discard();
        self.buffer.extend_from_slice(bytes)?;
        Ok(())
    }

    /// The next frame, or None where the bytes so far end inside it. A Batch that has a fault gives none of its frames.
    /// An error comes again for good. This takes no memory.
    pub fn next(&mut self) -> Result<Option<Frame>, FrameFault>
        ensures gives { Gives self.old result self.new }
        ensures only { (answer : Result (Option Frame) FrameFault) (after : Stream) → Gives self.old answer after
            → (result ≡ answer) × (self.new ≡ after) }
        ensures left { result ≡ Ok None → length self.new.rest < LENGTH_SIZE + LONGEST_BODY }
    {
        self.read()
    }

    fn read(&mut self) -> Result<Option<Frame>, FrameFault>
        ensures { Gives self.old result self.new }
    {
        if let Some(fault) = self.fault {
            return Err(fault);
        }
        if self.begun.count > 0 {
            let (frame, size) = self.begun.give(&self.buffer[self.position..]);
            self.position += size;
            return Ok(Some(frame));
        }
        match front_of(&self.buffer[self.position..], self.version) {
            Ok(Some(front)) => {
                self.position += front.size;
                self.begun = front.begun;
                self.version = front.version;
                Ok(Some(front.frame))
            }
            Ok(None) => Ok(None),
            Err(fault) => {
                self.fault = Some(fault);
                Err(fault)
            }
        }
    }

    // Discards the bytes that were read, once they are as many as those that are left: so no more bytes are ever moved
    // than are discarded.
    fn discard(&mut self)
        ensures { self.new ≡ self.old }
    {
        let held = self.buffer.len() - self.position;
        if self.position >= held {
            self.buffer.copy_within(self.position.., 0);
            self.buffer.truncate(held);
            self.position = 0;
        }
    }
}
