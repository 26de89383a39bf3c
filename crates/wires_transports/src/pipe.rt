ghost use Rattle.std.specs.Prelude.{◌≡◌, ◌++◌, [], false, true, take, drop, length, min, OnOk, OnErr};
ghost use Rattle.wires_transports.specs.Pipe.{must_wait};

use std::alloc::{AllocError, Global};
use std::marker::Model;

/// Bytes on their way in one direction.
#[derive(Drop)]
pub struct Pipe {
    bytes: Vec<u8>,
    // Bytes before here were taken.
    position: usize,
    ended: bool,
}

impl Model for Pipe {
    ghost use Rattle.std.specs.Prelude.{◌≤◌, drop, vec_len};
    ghost use Rattle.wires_transports.specs.Pipe as pipe;

    ghost Value = { pipe.Pipe };

    ghost view = { λ p. record { bytes = drop p.position p.bytes.items; ended = p.ended } };

    ghost invariant = { λ p. p.position ≤ vec_len p.bytes };
}

impl Pipe {
    /// Nothing is on its way.
    pub fn new(alloc: Global) -> Pipe
        ensures { result ≡ record { bytes = []; ended = false } }
    {
        Pipe {
            bytes: Vec::new(alloc),
            position: 0,
            ended: false,
        }
    }

    /// Whether a reader has to wait.
    pub fn must_wait(&self) -> bool
        ensures { result ≡ must_wait self.now }
    {
        self.position == self.bytes.len() && !self.ended
    }

    /// Whether no more bytes come.
    pub fn is_ended(&self) -> bool
        ensures { result ≡ self.now.ended }
    {
        self.ended
    }

    /// More bytes are on their way.
    pub fn put(&mut self, bytes: &[u8]) -> Result<(), AllocError>
        ensures ok { OnOk result (self.new ≡ record { bytes = self.old.bytes ++ bytes.now; ended = self.old.ended }) }
        ensures unchanged { OnErr result (self.new ≡ self.old) }
    {
        self.discard();
        self.bytes.extend_from_slice(bytes)
    }

    /// Takes bytes that came, as many as there is room for. Returns how many.
    pub fn take(&mut self, room: &mut [u8]) -> usize
        ensures count { result ≡ min (length self.old.bytes) (length room.old) }
        ensures room { room.new ≡ take result self.old.bytes ++ drop result room.old }
        ensures left { self.new ≡ record { bytes = drop result self.old.bytes; ended = self.old.ended } }
    {
        let coming = &self.bytes[self.position..];
        let count = coming.len().min(room.len());
        room[..count].copy_from_slice(&coming[..count]);
        self.position += count;
        count
    }

    /// No more bytes come.
    pub fn end(&mut self)
        ensures { self.new ≡ record { bytes = self.old.bytes; ended = true } }
    {
        self.ended = true;
    }

    // Lets go of the bytes that were taken, once they are as many as those that are left.
    fn discard(&mut self)
        ensures { self.new ≡ self.old }
    {
        let held = self.bytes.len() - self.position;
        if self.position >= held {
            self.bytes.copy_within(self.position.., 0);
            self.bytes.truncate(held);
            self.position = 0;
        }
    }
}
