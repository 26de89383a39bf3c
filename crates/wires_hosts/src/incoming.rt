//! A message of fixed size on a connection that doesn't wait, as it comes.
ghost use Rattle.std.specs.Prelude.{◌≡◌, ◌≤◌, IfOk, IfSome, length, take, nat_le};
ghost use Rattle.wires_greeting.specs.declared.sizes.TheConstants.{GREETING_SIZE};

use std::io;
use std::io::{ErrorKind, Read};
use wires_greeting::{CHALLENGE_SIZE, GREETING_SIZE, PROOF_SIZE};

/// A Hello's bytes: a whole frame is there after them or never.
pub(crate) const HELLO_SIZE: usize = 20;

/// What came of a message so far. None is longer than a greeting.
#[derive(Drop)]
pub(crate) struct Incoming {
    bytes: [u8; GREETING_SIZE],
    count: usize,
    ghost fits: { count ≤ GREETING_SIZE },
}

impl Incoming {
    /// Nothing.
    pub(crate) fn new() -> Incoming {
        Incoming {
            bytes: [0; GREETING_SIZE],
            count: 0,
        }
    }

    /// Reads what has come of a message of this size, and no more; whether it is whole. None where it never will be.
    pub(crate) fn read<S: Read>(&mut self, stream: &mut S, size: usize) -> Option<bool>
        requires { size ≤ GREETING_SIZE }
        ensures { IfSome result (λ is_whole. is_whole ≡ nat_le size self.new.count) }
    {
        if self.count < size {
            match read_now(stream, &mut self.bytes[self.count..size]).ok()? {
                Some(0) => return None,
                Some(count) => self.count += count,
                None => {}
            }
        }
        Some(size <= self.count)
    }

    /// The greeting, once it is whole.
    pub(crate) fn greeting(&self) -> &[u8; GREETING_SIZE]
        ensures { result.now ≡ self.now.bytes }
    {
        &self.bytes
    }

    /// The challenge, once it is whole.
    pub(crate) fn challenge(&self) -> [u8; CHALLENGE_SIZE]
        ensures { result ≡ take 65 self.now.bytes }
    {
        let mut challenge = [0; CHALLENGE_SIZE];
        challenge.copy_from_slice(&self.bytes[..CHALLENGE_SIZE]);
        challenge
    }

    /// The proof, once it is whole.
    pub(crate) fn proof(&self) -> [u8; PROOF_SIZE]
        ensures { result ≡ take 32 self.now.bytes }
    {
        let mut proof = [0; PROOF_SIZE];
        proof.copy_from_slice(&self.bytes[..PROOF_SIZE]);
        proof
    }

    /// The Hello, once it is whole.
    pub(crate) fn hello(&self) -> &[u8]
        ensures { result.now ≡ take 20 self.now.bytes }
    {
        &self.bytes[..HELLO_SIZE]
    }
}

/// Reads what has come on a stream that doesn't wait: how many bytes, 0 where no more will come, and None where nothing
/// has come.
pub(crate) fn read_now<S: Read>(stream: &mut S, room: &mut [u8]) -> io::Result<Option<usize>>
    ensures room { length room.new ≡ length room.old }
    ensures came { IfOk result (λ read. IfSome read (λ count. count ≤ length room.new)) }
{
    match stream.read(room) {
        Ok(count) => Ok(Some(count)),
        Err(error) if error.kind() == ErrorKind::WouldBlock => Ok(None),
        Err(error) => Err(error),
    }
}
