use crate::parts::array_of;
use crate::sizes::{DIGEST_SIZE, GREETING_SIZE, RANDOM_SIZE};

/// Names the protocol and its version. No other version is spoken, so there is none to fall back to.
const PROTOCOL: &[u8; 8] = b"fedrun 1";

/// Where the federate's number stands.
const FEDERATE: usize = 8;

/// Where the digest of the files stands.
const FILES: usize = 10;

/// Where the random bytes stand.
const RANDOM: usize = 42;

/// The federate's first message: who it is, and which files it has.
#[derive(Clone, Copy, Debug)]
pub struct Greeting {
    /// Its number, in the federation file's order.
    pub federate: u16,
    /// The digest of its files, by `files_digest`.
    pub files: [u8; DIGEST_SIZE],
    /// Random bytes, new for each connection.
    pub random: [u8; RANDOM_SIZE],
}

impl Greeting {
    ghost use Rattle.std.specs.Prelude.{◌≡◌, bytes_eq, take};
    ghost use Rattle.wires_greeting.specs.Message.{protocol, greeting_bytes, greeting_of};

    /// Its bytes.
    pub fn bytes(&self) -> [u8; GREETING_SIZE]
        ensures { result ≡ greeting_bytes self.now }
    {
        let mut bytes = [0; GREETING_SIZE];
        // For the prover: from the back, so that all bytes in front of a part are known.
        bytes[RANDOM..].copy_from_slice(&self.random);
        bytes[FILES..RANDOM].copy_from_slice(&self.files);
        bytes[FEDERATE..FILES].copy_from_slice(&self.federate.to_be_bytes());
        bytes[..FEDERATE].copy_from_slice(PROTOCOL);
        bytes
    }

    /// The greeting that these bytes are, or None where they are of another protocol or another version.
    pub fn read(bytes: &[u8; GREETING_SIZE]) -> Option<Greeting>
        ensures { result ≡ greeting_of bytes.now }
    {
        if !Greeting::has_protocol(bytes) {
            return None;
        }
        Some(Greeting {
            federate: u16::from_be_bytes([bytes[FEDERATE], bytes[FEDERATE + 1]]),
            files: array_of(&bytes[FILES..RANDOM]),
            random: array_of(&bytes[RANDOM..GREETING_SIZE]),
        })
    }

    // Whether the bytes begin with the protocol and its version.
    fn has_protocol(bytes: &[u8; GREETING_SIZE]) -> bool
        ensures { result ≡ bytes_eq (take 8 bytes.now) protocol }
    {
        bytes[..FEDERATE] == PROTOCOL[..]
    }
}
