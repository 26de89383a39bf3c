use crate::answer::Answer;
use crate::parts::array_of;
use crate::sizes::{CHALLENGE_SIZE, PROOF_SIZE, RANDOM_SIZE};

/// Where the random bytes stand.
const RANDOM: usize = 1;

/// Where the proof stands.
const PROOF: usize = 33;

/// The coordinator's message: its answer to a greeting, and the proof that it is its own.
#[derive(Clone, Copy, Debug)]
pub struct Challenge {
    pub answer: Answer,
    /// Random bytes, new for each connection.
    pub random: [u8; RANDOM_SIZE],
    /// What proves that whoever answered has the secret, and heard this greeting.
    pub proof: [u8; PROOF_SIZE],
}

impl Challenge {
    ghost use Rattle.std.specs.Prelude.{◌≡◌};
    ghost use Rattle.wires_greeting.specs.Message.{challenge_bytes, challenge_of};

    /// Its bytes.
    pub fn bytes(&self) -> [u8; CHALLENGE_SIZE]
        ensures { result ≡ challenge_bytes self.now }
    {
        let mut bytes = [0; CHALLENGE_SIZE];
        // For the prover: from the back, so that all bytes in front of a part are known.
        bytes[PROOF..].copy_from_slice(&self.proof);
        bytes[RANDOM..PROOF].copy_from_slice(&self.random);
        bytes[0] = self.answer.byte();
        bytes
    }

    /// The challenge that these bytes are, or None where their first byte is no answer.
    pub fn read(bytes: &[u8; CHALLENGE_SIZE]) -> Option<Challenge>
        ensures { result ≡ challenge_of bytes.now }
    {
        let answer = Answer::of_byte(bytes[0])?;
        Some(Challenge {
            answer,
            random: array_of(&bytes[RANDOM..PROOF]),
            proof: array_of(&bytes[PROOF..CHALLENGE_SIZE]),
        })
    }
}
