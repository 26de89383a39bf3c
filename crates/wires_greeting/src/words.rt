//! What each side proves.

ghost use Rattle.std.specs.Prelude.{◌≡◌};
ghost use Rattle.wires_greeting.specs.Proof.{coordinator_proof, federate_proof};

use crate::answer::Answer;
use crate::challenge::Challenge;
use crate::greeting::Greeting;
use crate::key::Key;
use crate::sizes::{PROOF_SIZE, RANDOM_SIZE};

/// The coordinator's word, with which what it proves begins.
const COORDINATOR: &[u8; 10] = b"coordinate";

/// The federate's word, with which what it proves begins.
const FEDERATE: &[u8; 4] = b"join";

/// Bytes of a challenge up to its proof.
const HEAD_SIZE: usize = 33;

/// The proof of a coordinator that heard this greeting, and answers so.
pub fn coordinator_proof(
    key: &Key,
    greeting: &Greeting,
    answer: Answer,
    random: &[u8; RANDOM_SIZE],
) -> [u8; PROOF_SIZE]
    ensures { result ≡ coordinator_proof key.now greeting.now answer random.now }
{
    let mut head = [0; HEAD_SIZE];
    head[1..].copy_from_slice(random);
    head[0] = answer.byte();
    key.hmac(COORDINATOR, &greeting.bytes(), &head)
}

/// The proof of a federate that said this greeting, and heard this challenge.
pub fn federate_proof(key: &Key, greeting: &Greeting, challenge: &Challenge) -> [u8; PROOF_SIZE]
    ensures { result ≡ federate_proof key.now greeting.now challenge.now }
{
    key.hmac(FEDERATE, &greeting.bytes(), &challenge.bytes())
}
