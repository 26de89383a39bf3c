//! Who is let in between machines: the greeting that a federate and the coordinator exchange before any frame.
//!
//!     FederateSide::message ---- greeting ----> CoordinatorSide::greeted: Waiting, then Challenged, or Refused
//!     FederateSide::challenged <-- challenge --      its answer, proved by the secret
//!         Greeted, then Proved  --- proof ----> CoordinatorSide::proved: Challenged, then LetIn; frames begin
//!         or Refused: finished  --- proof ----> CoordinatorSide::proved: Finishing, then Told
//!
//! Promise to the layer above: each call is a step of `specs/Federate` or `specs/Coordinator`. By the laws of `laws`,
//! frames begin only where both sides proved the secret over all that this connection said, with the same files, and
//! where the federation has the federate; and only such a federate counts as told that the run is finished. No
//! connection and no thread is in here: whoever uses it hands in what was received, and random bytes that are new for
//! each connection, and sends what it is given. Begin with `specs/Message` and `specs/Proof`, then `federate_side` and
//! `coordinator_side`; keys are made in `key`, by the rule that another address than loopback needs a secret.
#![tactic(auto)]

pub mod answer;
pub mod challenge;
pub mod coordinator_side;
pub mod federate_side;
pub mod files;
pub mod greeting;
pub mod hmac;
pub mod key;
pub mod laws;
mod parts;
mod same;
pub mod sizes;
mod words;

pub use answer::Answer;
pub use challenge::Challenge;
pub use coordinator_side::{CoordinatorSide, CoordinatorState};
pub use federate_side::{FederateSide, FederateState};
pub use files::files_digest;
pub use greeting::Greeting;
pub use hmac::hmac_sha256;
pub use key::{Key, SecretFault};
pub use sizes::{CHALLENGE_SIZE, DIGEST_SIZE, GREETING_SIZE, PROOF_SIZE, RANDOM_SIZE};
