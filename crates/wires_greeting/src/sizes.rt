//! Sizes of the three messages and of their parts, in bytes.

/// The federate's greeting.
pub const GREETING_SIZE: usize = 74;

/// The coordinator's challenge.
pub const CHALLENGE_SIZE: usize = 65;

/// What either side proves: the federate's last message, and the end of a challenge.
pub const PROOF_SIZE: usize = 32;

/// The digest of the files.
pub const DIGEST_SIZE: usize = 32;

/// The random bytes of one side.
pub const RANDOM_SIZE: usize = 32;
