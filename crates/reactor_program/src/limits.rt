//! How much a program may have.

/// The most states of a federate.
pub const MOST_STATES: usize = 64;

/// The most reactions of a federate.
pub const MOST_REACTIONS: usize = 64;

/// The most lines of a reaction.
pub const MOST_LINES: usize = 256;
