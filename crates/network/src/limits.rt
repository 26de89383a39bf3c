//! How large a network may be.

/// The most reactors of a lawful network.
pub const MOST_REACTORS: usize = 64;
