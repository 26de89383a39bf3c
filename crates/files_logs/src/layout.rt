//! The numbers of a log. Its definitions cite them.

/// Bytes of a head.
pub const HEAD_SIZE: usize = 84;

/// Bytes of a head before its sum.
pub const SUMMED_SIZE: usize = 76;

/// Bytes of a sum.
pub const SUM_SIZE: usize = 8;

/// Bytes of a block's size and of the check of it.
pub const SIZE_SIZE: usize = 8;

/// Bytes of a sum, and of a size with its check behind it.
pub const BEGIN_SIZE: usize = SUM_SIZE + SIZE_SIZE;

/// The most bytes that a block says: 16 MiB.
pub const MOST_SAID: usize = 1 << 24;

/// The most bytes of a block: its size with the check, what it says, and its sum.
pub const LONGEST_BLOCK: usize = MOST_SAID + 16;

/// Bytes of a digest.
pub const DIGEST_SIZE: usize = 32;

/// Stands among a block's events where the run was known to be finished. No event begins with it.
pub const TOLD_KIND: u8 = 6;
