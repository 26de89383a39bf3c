//! The numbers of the wire. The definitions of frames as bytes cite them.

/// Bytes of the length that stands in front of each body.
pub const LENGTH_SIZE: usize = 4;

/// The longest body of a frame, in bytes: that of a Batch of 64 MSGs.
pub const LONGEST_BODY: usize = 1486;

/// The first version of frames. A peer is taken to read no more before its Hello came. A Hello of any
/// version from this one on is read.
pub const FIRST_VERSION: u8 = 1;

/// From this version on a peer may be sent a Batch.
pub const BATCHING: u8 = 2;

/// The first byte of a Hello's body.
pub const HELLO_KIND: u8 = 1;

/// The first byte of a Data's body.
pub const DATA_KIND: u8 = 2;

/// The first byte of an Ack's body.
pub const ACK_KIND: u8 = 3;

/// The first byte of a Refuse's body.
pub const REFUSE_KIND: u8 = 4;

/// Bytes of a Hello's body.
pub const HELLO_SIZE: usize = 16;

/// Bytes of a Data's body in front of its signal.
pub const BEFORE_SIGNAL: usize = 13;

/// Bytes of an Ack's body.
pub const ACK_SIZE: usize = 13;

/// Bytes of a Refuse's body.
pub const REFUSE_SIZE: usize = 7;

/// The first byte of a Batch's body.
pub const BATCH_KIND: u8 = 5;

/// Bytes of a Batch's body in front of its signals.
pub const BEFORE_SIGNALS: usize = 14;

/// The fewest signals of a Batch.
pub const LEAST_SIGNALS: usize = 2;

/// The most signals of a Batch.
pub const MOST_SIGNALS: usize = 64;

/// The first byte of a NET.
pub const NET_KIND: u8 = 1;

/// The first byte of an LTC.
pub const LTC_KIND: u8 = 2;

/// The first byte of a TAG.
pub const TAG_KIND: u8 = 3;

/// The first byte of a MSG.
pub const MSG_KIND: u8 = 4;

/// Bytes of a NET, an LTC or a TAG: a kind and a tag.
pub const TAG_SIZE: usize = 13;

/// Bytes of a MSG: a kind, a connection, a tag and a value.
pub const MSG_SIZE: usize = 23;

/// The time that spells FOREVER.
pub const FOREVER_TIME: u64 = u64::MAX;

/// The microstep that spells FOREVER.
pub const FOREVER_MICROSTEP: u32 = u32::MAX;
