//! The numbers of a report file. Its definitions cite them.

/// The most bytes of a report file: 4 GiB.
pub const LONGEST_REPORT: usize = 1 << 32;

/// Bytes of a digest.
pub const DIGEST_SIZE: usize = 32;

/// The number that stands for the coordinator. Federates have those below.
pub const COORDINATOR: u16 = 0xffff;

/// The first byte of a frame that came.
pub const FRAME_KIND: u8 = 1;

/// The first byte of a resending.
pub const RESEND_KIND: u8 = 2;

/// The first byte of a greeting.
pub const HELLO_KIND: u8 = 3;

/// The first byte of an announcement.
pub const ANNOUNCE_KIND: u8 = 4;

/// The first byte of an advance.
pub const ADVANCE_KIND: u8 = 5;
