//! The sizes of a world.

/// How many signals each link end of a world keeps at most.
pub const LINK_ROOM: usize = 4096;
