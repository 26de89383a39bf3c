//! How long whoever connects machines waits, each in ms; other times are those of `wires_transports::times`.

/// Before the second of several attempts to connect that come to nothing.
pub const FIRST_PAUSE_MS: u64 = 10;

/// Before an attempt to connect, at most.
pub const MOST_PAUSE_MS: u64 = 1000;

/// Between two looks at whether the run is to end, while an attempt to connect waits for its time.
pub const ENDING_LOOK_MS: u64 = 10;

/// Between two looks at whether something was heard.
pub const PATIENCE_LOOK_MS: u64 = 50;

/// Where a look comes later than this, the process was stopped since the one before: what is between them counts as the
/// time between two others.
pub const LATE_LOOK_MS: u64 = 1000;

/// After so long a silence it is told that a run stands still, and after twice as long, four times as long and so on.
pub const STILL_MS: u64 = 5000;

/// A run in which a tag was completed less than so long ago goes on, and whoever was heard then is heard.
pub const MOVING_MS: u64 = 2000;

/// So long a node waits at most, before it says how it ended, until what is drawn again is wiped.
pub const WIPE_MS: u64 = 1000;

/// A connection that stood for less is one of a row, where the next one stands for less too.
pub const QUICK_MS: u64 = 2000;

/// Between two looks at where a node's federates stand, for whoever wants to see it.
pub const WATCH_LOOK_MS: u64 = 200;

/// The longest patience that is kept to; a longer one is as this: a year.
pub const LONGEST_PATIENCE_MS: u64 = 31_536_000_000;
