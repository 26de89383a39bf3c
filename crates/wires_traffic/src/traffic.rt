ghost use Rattle.std.specs.Prelude.{◌≡◌};
ghost use Rattle.wires_traffic.specs.Sums.{no_traffic, sum_of_traffic};

use crate::frame_counts::FrameCounts;

/// What went one way over a node's connections: from it, or to it.
#[derive(Clone, Copy, Debug, PartialEq, Eq)]
pub struct Traffic {
    pub frames: FrameCounts,
    /// The Batches in which some of them were sent. Of what comes they aren't counted: it is read as frames.
    pub batches: u64,
    pub bytes: u64,
    /// How often bytes were sent at once, or read at once.
    pub calls: u64,
}

impl Traffic {
    /// Nothing went.
    pub fn none() -> Traffic
        ensures { result ≡ no_traffic }
    {
        Traffic {
            frames: FrameCounts::none(),
            batches: 0,
            bytes: 0,
            calls: 0,
        }
    }

    /// Both together.
    pub fn plus(self, other: Traffic) -> Traffic
        ensures { result ≡ sum_of_traffic self other }
    {
        Traffic {
            frames: self.frames.plus(other.frames),
            batches: self.batches.saturating_add(other.batches),
            bytes: self.bytes.saturating_add(other.bytes),
            calls: self.calls.saturating_add(other.calls),
        }
    }
}
