ghost use Rattle.std.specs.Prelude.{◌≡◌};
ghost use Rattle.wires_traffic.specs.Sums.{no_counts, of_traffic, sum_of_counts};

use crate::traffic::Traffic;

/// What a worker counted, or all workers of a node.
#[derive(Clone, Copy, Debug, PartialEq, Eq)]
pub struct Counts {
    pub sent: Traffic,
    pub received: Traffic,
    /// The connections on which it read.
    pub connections: u64,
}

impl Counts {
    /// Of a worker that has neither sent nor read anything.
    pub fn none() -> Counts
        ensures { result ≡ no_counts }
    {
        Counts {
            sent: Traffic::none(),
            received: Traffic::none(),
            connections: 0,
        }
    }

    /// Of a worker that sends.
    pub fn of_sender(sent: Traffic) -> Counts
        ensures { result ≡ of_traffic sent }
    {
        Counts {
            sent,
            received: Traffic::none(),
            connections: 0,
        }
    }

    /// Both together.
    pub fn plus(self, other: Counts) -> Counts
        ensures { result ≡ sum_of_counts self other }
    {
        Counts {
            sent: self.sent.plus(other.sent),
            received: self.received.plus(other.received),
            connections: self.connections.saturating_add(other.connections),
        }
    }
}

/// What all workers of a federation's nodes counted.
#[derive(Clone, Copy, Debug, PartialEq, Eq)]
pub struct RunCounts {
    pub coordinator: Counts,
    /// Of all federates together.
    pub federates: Counts,
}
