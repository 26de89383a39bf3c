ghost use Rattle.std.specs.Prelude.{◌≡◌};
ghost use Rattle.recorder_reports.specs.Numbers.{number_of};
ghost use Rattle.recorder_reports.specs.declared.unproved.Unproved.TheVariants as Faults;

use node::NodeId;
use std::alloc::AllocError;

/// Why an audit doesn't believe its reports. They are tested in this order, but for `Memory`, which is answered only of
/// complete reports, and then at any time.
#[derive(Clone, Copy, Debug, PartialEq, Eq)]
pub enum Unproved {
    /// A report is of a federate that isn't there.
    Stranger,
    /// A federate has two reports.
    Double,
    /// This federate, the first one, has no report.
    Missing(usize),
    /// No further event of any journal can be placed: the first node whose journal isn't used up, and its next event,
    /// counted from 1.
    Stuck(NodeId, usize),
    /// The journals agree, but this federate's rows, the first one's, aren't what it computed: the first place, counted
    /// from 1, at which they differ. Where one list is a prefix of the other, it is the place after the shorter one.
    Mismatch(usize, usize),
    /// An allocation failed. The same audit may be made again.
    Memory,
}

impl Unproved {
    /// The number by which it is printed.
    pub const fn number(self) -> u16
        ensures { result ≡ number_of self }
    {
        match self {
            Unproved::Stranger => 80,
            Unproved::Double => 81,
            Unproved::Stuck(_, _) => 82,
            Unproved::Mismatch(_, _) => 83,
            Unproved::Missing(_) => 84,
            Unproved::Memory => recorder_search::Memory.number(),
        }
    }
}

impl From<AllocError> for Unproved {
    ghost from_gives = { λ _ fault. fault ≡ Faults.Memory };

    fn from(_: AllocError) -> Unproved {
        Unproved::Memory
    }
}

impl From<recorder_search::Memory> for Unproved {
    ghost from_gives = { λ _ fault. fault ≡ Faults.Memory };

    fn from(_: recorder_search::Memory) -> Unproved {
        Unproved::Memory
    }
}
