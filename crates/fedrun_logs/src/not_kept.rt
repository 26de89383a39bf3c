ghost use Rattle.std.specs.Prelude.{◌≡◌};
ghost use Rattle.fedrun_logs.specs.declared.not_kept.NotKept.TheVariants as Faults;
ghost use Rattle.fedrun_logs.specs.Faults.{not_written};

use files_keeping::KeepFault;
use files_logs::{LogFault, LogWriteFault};

/// Why a node's log isn't opened, or doesn't keep what came to the node.
#[derive(Clone, Copy, Debug, PartialEq, Eq)]
pub enum NotKept {
    /// The disk fails.
    Disk(KeepFault),
    /// The file isn't this node's log in a run of these files, or was changed.
    Log(LogFault),
    /// Events take more bytes than a block may have. No events of this program's nodes do.
    TooLong,
    /// No memory for what is read or written.
    Memory,
}

impl From<KeepFault> for NotKept {
    ghost from_gives = { λ keep fault. fault ≡ Faults.Disk keep };

    fn from(fault: KeepFault) -> NotKept {
        NotKept::Disk(fault)
    }
}

impl From<LogWriteFault> for NotKept {
    ghost from_gives = { λ write fault. fault ≡ not_written write };

    fn from(fault: LogWriteFault) -> NotKept {
        match fault {
            LogWriteFault::TooLong => NotKept::TooLong,
            LogWriteFault::Memory => NotKept::Memory,
        }
    }
}

impl From<files_reports::Memory> for NotKept {
    ghost from_gives = { λ _ fault. fault ≡ Faults.Memory };

    fn from(_: files_reports::Memory) -> NotKept {
        NotKept::Memory
    }
}

impl From<desk::Memory> for NotKept {
    ghost from_gives = { λ _ fault. fault ≡ Faults.Memory };

    fn from(_: desk::Memory) -> NotKept {
        NotKept::Memory
    }
}

impl From<std::alloc::AllocError> for NotKept {
    ghost from_gives = { λ _ fault. fault ≡ Faults.Memory };

    fn from(_: std::alloc::AllocError) -> NotKept {
        NotKept::Memory
    }
}
