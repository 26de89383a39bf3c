use crate::audit_failure::AuditFailure;
use wires::Cause;

/// Why a run's rows aren't printed.
#[derive(Debug, Drop)]
pub enum AuditedFault {
    /// The run isn't finished, for this cause. Nothing is printed. The run may be made again, with more turns where
    /// these were used up.
    NotFinished(Cause),
    /// The audit doesn't believe what the nodes reported. Nothing is printed.
    Unproved(AuditFailure),
    /// No memory for the nodes, for their workers or for their reports. Nothing is printed. The same run may be made
    /// again.
    Memory,
    /// The output refused a write. How much of the text it took isn't known.
    CannotWrite,
}
