//! The audit: whether what nodes report after a run is a run of the federation. No report is believed by itself.
//!
//! Promise to the layer above: an Ok of `audit` is a list of steps of the federation's world, in which nobody forgets,
//! each node's events are its journal, and each federate's rows are those that it reports (`specs/Audited`).
//!
//!     reports --> audit --> recorder_reports     one of each federate?
//!                   |
//!                   +-----> recorder_search      over an `Auditor`: a world that makes the steps
//!                   +-----> judging              each federate's rows there with those that it reports
//!     reports --> audit_run             the same, and whether the coordinator is finished
//!
//!     journals as they grow --> IncrementalAudit::add, go_on      steps are made ahead, while nodes still write
//!     reports --> IncrementalAudit::conclude                      as `audit_run`, where only what is left is read
//!
//! An `Auditor` is the `StepMaker` of that search: a step that it makes for an event is that event, and with None,
//! where it looks exactly, no step is (`specs/Placing`); `cursors` says where a frame is looked for first, and no
//! answer rests on it. Begin with `specs/Audited`, then `conclude` in `incremental`; `audit` in `auditing` is the same
//! in one call.
#![tactic(auto)]

pub mod audited_run;
pub mod auditing;
pub mod auditor;
mod cursors;
pub mod incremental;
mod judging;
mod known;

pub use audited_run::AuditedRun;
pub use auditing::{audit, audit_run};
pub use auditor::Auditor;
pub use incremental::IncrementalAudit;
pub use recorder_reports::{Collector, Refused, Report, ReportFault, Unproved};
