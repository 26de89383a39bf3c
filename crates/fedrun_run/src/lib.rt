//! A federation run in threads, and once it is audited its rows printed, or the steps of the audit as a schedule file.
//!
//! Promise to the layer above: something is printed only of reports that an audit proved, and whose coordinator is
//! finished: so the rows are each federate's whole part of what the undivided program computes, and the steps give them
//! (`specs/Printed`). What is audited, believed or not, is what the nodes' own desks say: these are gathered from what
//! all workers of a run left, and each one's station is the replay of its journal (`specs/Reported`). That it is the
//! run just made isn't said.
//!
//!     print_audited_run --> desks            a desk for each node
//!                       --> wires            all nodes in threads, over TCP on loopback
//!                       --> watching         beside them the audit, as far as it comes
//!                       --> node_reports     what each node's desk says, where the run is finished (`specs/Reported`)
//!                       --> printing         the audit of these reports to its end, and the reported rows or its steps
//!
//! Begin with `running`, then `node_reports` and `printing`.
#![tactic(auto)]

pub mod audit_failure;
pub mod desks;
pub mod fault;
mod node_reports;
pub mod output;
pub mod printing;
mod reporting;
pub mod running;
mod watching;

pub use audit_failure::AuditFailure;
pub use desks::{coordinator_desk, federate_desk, federate_desks};
pub use fault::AuditedFault;
pub use output::RunOutput;
pub use printing::print_audited;
pub use running::print_audited_run;
