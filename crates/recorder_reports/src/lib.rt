//! What federates report after a run, and why reports aren't believed.
//!
//! Promise to the layer above: a collector takes exactly the first report of each federate; whether reports are
//! complete, and where two lists of rows differ, is answered exactly (`specs`).
//!
//!     Report --> Collector::add          a federate's report, once
//!     reports --> refuse_incomplete      one of each federate?
//!             --> all_journals           what each node wrote down, for a search
//!             --> first_difference       where a federate's rows aren't those that it reports
//!
//! Begin with `report`, then `collector`.
#![tactic(auto)]

pub mod collector;
pub mod complete;
pub mod difference;
pub mod journals;
pub mod report;
pub mod report_fault;
pub mod unproved;

pub use collector::Collector;
pub use complete::{refuse_incomplete, report_of};
pub use difference::first_difference;
pub use journals::all_journals;
pub use report::Report;
pub use report_fault::{Refused, ReportFault};
pub use unproved::Unproved;
