//! What the coordinator knows of the federates, who is eligible for a grant, and how far it may go.
//!
//! Promise to the layer above: after any list of changes `eligible` answers what `IsEligible` of `protocol` says of the
//! records, and `grant` is the widest grant. A change looks only at the federates that it may make eligible.
//!
//!     set_next(i) --> records[i] --> AffectedFederates::look at i, and at each federate that a path leads to from i
//!                                          +--> Wiring::is_eligible --> Wiring::bound     counts one
//!     set_completed(i) --> the same at each federate that a connection leads to from i
//!     eligible(j) --> the flag that the last look set
//!     has_eligible --> whether a flag is set: looks keep their count
//!
//! Begin with `specs/Records`, then `table`; who is looked at is in `specs/Routes`.
#![tactic(auto)]

mod affected;
mod bounds;
mod federate_record;
pub mod meaning;
pub mod memory;
mod routes;
pub mod table;
mod wiring;

pub use memory::Memory;
pub use table::Table;
