//! All that is wrong in a schedule file, line by line.
//!
//! Promise to the layer above: a schedule is refused exactly where `read_script` refuses it, and a refusal begins with
//! the fault that it answers (`specs/Refused`); it is printed as `specs/Printed` says, with that fault's line first.
//! Further lines are those that `read_script` refuses by themselves. What is told of a line is known here alone: `lint`
//! and the hints ask for it, and no clause says it. Begin with `looking`, then `refusal`; why a line is refused stands in
//! `bad_line`.
#![tactic(auto)]

mod bad_line;
pub mod looking;
pub mod names;
pub mod refusal;

pub use looking::{look_at_form, look_at_schedule, refusal_of_schedule};
pub use names::{NoSuchName, federate_names, meant_name};
pub use refusal::{ScheduleFinding, ScheduleRefusal, ScheduleRefusalLines};
