//! The commands of the program `fedrun`: from words, files and writers to what is printed, and the exit status.
//!
//! Promise to the layer above: with status 0, what the words ask for was printed (`specs/Printed`); with another
//! status, a fault stands (`specs/Refused`), and it is printed on one line (`specs/Faults`). Begin with `command` in
//! `answering.rt`, then `fulfil` in `requests.rt`, which has the function of each request: `whole` and `check` are
//! those of `fedrun_whole`.
#![tactic(auto)]

mod about;
pub mod answering;
mod auditing;
mod drawing;
pub mod fault;
mod linting;
pub mod play;
mod playing;
mod printing;
mod requests;
pub mod running;
mod schedules;

pub use answering::{CommandAnswer, answer, command};
pub use fault::NodeFault;
