//! `whole` and `check`, the commands of a federation that isn't divided into nodes: every program has them. And the
//! command of a program that has no more.
//!
//! Promise to the layer above: with status 0, what the words ask for was printed (`specs/Printed`); with another
//! status, a fault stands (`specs/Refused`), and it is printed on one line. What is printed of the undivided program is
//! the rows of this many turns, or of those before the one that found no memory (`specs/PrintedTurns`). Begin with
//! `whole` in `requests.rt`, then `turns.rt`; `command` in `answering.rt` is the program `fedwhole`.
#![tactic(auto)]

pub mod answering;
mod printing;
pub mod requests;
pub mod start;
pub mod turns;

pub use answering::{answer, command};
pub use requests::{check, whole};
pub use start::given;
pub use turns::print_turns;

/// How many bytes a program gives to standard output at once.
pub const OUT_BYTES: usize = 1 << 16;
