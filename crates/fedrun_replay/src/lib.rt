//! The player of a schedule over a world: makes its steps, and prints what was refused and what each federate computed.
//!
//! Promise to the layer above: the steps made are just those that the schedule's lines say (`specs/Play`), and those of
//! as many closing rounds as are asked for (`specs/Closing`); what is printed is which of them were refused, each with
//! its line's number, and what `specs/Replayed` says of the world after them. So all that is known of worlds holds of
//! it: the rows of a federate are a prefix of its part of the undivided program's rows, and all of it where closing
//! rounds were enough (`specs/Enough`). As comma-separated values the rows alone are printed (`specs/AsCsv`). Begin
//! with `replay` in `replayed`, then `Player`.
#![tactic(auto)]

mod cursors;
pub mod ending;
pub mod fault;
pub mod player;
pub mod replayed;

pub use fault::ReplayFault;
pub use player::Player;
pub use replayed::{replay, replay_in};
