//! What a reactor does at a tag: one turn of its program.
//!
//! Promise to the layer above: `Reactor::run` is the effect of `specs/Effect`. Begin with `specs/Effect`, then `run_in`
//! in `reactor`, and `running`, which computes that. A reactor runs a program's lines as steps on numbers that lie side
//! by side: `step` and `specs/Steps` say what these do, `resolve` makes them of lines, and a `turn_room` keeps its
//! memory for the next turn. Programs and how they are read stand in the crate `reactor_program`.
#![tactic(auto)]

pub mod memory;
pub mod reactor;
mod resolve;
pub mod row;
pub mod rows;
mod running;
mod step;
pub mod turn;
pub mod turn_room;

pub use memory::Memory;
pub use reactor::Reactor;
pub use reactor_program::{Program, ProgramFault};
pub use row::Row;
pub use rows::{RowView, Rows};
pub use turn::{Scheduling, Schedulings, Turn};
pub use turn_room::TurnRoom;
