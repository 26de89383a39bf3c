//! What a reactor runs: its program, read from the texts of triggers and body lines; and what it is given and gives, as
//! entries.
//!
//! Promise to the layer above: `Program::parse` takes exactly the texts that `specs/Spelled` says, and answers where a
//! fault stands, which is printed as `specs/ProgramFaults` says. Begin with `program`, then `specs/Grammar` and
//! `specs/Resolution`; `reading` reads lines, `parse` all of a program.
#![tactic(auto)]

pub mod entry;
mod fault;
pub mod laws;
pub mod limits;
mod number;
pub mod parse;
mod places;
pub mod program;
pub mod program_fault;
pub mod reaction_draft;
mod reading;
mod token;

pub use entry::{Entries, Entry};
pub use program::{
    Body, Expression, Line, Operand, Operator, Program, Reaction, State, Statement, Triggers,
};
pub use program_fault::{FaultOf, ProgramFault};
pub use reaction_draft::ReactionDraft;
