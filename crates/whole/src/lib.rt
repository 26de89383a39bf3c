//! The undivided program: all federates of a plan as one program, turn by turn.
//!
//! Promise to the layer above: after `turns` the rows are those of the definition `whole`. Begin with `whole`, then
//! `specs/Progress`.
#![tactic(auto)]

mod agendas;
mod initial;
mod made;
mod nexts;
mod targets;
pub mod whole;

pub use whole::Whole;
