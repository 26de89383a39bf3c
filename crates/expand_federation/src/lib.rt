//! A source as the federation file that it becomes, its bodies with it.
//!
//! Promise to the layer above: what `expand` answers is a federation file, as the loader takes it. A source that is one
//! is answered as it is, byte for byte; of any other, the document that is answered is what the source's document
//! becomes with the values that are given (`specs/Made`): what `expand_documents` says, and then with each body expanded
//! and scratch states for them (`specs/Bodies`). Begin with `expanding`.
//!
//! The text is made piece by piece, so that its layout stays: `places` finds what is to be changed in it, and `changing`
//! changes it. Nothing is promised of that. In the end `bodies` compares documents, and what differs isn't answered.
#![tactic(auto)]

pub mod bodies;
mod body_place;
pub mod change;
pub mod changing;
pub mod expanding;
pub mod fault;
pub mod federation;
mod lines;
mod names;
mod places;
mod sameness;
mod scratch;
mod states;
mod tables;
mod texts;

pub use bodies::check_bodies;
pub use change::{Added, Change, Joint};
pub use changing::changed;
pub use expanding::{expand, expand_with_lines};
pub use fault::{ExpandFault, NoFederation};
pub use federation::Federation;
pub use lines::source_line;
