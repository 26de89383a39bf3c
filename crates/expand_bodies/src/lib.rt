//! Bodies whose lines may have expressions of any depth, local names and branches, as body lines of one operator each.
//!
//! Promise to the layer above: `expand_body` answers the lines as they are, or those of the body that they are read as
//! (`specs/Expanded`), and these do what the body does (`laws`). What a body does is `specs/Body`, the lines that it
//! becomes are `specs/Lines`, which texts spell it is `specs/Forms` and `specs/Reading`. Begin with `block`, which is a
//! body as a tree, then `lines`; `reading` makes the tree from texts, by `form`, which says what a line is, and
//! `printing` prints lines.
#![tactic(auto)]

pub mod block;
mod body_line;
pub mod expanding;
pub mod fault;
mod form;
pub mod laws;
pub mod lines;
pub mod names;
mod printing;
mod reading;
mod scratch;

pub use block::{Block, Target};
pub use expanding::{ExpandedBody, expand_body};
pub use fault::{BodyFault, BodyFaultKind};
pub use lines::add_lines;
pub use names::{BodyNames, Constant};
pub use scratch::scratch_names;
