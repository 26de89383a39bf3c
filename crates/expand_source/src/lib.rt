//! A federation as one thinks of it, with parameters, classes and many of a kind, as the federation file that it
//! becomes.
//!
//! Promise to the layer above: the text of parts is what `specs/Expansion` makes of them: each copy of a part is its
//! template with the braces filled, and nothing else. That these parts are what the source says is tested, and no
//! clause. Begin with `part`, which is a piece of a source, then `copying`, which makes its copies, and `filling`;
//! `reading` makes parts of a source's text, by `token`, `item` and `group`, which cut it up. Bodies stay as they are:
//! `expand_federation` expands these.
#![tactic(auto)]

mod class;
pub mod copying;
pub mod expanding;
pub mod fault;
pub mod filling;
pub mod group;
pub mod item;
mod lines;
pub mod numbers;
pub mod part;
mod reading;
mod template;
pub mod token;
mod values;

pub use copying::expanded;
pub use expanding::{Expansion, expand};
pub use fault::{SourceFault, SourceFaultKind};
pub use part::{Given, Part, Range, Setting};
