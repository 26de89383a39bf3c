//! A table of a TOML document, read key by key.
//!
//! Promise to the layer above: each reading of `Section` gives what stands at its key, as `specs/Tables` says, or
//! answers that key as `WrongShape`, where nothing stands there that may. Begin with `section`.
#![tactic(auto)]

mod data;
pub mod documents;
pub mod fault;
pub mod section;

pub use documents::document;
pub use fault::TableFault;
pub use section::Section;
