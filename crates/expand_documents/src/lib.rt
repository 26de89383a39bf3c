//! Whether a document of TOML is what a source's document becomes.
//!
//! Promise to the layer above: where `is_expansion` answers true, the one is the other's expansion, as
//! `specs/Documents` says it: over tables alone, with no word on how `expand_source` makes its text. So whatever that
//! does, a text is only answered where its document is what the source says. Begin with `documents`; `copies` looks at
//! the copies of an entry, `naming` at what names stand for in them, and `filled` at values with braces.
#![tactic(auto)]

mod class;
mod copies;
pub mod documents;
pub mod entries;
mod filled;
mod mismatch;
mod naming;
mod range;
mod values;

pub use documents::is_expansion;
pub use entries::Entry;
