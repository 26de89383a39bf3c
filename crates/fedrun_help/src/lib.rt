//! What the program says of its own commands: help, completions for shells and the manual page, all from the tables
//! of commands in `fedrun_words`.
//!
//! Promise to the layer above: what a writer gains is a prefix of the text of `specs/About`, and all of it where that
//! is said. Begin with `print_about` in `printing.rt`, then `About` in `about.rt`; a command's usage is in `usage.rt`.
#![tactic(auto)]

mod about;
mod completions;
mod help;
pub mod hints;
mod manual;
pub mod printing;
pub mod unparsed;
mod usage;

pub use hints::{WordsHint, asks_for_hints, words_hint};
pub use printing::{print_about, print_version};
