//! All that is wrong in one of the two files of a federation, each with its line, and what is odd in files that are
//! taken.
//!
//! Promise to the layer above: a refusal begins with the fault for which it is made, and it is printed as
//! `specs/Printed` says, and so is what is odd. Further faults are what the loader answers of small files, in each of
//! which one part of the refused file stands (`look`, `keys`, `lists`); with a name that is said to be meant it takes
//! that part (`guesses`). What isn't understood of a body line, and what a text is that is no TOML document, is told by
//! tables of words (`bad_lines`, `texts`, `characters`); no clause says it. Begin with `refusing`, then `look`; `tree`
//! says where the parts stand.
#![tactic(auto)]

mod bad_lines;
pub mod characters;
mod draft;
mod federates;
mod finding;
mod form;
mod guesses;
mod inputs;
mod keys;
mod line_words;
mod lists;
mod look;
pub mod names;
pub mod oddity;
mod reactions;
pub mod refusal;
pub mod refusing;
pub mod surveys;
mod texts;
mod tree;
mod uses;
mod walk;
mod writing;

pub use characters::{Lookalike, lookalike_in};
pub use finding::Finding;
pub use names::few_edits;
pub use oddity::{Oddity, OddityLines, Why};
pub use refusal::{Refusal, RefusalLines};
pub use refusing::{refusal_of_federation, refusal_of_inputs};
pub use surveys::odd_of;
pub use texts::STEPS;
