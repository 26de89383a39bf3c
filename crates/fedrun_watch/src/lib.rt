//! What happens at a node that runs by itself, and where its federates stand, for whoever watches it: `--log` and
//! `--progress` of `coordinate` and `join`.
//!
//!     the node's workers --Teller--> a channel of bounded length --> show, in a thread of the program --> Screen
//!
//! Promise to the layer above: what a writer gains of something that happened is a prefix of its lines (`specs/Lines`),
//! and all of them where that is said; the lines that are drawn again are `specs/Picture`, of 79 columns at most. No
//! clause says what is told or when: what happens while too much waits is counted and left out, so that no worker waits
//! for whoever writes. Nothing that a node does rests on it.
//!
//! Begin with `show` in `showing.rt`, then `screen`, `lines`, `picture`; what is told is `Told` of `wires_hosts`. What
//! stands in a line is in `awaited` (federates by name), `connections`, `standings` and `causes`, and its times in
//! `seconds`.
#![tactic(auto)]

mod awaited;
mod causes;
mod connections;
mod lines;
mod picture;
pub mod screen;
mod seconds;
pub mod showing;
mod standings;

pub use screen::{Screen, View};
pub use showing::{print_happened, print_left_out, show, view_asked};
