//! Journals of events: what came to a node, oldest first, in little memory.
//!
//! Promise to the layer above: a `Journal` is the list of the events that were pushed, each at its place (`get`), and
//! `Blocks` are the slips that were added, each an event with its place in a journal (`specs/Slips`).
//!
//!     Batch          events that came together: whoever keeps some of them keeps the same ones
//!     Block          the first events of a batch, and turns behind them, which are counted
//!     PlacedBlock    a block, and the place of its first event
//!     Blocks         slips, in blocks of those whose places follow one another
//!     Journal        blocks whose places are 0, 1, 2 ..
//!
//! Begin with `block`, then `blocks`.
#![tactic(auto)]

pub mod batch;
pub mod block;
pub mod blocks;
mod finding;
pub mod journal;
pub mod placed_block;
pub mod slip;
mod turns;

pub use batch::Batch;
pub use block::Block;
pub use blocks::Blocks;
pub use journal::Journal;
pub use placed_block::PlacedBlock;
pub use slip::Slip;
pub use turns::turn_event;
