//! A station with its journal, which several workers share under one lock.
//!
//! Promise to the layer above: a desk's station is the replay of its journal (`specs/Replay`). Each event of a gathered
//! desk's journal was added by one of its workers, and each worker's additions are there, in order (`specs/Shares`).
//!
//!     worker --> Shared::handle ---- lock ----> Desk::handle        one event: its station steps, its journal grows
//!                     |                              |
//!                     +--> Share: a slip             +--> Station::step
//!                       both keep the same batch of events, where a worker hands in several
//!     gather(Shared, shares) --> the desk, if the slips are its journal
//!
//! Begin with `desk`, then `shared`; what no contract can say of a lock is said in `shared`.
#![tactic(auto)]

pub mod batch_reply;
pub mod desk;
mod matching;
pub mod memory;
pub mod share;
pub mod shared;
pub mod shares_disagree;
pub mod turn_steps;

pub use batch_reply::{BatchReply, is_done};
pub use desk::Desk;
pub use memory::Memory;
pub use node_journal::Slip;
pub use share::Share;
pub use shared::{DeskGuard, Shared, gather};
pub use shares_disagree::SharesDisagree;
pub use turn_steps::TurnSteps;
