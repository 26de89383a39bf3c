//! What happens to frames under a schedule: each step with its line, how it ended, the row that it made, and each frame
//! that it sent, with the number by which `deliver` names it.
//!
//! Promise to the layer above: what is written is the text of `specs/Accounts`, over the steps that `replay` makes of
//! the same schedule and closing rounds (`specs/Shown`). The player of `fedrun_replay` makes the steps, and a second
//! world makes them once more, one at a time:
//!
//!     Script --> making ---> (line, step) ..     all steps of the schedule, as the player makes them
//!                   |
//!                   v
//!                showing --> Account             one step: what it brought, how it ended, the row, and
//!                   |                            what had been sent before
//!                   v
//!                writing --> text                the step, and the frames that are new in each direction
//!
//! A signal counts as taken before where its receiver acknowledged it: what is acknowledged was taken (`laws`). Begin
//! with `specs/Accounts`, then `frames` in `shown`.
#![tactic(auto)]

pub mod account;
pub mod brought;
pub mod counts;
pub mod frame_text;
pub mod laws;
pub mod made_step;
pub mod making;
pub mod showing;
pub mod shown;
mod writing;

pub use account::Account;
pub use brought::Brought;
pub use counts::LinkCounts;
pub use made_step::MadeStep;
pub use making::steps_of_schedule;
pub use showing::make;
pub use shown::frames;
