//! Tests of replays: that one says that it can't write; and of steps made one by one in the world of a replay: made-up lists of them, whose rows are compared with the undivided
//! program's, how many signals a link has room for, that steps, schedulings, messages and events may be many, and in how
//! little memory steps are kept. No program uses this crate.
//!
//! What schedules print stands in the cases `replays.case`. Begin with `worlds`, then `lists`.
#![tactic(auto)]

#[cfg(test)]
mod lists;
#[cfg(test)]
mod little;
#[cfg(test)]
mod many;
#[cfg(test)]
mod played;
#[cfg(test)]
mod refusing;
#[cfg(test)]
mod room;
#[cfg(test)]
mod worlds;
