//! A schedule as a trace: Chrome's trace events as JSON, which ui.perfetto.dev and chrome://tracing open. Each node is a
//! track, each step a slice on the track of its node, each frame an arrow from the step that sent it to each that
//! delivered it. A step takes a microsecond there: logical time doesn't order frames, and stands in what is told of
//! each.
//!
//! Promise to the layer above: what is written is the text of `specs/Traced`, over the steps that `replay` makes of the
//! same schedule and closing rounds, and the accounts of them that `fedrun_frames` makes:
//!
//!     Script --> steps_of_schedule --> (line, step) ..      of fedrun_frames
//!                                        |
//!                                        v
//!                  tracing --> make --> Account             one step, made in a second world
//!                     |
//!                     v
//!                  slices, arrows --> events --> text       what is written of it, as it is asked for
//!
//! Texts are escaped as the kit's JSON writer escapes them. Begin with `specs/Steps`, then `trace` in `traced`.
#![tactic(auto)]

mod arrows;
mod carried;
mod escaping;
mod events;
mod seen_frame;
mod slices;
pub mod traced;
mod tracing;
mod tracks;
mod turns;

pub use traced::trace;
