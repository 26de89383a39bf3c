//! The workers that stand between a connection and a node: a reader, a writer, a runner.
//!
//! Promise to the layer above: what is handed in are the frames that were read, and whole turns, and no more; what a
//! runner does next is `specs/RetryState`. Nothing is said of when a call returns.
//!
//! The life of each, from left to right; all workers of a node share one `Context`:
//!
//!     reader    greets on a connection -> HandIn, Read, HandIn, .. (`ReaderStep`) -> ends it, and greets on the next
//!     runner    may begin its turns ----> Turn, Wait, Turn, Repeat, .. (`Next`) ---> its turns are used up
//!     writer    opens its queue --------> look, send all, wait, .. ----------------> sends the rest, and finishes
//!
//! A federate's reader makes its connections itself (`dialed`); the coordinator's are passed them by an acceptor.
//!
//! How the events of a reader and a runner become steps, and how what the steps say goes out:
//!
//!     Context::take_in, hand_in      a reader: what its peer sent, and turns behind it
//!     Context::take_turns, repeat    a runner: turns, and what may be lost
//!        |
//!        |  gate                     passed before each event; where it is open, not at all
//!        +-> Session::begin          the desk's lock
//!        +-> Session::enter_all, enter_turns     steps; the replies are gathered
//!        +-> Context::leave          frames into each peer's WriterQueue (`covered_acks` and `by_peer` say which), the
//!        |                           lock given up, WriterQueue::send
//!        +-> Context::wake_up        the runner, where something was done in its absence
//!
//! What a reader and a writer leave says how much came and was sent (`wires_traffic`); each counts for itself.
//!
//! A run ends where `Ending` is set: runners stop and tell their writers, writers end what they send, readers come to
//! the end of what was sent. Begin with `Context::take_in` in `handing_in`, then `retry_state`. What they rest on is in
//! `gate`, `context` and `session`; the workers themselves are `reader`, `runner` and `writer`.
#![tactic(auto)]

mod behind;
mod by_peer;
pub mod context;
mod covered_acks;
pub mod dialed;
pub mod gate;
mod greeted;
pub mod handing_in;
mod leaving;
mod peer_lists;
mod queue_state;
pub mod reader;
pub mod retry_state;
pub mod runner;
mod session;
pub mod side;
pub mod turns;
pub mod wake_ups;
pub mod writer;
pub mod writer_queue;

pub use context::Context;
pub use dialed::{Dialed, read_dialed};
pub use gate::{Gate, NoGate, Point};
pub use handing_in::{Outcome, TakenIn};
pub use reader::{Reading, read};
pub use retry_state::{Next, RetryState};
pub use side::Side;
pub use turns::Turns;
pub use wake_ups::{Waited, WakeUp, WakeUps};
pub use writer::write;
pub use writer_queue::WriterQueue;
