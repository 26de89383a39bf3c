//! Connections between machines: how a federate's process connects to the coordinator's, who is let in, and how those
//! that come late hear that the run is finished.
//!
//!     HostDial::dial: BackOff ---- connects ----> HostAcceptor: PendingHost ---- its Hello ----> its federate's reader
//!         FederateSide  <---- greeting, challenge, proof ---->  CoordinatorSide
//!
//! Promise to the layer above: a connection is handed on only where `wires_greeting` lets its federate in, and where
//! its first frame is a Hello of that very federate (`specs/Hello`); a federate counts as told only where it proved so
//! to `wires_greeting`. Of connections that are too many one is given up that is drawn at random (`specs/Draw`). What
//! an attempt to connect came to is `specs/DialFault`, how long to wait before the next one `specs/BackOff`, and how
//! long nothing was heard `specs/Silence`. A call over a connection fails only where it fails over what it is around,
//! or where the `Barrier` refused it: then nothing was sent. Nothing is said of when a call returns. Keys are made by
//! `wires_greeting::Key` alone. Whoever watches is told what happens (`happening`), through a channel for which nobody
//! waits (`teller`): why a connection isn't let in is `specs/NotLetIn`, how many attempts came to the same
//! `specs/Attempts`, which connection has ended `specs/Attendance`, who is awaited `specs/Awaited`, for whom a run waits
//! and how far it is `specs/Standing`, when it is told that nobody is heard `specs/Silence`, that one is missing
//! `specs/Seen`, and that a run stands still `specs/Stillness`. Whoever measures a node is told its moments the same way
//! (`moment`).
//!
//! Begin with `heard` and `barrier`, which one process's threads share, then `host_dial` and `host_acceptor`.
#![tactic(auto)]

pub mod attempts;
mod attendance;
pub mod awaited;
pub mod back_off;
pub mod barrier;
pub mod dial_fault;
mod draw;
pub mod happening;
pub mod heard;
pub mod heard_transport;
mod hello;
pub mod host_acceptor;
pub mod host_address;
pub mod host_dial;
mod incoming;
pub mod last_connection;
pub mod listening;
pub mod look;
pub mod millis;
pub mod moment;
mod next;
mod overview;
pub mod patience;
mod pending_host;
mod seen;
pub mod silence;
mod source;
pub mod standing;
mod stillness;
pub mod teller;
pub mod times;
pub mod unreached;

pub use awaited::Awaited;
pub use back_off::BackOff;
pub use barrier::{Barrier, NoBarrier, Unkept};
pub use dial_fault::DialFault;
pub use happening::{Disconnection, Failure, GivenUp, Happening, Loss, NotLetIn, Replaced};
pub use heard::Heard;
pub use heard_transport::HeardTransport;
pub use host_acceptor::{HostAcceptor, HostEntrance};
pub use host_address::HostAddress;
pub use host_dial::{FederateHost, HostDial};
pub use last_connection::LastConnection;
pub use listening::listen_at;
pub use look::{Look, NoLook};
pub use moment::{Measured, Moment};
pub use patience::{Patience, Watching};
pub use silence::Silence;
pub use standing::{HowFar, Reached, Standing};
pub use teller::{Happened, Looked, Teller, Told, Watcher};
pub use unreached::{Missed, Unreached};
