//! Connections between nodes: bytes that go out and come in, over memory and over TCP on loopback, and how they are
//! made, let in and ended.
//!
//! Promise to the layer above: a call over a connection fails only where the connection counted a failure, bytes over
//! memory are taken in the order in which they were sent, and a connection that is let in over TCP was made by a
//! federate of the run and began with a Hello. Nothing is said of when a call returns.
//!
//!     Dial::dial ---- connects ----> Acceptor::let_in     whose it is, by ExpectedPeers
//!                                        |
//!                                        v
//!                                    PendingConnection    until its Hello came
//!                                        |
//!                                        v
//!                                    its federate's reader
//!
//! Begin with `transport`, then `connection`, then `tcp` and `in_memory`, then `expected_peers`; `specs/Pipe`,
//! `specs/Greeter`, `specs/ExpectedPeers` and `specs/Fault` are its definitions.
#![tactic(auto)]

pub mod acceptor;
pub mod broken;
pub mod connection;
pub mod current_connections;
pub mod cut;
pub mod deadline;
pub mod dial;
pub mod ending;
pub mod expected_peers;
pub mod failures;
pub mod in_memory;
pub mod memory;
mod pending_connection;
mod pipe;
pub mod tcp;
pub mod times;
pub mod transport;

pub use acceptor::{Acceptor, TcpAcceptor};
pub use broken::Broken;
pub use connection::{Accepted, Connection};
pub use current_connections::CurrentConnections;
pub use cut::Cut;
pub use deadline::Deadline;
pub use dial::{Dial, TcpDial};
pub use ending::Ending;
pub use expected_peers::ExpectedPeers;
pub use failures::Failures;
pub use in_memory::{MemoryCut, MemoryTransport, pair};
pub use memory::Memory;
pub use tcp::{TcpCut, TcpTransport, listen};
pub use transport::Transport;
