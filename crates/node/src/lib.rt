//! A node behind its link ends: what it does with each frame that comes, and what it says by itself.
//!
//! Promise to the layer above: each step of a station is the step of `specs/Step`, whatever the node's core does, and a
//! step without memory changes nothing.
//!
//!     Event --> Station::step ----> LinkEnd::peek       is the frame taken at all?
//!                    |
//!                    +------------> Node::accept        what the node makes of its signal
//!                    |                  +--> Outbox::reserve_all   all memory, then
//!                    |                  +--> Outbox::put_all       the signals, as frames
//!                    +------------> LinkEnd::receive    the frame is taken
//!     Reply <--------+                                  the acknowledgement first, then the node's frames
//!
//! Begin with `Station::step` in `station`, and with `specs/Step`, which it computes. What a node says of itself is in
//! `specs/Core`, and its trait in `node`. `blank` is for nodes that can be made again.
#![tactic(auto)]

pub mod blank;
pub mod closing;
pub mod event;
pub mod fault;
pub mod laws;
pub mod memory;
pub mod node;
pub mod node_id;
mod noting;
pub mod outbox;
pub mod outgoing;
mod replies;
pub mod reply;
pub mod station;

pub use blank::Blank;
pub use event::Event;
pub use fault::NodeFault;
pub use memory::Memory;
pub use node::Node;
pub use node_id::NodeId;
pub use outbox::Outbox;
pub use outgoing::Outgoing;
pub use protocol::Post;
pub use reply::Reply;
pub use station::Station;
