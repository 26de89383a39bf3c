//! One end of a numbered link: it keeps what it offered until the other side has it, and takes nothing twice.
//!
//! Promise to the layer above: each call is a step of `specs/Image`, what a caller sees of an end. By the laws of
//! `laws`, what one end takes is a prefix of what the other offered. Begin with `specs/Image`, then `link_end`.
#![tactic(auto)]

pub mod arrival;
pub mod fault;
pub mod laws;
pub mod link_end;
pub mod memory;

pub use arrival::Arrival;
pub use fault::LinkFault;
pub use link_end::LinkEnd;
pub use memory::Memory;
