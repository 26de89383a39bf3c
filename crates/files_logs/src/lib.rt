//! Report files that grow: a node's journal as a log, as the bytes of a file, and read again.
//!
//! Promise to the layer above: a log is written as its one spelling (`specs/Log`), block behind block, and bytes are
//! read as the blocks that begin them, whatever they were cut to, or refused with the fault that `specs/Reading` says.
//! A log that is cut at any byte is read as a front of its blocks, and the tail that a write left which didn't end is
//! dropped (`laws`). Nothing that stands in a log is believed by that: an audit judges it.
//!
//!     write_head --> bytes, sum                      the file begins with its head
//!     sum, events --> write_block --> bytes, sum     appended, and again
//!     sum, all bytes --> write_end --> bytes         once the node has ended
//!     bytes --> read_log --> Log                     head, blocks, and a torn tail or the end
//!
//! Begin with `specs/Log` and `specs/Front`, then `laws`, `read` and `write`.
#![tactic(auto)]

mod appending;
mod blocks;
mod front;
mod heads;
pub mod item;
mod items;
pub mod laws;
pub mod layout;
pub mod log;
pub mod log_fault;
pub mod log_head;
mod numbers;
pub mod read;
pub mod sums;
pub mod write;
pub mod write_fault;
pub mod written;

pub use item::Item;
pub use log::Log;
pub use log_fault::LogFault;
pub use log_head::LogHead;
pub use read::{is_log, read_log};
pub use write::{write_block, write_end, write_head};
pub use write_fault::LogWriteFault;
pub use written::Written;
