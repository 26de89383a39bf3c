//! What is said over a link, signals in frames, and how it looks as bytes.
//!
//! Promise to the layer above: bytes are read as the frames that they spell, in order, however they are cut into
//! pieces, and nothing else is read; what was written is read again. Where no frame begins, the fault of `specs/Fault`
//! is answered. Begin with `specs/Frame`, then `reader`; which frames are written as one Batch is said in
//! `specs/Pieces`. The numbers of the wire stand in `wire`, the laws of whole streams in `laws`.
#![tactic(auto)]

mod batch;
mod body;
pub mod fault;
pub mod frame;
mod front;
pub mod laws;
pub mod memory;
mod numbers;
mod pieces;
pub mod reader;
mod reading;
pub mod signal;
pub mod wire;
pub mod write;
mod writing;

pub use fault::FrameFault;
pub use frame::{Frame, Hello};
pub use memory::Memory;
pub use reader::FrameReader;
pub use signal::Signal;
pub use write::{write_frame, write_frames};
