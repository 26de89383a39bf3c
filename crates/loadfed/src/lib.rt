//! The two files of a federation: what it is, and the inputs recorded for it.
//!
//! Promise to the layer above: `load` and `load_inputs` take exactly the texts that `specs/` says, and answer where a
//! fault stands. Begin with `federation`, then `arrays`, which reads arrays of tables. Each table is read key by key,
//! by the crate `loadfed_tables`.
#![tactic(auto)]

mod arrays;
mod connection_shape;
mod errors;
pub mod fault;
pub mod federation;
mod federation_shape;
pub mod laws;
mod program_draft;
pub mod recorded;
mod slots_shape;

pub use fault::LoadFault;
pub use federation::{MOST_BYTES, load};
pub use recorded::{MOST_INPUT_BYTES, load_inputs};
