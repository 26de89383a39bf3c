//! Names: texts, which of them are names, what has one, where one stands, and which stands twice.
//!
//! Promise to the layer above: a place is that of the first name that is this one, and a name that stands twice is
//! found. Begin with `text`, then `named`; `spelling` says what a name is, `port` how a port is named.
#![tactic(auto)]

pub mod named;
pub mod port;
mod repeats;
pub mod spelling;
pub mod text;

pub use named::{Named, place_of};
pub use port::PortName;
pub use repeats::{push_names, repeated};
pub use spelling::is_name;
pub use text::{Names, Text};
