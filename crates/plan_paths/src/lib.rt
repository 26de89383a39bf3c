//! Connections between federates by number, and their paths: ports with two sources, zero-delay cycles, ranks, and
//! least delays.
//!
//! Promise to the layer above: a second source of a port and a cycle are found exactly where there is one, the cycle
//! over all paths of the connections; ranks and least delays are those of `specs`. Begin with `connection`, then
//! `cycle`.
#![tactic(auto)]

pub mod connection;
mod cycle;
mod least;
mod rank;
mod sources;

pub use connection::Connection;
pub use cycle::lowest_cycle;
pub use least::LeastDelays;
pub use rank::ranks;
pub use sources::second_source;
