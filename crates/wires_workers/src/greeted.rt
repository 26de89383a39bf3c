use node::Outgoing;
use wires_transports::Accepted;

/// A connection on which a peer was greeted, with the frames that are sent first.
#[derive(Drop)]
pub(crate) struct Greeted<T: Drop, C: Drop> {
    pub peer: usize,
    pub arrived: Accepted<T, C>,
    pub greeting: Vec<Outgoing>,
}
