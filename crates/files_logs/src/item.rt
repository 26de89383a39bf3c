use node::Event;

/// What a block says, one after the other.
#[derive(Clone, Copy, Debug, PartialEq, Eq)]
pub enum Item {
    /// This event came to the node.
    Came(Event),
    /// The run is finished: the node heard so, or said so to all others. Events may come behind it.
    Told,
}
