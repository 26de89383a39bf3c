use node::NodeId;

/// What a search found.
#[derive(Debug, Drop)]
pub enum Found {
    /// The step maker made steps in which each node's events are its journal.
    All,
    /// No further event can be placed: the first node whose journal isn't used up, and its next event, counted from 1.
    Stuck(NodeId, usize),
}
