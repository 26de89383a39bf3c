/// Which node of a federation.
#[derive(Clone, Copy, Debug, PartialEq, Eq)]
pub enum NodeId {
    Coordinator,
    /// A federate by its number.
    Federate(usize),
}
