/// One direction of a link, by its federate's number.
#[derive(Clone, Copy, Debug, PartialEq, Eq)]
pub enum Dir {
    /// From this federate to the coordinator.
    Up(usize),
    /// From the coordinator to this federate.
    Down(usize),
}
