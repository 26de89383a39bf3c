use world::Memory;

/// Why a replay broke off. What was printed before it stays printed.
#[derive(Clone, Copy, Debug, PartialEq, Eq)]
pub enum ReplayFault {
    /// No memory for a step: the steps before it are made, and what was refused of them is printed. The caller may
    /// begin again.
    World(Memory),
    /// The output refused a write. How much of the text it took isn't known.
    CannotWrite,
}
