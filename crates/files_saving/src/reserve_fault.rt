use crate::save_fault::SaveFault;

/// Why a name isn't reserved.
#[derive(Clone, Copy, Debug, PartialEq, Eq)]
pub enum ReserveFault {
    /// There is a file of this name.
    NameTaken,
    /// There is a file of the temporary name: somebody else has reserved the name, or had when he was cut off. Once
    /// nobody does, it is removed by hand.
    TemporaryTaken,
    /// The disk failed, and the inner fault says how.
    Failed(SaveFault),
}
