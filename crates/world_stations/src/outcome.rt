/// How a step of a world ends.
#[derive(Clone, Copy, Debug, PartialEq, Eq)]
pub enum Outcome {
    /// It didn't apply, or there was nothing to do: nothing changed.
    Nothing,
    /// Something changed, or something was sent.
    Done,
    /// What came was refused, by this number.
    Refused(u16),
}
