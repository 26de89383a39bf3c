/// What a run goes by.
#[derive(Clone, Copy, Debug, PartialEq, Eq)]
pub struct Terms {
    /// How many turns of a federate are made at most.
    pub turns: u32,
    /// The version of frames that federates write: 1, or 2 with Batches for those who read them. The coordinator writes
    /// 2.
    pub frames: u8,
}
