use files_reports::FileDigests;

/// Whose log it is.
#[derive(Clone, Copy, Debug, PartialEq, Eq)]
pub struct LogHead {
    /// The files of the run.
    pub files: FileDigests,
    /// The federate, or `files_reports::layout::COORDINATOR`.
    pub who: u16,
    /// The number of the rules by which a node's state follows from its events. A program with other rules would
    /// replay the same events to another state.
    pub rules: u16,
}
