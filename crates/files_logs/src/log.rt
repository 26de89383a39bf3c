use node_journal::Journal;

/// What a log says.
#[derive(Debug, Drop)]
pub struct Log {
    /// The federate, or `files_reports::layout::COORDINATOR`.
    pub who: u16,
    /// All events that came to the node, oldest first.
    pub journal: Journal,
    /// It was known that the run is finished.
    pub is_told: bool,
    /// The node ended, and the digest at the log's end is right. Nothing may be written behind it.
    pub is_ended: bool,
    /// How many bytes are whole. Those behind them are what a write left that didn't end: they are to be cut off before
    /// anything is written.
    pub whole: usize,
    /// The sum behind the last block, which the next block needs.
    pub sum: u64,
}
