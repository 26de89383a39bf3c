use node_journal::Journal;
use reactor::Rows;

/// What a federate tells after a run. It is believed only after `audit`.
#[derive(Debug, Drop)]
pub struct Report {
    /// The federate, by number.
    pub federate: usize,
    /// Its rows, oldest first.
    pub rows: Rows,
    /// All events that came to it, oldest first.
    pub journal: Journal,
}
