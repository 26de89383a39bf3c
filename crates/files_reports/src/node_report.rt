use node_journal::Journal;
use recorder_reports::Report;

/// What one node reports after a run. It is believed only after an audit, which takes a federate's report as it is, and
/// the coordinator's journal.
#[derive(Debug, Drop)]
pub enum NodeReport {
    /// The coordinator's journal: all events that came to it, oldest first. It has no rows.
    Coordinator(Journal),
    /// A federate's report.
    Federate(Report),
}
