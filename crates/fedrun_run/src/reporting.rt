ghost use Rattle.std.specs.Prelude.{◌≡◌};
ghost use Rattle.recorder_reports.specs.declared.report.Report.{Report as IsReport};

use federate::Federate;
use node::Node;
use node_journal::Journal;
use recorder_reports::Report;

/// A node that reports what it computed.
pub(crate) trait Reporting: Node {
    // What its report says of it.
    ghost tells: { Self → IsReport → Type 0 };

    /// Its report, as the federate of this number and with this journal.
    fn report(self, federate: usize, journal: Journal) -> Report
        ensures federate { result.federate ≡ federate }
        ensures rows { tells self result }
        ensures journal { result.journal ≡ journal };
}

impl<'a> Reporting for Federate<'a> {
    ghost use Rattle.fedrun_run.specs.Reported.{ReportsRows};

    ghost tells = { ReportsRows };

    fn report(self, federate: usize, journal: Journal) -> Report {
        Report {
            federate,
            rows: self.into_rows(),
            journal,
        }
    }
}
