//! The journals of all nodes, in the order in which a search reads them.
ghost use Rattle.std.specs.Prelude.{◌≡◌, [], map, IfOk};
ghost use Rattle.recorder_reports.specs.Reports.{report_of, journal_of, all_journals};

use crate::complete::report_of;
use crate::report::Report;
use node_journal::Journal;
use std::alloc::{AllocError, Global};

/// The coordinator's journal, then those of this many federates by number, an empty one where there is no report.
/// Without memory nothing has changed.
pub fn all_journals<'r>(
    alloc: Global,
    count: usize,
    reports: &'r [Report],
    coordinator: &'r Journal,
    empty: &'r Journal,
) -> Result<Vec<&'r Journal>, AllocError>
    requires { empty.now ≡ [] }
    ensures { IfOk result (λ journals. map (λ j. j.now) journals.items
        ≡ all_journals count reports.now coordinator.now) }
{
    let mut journals = Vec::new(alloc);
    journals.push(coordinator)?;
    for federate in 0..count {
        journals.push(journal_at(reports, federate, empty))?;
    }
    Ok(journals)
}

// The journal that a federate reports, or an empty one where it has no report.
fn journal_at<'r>(reports: &'r [Report], federate: usize, empty: &'r Journal) -> &'r Journal
    requires { empty.now ≡ [] }
    ensures { result.now ≡ journal_of (report_of reports.now federate) }
{
    match report_of(reports, federate) {
        Some(report) => &report.journal,
        None => empty,
    }
}
