//! Whether each federate has one report.
ghost use Rattle.std.specs.Prelude.{◌≡◌, ◌↔◌, ℕ, ◌<◌, ◌≤◌, IsTrue, MatchBool, option_map, MatchOption, MatchResult};
ghost use Rattle.recorder_reports.specs.Reports.{how_many, report_of, AreKnown, AreSingle, AreComplete, HasDouble};
ghost use Rattle.recorder_reports.specs.Reports.{IsFirstMissing, IsIncomplete};

use crate::report::Report;
use crate::unproved::Unproved;

/// How many reports of a federate there are.
pub(crate) fn count_of(reports: &[Report], federate: usize) -> usize
    ensures { result ≡ how_many reports.now federate }
{
    reports
        .iter()
        .filter(|report| report.federate == federate)
        .count()
}

/// A federate's report; the first one, if there are several.
pub fn report_of(reports: &[Report], federate: usize) -> Option<&Report>
    ensures { option_map (λ report. report.now) result ≡ report_of reports.now federate }
{
    reports.iter().find(|report| report.federate == federate)
}

/// Refuses reports unless there is one of each federate, and none of anybody else.
pub fn refuse_incomplete(count: usize, reports: &[Report]) -> Result<(), Unproved>
    ensures { MatchResult result (λ _. AreComplete count reports.now) (IsIncomplete count reports.now) }
{
    if !are_known(count, reports) {
        Err(Unproved::Stranger)
    } else if has_double(count, reports) {
        Err(Unproved::Double)
    } else {
        match first_missing(count, reports) {
            Some(federate) => Err(Unproved::Missing(federate)),
            None => Ok(()),
        }
    }
}

// Whether each report is of a federate that is there.
fn are_known(count: usize, reports: &[Report]) -> bool
    ensures { IsTrue result ↔ AreKnown count reports.now }
{
    reports.iter().all(|report| report.federate < count)
}

// Whether a federate has two reports.
fn has_double(count: usize, reports: &[Report]) -> bool
    ensures { MatchBool result (HasDouble count reports.now) (AreSingle count reports.now) }
{
    for federate in 0..count {
        if count_of(reports, federate) > 1 {
            return true;
        }
    }
    false
}

// The first federate that has no report.
fn first_missing(count: usize, reports: &[Report]) -> Option<usize>
    ensures { MatchOption result ((j : ℕ) → j < count → 1 ≤ how_many reports.now j) (IsFirstMissing count reports.now) }
{
    for federate in 0..count {
        if count_of(reports, federate) == 0 {
            return Some(federate);
        }
    }
    None
}
