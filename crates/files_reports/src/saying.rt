//! What a node says, read from all of some bytes.

ghost use Rattle.std.specs.Prelude.{◌≡◌, ◌<◌, ◌++◌, IfOk};
ghost use Rattle.byteorder.specs.Endian.{big_bytes};
ghost use Rattle.files_reports.specs.declared.layout.TheConstants.{COORDINATOR};
ghost use Rattle.files_reports.specs.Said.{said_in, IsSaid};
ghost use Rattle.files_reports.specs.Spelling.{said_bytes};
ghost use Rattle.files_reports.specs.Reading.{Gives, IsTaken, coordinator_part, federate_part, said_of, said_at};

use crate::content_fault::ContentFault;
use crate::journals::journal_of;
use crate::layout::COORDINATOR;
use crate::node_report::NodeReport;
use crate::numbers::number_of_two;
use crate::read_fault::ReadFault;
use crate::rows::rows_of;
use recorder_reports::Report;
use std::alloc::Global;

/// The report that all of these bytes say.
#[tactic(auto, unfolding(crate::specs::Reading::said_at))]
pub fn report_in(alloc: Global, bytes: &[u8]) -> Result<NodeReport, ReadFault>
    ensures given { Gives said_in result (said_at bytes.now) }
    ensures taken { IfOk result (λ report. IsSaid (said_in report) × (bytes.now ≡ said_bytes (said_in report))) }
{
    let (who, rest) = number_of_two(bytes)?;
    let (report, rest) = report_of(alloc, who, rest)?;
    if !rest.is_empty() {
        return Err(ReadFault::Content(ContentFault::Trailing));
    }
    Ok(report)
}

// The report of this node, and the bytes behind it.
#[tactic(auto, unfolding(crate::specs::Reading::said_of))]
fn report_of(alloc: Global, who: u16, bytes: &[u8]) -> Result<(NodeReport, &[u8]), ReadFault>
    ensures given { Gives (λ x. (said_in x.0, x.1.now)) result (said_of who bytes.now) }
    ensures taken { IfOk result (λ x. IsTaken said_bytes IsSaid (big_bytes 2 who ++ bytes.now) (said_in x.0) x.1.now) }
{
    if who == COORDINATOR {
        coordinator_report(alloc, bytes)
    } else {
        federate_report(alloc, usize::from(who), bytes)
    }
}

#[tactic(auto, unfolding(crate::specs::Reading::coordinator_part))]
fn coordinator_report(alloc: Global, bytes: &[u8]) -> Result<(NodeReport, &[u8]), ReadFault>
    ensures given { Gives (λ x. (said_in x.0, x.1.now)) result (coordinator_part bytes.now) }
    ensures taken { IfOk result (λ x.
        IsTaken said_bytes IsSaid (big_bytes 2 COORDINATOR ++ bytes.now) (said_in x.0) x.1.now) }
{
    let (journal, rest) = journal_of(alloc, bytes)?;
    Ok((NodeReport::Coordinator(journal), rest))
}

#[tactic(auto, unfolding(crate::specs::Reading::federate_part))]
fn federate_report(
    alloc: Global,
    federate: usize,
    bytes: &[u8],
) -> Result<(NodeReport, &[u8]), ReadFault>
    requires { federate < COORDINATOR }
    ensures given { Gives (λ x. (said_in x.0, x.1.now)) result (federate_part federate bytes.now) }
    ensures taken { IfOk result (λ x.
        IsTaken said_bytes IsSaid (big_bytes 2 federate ++ bytes.now) (said_in x.0) x.1.now) }
{
    let (rows, rest) = rows_of(alloc, federate, bytes)?;
    let (journal, rest) = journal_of(alloc, rest)?;
    let report = Report {
        federate,
        rows,
        journal,
    };
    Ok((NodeReport::Federate(report), rest))
}
