//! Report files as they are read.

ghost use Rattle.std.specs.Prelude.{◌≡◌, List, ℕ, IfOk, IfErr, MatchResult};
ghost use Rattle.files_reports.specs.Said.{Said, said_in};
ghost use Rattle.files_reports.specs.File.{IsReportOf, IsReadFault};

use crate::file_digests::FileDigests;
use crate::node_report::NodeReport;
use crate::read_fault::ReadFault;
use crate::saying::report_in;
use crate::sealing::said_behind;
use std::alloc::Global;

/// The report that all of these bytes are, of a run of these files.
pub fn read_report(
    alloc: Global,
    files: &FileDigests,
    bytes: &[u8],
) -> Result<NodeReport, ReadFault>
    // What is read is spelled so.
    ensures found { IfOk result (λ report. IsReportOf files.now (said_in report) bytes.now) }
    // What is spelled so is read, unless memory runs out.
    ensures only { (said : Said) → IsReportOf files.now said bytes.now
        → MatchResult result (λ report. said_in report ≡ said) (λ fault. fault ≡ ReadFault.Memory) }
    // Which fault it is.
    ensures fault { IfErr result (IsReadFault files.now bytes.now) }
{
    let said = said_behind(files, bytes)?;
    report_in(alloc, said)
}
