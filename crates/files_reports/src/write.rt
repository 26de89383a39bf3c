//! Report files as they are written.

ghost use Rattle.std.specs.Prelude.{◌≡◌, ◌++◌, ◌↔◌, ◌<◌, IsTrue, OnOk, IfOk, IfErr, All};
ghost use Rattle.files_reports.specs.Said.{by_federate, said_in, IsOwn, IsSaid};
ghost use Rattle.files_reports.specs.Spelling.{said_bytes};
ghost use Rattle.files_reports.specs.File.{headed, sealed, report_bytes, IsReportOf, IsWriteFault};
ghost use Rattle.files_reports.specs.declared.layout.TheConstants.{COORDINATOR};

use crate::appending::{append, append_two};
use crate::file_digests::FileDigests;
use crate::layout::{COORDINATOR, LONGEST_REPORT};
use crate::memory::Memory;
use crate::node_report::NodeReport;
use crate::sealing::name;
use crate::write_fault::WriteFault;
use crate::writing::{append_journal, append_rows};
use reactor::Rows;
use recorder_reports::Report;
use sha2::{Digest, Sha256};
use std::alloc::Global;

/// The file in which a node reports what it did in a run of these files.
pub fn write_report(
    alloc: Global,
    files: &FileDigests,
    report: &NodeReport,
) -> Result<Vec<u8>, WriteFault>
    ensures written { IfOk result (λ bytes. IsReportOf files.now (said_in report.now) bytes.items) }
    ensures fault { IfErr result (IsWriteFault files.now (said_in report.now)) }
{
    if !is_own(report) {
        return Err(WriteFault::NotOwn);
    }
    let bytes = report_bytes(alloc, files, report)?;
    if bytes.len() > LONGEST_REPORT {
        return Err(WriteFault::TooLong);
    }
    Ok(bytes)
}

// Whether a federate reports its own rows, under a number that isn't the coordinator's.
fn is_own(report: &NodeReport) -> bool
    ensures { IsTrue result ↔ IsOwn (said_in report.now) }
{
    match report {
        NodeReport::Coordinator(_) => true,
        NodeReport::Federate(report) => {
            report.federate < usize::from(COORDINATOR) && are_rows_of(&report.rows, report.federate)
        }
    }
}

// Whether these are all rows of a federate.
fn are_rows_of(rows: &Rows, federate: usize) -> bool
    ensures { IsTrue result ↔ All (λ row. row.reactor ≡ federate) rows.now }
{
    for place in 0..rows.len() {
        if rows.row(place).federate() != federate {
            return false;
        }
    }
    true
}

// All bytes, however many they are.
fn report_bytes(alloc: Global, files: &FileDigests, report: &NodeReport) -> Result<Vec<u8>, Memory>
    requires { IsOwn (said_in report.now) }
    ensures written { IfOk result (λ bytes. bytes.items ≡ report_bytes files.now (said_in report.now)) }
    ensures is_said { OnOk result (IsSaid (said_in report.now)) }
{
    let mut bytes = Vec::new(alloc);
    append(&mut bytes, name())?;
    append(&mut bytes, &files.federation)?;
    append(&mut bytes, &files.inputs)?;
    append_said(&mut bytes, report)?;
    let digest = Sha256::digest(bytes.as_slice());
    append(&mut bytes, &digest)?;
    Ok(bytes)
}

fn append_said(bytes: &mut Vec<u8>, report: &NodeReport) -> Result<(), Memory>
    requires { IsOwn (said_in report.now) }
    ensures written { OnOk result (bytes.new.items ≡ bytes.old.items ++ said_bytes (said_in report.now)) }
    ensures is_said { OnOk result (IsSaid (said_in report.now)) }
{
    match report {
        NodeReport::Coordinator(journal) => {
            append_two(bytes, COORDINATOR)?;
            append_journal(bytes, journal)
        }
        NodeReport::Federate(report) => append_federate(bytes, report),
    }
}

fn append_federate(bytes: &mut Vec<u8>, report: &Report) -> Result<(), Memory>
    requires number { report.now.federate < COORDINATOR }
    requires own { All (λ row. row.reactor ≡ report.now.federate) report.now.rows }
    ensures written { OnOk result (bytes.new.items ≡ bytes.old.items
        ++ said_bytes (by_federate report.now.federate report.now.rows report.now.journal)) }
    ensures is_said { OnOk result (IsSaid (by_federate report.now.federate report.now.rows report.now.journal)) }
{
    append_two(bytes, report.federate as u16)?;
    append_rows(bytes, report.federate, &report.rows)?;
    append_journal(bytes, &report.journal)
}
