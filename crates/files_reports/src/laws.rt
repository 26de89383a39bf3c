//! What the definitions of report files keep, and one report worked by hand. Each function's contract is a law; it does
//! nothing.

ghost use Rattle.std.specs.Prelude.{◌≡◌, List, ℕ, Ok};
ghost use Rattle.files_reports.specs.Said.{Said, IsSaid};
ghost use Rattle.files_reports.specs.Spelling.{said_bytes};
ghost use Rattle.files_reports.specs.Reading.{said_at};
ghost use Rattle.files_reports.specs.File.{IsReportOf};
ghost use Rattle.files_reports.specs.Example.{counted_twice, its_bytes};
ghost use Rattle.files_reports.specs.declared.file_digests.FileDigests.{FileDigests};

/// What is said is read from its bytes.
pub fn said_is_read()
    ensures { (said : Said) → IsSaid said → said_at (said_bytes said) ≡ Ok said }
{}

/// A file of a run says one thing.
pub fn one_report()
    ensures { (files : FileDigests) (said other : Said) (bytes : List ℕ) → IsReportOf files said bytes
        → IsReportOf files other bytes → said ≡ other }
{}

/// A federate that counted to two and had three events.
pub fn worked_example()
    ensures { said_bytes counted_twice ≡ its_bytes }
{}
