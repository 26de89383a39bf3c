//! What the definitions of nodes' files keep. Each function's contract is a law; it does nothing.

ghost use Rattle.std.specs.Prelude.{◌≡◌, List, ℕ};
ghost use Rattle.node.specs.declared.event.Event.{Event};
ghost use Rattle.recorder_reports.specs.declared.report.Report.{Report};
ghost use Rattle.files_reports.specs.declared.file_digests.FileDigests.{FileDigests};
ghost use Rattle.fedrun_files.specs.declared.reading.Sources.{Sources};
ghost use Rattle.fedrun_reports.specs.Files.{IsOfCoordinator, IsOfFederate};

/// A file of a run has one journal of the coordinator at most.
pub fn one_journal()
    ensures { (files : FileDigests) (journal other : List Event) (bytes : List ℕ)
        → IsOfCoordinator files journal bytes → IsOfCoordinator files other bytes → journal ≡ other }
{}

/// A file of a run is one report of a federate at most.
pub fn one_report()
    ensures { (files : FileDigests) (s : Sources) (report other : Report) (bytes : List ℕ)
        → IsOfFederate files s report bytes → IsOfFederate files s other bytes → report ≡ other }
{}
