//! What the file says, and its whole text.
ghost use Rattle.std.specs.Prelude.{◌≡◌};
ghost use Rattle.files_stats.specs.Stats.{is_stats_text};

use crate::lines::Line;
use crate::node_tables::{CoordinatorTables, FederatesTables};
use std::fmt;
use wires_traffic::Counts;

/// With this each of these files begins.
const BEGINNING: &[u8] = b"# saved by fedrun --stats\ncommand = \"";

/// Whether bytes begin as such a file does.
pub fn is_stats(bytes: &[u8]) -> bool
    ensures { result ≡ is_stats_text bytes.now }
{
    bytes.starts_with(BEGINNING)
}

/// What is saved of a command.
#[derive(Clone, Copy, Debug, PartialEq, Eq)]
pub struct Stats<'a> {
    /// The command's name.
    pub command: &'a str,
    /// Its exit status.
    pub status: u8,
    pub phases: Phases,
    /// What the coordinator's workers counted, where the coordinator ran in this process.
    pub coordinator: Option<Counts>,
    /// What the workers of federates counted, of all together that ran in this process, if any did.
    pub federates: Option<Counts>,
}

/// How long each phase of a command took, in ms.
#[derive(Clone, Copy, Debug, PartialEq, Eq)]
pub struct Phases {
    /// From its beginning until its nodes run: files are read, and a log is read again.
    pub loading: u64,
    /// Until all workers of its nodes have ended.
    pub running: u64,
    /// After that, as long as a coordinator tells federates that the run is finished.
    pub telling: u64,
    /// All else after that: a run is audited and printed, and a node's report is saved or its log ended.
    pub ending: u64,
}

impl fmt::Display for Stats<'_> {
    ghost use Rattle.std.specs.Prelude.{Some};
    ghost use Rattle.files_stats.specs.Stats.{stats_text};

    ghost output = { λ stats. Some (stats_text stats) };

    fn fmt<W: fmt::Write>(&self, f: &mut fmt::Formatter<W>) -> fmt::Result {
        let command = self.command;
        let status = Line("status", u64::from(self.status));
        let phases = PhasesTable(self.phases);
        let coordinator = CoordinatorTables(self.coordinator);
        let federates = FederatesTables(self.federates);
        write!(
            f,
            "# saved by fedrun --stats\ncommand = \"{command}\"\n{status}{phases}{coordinator}{federates}"
        )
    }
}

// The table of the phases.
#[derive(Drop)]
struct PhasesTable(Phases);

impl fmt::Display for PhasesTable {
    ghost use Rattle.std.specs.Prelude.{Some};
    ghost use Rattle.files_stats.specs.Stats.{phases_text};

    ghost output = { λ table. Some (phases_text table.0) };

    fn fmt<W: fmt::Write>(&self, f: &mut fmt::Formatter<W>) -> fmt::Result {
        let loading = Line("loading", self.0.loading);
        let running = Line("running", self.0.running);
        let telling = Line("telling", self.0.telling);
        let ending = Line("ending", self.0.ending);
        write!(f, "\n[milliseconds]\n{loading}{running}{telling}{ending}")
    }
}
