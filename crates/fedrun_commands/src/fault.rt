ghost use Rattle.std.specs.Prelude.{◌≡◌};
ghost use Rattle.fedrun_commands.specs.Faults.{drawing_status};

use fedrun_draw::DrawFault;
use fedrun_reports::NodeFileFault;
use fedrun_run::AuditFailure;
use fedrun_words::MoreFault;
use files_script::ScriptFault;
use std::fmt;
use wires::Cause;

/// Why a command of nodes isn't done: those faults that `whole` and `check` don't have. What a library answered is kept
/// as it is, and printed as the library has it.
#[derive(Drop)]
pub enum NodeFault<'a> {
    /// The schedule isn't taken, and the inner fault says why. Nothing was printed.
    Schedule(ScriptFault),
    /// No memory for a step of a schedule. What was printed of the steps before it stands. The same command may be
    /// given again, with fewer steps.
    World(world_stations::Memory),
    /// The picture isn't drawn, and the inner fault says why. Nothing was printed.
    Undrawn(DrawFault),
    /// Something is wrong in the files that were looked at. What it is was printed.
    NotTaken,
    /// The report or log of this name isn't taken, and the inner fault says why. Nothing was printed.
    ReportFile(&'a str, NodeFileFault),
    /// The coordinator of a run isn't finished, for this cause. Nothing was printed. The same command may be given
    /// again, with more turns where these were used up.
    NotFinished(Cause),
    /// An audit doesn't believe what a run's nodes reported, and the inner failure says why. Nothing was printed.
    Unproved(AuditFailure),
    /// No memory for a run's nodes, workers or reports. Nothing was printed. The same command may be given again.
    Run(desk::Memory),
}

impl MoreFault for NodeFault<'_> {
    ghost use Rattle.std.specs.Prelude.{refl};
    ghost use Rattle.fedrun_commands.specs.Faults.{node_status, printed_node_fault};

    ghost status_of = { node_status };

    ghost printed_fault = { printed_node_fault };

    fn status(&self) -> u8 {
        match self {
            NodeFault::Schedule(_) | NodeFault::NotTaken | NodeFault::ReportFile(_, _) => 1,
            NodeFault::Undrawn(fault) => drawing_status(fault),
            NodeFault::World(_)
            | NodeFault::NotFinished(_)
            | NodeFault::Unproved(_)
            | NodeFault::Run(_) => 3,
        }
    }

    ghost displayed = { λ _. refl };
}

impl fmt::Display for NodeFault<'_> {
    ghost use Rattle.std.specs.Prelude.{Some};
    ghost use Rattle.fedrun_commands.specs.Faults.{printed_node_fault};

    ghost output = { λ fault. Some (printed_node_fault fault) };

    fn fmt<W: fmt::Write>(&self, f: &mut fmt::Formatter<W>) -> fmt::Result {
        match self {
            NodeFault::Schedule(fault) => write!(f, "{fault}"),
            NodeFault::World(memory) => write!(f, "{memory}"),
            NodeFault::Undrawn(fault) => write!(f, "{fault}"),
            NodeFault::NotTaken => write!(f, "not taken"),
            NodeFault::ReportFile(name, fault) => write!(f, "{name}: {fault}"),
            NodeFault::NotFinished(_) => write!(f, "not finished"),
            NodeFault::Unproved(failure) => write!(f, "{failure}"),
            NodeFault::Run(memory) => write!(f, "{memory}"),
        }
    }
}

// The exit status where a picture isn't drawn: 1 where it would be too great.
fn drawing_status(fault: &DrawFault) -> u8
    ensures { result ≡ drawing_status fault.now }
{
    match fault {
        DrawFault::TooManySteps(_) | DrawFault::TooManyFrames(_) => 1,
        DrawFault::Memory | DrawFault::CannotWrite => 3,
    }
}
