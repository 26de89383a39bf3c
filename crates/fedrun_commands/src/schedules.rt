ghost use Rattle.std.specs.Prelude.{◌≡◌, [], ◌∷◌, OnOk, IfOk, IfErr};
ghost use Rattle.fedrun_files.specs.Answers.{Answers, given};
ghost use Rattle.fedrun_commands.specs.Faults.{status_of};
ghost use Rattle.fedrun_commands.specs.Refused.{IsScheduleFault};
ghost use Rattle.fedrun_commands.specs.Schedules.{IsSchedule};

use crate::fault::NodeFault;
use fedrun_files::{Files, bytes_of};
use fedrun_words::Fault;
use files_script::{MOST_BYTES, Script, read_script};
use plan::Plan;
use std::alloc::Global;

/// The schedule in a file, of the plan's federates.
pub(crate) fn read_schedule<'a, F: Files>(
    alloc: Global,
    name: &'a str,
    plan: &Plan,
    files: &mut F,
) -> Result<Script, Fault<'a, NodeFault<'a>>>
    ensures asked { OnOk result (Answers (F.answers files.old) (F.answers files.new) (given name.entry.now ∷ [])) }
    ensures ok { IfOk result (IsSchedule (F.contents files.old name.entry.now) plan.now) }
    ensures err { IfErr result (IsScheduleFault plan.now name.entry (F.contents files.old)
        (Answers (F.answers files.old) (F.answers files.new))) }
    ensures early { IfErr result (λ fault. status_of fault ≡ 1) }
{
    let bytes = match bytes_of(name, files, MOST_BYTES) {
        Ok(bytes) => bytes,
        Err(fault) => return Err(fault),
    };
    match read_script(alloc, bytes.as_slice(), plan) {
        Ok(script) => Ok(script),
        Err(fault) => Err(Fault::More(NodeFault::Schedule(fault))),
    }
}
