//! What there is to say of a schedule beside a federation file.
ghost use Rattle.std.specs.Prelude.{IfOk, option_copied};
ghost use Rattle.fedrun_lint.specs.Schedules.{IsScheduleReport, AgreesBeside, IsReportOnSchedule};
ghost use Rattle.fedrun_lint.specs.Answered.{given_schedule};

use crate::printing::NamedFile;
use fedrun_lint_schedule::{ScheduleRefusal, look_at_form, look_at_schedule};
use loadfed::{LoadFault, load};
use std::alloc::{AllocError, Global};

/// Why a schedule is refused beside a federation file, if there is one and it is; of both one that is too long has no
/// bytes here.
pub(crate) fn refusal_if_given(
    alloc: Global,
    federation: Option<&[u8]>,
    schedule: Option<NamedFile<'_>>,
) -> Result<Option<ScheduleRefusal>, AllocError>
    ensures { IfOk result (IsReportOnSchedule (given_schedule schedule.entry) (option_copied federation.entry)) }
{
    match schedule {
        Some(file) => refusal_beside(alloc, federation, file.bytes),
        None => Ok(None),
    }
}

// Why a schedule is refused beside a federation file, if it is.
fn refusal_beside(
    alloc: Global,
    federation: Option<&[u8]>,
    schedule: Option<&[u8]>,
) -> Result<Option<ScheduleRefusal>, AllocError>
    ensures { IfOk result (IsScheduleReport (option_copied schedule.entry) (option_copied federation.entry)) }
{
    let Some(schedule) = schedule else {
        return Ok(Some(ScheduleRefusal::too_long(alloc)));
    };
    match federation {
        Some(federation) => refusal_of_known(alloc, federation, schedule),
        None => look_at_form(alloc, schedule),
    }
}

// The same of files of which none is too long. Where the federation file is refused, it isn't known which federates
// there are.
#[tactic(auto, using(crate::proofs::Schedules::beside_taken))]
fn refusal_of_known(
    alloc: Global,
    federation: &[u8],
    schedule: &[u8],
) -> Result<Option<ScheduleRefusal>, AllocError>
    ensures { IfOk result (AgreesBeside schedule.now federation.now) }
{
    match load(alloc, federation) {
        Ok((plan, _programs)) => look_at_schedule(alloc, schedule, &plan),
        Err(LoadFault::Memory) => Err(AllocError),
        Err(_) => look_at_form(alloc, schedule),
    }
}
