//! What is wrong in a schedule: the fault that the reading of the whole file answers, and the further lines that are
//! refused by themselves.
ghost use Rattle.std.specs.Prelude.{◌≡◌, ◌<◌, length, IfOk};
ghost use Rattle.files_script.specs.declared.fault.ScriptFault.TheVariants.{OverLimit};
ghost use Rattle.fedrun_lint_schedule.specs.Refused.{AgreesOnSchedule, IsFirst};

use crate::bad_line::{Told, is_of_other_file, renamed, why_refused};
use crate::names::federate_names;
use crate::refusal::{ScheduleFinding, ScheduleRefusal};
use files_script::{MOST_BYTES, ScriptFault, read_script};
use loadfed::load;
use plan::Plan;
use std::alloc::{AllocError, Global};

/// The most lines that are told of a schedule.
const MOST_LINES: usize = 100;

/// A federation whose one federate stands for any where it isn't known which there are, and this federate's name.
const ANY_FEDERATION: &str = "stop = \"0\"\nfederate = [{ name = \"a\" }]";

const ANY_FEDERATE: &str = "a";

/// The bad lines of a schedule.
#[derive(Drop)]
struct BadLines {
    told: Vec<ScheduleFinding>,
    /// Whether there are more than are told.
    is_cut: bool,
}

impl BadLines {
    // All that there are.
    fn all(told: Vec<ScheduleFinding>) -> BadLines {
        BadLines {
            told,
            is_cut: false,
        }
    }
}

/// Why a schedule of this plan is refused, if it is.
pub fn look_at_schedule(
    alloc: Global,
    schedule: &[u8],
    plan: &Plan,
) -> Result<Option<ScheduleRefusal>, AllocError>
    ensures { IfOk result (AgreesOnSchedule plan.now schedule.now) }
{
    match read_script(alloc, schedule, plan) {
        Ok(_) => Ok(None),
        Err(ScriptFault::Memory) => Err(AllocError),
        Err(fault) => Ok(Some(refusal_of_schedule(alloc, schedule, plan, fault)?)),
    }
}

/// Why a schedule of this plan is refused that has this fault.
pub fn refusal_of_schedule(
    alloc: Global,
    schedule: &[u8],
    plan: &Plan,
    fault: ScriptFault,
) -> Result<ScheduleRefusal, AllocError>
    ensures { IfOk result (λ refusal. refusal.first.fault ≡ fault) }
{
    let federates = federate_names(alloc, plan)?;
    let reader = Reader {
        alloc,
        plan,
        federates: Some(federates.as_slice()),
    };
    let found = match fault {
        ScriptFault::OverLimit => BadLines::all(Vec::new(alloc)),
        _ => reader.bad_lines(schedule)?,
    };
    Ok(refusal_of(alloc, fault, found))
}

/// Why a schedule is refused whatever federates there are, if it is: for its length, or for lines of no form.
pub fn look_at_form(alloc: Global, schedule: &[u8]) -> Result<Option<ScheduleRefusal>, AllocError>
    ensures { MOST_BYTES < length schedule.now → IfOk result (IsFirst OverLimit) }
{
    if schedule.len() > MOST_BYTES {
        return Ok(Some(ScheduleRefusal::too_long(alloc)));
    }
    let Ok((plan, _programs)) = load(alloc, ANY_FEDERATION.as_bytes()) else {
        return Err(AllocError);
    };
    let reader = Reader {
        alloc,
        plan: &plan,
        federates: None,
    };
    let found = reader.bad_lines(schedule)?;
    Ok(refusal_if_any(alloc, found))
}

// Why a schedule is refused that has these bad lines.
fn refusal_if_any(alloc: Global, found: BadLines) -> Option<ScheduleRefusal> {
    let fault = found.told.first()?.fault;
    Some(refusal_of(alloc, fault, found))
}

// Why a schedule is refused that has this fault: it is told as that of the first bad line, and where there is none, as
// one of the whole file.
fn refusal_of(alloc: Global, fault: ScriptFault, found: BadLines) -> ScheduleRefusal
    ensures { result.first.fault ≡ fault }
{
    let BadLines {
        told: mut more,
        is_cut,
    } = found;
    let first = if more.is_empty() {
        ScheduleFinding::of_whole_file(alloc, fault)
    } else {
        more.remove(0).of(fault)
    };
    ScheduleRefusal {
        first,
        more,
        is_cut,
    }
}

/// What a line of a schedule is by itself.
#[derive(Clone, Copy, PartialEq, Eq)]
enum LineKind {
    Step,
    /// It is empty, or a comment.
    Idle,
    /// It is refused.
    Bad,
}

/// How the lines of a schedule are looked at, each by itself.
#[derive(Clone, Copy)]
struct Reader<'a> {
    alloc: Global,
    plan: &'a Plan,
    /// The names of the plan's federates; none where these aren't the schedule's, and any name may be that of one.
    federates: Option<&'a [&'a str]>,
}

impl Reader<'_> {
    // The lines that are bad, up to as many as are told; of a file that has no step and is TOML or UTF-16 up to the first
    // one of it.
    fn bad_lines(self, schedule: &[u8]) -> Result<BadLines, AllocError> {
        let has_step = self.has_step(schedule)?;
        let mut told = Vec::new(self.alloc);
        let mut number = 0usize;
        for line in schedule.split(|byte| *byte == b'\n') {
            number = number.saturating_add(1);
            if self.kind(line)? == LineKind::Bad {
                if told.len() >= MOST_LINES {
                    return Ok(BadLines { told, is_cut: true });
                }
                told.push(self.finding(number, line)?)?;
                if !has_step && is_of_other_file(line) {
                    return Ok(BadLines::all(told));
                }
            }
        }
        Ok(BadLines::all(told))
    }

    // Whether a line of a schedule is a step.
    fn has_step(self, schedule: &[u8]) -> Result<bool, AllocError> {
        for line in schedule.split(|byte| *byte == b'\n') {
            if self.kind(line)? == LineKind::Step {
                return Ok(true);
            }
        }
        Ok(false)
    }

    // What a line is, whoever is its federate where it isn't known which there are.
    fn kind(self, line: &[u8]) -> Result<LineKind, AllocError> {
        if self.federates.is_some() {
            return kind_of(self.alloc, line, self.plan);
        }
        let line = renamed(self.alloc, line, ANY_FEDERATE)?;
        kind_of(self.alloc, line.as_slice(), self.plan)
    }

    // What is told of the line of this number, which is bad.
    fn finding(self, number: usize, line: &[u8]) -> Result<ScheduleFinding, AllocError> {
        let Told { what, advice } = why_refused(self.alloc, line, self.federates)?;
        Ok(ScheduleFinding {
            fault: ScriptFault::ScheduleLine(number),
            what,
            advice,
        })
    }
}

// What a line is in a schedule of this plan.
fn kind_of(alloc: Global, line: &[u8], plan: &Plan) -> Result<LineKind, AllocError> {
    match read_script(alloc, line, plan) {
        Ok(script) if script.lines().is_empty() => Ok(LineKind::Idle),
        Ok(_) => Ok(LineKind::Step),
        Err(ScriptFault::Memory) => Err(AllocError),
        Err(_) => Ok(LineKind::Bad),
    }
}
