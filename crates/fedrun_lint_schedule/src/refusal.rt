ghost use Rattle.std.specs.Prelude.{◌≡◌};
ghost use Rattle.files_script.specs.declared.fault.ScriptFault.TheVariants.{OverLimit};
ghost use Rattle.fedrun_lint_schedule.specs.Printed.{line_of};

use files_script::ScriptFault;
use std::alloc::Global;
use std::fmt;

/// What to do about a schedule that is too long.
const WRITE_FEWER: &str = "write fewer lines: a schedule has at most 1,048,576 bytes";

/// A fault of a schedule, and why it is one.
#[derive(Drop)]
pub struct ScheduleFinding {
    pub fault: ScriptFault,
    /// What is wrong there, where that has to be told in its own words.
    pub what: String,
    /// What is wrong there, or what to do, where that is the same of all such.
    pub advice: &'static str,
}

impl ScheduleFinding {
    /// The same, of this fault.
    pub(crate) fn of(self, fault: ScriptFault) -> ScheduleFinding
        ensures { result.fault ≡ fault }
    {
        let ScheduleFinding {
            fault: _found,
            what,
            advice,
        } = self;
        ScheduleFinding {
            fault,
            what,
            advice,
        }
    }

    /// A fault of the whole file.
    pub(crate) fn of_whole_file(alloc: Global, fault: ScriptFault) -> ScheduleFinding
        ensures { result.fault ≡ fault }
    {
        ScheduleFinding {
            fault,
            what: String::new(alloc),
            advice: WRITE_FEWER,
        }
    }
}

/// Why a schedule is refused.
#[derive(Drop)]
pub struct ScheduleRefusal {
    /// What the reading of the whole file answers.
    pub first: ScheduleFinding,
    /// Further lines that spell no command.
    pub more: Vec<ScheduleFinding>,
    /// Whether there are more than these.
    pub is_cut: bool,
}

impl ScheduleRefusal {
    /// Why a schedule is refused that has more bytes than it may have, for whoever doesn't read such a file.
    pub fn too_long(alloc: Global) -> ScheduleRefusal
        ensures { result.first.fault ≡ OverLimit }
    {
        ScheduleRefusal {
            first: ScheduleFinding::of_whole_file(alloc, ScriptFault::OverLimit),
            more: Vec::new(alloc),
            is_cut: false,
        }
    }
}

/// The lines of a schedule of this name, if it is refused.
#[derive(Drop)]
pub struct ScheduleRefusalLines<'a> {
    pub file: &'a str,
    pub refusal: &'a Option<ScheduleRefusal>,
}

impl fmt::Display for ScheduleRefusalLines<'_> {
    ghost use Rattle.std.specs.Prelude.{Some};
    ghost use Rattle.fedrun_lint_schedule.specs.Printed.{printed_schedule_refusal};

    ghost output = { λ lines. Some (printed_schedule_refusal lines.file.now lines.refusal.now) };

    fn fmt<W: fmt::Write>(&self, f: &mut fmt::Formatter<W>) -> fmt::Result {
        let file = self.file;
        let Some(refusal) = self.refusal else {
            return Ok(());
        };
        let first = ScheduleFindingLine {
            file,
            finding: &refusal.first,
        };
        let more = ScheduleFindingLines {
            file,
            findings: refusal.more.as_slice(),
        };
        if refusal.is_cut {
            write!(
                f,
                "{first}{more}{file}:1: wrong: there may be more: correct these, and look again\n"
            )
        } else {
            write!(f, "{first}{more}")
        }
    }
}

/// Findings of the schedule of this name as they are printed, a line each.
#[derive(Drop)]
struct ScheduleFindingLines<'a> {
    file: &'a str,
    findings: &'a [ScheduleFinding],
}

impl fmt::Display for ScheduleFindingLines<'_> {
    ghost use Rattle.std.specs.Prelude.{Some, flat_map};
    ghost use Rattle.fedrun_lint_schedule.specs.Printed.{printed_schedule_finding};

    ghost output = { λ lines. Some (flat_map (printed_schedule_finding lines.file.now) lines.findings.now) };

    fn fmt<W: fmt::Write>(&self, f: &mut fmt::Formatter<W>) -> fmt::Result {
        let file = self.file;
        let findings = self.findings;
        for finding in findings {
            let line = ScheduleFindingLine { file, finding };
            write!(f, "{line}")?;
        }
        Ok(())
    }
}

/// A finding of the schedule of this name as it is printed.
#[derive(Drop)]
struct ScheduleFindingLine<'a> {
    file: &'a str,
    finding: &'a ScheduleFinding,
}

impl fmt::Display for ScheduleFindingLine<'_> {
    ghost use Rattle.std.specs.Prelude.{Some};
    ghost use Rattle.fedrun_lint_schedule.specs.Printed.{printed_schedule_finding};

    ghost output = { λ line. Some (printed_schedule_finding line.file.now line.finding.now) };

    fn fmt<W: fmt::Write>(&self, f: &mut fmt::Formatter<W>) -> fmt::Result {
        let file = self.file;
        let fault = self.finding.fault;
        let line = line_of(fault);
        let what = self.finding.what.as_str();
        let advice = self.finding.advice;
        write!(f, "{file}:{line}: wrong: {fault}: {what}{advice}\n")
    }
}

// The line at which a fault stands.
fn line_of(fault: ScriptFault) -> usize
    ensures { result ≡ line_of fault }
{
    match fault {
        ScriptFault::ScheduleLine(number) => number,
        ScriptFault::OverLimit | ScriptFault::Memory => 1,
    }
}
