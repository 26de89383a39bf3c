ghost use Rattle.std.specs.Prelude.{◌≡◌};

use loadfed::LoadFault;
use plan::PlanFault;
use reactor_program::ProgramFault;
use std::fmt;

/// A fault of a file, with its line, which counts from 1, and what to do.
#[derive(Drop)]
pub struct Finding {
    pub line: usize,
    pub fault: LoadFault,
    /// What is wrong there, or what may be meant, where the fault alone doesn't say it; then a mark and a space.
    pub what: String,
    /// What to do.
    pub advice: &'static str,
}

impl Finding {
    /// The same, of this fault.
    pub(crate) fn of(self, fault: LoadFault) -> Finding
        ensures { result.fault ≡ fault }
    {
        let Finding {
            line,
            fault: _found,
            what,
            advice,
        } = self;
        Finding {
            line,
            fault,
            what,
            advice,
        }
    }
}

/// What to do about a fault of which nothing more is known.
pub(crate) fn advice_of(fault: &LoadFault) -> &'static str {
    match fault {
        LoadFault::NotToml => {
            "a text stands in quotes, entries and pairs are parted by commas, a key stands once in a table, and a number has at most 64 bits"
        }
        LoadFault::WrongShape(_) => "correct this key wherever it stands",
        LoadFault::Plan(fault) => advice_of_plan(fault),
        LoadFault::Program { federate: _, fault } => advice_of_program(*fault),
        LoadFault::UnknownAction => {
            "name a federate and one of its physical actions: no other name can be recorded"
        }
        LoadFault::RepeatedInput => {
            "one action has one value at a tag: leave one out, or give it another micro"
        }
        LoadFault::OverLimit => {
            "write fewer: 1,048,576 bytes of a federation, 8,388,608 of inputs, 65,536 inputs, 64 states and 64 reactions of a federate, 256 lines of a reaction"
        }
        LoadFault::Memory => "free memory, and try again",
    }
}

fn advice_of_plan(fault: &PlanFault) -> &'static str {
    match fault {
        PlanFault::NoFederate => "write at least one table [[federate]]",
        PlanFault::UnknownName(_) => {
            "declare the port, or correct the name: from is an output, to an input"
        }
        PlanFault::TwoSources(_) => {
            "an input has one source: leave one connection out, or declare a second input"
        }
        PlanFault::ZeroDelayCycle(_) => {
            "give one of the connections round these federates an after; \"0\" is enough"
        }
        PlanFault::OverLimit => {
            "write fewer: at most 64 federates, 1024 connections, and 32 of each list of names and timers of a federate"
        }
        PlanFault::BadTimer => "make the timer's offset and period shorter than 2^62 ns",
        PlanFault::Memory => "free memory, and try again",
        PlanFault::RepeatedName(_) => {
            "rename one of them: federates have different names, and so have all ports, timers and actions of one"
        }
    }
}

fn advice_of_program(fault: ProgramFault) -> &'static str {
    match fault {
        ProgramFault::BadLine { .. } => {
            "write X = A, X = A OP B, out.P = A or schedule C D A, each perhaps behind when A :, with spaces about = and OP, one OP a line, which is + - * min max < or ==; A is a whole number, a state, in.N or has.N, C an action, D a delay as 5 ms or 0"
        }
        ProgramFault::UnknownOperand {
            reaction: _,
            line: 0,
        } => {
            "a trigger is an input, a timer, an action or a physical action of this federate, or startup"
        }
        ProgramFault::UnknownOperand { .. } => {
            "declare the state, port, timer or action, or correct the name: in. and has. are of what comes in, out. of an output, and schedule of an action that isn't physical; a federate's names are its own"
        }
        ProgramFault::Memory => "free memory, and try again",
        ProgramFault::RepeatedState => "rename one of the states",
    }
}

/// Findings of the file of this name as they are printed, a line each.
#[derive(Drop)]
pub(crate) struct FindingLines<'a> {
    pub(crate) file: &'a str,
    pub(crate) findings: &'a [Finding],
}

impl fmt::Display for FindingLines<'_> {
    ghost use Rattle.std.specs.Prelude.{Some, flat_map};
    ghost use Rattle.fedrun_lint_findings.specs.Printed.{printed_finding};

    ghost output = { λ lines. Some (flat_map (printed_finding lines.file.now) lines.findings.now) };

    fn fmt<W: fmt::Write>(&self, f: &mut fmt::Formatter<W>) -> fmt::Result {
        let file = self.file;
        let findings = self.findings;
        for finding in findings {
            let line = FindingLine { file, finding };
            write!(f, "{line}")?;
        }
        Ok(())
    }
}

/// A finding of the file of this name as it is printed.
#[derive(Drop)]
pub(crate) struct FindingLine<'a> {
    pub(crate) file: &'a str,
    pub(crate) finding: &'a Finding,
}

impl fmt::Display for FindingLine<'_> {
    ghost use Rattle.std.specs.Prelude.{Some};
    ghost use Rattle.fedrun_lint_findings.specs.Printed.{printed_finding};

    ghost output = { λ line. Some (printed_finding line.file.now line.finding.now) };

    fn fmt<W: fmt::Write>(&self, f: &mut fmt::Formatter<W>) -> fmt::Result {
        let file = self.file;
        let line = self.finding.line;
        let fault = &self.finding.fault;
        let what = self.finding.what.as_str();
        let advice = self.finding.advice;
        write!(f, "{file}:{line}: wrong: {fault}: {what}{advice}\n")
    }
}
