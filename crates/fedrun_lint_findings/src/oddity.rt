ghost use Rattle.std.specs.Prelude.{◌≡◌};
ghost use Rattle.fedrun_lint_findings.specs.Oddities.{kind_of, advice_of};

use std::fmt;

/// What is odd about something.
#[derive(Clone, Copy)]
pub enum Why {
    /// No connection ends at an input.
    Unconnected,
    /// No connection begins at an output.
    Unread,
    /// A reaction has no body.
    WithoutBody,
    /// A timer's offset is later than stop.
    NeverFires,
    /// A recorded input is later than stop.
    NeverRuns,
    /// Another name differs from this one by case alone.
    Alike,
    /// A connection's delay is later than stop.
    NeverArrives,
    /// A line's delay is later than stop.
    NeverComes,
    /// No line schedules an action.
    NeverScheduled,
    /// No reaction is triggered by an action, and no line reads it.
    UnusedAction,
    /// The same of a timer.
    UnusedTimer,
    /// No line reads a state.
    UnusedState,
    /// A reaction has a trigger twice.
    TriggeredTwice,
    /// A line reads the value of a timer or of startup.
    ReadsNoValue,
}

impl Why {
    fn kind(self) -> &'static str
        ensures { result.now ≡ kind_of self }
    {
        match self {
            Why::Unconnected => "input",
            Why::Unread => "output",
            Why::WithoutBody => "reaction",
            Why::NeverFires => "timer",
            Why::NeverRuns => "recorded input of",
            Why::Alike => "name",
            Why::NeverArrives => "connection to",
            Why::NeverComes => "line",
            Why::NeverScheduled | Why::UnusedAction => "action",
            Why::UnusedTimer => "timer",
            Why::UnusedState => "state",
            Why::TriggeredTwice => "reaction",
            Why::ReadsNoValue => "line",
        }
    }

    fn advice(self) -> &'static str
        ensures { result.now ≡ advice_of self }
    {
        match self {
            Why::Unconnected => {
                "no connection ends here, so it is never present; connect an output to it, or leave it out"
            }
            Why::Unread => {
                "no connection begins here, so its values are in rows alone; connect it, or leave it so"
            }
            Why::WithoutBody => "it has no body, so it does nothing; write one, or leave it out",
            Why::NeverFires =>
                "its offset is later than stop, so it never fires; change one of them",
            Why::NeverRuns => "it is later than stop, so it never runs; change one of them",
            Why::Alike => "it differs from another by case alone; rename one of them",
            Why::NeverArrives =>
                "its delay is later than stop, so nothing arrives; change one of them",
            Why::NeverComes =>
                "its delay is later than stop, so what it schedules never comes; change one of them",
            Why::NeverScheduled =>
                "no line schedules it, so it is never present; schedule it, or leave it out",
            Why::UnusedAction =>
                "no reaction is triggered by it and no line reads it; use it, or leave it out",
            Why::UnusedTimer =>
                "no reaction is triggered by it and no line reads it; use it, or leave it out",
            Why::UnusedState => "no line reads it, so it changes nothing; read it, or leave it out",
            Why::TriggeredTwice => "one of its triggers stands there twice; leave one out",
            Why::ReadsNoValue =>
                "in. of a timer and of startup is always 0; write has. of it, or leave it out",
        }
    }
}

/// Something of a file that is taken, and is odd.
#[derive(Drop)]
pub struct Oddity {
    /// Whether it stands in the file of recorded inputs.
    pub is_recorded: bool,
    pub line: usize,
    /// What it is about: a federate, and one of its names or the number of a reaction.
    pub name: String,
    pub why: Why,
}

/// What is odd in files of these names as it is printed, a line each.
#[derive(Drop)]
pub struct OddityLines<'a> {
    /// The name of the federation file.
    pub federation: &'a str,
    /// The name of the file of recorded inputs.
    pub inputs: &'a str,
    pub odd: &'a [Oddity],
}

impl fmt::Display for OddityLines<'_> {
    ghost use Rattle.std.specs.Prelude.{Some, flat_map};
    ghost use Rattle.fedrun_lint_findings.specs.Printed.{printed_oddity};

    ghost output = { λ lines. Some (flat_map (printed_oddity lines.federation.now lines.inputs.now) lines.odd.now) };

    fn fmt<W: fmt::Write>(&self, f: &mut fmt::Formatter<W>) -> fmt::Result {
        let federation = self.federation;
        let inputs = self.inputs;
        let odd = self.odd;
        for oddity in odd {
            let line = OddityLine {
                federation,
                inputs,
                oddity,
            };
            write!(f, "{line}")?;
        }
        Ok(())
    }
}

/// Something odd in files of these names as it is printed.
#[derive(Drop)]
struct OddityLine<'a> {
    federation: &'a str,
    inputs: &'a str,
    oddity: &'a Oddity,
}

impl fmt::Display for OddityLine<'_> {
    ghost use Rattle.std.specs.Prelude.{Some};
    ghost use Rattle.fedrun_lint_findings.specs.Printed.{printed_oddity};

    ghost output = { λ line. Some (printed_oddity line.federation.now line.inputs.now line.oddity.now) };

    fn fmt<W: fmt::Write>(&self, f: &mut fmt::Formatter<W>) -> fmt::Result {
        let file = if self.oddity.is_recorded {
            self.inputs
        } else {
            self.federation
        };
        let line = self.oddity.line;
        let kind = self.oddity.why.kind();
        let name = self.oddity.name.as_str();
        let advice = self.oddity.why.advice();
        write!(f, "{file}:{line}: odd: {kind} {name}: {advice}\n")
    }
}
