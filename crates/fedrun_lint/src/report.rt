ghost use Rattle.std.specs.Prelude.{◌≡◌, ◌↔◌, ◌⊎◌, IsTrue, IsSome};

use fedrun_lint_findings::{Oddity, OddityLines, Refusal, RefusalLines};
use std::fmt;

/// What there is to say of a federation file and a file of recorded inputs.
#[derive(Drop)]
pub struct Report {
    /// Why the federation file is refused, if it is.
    pub federation: Option<Refusal>,
    /// Why the file of recorded inputs is refused, if it is: of a refused federation for its shape alone.
    pub inputs: Option<Refusal>,
    /// What is odd, where both files are taken.
    pub odd: Vec<Oddity>,
}

impl Report {
    /// Whether something is wrong.
    pub fn is_wrong(&self) -> bool
        ensures { IsTrue result ↔ (IsSome self.now.federation ⊎ IsSome self.now.inputs) }
    {
        self.federation.is_some() || self.inputs.is_some()
    }

    /// The report as it is printed, of files of these names.
    pub fn lines<'a>(&'a self, federation: &'a str, inputs: &'a str) -> ReportLines<'a>
        ensures { (result.report ≡ self.entry) × (result.federation ≡ federation.entry)
            × (result.inputs ≡ inputs.entry) }
    {
        ReportLines {
            report: self,
            federation,
            inputs,
        }
    }
}

/// A report as it is printed: a line for each fault, and for each thing that is odd.
#[derive(Drop)]
pub struct ReportLines<'a> {
    pub report: &'a Report,
    /// The name of the federation file.
    pub federation: &'a str,
    /// The name of the file of recorded inputs.
    pub inputs: &'a str,
}

impl fmt::Display for ReportLines<'_> {
    ghost use Rattle.std.specs.Prelude.{Some};
    ghost use Rattle.fedrun_lint.specs.Printed.{printed_report};

    ghost output = { λ lines. Some (printed_report lines.federation.now lines.inputs.now lines.report.now) };

    fn fmt<W: fmt::Write>(&self, f: &mut fmt::Formatter<W>) -> fmt::Result {
        let federation = self.federation;
        let inputs = self.inputs;
        let of_federation = RefusalLines {
            file: federation,
            refusal: &self.report.federation,
        };
        let of_inputs = RefusalLines {
            file: inputs,
            refusal: &self.report.inputs,
        };
        let odd = OddityLines {
            federation,
            inputs,
            odd: self.report.odd.as_slice(),
        };
        write!(f, "{of_federation}{of_inputs}{odd}")
    }
}
