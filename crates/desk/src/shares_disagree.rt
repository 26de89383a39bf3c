ghost use Rattle.std.specs.Prelude.{◌≡◌};

use std::fmt;

/// The workers' shares aren't the journal: one is missing, or isn't of this desk. The desk is given up.
#[derive(Clone, Copy, Debug, PartialEq, Eq)]
pub struct SharesDisagree;

impl SharesDisagree {
    ghost use Rattle.desk.specs.Fault.{disagreement_number};

    /// The number by which it is printed.
    pub const fn number(self) -> u16
        ensures { result ≡ disagreement_number }
    {
        92
    }
}

impl fmt::Display for SharesDisagree {
    ghost use Rattle.std.specs.Prelude.{Some};
    ghost use Rattle.desk.specs.Fault.{disagreement_text};

    ghost output = { λ _. Some disagreement_text };

    fn fmt<W: fmt::Write>(&self, f: &mut fmt::Formatter<W>) -> fmt::Result {
        write!(f, "{} SharesDisagree", self.number())
    }
}

impl std::error::Error for SharesDisagree {}
