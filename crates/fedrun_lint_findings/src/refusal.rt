ghost use Rattle.std.specs.Prelude.{◌≡◌};
ghost use Rattle.loadfed.specs.declared.fault.LoadFault.TheVariants.{OverLimit};

use crate::finding::{Finding, FindingLine, FindingLines, advice_of};
use loadfed::LoadFault;
use std::alloc::Global;
use std::fmt;

/// Why a file is refused.
#[derive(Drop)]
pub struct Refusal {
    /// What the loader answers of the whole file.
    pub first: Finding,
    /// Further faults.
    pub more: Vec<Finding>,
    /// Whether there may be more than these.
    pub is_cut: bool,
}

impl Refusal {
    /// Why a file is refused that has more bytes than it may have, for whoever doesn't read such a file.
    pub fn too_long(alloc: Global) -> Refusal
        ensures { result.first.fault ≡ OverLimit }
    {
        let fault = LoadFault::OverLimit;
        let advice = advice_of(&fault);
        Refusal {
            first: Finding {
                line: 1,
                fault,
                what: String::new(alloc),
                advice,
            },
            more: Vec::new(alloc),
            is_cut: false,
        }
    }
}

/// The lines of a file of this name, if it is refused.
#[derive(Drop)]
pub struct RefusalLines<'a> {
    pub file: &'a str,
    pub refusal: &'a Option<Refusal>,
}

impl fmt::Display for RefusalLines<'_> {
    ghost use Rattle.std.specs.Prelude.{Some};
    ghost use Rattle.fedrun_lint_findings.specs.Printed.{printed_refusal};

    ghost output = { λ lines. Some (printed_refusal lines.file.now lines.refusal.now) };

    fn fmt<W: fmt::Write>(&self, f: &mut fmt::Formatter<W>) -> fmt::Result {
        let file = self.file;
        let Some(refusal) = self.refusal else {
            return Ok(());
        };
        let first = FindingLine {
            file,
            finding: &refusal.first,
        };
        let more = FindingLines {
            file,
            findings: refusal.more.as_slice(),
        };
        if refusal.is_cut {
            write!(
                f,
                "{first}{more}{file}:1: wrong: there may be more: correct these, and look again\n"
            )
        } else {
            write!(f, "{first}{more}")
        }
    }
}
