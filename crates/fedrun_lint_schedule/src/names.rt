//! Names that there are.
ghost use Rattle.std.specs.Prelude.{◌≡◌, map, Contains, IfOk, IfSome};
ghost use Rattle.plan.specs.Federation.{federate_names};

use fedrun_lint_findings::few_edits;
use plan::Plan;
use std::alloc::{AllocError, Global};
use std::fmt;

/// The names of a plan's federates, in their order.
pub fn federate_names(alloc: Global, plan: &Plan) -> Result<Vec<&str>, AllocError>
    ensures { IfOk result (λ names. map (λ name. name.now) names.items ≡ federate_names plan.now.federates) }
{
    let federates = plan.federates();
    let mut names = Vec::new(alloc);
    for federate in federates {
        names.push(federate.name.as_str()).map_err(|_| AllocError)?;
    }
    Ok(names)
}

/// A name that isn't there, those that are, and which of them may be meant.
#[derive(Clone, Copy)]
pub struct NoSuchName<'a> {
    /// What has names.
    pub kind: &'static str,
    pub name: &'a str,
    pub meant: Option<&'a str>,
    pub names: &'a [&'a str],
}

impl fmt::Display for NoSuchName<'_> {
    fn fmt<W: fmt::Write>(&self, f: &mut fmt::Formatter<W>) -> fmt::Result {
        let kind = self.kind;
        let name = self.name;
        let names = Listed(self.names);
        match self.meant {
            Some(meant) => write!(
                f,
                "no {kind} {name}, did you mean {meant}? there are {names}"
            ),
            None => write!(f, "no {kind} {name}; there are {names}"),
        }
    }
}

// Names with commas between them.
#[derive(Drop)]
struct Listed<'a>(&'a [&'a str]);

impl fmt::Display for Listed<'_> {
    fn fmt<W: fmt::Write>(&self, f: &mut fmt::Formatter<W>) -> fmt::Result {
        let mut between = "";
        for name in self.0 {
            let name = *name;
            write!(f, "{between}{name}")?;
            between = ", ";
        }
        Ok(())
    }
}

/// Which of these names may be meant by one that isn't there: the one that is fewest edits away, if these are few.
pub fn meant_name<'a>(alloc: Global, wrong: &str, names: &[&'a str]) -> Option<&'a str>
    ensures { IfSome result (Contains names.now) }
{
    let mut meant = None;
    let mut fewest = usize::MAX;
    for name in names {
        if let Ok(Some(edits)) = few_edits(alloc, wrong, *name) {
            if edits < fewest {
                meant = Some(*name);
                fewest = edits;
            }
        }
    }
    meant
}
