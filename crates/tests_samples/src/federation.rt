//! A federation to run, loaded from its two files.
use loadfed::{LoadFault, load, load_inputs};
use plan::{Inputs, Plan};
use reactor_programs::Programs;
use std::alloc::Global;
use std::marker::Model;

/// A plan, its programs and its recorded inputs. Contracts see the plan.
#[derive(Drop)]
pub struct Federation {
    plan: Plan,
    programs: Programs,
    inputs: Inputs,
}

impl Model for Federation {
    ghost use Rattle.plan.specs.declared.draft.Draft.{Draft};
    ghost use Rattle.plan.specs.External.{AreInputsOf};
    ghost use Rattle.reactor_programs.specs.Programs.{AreProgramsOf};

    ghost Value = { Draft };

    ghost view = { λ f. f.plan };

    ghost invariant = { λ f. AreProgramsOf f.plan f.programs × AreInputsOf f.plan f.inputs };
}

impl Federation {
    ghost use Rattle.std.specs.Prelude.{◌≡◌};
    ghost use Rattle.plan.specs.External.{AreInputsOf};
    ghost use Rattle.reactor_programs.specs.Programs.{AreProgramsOf};

    /// Its plan.
    pub fn plan(&self) -> &Plan
        ensures { result.now ≡ self.now }
    {
        &self.plan
    }

    /// The program of each federate.
    pub fn programs(&self) -> &Programs
        ensures { AreProgramsOf self.now result.now }
    {
        &self.programs
    }

    /// What comes from outside.
    pub fn inputs(&self) -> &Inputs
        ensures { AreInputsOf self.now result.now }
    {
        &self.inputs
    }
}

/// The federation of a file and its input file.
pub fn load_both(alloc: Global, federation: &str, inputs: &str) -> Result<Federation, LoadFault> {
    let (plan, programs) = load(alloc, federation.as_bytes())?;
    let inputs = load_inputs(alloc, inputs.as_bytes(), &plan)?;
    Ok(Federation {
        plan,
        programs,
        inputs,
    })
}

/// The same; None where it can't be loaded.
pub fn loaded(alloc: Global, federation: &str, inputs: &str) -> Option<Federation> {
    load_both(alloc, federation, inputs).ok()
}

/// What is seen of the federation of a file and its input file by whoever is lent it; None where it can't be loaded.
/// Who owns a federation lets all of it go on each way out, which is dear to prove: so tests are lent one.
pub fn with_loaded<S, F: FnOnce(&Federation) -> Option<S>>(
    alloc: Global,
    federation: &str,
    inputs: &str,
    look: F,
) -> Option<S>
    requires { F.IsAlwaysCallable look }
{
    match loaded(alloc, federation, inputs) {
        Some(federation) => look(&federation),
        None => None,
    }
}
