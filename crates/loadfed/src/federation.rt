ghost use Rattle.std.specs.Prelude.{◌≡◌, ◌⊎◌, List, IfOk, IfErr, OnOk};
ghost use Rattle.loadfed.specs.Ready.{AreReady};
ghost use Rattle.plan.specs.declared.draft.Draft.{Draft};
ghost use Rattle.plan.specs.Legal.{IsLegal};
ghost use Rattle.reactor_program.specs.Behaviour.{Behaviour};
ghost use Rattle.reactor_programs.specs.Programs.{AreProgramsOf};
ghost use Rattle.reactor_program.specs.Spelled.{SpellsProgram, IsReadable};
ghost use Rattle.loadfed.specs.Loaded.{SpellPrograms, IsFederationFile, IsPlanFault, IsProgramFault, IsFaultAmong};
ghost use Rattle.loadfed.specs.Loaded.{IsLoading};

use crate::errors::{of_plan, of_program};
use crate::fault::LoadFault;
use crate::federation_shape::{Shape, federation_shape};
use crate::program_draft::ProgramDraft;
use loadfed_tables::{Section, document};
use plan::{Draft, Federate, Plan};
use reactor_program::Program;
use reactor_programs::Programs;
use std::alloc::Global;

/// The most bytes that a federation file has.
pub const MOST_BYTES: usize = 1_048_576;

/// The federation that a file's bytes spell. The first stage that has a fault answers: size, TOML, shape, plan,
/// programs.
pub fn load(alloc: Global, bytes: &[u8]) -> Result<(Plan, Programs), LoadFault>
    ensures outcome { IsLoading bytes.now result }

    // A file that is a federation is refused only for want of memory.
    ensures accepts { (d : Draft) (programs : List Behaviour) → IsFederationFile bytes.now d programs
        → IfErr result (λ fault. fault ≡ LoadFault.Memory) }
{
    load_stages(alloc, bytes)
}

fn load_stages(alloc: Global, bytes: &[u8]) -> Result<(Plan, Programs), LoadFault>
    ensures { IsLoading bytes.now result }
{
    if bytes.len() > MOST_BYTES {
        return Err(LoadFault::OverLimit);
    }
    let table = document(alloc, bytes)?;
    let shape = federation_shape(alloc, &Section::new(alloc, &table))?;
    plan_and_programs(alloc, shape)
}

// The plan of what a file declares, and its programs.
fn plan_and_programs(alloc: Global, shape: Shape) -> Result<(Plan, Programs), LoadFault>
    requires { AreReady shape.draft.federates shape.programs.items }
    ensures plan { IfOk result (λ loaded. loaded.0 ≡ shape.draft) }
    ensures legal { OnOk result (IsLegal shape.draft) }
    ensures spelled { IfOk result (λ loaded. SpellPrograms shape.draft.federates shape.programs.items loaded.1) }
    ensures programs { IfOk result (λ loaded. AreProgramsOf loaded.0 loaded.1) }
    ensures refused { IfErr result
        (λ fault. (fault ≡ LoadFault.Memory)
        ⊎ (IsPlanFault shape.draft fault
        ⊎ (IsLegal shape.draft × IsFaultAmong shape.draft.federates shape.programs.items fault))) }
{
    let Shape { draft, programs } = shape;
    let plan = plan_of(alloc, draft)?;
    // For the prover: the plan is legal.
    plan.invariant();
    let programs = programs_of(alloc, &plan, programs)?;
    match Programs::new(&plan, programs) {
        Some(programs) => Ok((plan, programs)),
        None => unreachable!(),
    }
}

fn plan_of(alloc: Global, draft: Draft) -> Result<Plan, LoadFault>
    ensures ok { IfOk result (λ plan. plan ≡ draft) }
    ensures legal { OnOk result (IsLegal draft) }
    ensures refused { IfErr result (λ fault. (fault ≡ LoadFault.Memory) ⊎ IsPlanFault draft fault) }
{
    match Plan::check(alloc, draft) {
        Ok(plan) => Ok(plan),
        Err(fault) => Err(of_plan(fault)),
    }
}

// The program of each federate, in their order.
fn programs_of(
    alloc: Global,
    plan: &Plan,
    shapes: Vec<ProgramDraft>,
) -> Result<Vec<Program>, LoadFault>
    requires { AreReady plan.now.federates shapes.items }
    ensures ok { IfOk result (λ programs. SpellPrograms plan.now.federates shapes.items programs.items) }
    ensures refused { IfErr result
        (λ fault. (fault ≡ LoadFault.Memory) ⊎ IsFaultAmong plan.now.federates shapes.items fault) }
{
    // For the prover: the plan is legal.
    plan.invariant();
    let federates = plan.federates();
    let mut programs = Vec::new(alloc);
    let mut shapes = shapes.into_iter();
    for federate in federates {
        match shapes.next() {
            Some(shape) => {
                let program = program(alloc, federate, shape)?;
                programs.push(program)?;
            }
            None => unreachable!(),
        }
    }
    Ok(programs)
}

fn program(alloc: Global, federate: &Federate, shape: ProgramDraft) -> Result<Program, LoadFault>
    requires { IsReadable federate.now.slots shape.states shape.reactions }
    ensures ok { IfOk result (SpellsProgram federate.now.slots shape.states shape.reactions) }
    ensures refused { IfErr result (λ fault. (fault ≡ LoadFault.Memory) ⊎ IsProgramFault federate.now shape fault) }
{
    let (states, reactions) = shape.into_parts();
    match Program::parse(alloc, &federate.slots, states, reactions.as_slice()) {
        Ok(program) => Ok(program),
        Err(fault) => Err(of_program(&federate.name, fault)),
    }
}
