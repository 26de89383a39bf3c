ghost use Rattle.std.specs.Prelude.{◌≡◌, map, IfOk, OnOk, IfErr, MatchOption};
ghost use Rattle.plan_names.specs.Naming.{AreDistinct, StandsTwice};
ghost use Rattle.plan_slots.specs.Numbering.{all_names};
ghost use Rattle.plan.specs.Federation.{federate_names};
ghost use Rattle.plan.specs.Faults.{StandsIn, HasDistinctNames};

use crate::PlanFault;
use crate::draft::{Draft, Federate};
use plan_names::{Text, push_names, repeated};
use plan_slots::Slots;
use std::alloc::{AllocError, Global};

fn names_of_federates<'a>(
    alloc: Global,
    federates: &'a [Federate],
) -> Result<Vec<&'a Text>, AllocError>
    ensures { IfOk result (λ v. map (λ n. n.now) v.items ≡ federate_names federates.now) }
{
    let mut names = Vec::new(alloc);
    push_names(&mut names, federates)?;
    Ok(names)
}

// The names of all slots and outputs.
#[tactic(auto, using(plan_names::proofs::Places::same_names))]
fn names_of_slots<'a>(alloc: Global, slots: &'a Slots) -> Result<Vec<&'a Text>, AllocError>
    ensures { IfOk result (λ v. map (λ n. n.now) v.items ≡ all_names slots.now) }
{
    let mut names = Vec::new(alloc);
    push_names(&mut names, slots.inputs.as_slice())?;
    push_names(&mut names, slots.outputs.as_slice())?;
    push_names(&mut names, slots.timers.as_slice())?;
    push_names(&mut names, slots.actions.as_slice())?;
    push_names(&mut names, slots.physical.as_slice())?;
    Ok(names)
}

fn repeated_federate(alloc: Global, federates: &[Federate]) -> Result<Option<Text>, AllocError>
    ensures { IfOk result (λ r. MatchOption r (AreDistinct (federate_names federates.now))
        (StandsTwice (federate_names federates.now))) }
{
    let names = names_of_federates(alloc, federates)?;
    repeated(names.as_slice())
}

fn repeated_slot(alloc: Global, slots: &Slots) -> Result<Option<Text>, AllocError>
    ensures { IfOk result (λ r. MatchOption r (AreDistinct (all_names slots.now)) (StandsTwice (all_names slots.now))) }
{
    let names = names_of_slots(alloc, slots)?;
    repeated(names.as_slice())
}

/// Refuses a draft in which a name is repeated.
pub(crate) fn refuse_repeated(alloc: Global, draft: &Draft) -> Result<(), PlanFault>
    ensures ok { OnOk result (HasDistinctNames draft.now) }
    ensures fault { IfErr result (StandsIn draft.now) }
{
    let federates = draft.federates.as_slice();
    if let Some(name) = repeated_federate(alloc, federates)? {
        return Err(PlanFault::RepeatedName(name));
    }
    for federate in federates {
        if let Some(name) = repeated_slot(alloc, &federate.slots)? {
            return Err(PlanFault::RepeatedName(name));
        }
    }
    Ok(())
}
