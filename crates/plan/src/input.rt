ghost use Rattle.std.specs.Prelude.{◌≡◌, ◌≢◌, ◌<◌, ◌≤◌, ◌↔◌, ◌⊎◌, map, length, All, AllPairs, Any, IsSome, IsTrue};
ghost use Rattle.std.specs.Prelude.{Some, OnOk, IfOk, IfErr, Err};
ghost use Rattle.tag.specs.LogicalTime.{IsFinite};
ghost use Rattle.plan.specs.External.{found_action, AreForDifferentActions};
ghost use Rattle.plan.specs.declared.input.TheConstants.{MOST_INPUTS};
ghost use Rattle.plan.specs.Occurrences.{occurrence_of};

use crate::InputFault;
use crate::draft::Federate;
use crate::lookup::found_action;
use crate::plan::Plan;
use indexmap::IndexSet;
use plan_names::Text;
use std::alloc::{AllocError, Global};
use std::marker::Model;
use tag::FiniteTag;

/// Of a federation.
pub const MOST_INPUTS: usize = 65_536;

/// A recorded input: a physical action of a federate, both by name, with the tag at which it is present and its value
/// there.
#[derive(Drop)]
pub struct Input {
    pub federate: Text,
    pub action: Text,
    pub tag: FiniteTag,
    pub value: i64,
}

/// The recorded inputs of a federation. Contracts see the list of them.
#[derive(Drop)]
pub struct Inputs {
    inputs: Vec<Input>,
}

impl Model for Inputs {
    ghost use Rattle.std.specs.Prelude.{List};
    ghost use Rattle.plan.specs.declared.input.Input.{Input};

    ghost Value = { List Input };

    ghost view = { λ i. i.inputs.items };
}

impl Inputs {
    ghost use Rattle.plan.specs.External.{AreInputsOf};

    /// Takes recorded inputs of a plan: of their faults it answers an unknown action first, then a repeated input, then
    /// that there are too many.
    #[tactic(auto, using(crate::proofs::Occurrences::some_known))]
    pub fn check(alloc: Global, plan: &Plan, inputs: Vec<Input>) -> Result<Inputs, InputFault>
        ensures ok { IfOk result (λ checked. checked ≡ inputs.items) }
        ensures known { OnOk result (AreInputsOf plan.now inputs.items) }

        // Inputs that are all right are refused only for want of memory.
        ensures accepts { AreInputsOf plan.now inputs.items → IfErr result (λ e. e ≡ InputFault.Memory) }
        ensures unknown { result ≡ Err InputFault.UnknownAction
            → ¬ (All (λ i. IsSome (found_action plan.now.federates i)) inputs.items) }
        ensures repeated { result ≡ Err InputFault.RepeatedInput
            → All (λ i. IsSome (found_action plan.now.federates i)) inputs.items
            × ¬ (AllPairs AreForDifferentActions inputs.items) }
        ensures over { result ≡ Err InputFault.OverLimit
            → All (λ i. IsSome (found_action plan.now.federates i)) inputs.items
            × AllPairs AreForDifferentActions inputs.items
            × ¬ (length inputs.items ≤ MOST_INPUTS) }

        // Where no input's action is there, nothing has to be kept.
        ensures memory { result ≡ Err InputFault.Memory
            → Any (λ i. IsSome (found_action plan.now.federates i)) inputs.items }
    {
        let occurrences = occurrences(alloc, plan.federates(), inputs.as_slice())?;
        if !are_distinct(alloc, occurrences.as_slice())? {
            return Err(InputFault::RepeatedInput);
        }
        if inputs.len() > MOST_INPUTS {
            return Err(InputFault::OverLimit);
        }
        // For the prover: their tags are finite.
        know_tags(inputs.as_slice());
        Ok(Inputs { inputs })
    }

    pub fn as_slice(&self) -> &[Input]
        ensures { result.now ≡ self.now }
    {
        self.inputs.as_slice()
    }
}

// For the prover: no recorded input is at FOREVER.
fn know_tags(inputs: &[Input])
    ensures { All (λ i. IsFinite i.tag) inputs.now }
{
    for input in inputs {
        input.tag.invariant();
    }
}

/// An occurrence of a physical action: its federate's number, its place among that federate's, and a tag.
#[derive(Clone, Copy, PartialEq, Eq, Hash)]
struct Occurrence {
    federate: usize,
    place: usize,
    tag: FiniteTag,
}

// The occurrence that each input is.
fn occurrences(
    alloc: Global,
    federates: &[Federate],
    inputs: &[Input],
) -> Result<Vec<Occurrence>, InputFault>
    ensures ok { IfOk result (λ found. map (λ o. Some o) found.items ≡ map (occurrence_of federates.now) inputs.now) }
    ensures unknown { result ≡ Err InputFault.UnknownAction
        → ¬ (All (λ i. IsSome (found_action federates.now i)) inputs.now) }
    ensures fault { IfErr result (λ e. (e ≡ InputFault.UnknownAction) ⊎ (e ≡ InputFault.Memory)) }
    ensures memory { result ≡ Err InputFault.Memory → Any (λ i. IsSome (found_action federates.now i)) inputs.now }
{
    let mut occurrences = Vec::new(alloc);
    for input in inputs {
        let Some(found) = found_action(federates, input) else {
            return Err(InputFault::UnknownAction);
        };
        occurrences.push(Occurrence {
            federate: found.federate,
            place: found.place,
            tag: input.tag,
        })?;
    }
    Ok(occurrences)
}

// Whether none of them is there twice.
fn are_distinct(alloc: Global, occurrences: &[Occurrence]) -> Result<bool, AllocError>
    ensures distinct { IfOk result (λ distinct. IsTrue distinct ↔ AllPairs (λ a b. a ≢ b) occurrences.now) }
    ensures memory { IfErr result (λ _. 0 < length occurrences.now) }
{
    if occurrences.is_empty() {
        return Ok(true);
    }
    let distinct: IndexSet<Occurrence> = occurrences.iter().copied().collect(alloc)?;
    Ok(distinct.len() == occurrences.len())
}
