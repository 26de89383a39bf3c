ghost use Rattle.std.specs.Prelude.{◌≡◌, ◌⊎◌, List, IfOk, IfErr, codes};
ghost use Rattle.plan.specs.declared.input.Input.{Input};
ghost use Rattle.plan.specs.External.{AreInputsOf};
ghost use Rattle.loadfed_tables.specs.Sections.{members_of};
ghost use Rattle.loadfed.specs.InputShape.{SaysInput, SaysInputs, HasInputFault, HasInputsFault, SaysInputFile};
ghost use Rattle.loadfed.specs.InputShape.{IsFaultOfInputs, IsInputLoading};

use crate::arrays::{FromTable, read_each};
use crate::errors::of_inputs;
use crate::fault::LoadFault;
use loadfed_tables::{Section, TableFault, document};
use plan::{Input, Inputs, Plan};
use std::alloc::Global;
use tag::FiniteTag;

/// The most bytes that an input file has.
pub const MOST_INPUT_BYTES: usize = 8_388_608;

/// The inputs of this plan that a file's bytes record. The first stage that has a fault answers: size, TOML, shape,
/// then an unknown action, a repeated input, and too many of them.
pub fn load_inputs(alloc: Global, bytes: &[u8], plan: &Plan) -> Result<Inputs, LoadFault>
    ensures outcome { IsInputLoading plan.now bytes.now result }

    // A file that records inputs of the plan is refused only for want of memory.
    ensures accepts { (inputs : List Input) → SaysInputFile bytes.now inputs → AreInputsOf plan.now inputs
        → IfErr result (λ fault. fault ≡ LoadFault.Memory) }
{
    load_stages(alloc, bytes, plan)
}

fn load_stages(alloc: Global, bytes: &[u8], plan: &Plan) -> Result<Inputs, LoadFault>
    ensures { IsInputLoading plan.now bytes.now result }
{
    if bytes.len() > MOST_INPUT_BYTES {
        return Err(LoadFault::OverLimit);
    }
    let table = document(alloc, bytes)?;
    let inputs = inputs_shape(alloc, &Section::new(alloc, &table))?;
    checked(alloc, plan, inputs)
}

fn checked(alloc: Global, plan: &Plan, inputs: Vec<Input>) -> Result<Inputs, LoadFault>
    ensures ok { IfOk result (λ checked. checked ≡ inputs.items) }
    ensures known { IfOk result (AreInputsOf plan.now) }
    ensures refused { IfErr result (λ fault. (fault ≡ LoadFault.Memory) ⊎ IsFaultOfInputs plan.now inputs.items fault) }
{
    match Inputs::check(alloc, plan, inputs) {
        Ok(inputs) => Ok(inputs),
        Err(fault) => Err(of_inputs(fault)),
    }
}

// The recorded inputs in a file's table.
fn inputs_shape(alloc: Global, file: &Section<'_>) -> Result<Vec<Input>, TableFault>
    ensures ok { IfOk result (λ inputs. SaysInputs (members_of file.now) inputs.items) }
    ensures refused { IfErr result (λ fault. (fault ≡ TableFault.Memory) ⊎ HasInputsFault (members_of file.now) fault) }
{
    file.has_only(&["input"])?;
    read_each(alloc, file, "input")
}

impl FromTable for Input {
    ghost says = { SaysInput };

    ghost has_fault = { HasInputFault };

    fn from_table(_alloc: Global, table: &Section<'_>) -> Result<Input, TableFault> {
        table.has_only(&["federate", "action", "time", "micro", "value"])?;
        let federate = table.copied_text("federate")?;
        let action = table.copied_text("action")?;
        let time = table.needed_duration("time")?;
        let microstep = table.microstep("micro")?;
        let value = table.needed_number("value")?;
        Ok(Input {
            federate,
            action,
            tag: FiniteTag::new(time, microstep),
            value,
        })
    }
}
