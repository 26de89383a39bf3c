//! What faults of the crates below are as faults of files.
ghost use Rattle.std.specs.Prelude.{◌≡◌, ◌⊎◌};
ghost use Rattle.loadfed.specs.Errors.{fault_of_plan, fault_of_inputs};

use crate::fault::LoadFault;
use plan::{InputFault, PlanFault};
use plan_names::Text;
use reactor_program::ProgramFault;

/// A fault of a plan, as a fault of a file.
pub fn of_plan(fault: PlanFault) -> LoadFault
    ensures { result ≡ fault_of_plan fault }
{
    match fault {
        PlanFault::Memory => LoadFault::Memory,
        fault => LoadFault::Plan(fault),
    }
}

/// A fault of a federate's program, as a fault of a file; without memory for the federate's name it is Memory.
pub fn of_program(federate: &Text, fault: ProgramFault) -> LoadFault
    ensures fault { (result ≡ LoadFault.Memory) ⊎ (result ≡ LoadFault.Program federate.now fault) }
    ensures memory { fault ≡ ProgramFault.Memory → result ≡ LoadFault.Memory }
{
    if let ProgramFault::Memory = fault {
        return LoadFault::Memory;
    }
    match federate.clone() {
        Ok(federate) => LoadFault::Program { federate, fault },
        Err(_) => LoadFault::Memory,
    }
}

/// A fault of recorded inputs, as a fault of a file.
pub fn of_inputs(fault: InputFault) -> LoadFault
    ensures { result ≡ fault_of_inputs fault }
{
    match fault {
        InputFault::UnknownAction => LoadFault::UnknownAction,
        InputFault::RepeatedInput => LoadFault::RepeatedInput,
        InputFault::OverLimit => LoadFault::OverLimit,
        InputFault::Memory => LoadFault::Memory,
    }
}
