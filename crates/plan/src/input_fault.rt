ghost use Rattle.std.specs.Prelude.{◌≡◌};
ghost use Rattle.plan.specs.declared.input_fault.InputFault.TheVariants.{Memory};
ghost use Rattle.plan.specs.InputFaults.{input_number_of, input_name_of};

use std::alloc::{AllocError, AllocFailed};
use std::fmt;

/// Why recorded inputs are refused. But for `Memory`, whoever recorded them caused it: the caller prints them, and may
/// check them again once they are changed. The plan stays as it is.
#[derive(Clone, Copy, Debug, PartialEq, Eq)]
pub enum InputFault {
    /// A federate that the plan hasn't, or no physical action of it. Correct the name.
    UnknownAction,
    /// Two inputs for one action at one tag. Leave one out, or give it another microstep.
    RepeatedInput,
    /// More inputs than there may be. Record fewer.
    OverLimit,
    /// An allocation failed: the machine caused it, and the inputs may be good. The same call may be made again.
    Memory,
}

impl InputFault {
    /// The fault's number.
    pub fn number(self) -> u16
        ensures { result ≡ input_number_of self }
    {
        match self {
            InputFault::UnknownAction => 34,
            InputFault::RepeatedInput => 35,
            InputFault::OverLimit => 36,
            InputFault::Memory => 37,
        }
    }

    fn name(self) -> &'static str
        ensures { result.now ≡ input_name_of self }
    {
        match self {
            InputFault::UnknownAction => "UnknownAction",
            InputFault::RepeatedInput => "RepeatedInput",
            InputFault::OverLimit => "OverLimit",
            InputFault::Memory => "Memory",
        }
    }
}

impl fmt::Display for InputFault {
    ghost use Rattle.std.specs.Prelude.{Some};
    ghost use Rattle.plan.specs.InputFaults.{printed_input_fault};

    ghost output = { λ fault. Some (printed_input_fault fault) };

    fn fmt<W: fmt::Write>(&self, f: &mut fmt::Formatter<W>) -> fmt::Result {
        write!(f, "{} {}", self.number(), self.name())
    }
}

impl From<AllocError> for InputFault {
    ghost from_gives = { λ _ e. e ≡ Memory };

    fn from(_error: AllocError) -> InputFault {
        InputFault::Memory
    }
}

impl<T: Drop> From<AllocFailed<T>> for InputFault {
    ghost from_gives = { λ _ e. e ≡ Memory };

    fn from(_error: AllocFailed<T>) -> InputFault {
        InputFault::Memory
    }
}
