ghost use Rattle.std.specs.Prelude.{◌≡◌};
ghost use Rattle.loadfed.specs.declared.fault.LoadFault.TheVariants.{Memory};
ghost use Rattle.loadfed.specs.Numbers.{number_of};

use loadfed_tables::TableFault;
use plan::{InputFault, PlanFault};
use plan_names::Text;
use reactor_program::ProgramFault;
use std::alloc::{AllocError, AllocFailed};
use std::fmt;

/// Why a file isn't taken. Nothing of it is kept. But for `Memory`, whoever wrote the file caused it: the caller prints
/// them, and may load the file again once it is changed.
#[derive(Debug, Drop)]
pub enum LoadFault {
    /// The bytes are no TOML document.
    NotToml,
    /// This key is missing or unknown, or has a value of another kind or form. Correct it.
    WrongShape(Text),
    /// What the file declares is no legal federation; the inner fault says why.
    Plan(PlanFault),
    /// What this federate's states and reactions say is no program; the inner fault says why.
    Program { federate: Text, fault: ProgramFault },
    /// A recorded input of a federate or a physical action that isn't there. Correct the name.
    UnknownAction,
    /// Two recorded inputs of one action at one tag. Leave one out, or give it another microstep.
    RepeatedInput,
    /// A file that is too long, or more states, reactions, lines or recorded inputs than there may be. Write fewer.
    OverLimit,
    /// An allocation failed, wherever it was: the machine caused it, and the file may be good. The same call may be
    /// made again.
    Memory,
}

impl LoadFault {
    /// The fault's number.
    pub fn number(&self) -> u16
        ensures { result ≡ number_of self.now }
    {
        match self {
            LoadFault::NotToml => 30,
            LoadFault::WrongShape(_) => 31,
            LoadFault::Plan(_) => 32,
            LoadFault::Program {
                federate: _,
                fault: _,
            } => 33,
            LoadFault::UnknownAction => InputFault::UnknownAction.number(),
            LoadFault::RepeatedInput => InputFault::RepeatedInput.number(),
            LoadFault::OverLimit => InputFault::OverLimit.number(),
            LoadFault::Memory => InputFault::Memory.number(),
        }
    }
}

impl fmt::Display for LoadFault {
    ghost use Rattle.std.specs.Prelude.{Some};
    ghost use Rattle.loadfed.specs.Numbers.{printed_fault};

    ghost output = { λ fault. Some (printed_fault fault) };

    fn fmt<W: fmt::Write>(&self, f: &mut fmt::Formatter<W>) -> fmt::Result {
        let number = self.number();
        match self {
            LoadFault::NotToml => write!(f, "{number} NotToml"),
            LoadFault::WrongShape(key) => {
                let key = key.as_str();
                write!(f, "{number} WrongShape {key}")
            }
            LoadFault::Plan(fault) => write!(f, "{fault}"),
            LoadFault::Program { federate, fault } => write!(f, "{}", fault.of(federate.as_str())),
            LoadFault::UnknownAction => write!(f, "{}", InputFault::UnknownAction),
            LoadFault::RepeatedInput => write!(f, "{}", InputFault::RepeatedInput),
            LoadFault::OverLimit => write!(f, "{}", InputFault::OverLimit),
            LoadFault::Memory => write!(f, "{}", InputFault::Memory),
        }
    }
}

impl From<TableFault> for LoadFault {
    ghost use Rattle.loadfed.specs.Errors.{fault_of_table};

    ghost from_gives = { λ fault made. made ≡ fault_of_table fault };

    fn from(fault: TableFault) -> LoadFault {
        match fault {
            TableFault::NotToml => LoadFault::NotToml,
            TableFault::WrongShape(key) => LoadFault::WrongShape(key),
            TableFault::OverLimit => LoadFault::OverLimit,
            TableFault::Memory => LoadFault::Memory,
        }
    }
}

impl From<AllocError> for LoadFault {
    ghost from_gives = { λ _ fault. fault ≡ Memory };

    fn from(_error: AllocError) -> LoadFault {
        LoadFault::Memory
    }
}

impl<T: Drop> From<AllocFailed<T>> for LoadFault {
    ghost from_gives = { λ _ fault. fault ≡ Memory };

    fn from(_failed: AllocFailed<T>) -> LoadFault {
        LoadFault::Memory
    }
}
