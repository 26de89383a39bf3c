use fedrun_words::MoreFault;
use files_saving::SaveFault;
use std::fmt;

/// Why a source isn't expanded, or what it becomes isn't saved.
#[derive(Drop)]
pub enum ExpandFailure {
    /// The source has a mistake: its name, the line, and what is wrong there. Nothing was printed or saved.
    Unexpanded(String),
    /// The file of this name isn't saved, and the inner fault says why. Those that were saved before stand.
    Unsaved(String, SaveFault),
}

impl MoreFault for ExpandFailure {
    ghost use Rattle.std.specs.Prelude.{refl};
    ghost use Rattle.fedrun_expand.specs.Faults.{expand_status, printed_expand_fault};

    ghost status_of = { expand_status };

    ghost printed_fault = { printed_expand_fault };

    fn status(&self) -> u8 {
        match self {
            ExpandFailure::Unexpanded(_) => 1,
            ExpandFailure::Unsaved(_, _) => 3,
        }
    }

    ghost displayed = { λ _. refl };
}

impl fmt::Display for ExpandFailure {
    ghost use Rattle.std.specs.Prelude.{Some};
    ghost use Rattle.fedrun_expand.specs.Faults.{printed_expand_fault};

    ghost output = { λ fault. Some (printed_expand_fault fault) };

    fn fmt<W: fmt::Write>(&self, f: &mut fmt::Formatter<W>) -> fmt::Result {
        match self {
            ExpandFailure::Unexpanded(why) => write!(f, "{why}"),
            ExpandFailure::Unsaved(name, fault) => write!(f, "{name}: {fault}"),
        }
    }
}
