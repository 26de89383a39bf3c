use fedrun_words::MoreFault;
use std::fmt;

/// Something is wrong in a source that was looked at, or in the inputs beside it. What it is was printed.
#[derive(Drop)]
pub struct NotTaken;

impl MoreFault for NotTaken {
    ghost use Rattle.std.specs.Prelude.{refl};
    ghost use Rattle.fedrun_lint_source.specs.Faults.{not_taken_status, not_taken_text};

    ghost status_of = { not_taken_status };

    ghost printed_fault = { not_taken_text };

    fn status(&self) -> u8 {
        1
    }

    ghost displayed = { λ _. refl };
}

impl fmt::Display for NotTaken {
    ghost use Rattle.std.specs.Prelude.{Some};
    ghost use Rattle.fedrun_lint_source.specs.Faults.{not_taken_text};

    ghost output = { λ fault. Some (not_taken_text fault) };

    fn fmt<W: fmt::Write>(&self, f: &mut fmt::Formatter<W>) -> fmt::Result {
        write!(f, "not taken")
    }
}
