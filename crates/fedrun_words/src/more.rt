use std::fmt;

/// Faults that a program has beside those of every program.
pub trait MoreFault: fmt::Display + Drop {
    ghost use Rattle.std.specs.Prelude.{◌≡◌, ◌≢◌, ◌≤◌, ℕ, List, Some};

    // The exit status that goes with each.
    ghost status_of: { Self → ℕ };

    // How each is printed.
    ghost printed_fault: { Self → List ℕ };

    /// The exit status that goes with it.
    fn status(&self) -> u8
        ensures status { result ≡ status_of self.now }
        ensures failure { result ≢ 0 }
        ensures statuses { result ≤ 3 };

    /// It is displayed as it is printed.
    ghost displayed: { (fault : Self) → Self.output fault ≡ Some (printed_fault fault) };
}

/// The fault of a program that has no more commands: the words are a command of another program. It is printed as words
/// are that are no command.
#[derive(Drop)]
pub struct NoSuchCommand;

impl MoreFault for NoSuchCommand {
    ghost use Rattle.std.specs.Prelude.{refl};
    ghost use Rattle.fedrun_words.specs.Usage.{usage_status, usage_text};

    ghost status_of = { λ _. usage_status };

    ghost printed_fault = { λ _. usage_text };

    fn status(&self) -> u8 {
        2
    }

    ghost displayed = { λ _. refl };
}

impl fmt::Display for NoSuchCommand {
    ghost use Rattle.std.specs.Prelude.{Some};
    ghost use Rattle.fedrun_words.specs.Usage.{usage_text};

    ghost output = { λ _. Some usage_text };

    fn fmt<W: fmt::Write>(&self, f: &mut fmt::Formatter<W>) -> fmt::Result {
        write!(f, "usage")
    }
}
