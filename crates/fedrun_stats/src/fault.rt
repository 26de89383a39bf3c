use fedrun_words::MoreFault;
use files_saving::SaveFault;
use std::fmt;

/// What was measured isn't saved in the file of this name, and the inner fault says why. It is printed as that of a
/// report is.
#[derive(Clone, Copy, Debug, PartialEq, Eq)]
pub struct StatsFault<'a> {
    pub name: &'a str,
    pub why: SaveFault,
}

impl MoreFault for StatsFault<'_> {
    ghost use Rattle.std.specs.Prelude.{refl};
    ghost use Rattle.fedrun_stats.specs.Fault.{stats_status, printed_stats_fault};

    ghost status_of = { stats_status };

    ghost printed_fault = { printed_stats_fault };

    fn status(&self) -> u8 {
        3
    }

    ghost displayed = { λ _. refl };
}

impl fmt::Display for StatsFault<'_> {
    ghost use Rattle.std.specs.Prelude.{Some};
    ghost use Rattle.fedrun_stats.specs.Fault.{printed_stats_fault};

    ghost output = { λ fault. Some (printed_stats_fault fault) };

    fn fmt<W: fmt::Write>(&self, f: &mut fmt::Formatter<W>) -> fmt::Result {
        let name = self.name;
        let why = self.why;
        write!(f, "120 Unsaved {name}: {why}")
    }
}
