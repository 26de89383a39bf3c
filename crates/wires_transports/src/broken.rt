ghost use Rattle.std.specs.Prelude.{◌≡◌};

use std::fmt;

/// A call over a connection failed, and the connection counted it. Some of the bytes may have been handed over.
#[derive(Clone, Copy, Debug, PartialEq, Eq)]
pub struct Broken;

impl Broken {
    ghost use Rattle.wires_transports.specs.Fault.{broken_number};

    /// The number by which it is printed.
    pub const fn number(self) -> u16
        ensures { result ≡ broken_number }
    {
        95
    }
}

impl fmt::Display for Broken {
    ghost use Rattle.std.specs.Prelude.{Some};
    ghost use Rattle.wires_transports.specs.Fault.{broken_text};

    ghost output = { λ _. Some broken_text };

    fn fmt<W: fmt::Write>(&self, f: &mut fmt::Formatter<W>) -> fmt::Result {
        write!(f, "{} Broken", self.number())
    }
}

impl std::error::Error for Broken {}
