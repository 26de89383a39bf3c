ghost use Rattle.std.specs.Prelude.{◌≡◌};
ghost use Rattle.plan.specs.declared.plan_fault.PlanFault.TheVariants.{Memory};
ghost use Rattle.plan.specs.PlanFaults.{number_of, name_of};

use plan_names::{Names, PortName, Text};
use std::alloc::{AllocError, AllocFailed};
use std::fmt;

/// Why a draft is refused. Nothing of it is kept. But for `Memory`, whoever wrote the draft caused it: the caller
/// prints them, and may check the draft again once it is changed.
#[derive(Debug, Drop)]
pub enum PlanFault {
    /// The draft has no federate; it needs at least one.
    NoFederate,
    /// A connection names this port, and it isn't there. Declare it, or correct the name.
    UnknownName(PortName),
    /// Two connections go to this input port. Leave one out, or declare a second port.
    TwoSources(PortName),
    /// Zero-delay connections lead round through these federates, in the cycle's order, from the lowest number on. Give
    /// one of the connections a delay.
    ZeroDelayCycle(Names),
    /// More federates, connections or slots than there may be. Make the federation smaller.
    OverLimit,
    /// An offset or period of 2^62 ns or more. Make it shorter.
    BadTimer,
    /// An allocation failed: the machine caused it, and the draft may be good. The same call may be made again.
    Memory,
    /// Two federates, or two slots of one federate, have this name. Rename one of them.
    RepeatedName(Text),
}

impl PlanFault {
    /// The fault's number.
    pub fn number(&self) -> u16
        ensures { result ≡ number_of self.now }
    {
        match self {
            PlanFault::NoFederate => 10,
            PlanFault::UnknownName(_) => 11,
            PlanFault::TwoSources(_) => 12,
            PlanFault::ZeroDelayCycle(_) => 13,
            PlanFault::OverLimit => 14,
            PlanFault::BadTimer => 15,
            PlanFault::Memory => 16,
            PlanFault::RepeatedName(_) => 17,
        }
    }

    fn name(&self) -> &'static str
        ensures { result.now ≡ name_of self.now }
    {
        match self {
            PlanFault::NoFederate => "NoFederate",
            PlanFault::UnknownName(_) => "UnknownName",
            PlanFault::TwoSources(_) => "TwoSources",
            PlanFault::ZeroDelayCycle(_) => "ZeroDelayCycle",
            PlanFault::OverLimit => "OverLimit",
            PlanFault::BadTimer => "BadTimer",
            PlanFault::Memory => "Memory",
            PlanFault::RepeatedName(_) => "RepeatedName",
        }
    }
}

impl fmt::Display for PlanFault {
    ghost use Rattle.std.specs.Prelude.{Some};
    ghost use Rattle.plan.specs.PlanFaults.{printed_fault};

    ghost output = { λ fault. Some (printed_fault fault) };

    fn fmt<W: fmt::Write>(&self, f: &mut fmt::Formatter<W>) -> fmt::Result {
        write!(f, "{} {}{}", self.number(), self.name(), About(self))
    }
}

/// What a fault is about, printed after a space.
#[derive(Drop)]
struct About<'a>(&'a PlanFault);

impl fmt::Display for About<'_> {
    ghost use Rattle.std.specs.Prelude.{Some};
    ghost use Rattle.plan.specs.PlanFaults.{about};

    ghost output = { λ fault. Some (about fault.0.now) };

    fn fmt<W: fmt::Write>(&self, f: &mut fmt::Formatter<W>) -> fmt::Result {
        match self.0 {
            PlanFault::NoFederate => Ok(()),
            PlanFault::UnknownName(port) | PlanFault::TwoSources(port) => write!(f, " {port}"),
            PlanFault::ZeroDelayCycle(names) => fmt::Display::fmt(&Spaced(names), f),
            PlanFault::OverLimit => Ok(()),
            PlanFault::BadTimer => Ok(()),
            PlanFault::Memory => Ok(()),
            PlanFault::RepeatedName(name) => write!(f, " {}", name.as_str()),
        }
    }
}

/// Names, each printed after a space.
#[derive(Drop)]
struct Spaced<'a>(&'a Names);

impl fmt::Display for Spaced<'_> {
    ghost use Rattle.std.specs.Prelude.{Some};
    ghost use Rattle.plan.specs.PlanFaults.{spaced};

    ghost output = { λ names. Some (spaced names.0.now) };

    fn fmt<W: fmt::Write>(&self, f: &mut fmt::Formatter<W>) -> fmt::Result {
        let names = self.0.as_slice();
        for name in names {
            let name = name.as_str();
            write!(f, " {name}")?;
        }
        Ok(())
    }
}

impl From<AllocError> for PlanFault {
    ghost from_gives = { λ _ e. e ≡ Memory };

    fn from(_error: AllocError) -> PlanFault {
        PlanFault::Memory
    }
}

impl<T: Drop> From<AllocFailed<T>> for PlanFault {
    ghost from_gives = { λ _ e. e ≡ Memory };

    fn from(_error: AllocFailed<T>) -> PlanFault {
        PlanFault::Memory
    }
}
