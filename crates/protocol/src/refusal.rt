ghost use Rattle.std.specs.Prelude.{◌≡◌};

use std::fmt;

/// Why a signal isn't taken. Whoever refuses it is as before.
#[derive(Clone, Copy, Debug, PartialEq, Eq)]
pub enum Refusal {
    /// A federate's: a message at or below the tag that it has completed, or the one that it was granted. The
    /// coordinator granted too early.
    Late,
    /// A federate's: a TAG that isn't later than the one before.
    OldGrant,
    /// A federate's: a NET, an LTC, a tag later than stop, or a message on a connection that isn't there or ends
    /// elsewhere.
    WrongSignal,
    /// The coordinator's: a message on a connection that isn't there or begins elsewhere.
    NotYours,
    /// The coordinator's: a message at or below the tag that its receiver was granted.
    BelowGrant,
    /// The coordinator's: a NET or an LTC at or below its sender's last LTC.
    NotRising,
    /// The coordinator's: a tag later than stop, other than a NET's FOREVER.
    AfterStop,
    /// The coordinator's: a TAG, which goes to federates alone.
    NotForCoordinator,
}

impl Refusal {
    ghost use Rattle.protocol.specs.Refusals.{number_of};

    /// The number by which it is printed.
    pub fn number(self) -> u16
        ensures { result ≡ number_of self }
    {
        match self {
            Refusal::Late => 61,
            Refusal::OldGrant => 62,
            Refusal::WrongSignal => 63,
            Refusal::NotYours => 70,
            Refusal::BelowGrant => 71,
            Refusal::NotRising => 72,
            Refusal::AfterStop => 73,
            Refusal::NotForCoordinator => 75,
        }
    }
}

impl fmt::Display for Refusal {
    ghost use Rattle.std.specs.Prelude.{Some};
    ghost use Rattle.protocol.specs.Refusals.{text_of};

    ghost output = { λ refusal. Some (text_of refusal) };

    fn fmt<W: fmt::Write>(&self, f: &mut fmt::Formatter<W>) -> fmt::Result {
        let number = self.number();
        match self {
            Refusal::Late => write!(f, "{number} Late"),
            Refusal::OldGrant => write!(f, "{number} OldGrant"),
            Refusal::WrongSignal => write!(f, "{number} WrongSignal"),
            Refusal::NotYours => write!(f, "{number} NotYours"),
            Refusal::BelowGrant => write!(f, "{number} BelowGrant"),
            Refusal::NotRising => write!(f, "{number} NotRising"),
            Refusal::AfterStop => write!(f, "{number} AfterStop"),
            Refusal::NotForCoordinator => write!(f, "{number} WrongSignal"),
        }
    }
}

impl std::error::Error for Refusal {}
