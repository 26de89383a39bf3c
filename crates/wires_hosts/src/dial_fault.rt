ghost use Rattle.std.specs.Prelude.{◌≡◌};
ghost use Rattle.wires_hosts.specs.DialFault as definition;

use crate::unreached::Unreached;
use wires_greeting::{Answer, FederateState};

/// Why an attempt to connect came to nothing.
#[derive(Clone, Copy, Debug, PartialEq, Eq)]
pub enum DialFault {
    /// There was no connection, and the inner reason says why. Another attempt may come to more.
    NotConnected(Unreached),
    /// The system gave no random bytes. Another attempt may come to more.
    NoRandom,
    /// The connection ended before there was an answer, or none came in time. Another attempt may come to more.
    NoAnswer,
    /// What was answered isn't proved by the secret: the coordinator has another secret, or it isn't the coordinator.
    /// Nothing of it is believed, so another attempt may come to more.
    NotProved,
    /// The coordinator has another federation file or another input file.
    OtherFiles,
    /// The federation has no federate of that number.
    NoSuchFederate,
    /// The run is finished.
    Finished,
    /// The coordinator lets this federate take part no more.
    NotAllowed,
}

impl DialFault {
    ghost use Rattle.std.specs.Prelude.{Option};
    ghost use Rattle.wires_hosts.specs.declared.dial_fault.DialFault.{DialFault};

    /// The fault by where a federate's side of a greeting came to, if it didn't come to go on.
    pub fn by_state(state: &FederateState) -> Option<DialFault>
        ensures { result ≡ definition.by_state state.now }
    {
        match *state {
            FederateState::Greeted => Some(DialFault::NoAnswer),
            FederateState::Proved(_) => None,
            FederateState::Refused(answer) => Some(DialFault::by_refusal(answer)),
            FederateState::NotProved => Some(DialFault::NotProved),
        }
    }

    // The fault by a refusal that is proved. One that says to go on is none, and isn't believed.
    fn by_refusal(answer: Answer) -> DialFault
        ensures { result ≡ definition.by_refusal answer }
    {
        match answer {
            Answer::GoOn => DialFault::NotProved,
            Answer::OtherFiles => DialFault::OtherFiles,
            Answer::NoSuchFederate => DialFault::NoSuchFederate,
            Answer::Finished => DialFault::Finished,
            Answer::NotAllowed => DialFault::NotAllowed,
        }
    }

    /// Whether no other attempt makes sense: the coordinator itself refused.
    pub fn is_final(self) -> bool
        ensures { result ≡ definition.is_final self }
    {
        match self {
            DialFault::NotConnected(_)
            | DialFault::NoRandom
            | DialFault::NoAnswer
            | DialFault::NotProved => false,
            DialFault::OtherFiles
            | DialFault::NoSuchFederate
            | DialFault::Finished
            | DialFault::NotAllowed => true,
        }
    }
}
