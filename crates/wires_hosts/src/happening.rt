//! What happens to a node's connections and to its run, as whoever watches the node is told.
use crate::awaited::Awaited;
use crate::dial_fault::DialFault;
use crate::host_address::HostAddress;
use crate::standing::{HowFar, Standing};
use std::net::SocketAddr;
use wires_greeting::{Answer, CoordinatorState};

/// What happened at a node.
#[derive(Clone, Copy, Debug, PartialEq, Eq)]
pub enum Happening {
    /// It begins, so many seconds after 1970 began.
    Begins(u64),
    /// Its log has so many events that came to it before: it goes on behind them, or begins where there is none.
    Logged(usize),
    /// At the coordinator: so many federates are connected, and others are awaited.
    Awaits(Awaited),
    /// At the coordinator: the federate of this number was let in, on a connection from this address.
    LetIn(u16, SocketAddr),
    /// At the coordinator: the same, where it had a connection, whose place the new one takes.
    Replaced(Replaced),
    /// At the coordinator: a federate's connection has ended.
    Lost(Loss),
    /// At the coordinator: a connection from this address was closed, since whoever made it isn't let in. It is so many
    /// times that one from that machine wasn't for this reason, since one from there was let in.
    Closed(SocketAddr, NotLetIn, u64),
    /// At the coordinator: for at most so many ms it tells whoever asks that the run is finished; who has heard so, and
    /// who is awaited.
    Tells(u64, Awaited),
    /// At the coordinator: the federate of this number has heard that the run is finished, and proved so.
    Told(u16),
    /// At the coordinator: the federate of this number hasn't, and nobody tells it any more.
    Untold(u16),
    /// At a federate: it makes the first attempt to connect to this address.
    Connects(HostAddress),
    /// At a federate: it is connected to the coordinator at this address; where that is a host's name, at which address.
    Connected(HostAddress, Option<SocketAddr>),
    /// At a federate: its connection to this address has ended.
    Disconnected(HostAddress, Disconnection),
    /// At a federate: attempts to connect came to nothing.
    Failed(Failure),
    /// At the coordinator: this federate is missing for which the run waits, as none of its frames came meanwhile.
    Missing(Standing),
    /// At the coordinator: something came again of such a federate, after so many ms.
    HeardAgain(u16, u64),
    /// At the coordinator: nobody was heard for so many ms, so that the run stands still, and may wait for these.
    Still(u64, Awaited),
    /// At a federate, which stands there: the coordinator wasn't heard.
    Unheard(Standing),
    /// At a federate: the coordinator was heard again, after so many ms.
    CoordinatorHeard(u64),
    /// At a federate: the coordinator is heard, and has granted nothing for so many ms.
    Ungranted(u64),
    /// So far the run is. At the coordinator also, where it goes on who is connected, and else who is awaited.
    Runs(HowFar, Awaited),
    /// A tag was completed after so many ms in which none was, of which it was told that the run stands still.
    GoesOn(u64),
    /// So a federate stands as the run is given up.
    Stands(Standing),
    /// So many federates more, of which the same isn't told.
    Others(usize),
    /// The run is finished: the coordinator is, or a federate has heard so.
    Finished,
    /// The node gives up, and the run ends for it though it isn't finished.
    GaveUp(GivenUp),
}

/// A connection of a federate that took another one's place.
#[derive(Clone, Copy, Debug, PartialEq, Eq)]
pub struct Replaced {
    pub federate: u16,
    pub now: SocketAddr,
    pub before: SocketAddr,
    /// How many ms before the federate was heard last.
    pub quiet_ms: u64,
    /// How many of its connections in a row took one's place that stood for a moment alone, this one the last.
    pub times: u64,
    /// Whether two processes may run that say they are this federate.
    pub may_be_two: bool,
}

/// A federate's connection that has ended, at the coordinator.
#[derive(Clone, Copy, Debug, PartialEq, Eq)]
pub struct Loss {
    pub federate: u16,
    /// From where it was.
    pub address: SocketAddr,
    /// How many ms before the federate was heard last.
    pub quiet_ms: u64,
    /// Who is connected now.
    pub connected: Awaited,
}

/// An attempt to connect that came to nothing, at a federate.
#[derive(Clone, Copy, Debug, PartialEq, Eq)]
pub struct Failure {
    /// Where to.
    pub address: HostAddress,
    /// Where that is a host's name, the address that was tried last, if one was.
    pub tried: Option<SocketAddr>,
    pub fault: DialFault,
    /// How many came to nothing for this, since one came to a connection.
    pub times: u64,
}

/// How a federate's connection ended.
#[derive(Clone, Copy, Debug, PartialEq, Eq)]
pub struct Disconnection {
    /// Whether it was closed at the other end. Else it broke.
    pub is_closed: bool,
    /// How many in a row stood for a moment alone, this one the last.
    pub times: u64,
}

/// Why a connection that came to the coordinator isn't let in.
#[derive(Clone, Copy, Debug, PartialEq, Eq)]
pub enum NotLetIn {
    /// No greeting came on it: whoever made it said nothing, or ended it before.
    NoGreeting,
    /// What came was no greeting of this protocol and version.
    OtherProtocol,
    /// It has another federation file or another input file.
    OtherFiles,
    /// The federation has no federate of its number.
    NoSuchFederate,
    /// The federate of its number may take part no more.
    NotAllowed,
    /// It was answered, and its proof that it has the secret didn't come: it ended the connection, or said nothing more,
    /// as a federate does that has another secret, or that is ended as it connects.
    NoProof,
    /// What came wasn't its proof: it has another secret.
    NotProved,
    /// It proved the secret, and its first frame didn't come, or isn't its Hello.
    NoHello,
}

/// Why a node gives up.
#[derive(Clone, Copy, Debug, PartialEq, Eq)]
pub enum GivenUp {
    /// Nobody was heard for its patience.
    Silence,
    /// What came to it can't be kept any more, so nothing may leave it.
    Unkept,
}

impl NotLetIn {
    ghost use Rattle.std.specs.Prelude.{◌≡◌};
    ghost use Rattle.wires_hosts.specs.NotLetIn as definition;

    /// Why a connection isn't let in that is closed where the coordinator's side of its greeting came to this. None
    /// where it was made for another reason: its federate was told that the run is finished.
    pub fn by_state(state: &CoordinatorState) -> Option<NotLetIn>
        ensures { result ≡ definition.by_state state.now }
    {
        match *state {
            CoordinatorState::Waiting => Some(NotLetIn::NoGreeting),
            CoordinatorState::Challenged { .. } | CoordinatorState::Finishing { .. } => {
                Some(NotLetIn::NoProof)
            }
            CoordinatorState::LetIn { .. } => Some(NotLetIn::NoHello),
            CoordinatorState::Told { .. } => None,
            CoordinatorState::Refused(answer) => NotLetIn::by_answer(answer),
            CoordinatorState::OtherProtocol => Some(NotLetIn::OtherProtocol),
            CoordinatorState::NotProved => Some(NotLetIn::NotProved),
        }
    }

    // The same by what it was answered.
    fn by_answer(answer: Answer) -> Option<NotLetIn>
        ensures { result ≡ definition.by_answer answer }
    {
        match answer {
            Answer::GoOn | Answer::Finished => None,
            Answer::OtherFiles => Some(NotLetIn::OtherFiles),
            Answer::NoSuchFederate => Some(NotLetIn::NoSuchFederate),
            Answer::NotAllowed => Some(NotLetIn::NotAllowed),
        }
    }
}
