//! Why a node on a machine of its own couldn't begin at its address, or isn't finished.
use crate::advice::{Advice, advice_on_run};
use fedrun_hosts::{ListenFault, NodeRequest, Unfinished};
use fedrun_words::print_text;
use std::fmt;
use std::io::Write;
use wires_hosts::{DialFault, HostAddress, Unreached};

/// Tells why a coordinator can't listen at its address.
pub(crate) fn print_listener<E: Write>(address: HostAddress, why: ListenFault, err: &mut E) {
    let _is_told = print_text(err, &NoListener { address, why });
}

// Whether an address is a host's name, which may have none.
fn is_named(address: &HostAddress) -> bool {
    matches!(address, HostAddress::Named(_, _))
}

// Why nothing can listen at an address, on a line.
#[derive(Drop)]
struct NoListener {
    address: HostAddress,
    why: ListenFault,
}

impl fmt::Display for NoListener {
    fn fmt<W: fmt::Write>(&self, f: &mut fmt::Formatter<W>) -> fmt::Result {
        let address = self.address;
        match self.why {
            ListenFault::InUse => write!(
                f,
                "help: somebody listens at {address} already: ss -ltnp shows who\n"
            ),
            ListenFault::NotHere => write!(
                f,
                "help: {address} isn't an address of this machine: ip addr shows which are\n"
            ),
            ListenFault::NotAllowed => write!(
                f,
                "help: whoever runs this may not listen at {address}: take a port from 1024 on\n"
            ),
            ListenFault::Other if is_named(&address) => write!(
                f,
                "help: the system gives no listener at {address}: look whether the name has an address (getent hosts), and at the open files (ulimit -n)\n"
            ),
            ListenFault::Other => write!(
                f,
                "help: the system gives no listener at {address}: look at its network and at its open files (ulimit -n)\n"
            ),
        }
    }
}

/// Tells how a node ended that isn't finished: a federate that might make this many turns, or a coordinator.
pub(crate) fn print_end<E: Write>(
    node: &NodeRequest<'_>,
    turns: Option<u32>,
    why: Unfinished,
    err: &mut E,
) {
    let address = node.address;
    let (how, last) = match why {
        Unfinished::OutOfPatience(last) => (How::of_patience(node.patience), last),
        Unfinished::Stopped(last) => (How::Stopped(turns), last),
        Unfinished::NotRun(cause) => {
            let _is_told = print_text(err, &Advice(advice_on_run(cause)));
            return;
        }
    };
    let look = match (turns, last) {
        (None, _) => Look::Federates,
        (Some(_), None) => Look::Coordinator,
        (Some(_), Some(fault)) => Look::Attempt(fault),
    };
    let _is_told = print_text(err, &NodeEnd { how, look, address });
}

/// How a node ended that isn't finished.
#[derive(Clone, Copy)]
enum How {
    /// Nobody was heard for this many seconds.
    Quiet(u32),
    /// Of a federate that might make this many turns, they were made, or it was cut off. None: it isn't known.
    Stopped(Option<u32>),
}

impl How {
    // Of one that gave up, with this patience.
    fn of_patience(patience: Option<u32>) -> How {
        match patience {
            Some(seconds) => How::Quiet(seconds),
            None => How::Stopped(None),
        }
    }
}

impl fmt::Display for How {
    fn fmt<W: fmt::Write>(&self, f: &mut fmt::Formatter<W>) -> fmt::Result {
        match self {
            How::Quiet(seconds) => write!(f, "nobody was heard for {seconds} s (--patience)"),
            How::Stopped(Some(turns)) => {
                write!(
                    f,
                    "its {turns} turns were made (--turns), or its end was closed"
                )
            }
            How::Stopped(None) => write!(f, "it gave up"),
        }
    }
}

/// What there is to be looked at.
#[derive(Clone, Copy)]
enum Look {
    /// The federates, by a coordinator.
    Federates,
    /// The coordinator, by a federate that was connected at last.
    Coordinator,
    /// The way to the coordinator, by one whose last attempt to connect came to nothing, for this.
    Attempt(DialFault),
}

// How a node ended, and what there is to be looked at, on a line.
#[derive(Drop)]
struct NodeEnd {
    how: How,
    look: Look,
    address: HostAddress,
}

impl fmt::Display for NodeEnd {
    fn fmt<W: fmt::Write>(&self, f: &mut fmt::Formatter<W>) -> fmt::Result {
        let how = self.how;
        let address = self.address;
        match self.look {
            Look::Federates => write!(
                f,
                "help: {how}: look at the federates, whether they run and reach {address}\n"
            ),
            Look::Coordinator => write!(
                f,
                "help: {how}: it was connected; look at the coordinator at {address}, and at the federates that it waits for\n"
            ),
            Look::Attempt(DialFault::NotConnected(Unreached::NoAddress)) => write!(
                f,
                "help: {how}: no address was found for {address}; look whether the name has one (getent hosts)\n"
            ),
            Look::Attempt(DialFault::NotConnected(Unreached::NoWay | Unreached::TimeOver)) => {
                write!(
                    f,
                    "help: {how}: nothing answered from {address}; look whether that machine is on, and at the way to it\n"
                )
            }
            Look::Attempt(DialFault::NotConnected(_)) if is_named(&address) => write!(
                f,
                "help: {how}: nobody took the last connection to {address}; look whether the name has an address (getent hosts), whether the coordinator listens there, and at the way to it\n"
            ),
            Look::Attempt(DialFault::NotConnected(_)) => write!(
                f,
                "help: {how}: nobody took the last connection to {address}; look whether the coordinator listens there, and at the way to it\n"
            ),
            Look::Attempt(DialFault::NoRandom) => write!(
                f,
                "help: {how}: the system gave no random bytes for the last connection to {address}\n"
            ),
            Look::Attempt(_) => write!(
                f,
                "help: {how}: whoever took the last connection to {address} gave no answer as a coordinator does; look who listens there\n"
            ),
        }
    }
}
