//! How connections begin and end, and attempts to make one come to nothing.
ghost use Rattle.std.specs.Prelude.{◌≡◌};
ghost use Rattle.fedrun_watch.specs.Connections.{two_text};

use crate::awaited::{AwaitedText, FederateName};
use crate::causes::failed_text;
use crate::seconds::Tenths;
use plan_names::Text;
use std::fmt;
use std::net::SocketAddr;
use wires_hosts::{Disconnection, Failure, HostAddress, Loss, Replaced};

// How long before a federate was heard last, where it is a second or more.
#[derive(Drop)]
struct LastHeard(u64);

impl fmt::Display for LastHeard {
    ghost use Rattle.std.specs.Prelude.{Some};
    ghost use Rattle.fedrun_watch.specs.Connections.{last_heard_text};

    ghost output = { λ heard. Some (last_heard_text heard.0) };

    fn fmt<W: fmt::Write>(&self, f: &mut fmt::Formatter<W>) -> fmt::Result {
        let time = Tenths(self.0);
        if self.0 < 1000 {
            write!(f, "")
        } else {
            write!(f, ", last heard {time} before")
        }
    }
}

/// A federate's connection that has ended, and who is awaited then.
#[derive(Drop)]
pub(crate) struct LossText<'a> {
    pub names: &'a [Text],
    pub loss: Loss,
}

impl fmt::Display for LossText<'_> {
    ghost use Rattle.std.specs.Prelude.{Some};
    ghost use Rattle.fedrun_watch.specs.Connections.{loss_text};

    ghost output = { λ text. Some (loss_text text.names.now text.loss) };

    fn fmt<W: fmt::Write>(&self, f: &mut fmt::Formatter<W>) -> fmt::Result {
        let names = self.names;
        let federate = FederateName {
            names,
            number: self.loss.federate,
        };
        let address = self.loss.address;
        let last_heard = LastHeard(self.loss.quiet_ms);
        let connected = AwaitedText {
            names,
            awaited: self.loss.connected,
        };
        write!(
            f,
            "{federate} has lost its connection from {address}{last_heard}, {connected}"
        )
    }
}

// A question, where two processes of a federate may run.
fn two_text(may_be_two: bool) -> &'static str
    ensures { result.now ≡ two_text may_be_two }
{
    if may_be_two {
        ": do two of it run?"
    } else {
        ""
    }
}

// The connection whose place another one took.
#[derive(Drop)]
struct InPlace(Replaced);

impl fmt::Display for InPlace {
    ghost use Rattle.std.specs.Prelude.{Some};
    ghost use Rattle.fedrun_watch.specs.Connections.{in_place_text};

    ghost output = { λ place. Some (in_place_text place.0) };

    fn fmt<W: fmt::Write>(&self, f: &mut fmt::Formatter<W>) -> fmt::Result {
        let before = self.0.before;
        let last_heard = LastHeard(self.0.quiet_ms);
        let times = Times(self.0.times);
        let two = two_text(self.0.may_be_two);
        write!(f, ", in place of {before}{last_heard}{times}{two}")
    }
}

/// A federate's connection that took another one's place.
#[derive(Drop)]
pub(crate) struct ReplacedText<'a> {
    pub names: &'a [Text],
    pub replaced: Replaced,
}

impl fmt::Display for ReplacedText<'_> {
    ghost use Rattle.std.specs.Prelude.{Some};
    ghost use Rattle.fedrun_watch.specs.Connections.{replaced_text};

    ghost output = { λ text. Some (replaced_text text.names.now text.replaced) };

    fn fmt<W: fmt::Write>(&self, f: &mut fmt::Formatter<W>) -> fmt::Result {
        let federate = FederateName {
            names: self.names,
            number: self.replaced.federate,
        };
        let now = self.replaced.now;
        let place = InPlace(self.replaced);
        write!(f, "{federate} is connected, from {now}{place}")
    }
}

/// Where a connection to a host's name leads.
#[derive(Drop)]
pub(crate) struct Found(pub Option<SocketAddr>);

impl fmt::Display for Found {
    ghost use Rattle.std.specs.Prelude.{Some};
    ghost use Rattle.fedrun_watch.specs.Connections.{found_text};

    ghost output = { λ found. Some (found_text found.0) };

    fn fmt<W: fmt::Write>(&self, f: &mut fmt::Formatter<W>) -> fmt::Result {
        match self.0 {
            Some(address) => write!(f, ", which is {address}"),
            None => write!(f, ""),
        }
    }
}

// How often in a row a connection stood for a moment alone, where it is more than once.
#[derive(Drop)]
struct Quick(u64);

impl fmt::Display for Quick {
    ghost use Rattle.std.specs.Prelude.{Some};
    ghost use Rattle.fedrun_watch.specs.Connections.{quick_text};

    ghost output = { λ quick. Some (quick_text quick.0) };

    fn fmt<W: fmt::Write>(&self, f: &mut fmt::Formatter<W>) -> fmt::Result {
        let times = self.0;
        if times == 1 {
            write!(f, "")
        } else {
            write!(
                f,
                ", {times} times in a row within 2 s: does this federate run twice?"
            )
        }
    }
}

/// How a federate's connection ended.
#[derive(Drop)]
pub(crate) struct DisconnectionText(pub Disconnection);

impl fmt::Display for DisconnectionText {
    ghost use Rattle.std.specs.Prelude.{Some};
    ghost use Rattle.fedrun_watch.specs.Connections.{disconnection_text};

    ghost output = { λ text. Some (disconnection_text text.0) };

    fn fmt<W: fmt::Write>(&self, f: &mut fmt::Formatter<W>) -> fmt::Result {
        let quick = Quick(self.0.times);
        if self.0.is_closed {
            write!(f, " was closed there{quick}")
        } else {
            write!(f, " is lost{quick}")
        }
    }
}

/// An attempt to connect that came to nothing.
#[derive(Drop)]
pub(crate) struct FailureText(pub Failure);

impl fmt::Display for FailureText {
    ghost use Rattle.std.specs.Prelude.{Some};
    ghost use Rattle.fedrun_watch.specs.Connections.{failure_text};

    ghost output = { λ text. Some (failure_text text.0) };

    fn fmt<W: fmt::Write>(&self, f: &mut fmt::Formatter<W>) -> fmt::Result {
        let place = Place(self.0.address);
        let tried = Found(self.0.tried);
        let times = Times(self.0.times);
        let why = failed_text(self.0.fault);
        write!(f, "no connection to {place}{tried}{times}: {why}")
    }
}

/// Where a coordinator is.
#[derive(Drop)]
pub(crate) struct Place(pub HostAddress);

impl fmt::Display for Place {
    ghost use Rattle.std.specs.Prelude.{Some};
    ghost use Rattle.fedrun_watch.specs.Connections.{place_text};

    ghost output = { λ place. Some (place_text place.0) };

    fn fmt<W: fmt::Write>(&self, f: &mut fmt::Formatter<W>) -> fmt::Result {
        match self.0 {
            HostAddress::At(address) => write!(f, "{address}"),
            HostAddress::Named(host, port) => {
                let host = host.as_str();
                write!(f, "{host}:{port}")
            }
        }
    }
}

/// How often, where it is more than once.
#[derive(Drop)]
pub(crate) struct Times(pub u64);

impl fmt::Display for Times {
    ghost use Rattle.std.specs.Prelude.{Some};
    ghost use Rattle.fedrun_watch.specs.Connections.{times_text};

    ghost output = { λ times. Some (times_text times.0) };

    fn fmt<W: fmt::Write>(&self, f: &mut fmt::Formatter<W>) -> fmt::Result {
        let count = self.0;
        if count == 1 {
            write!(f, "")
        } else {
            write!(f, ", {count} times")
        }
    }
}
