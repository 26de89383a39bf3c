//! The lines of something that happened at a node.
use crate::awaited::{AwaitedText, FederateName, First, Waits};
use crate::causes::{given_up_text, not_let_in_text};
use crate::connections::{
    DisconnectionText, FailureText, Found, LossText, Place, ReplacedText, Times,
};
use crate::seconds::{Seconds, Tenths, TimeOfDay};
use crate::standings::{HowFarText, MissingText, StandingText, UnheardWhy};
use plan_names::Text;
use std::fmt;
use wires_hosts::standing::unheard_ms;
use wires_hosts::{Happened, Happening};

/// The line of something that happened at a node whose federates have these names, and before it one that says what was
/// left out, if something was.
#[derive(Drop)]
pub(crate) struct HappenedLines<'a> {
    pub names: &'a [Text],
    pub happened: &'a Happened,
}

impl fmt::Display for HappenedLines<'_> {
    ghost use Rattle.std.specs.Prelude.{Some};
    ghost use Rattle.fedrun_watch.specs.Lines.{happened_lines};

    ghost output = { λ lines. Some (happened_lines lines.names.now lines.happened.now) };

    fn fmt<W: fmt::Write>(&self, f: &mut fmt::Formatter<W>) -> fmt::Result {
        let left_out = LeftOut(self.happened.left_out);
        let time = Seconds(self.happened.millis);
        let what = What {
            names: self.names,
            what: self.happened.what,
        };
        write!(f, "{left_out}{time}: {what}\n")
    }
}

/// The line that says how often something had happened for which there was no room, if something had.
#[derive(Drop)]
pub(crate) struct LeftOut(pub u64);

impl fmt::Display for LeftOut {
    ghost use Rattle.std.specs.Prelude.{Some};
    ghost use Rattle.fedrun_watch.specs.Lines.{left_out_line};

    ghost output = { λ left_out. Some (left_out_line left_out.0) };

    fn fmt<W: fmt::Write>(&self, f: &mut fmt::Formatter<W>) -> fmt::Result {
        let count = self.0;
        if count == 0 {
            write!(f, "")
        } else {
            write!(f, "({count} more happened, and are left out)\n")
        }
    }
}

// What happened.
#[derive(Drop)]
struct What<'a> {
    names: &'a [Text],
    what: Happening,
}

impl fmt::Display for What<'_> {
    ghost use Rattle.std.specs.Prelude.{Some};
    ghost use Rattle.fedrun_watch.specs.Lines.{what_text};

    ghost output = { λ w. Some (what_text w.names.now w.what) };

    fn fmt<W: fmt::Write>(&self, f: &mut fmt::Formatter<W>) -> fmt::Result {
        let names = self.names;
        match self.what {
            Happening::Begins(seconds) => {
                let time = TimeOfDay(seconds);
                write!(f, "it begins, at {time}")
            }
            Happening::Logged(count) => {
                let logged = Logged(count);
                write!(f, "{logged}")
            }
            Happening::Awaits(awaited) => {
                let awaited = AwaitedText { names, awaited };
                write!(f, "{awaited}")
            }
            Happening::LetIn(number, address) => {
                let federate = FederateName { names, number };
                write!(f, "{federate} is connected, from {address}")
            }
            Happening::Replaced(replaced) => {
                let replaced = ReplacedText { names, replaced };
                write!(f, "{replaced}")
            }
            Happening::Lost(loss) => {
                let loss = LossText { names, loss };
                write!(f, "{loss}")
            }
            Happening::Closed(address, why, count) => {
                let times = Times(count);
                let why = not_let_in_text(why);
                write!(f, "refused, from {address}{times}: {why}")
            }
            Happening::Tells(millis, awaited) => {
                let most = Tenths(millis);
                let first = First {
                    names,
                    front: ": waits for ",
                    all: ": all have heard so",
                    first: awaited.first,
                    more: awaited.more,
                };
                write!(f, "tells for up to {most} that the run is finished{first}")
            }
            Happening::Told(number) => {
                let federate = FederateName { names, number };
                write!(f, "{federate} has heard that the run is finished")
            }
            Happening::Untold(number) => {
                let federate = FederateName { names, number };
                write!(
                    f,
                    "nobody knows whether {federate} has heard that the run is finished, and nobody tells it any more"
                )
            }
            Happening::Connects(address) => {
                let place = Place(address);
                write!(f, "connects to {place}")
            }
            Happening::Connected(address, found) => {
                let place = Place(address);
                let found = Found(found);
                write!(f, "connected to {place}{found}")
            }
            Happening::Disconnected(address, end) => {
                let place = Place(address);
                let end = DisconnectionText(end);
                write!(f, "the connection to {place}{end}")
            }
            Happening::Failed(failure) => {
                let failure = FailureText(failure);
                write!(f, "{failure}")
            }
            Happening::Missing(standing) => {
                let missing = MissingText { names, standing };
                write!(f, "{missing}")
            }
            Happening::HeardAgain(number, millis) => {
                let federate = FederateName { names, number };
                let time = Tenths(millis);
                write!(f, "{federate} was heard again, after {time}")
            }
            Happening::Still(millis, awaited) => {
                let time = Tenths(millis);
                let first = Waits { names, awaited };
                write!(f, "nobody was heard for {time}: it stands still{first}")
            }
            Happening::Unheard(standing) => {
                let time = Tenths(unheard_ms(&standing));
                let why = UnheardWhy(standing);
                write!(f, "the coordinator wasn't heard for {time}{why}")
            }
            Happening::CoordinatorHeard(millis) => {
                let time = Tenths(millis);
                write!(f, "the coordinator was heard again, after {time}")
            }
            Happening::Ungranted(millis) => {
                let time = Tenths(millis);
                write!(
                    f,
                    "the coordinator is heard, and has granted nothing for {time}: another federate may be awaited"
                )
            }
            Happening::Runs(how_far, awaited) => {
                let how_far = HowFarText {
                    names,
                    how_far,
                    awaited,
                };
                write!(f, "{how_far}")
            }
            Happening::GoesOn(millis) => {
                let time = Tenths(millis);
                write!(f, "it goes on: a tag was completed, after {time}")
            }
            Happening::Stands(standing) => {
                let standing = StandingText { names, standing };
                write!(f, "{standing}")
            }
            Happening::Others(count) => write!(f, "and {count} more"),
            Happening::Finished => write!(f, "the run is finished"),
            Happening::GaveUp(why) => {
                let why = given_up_text(why);
                write!(f, "it gives up: {why}")
            }
        }
    }
}

// What of its log a node has at its begin.
#[derive(Drop)]
struct Logged(usize);

impl fmt::Display for Logged {
    ghost use Rattle.std.specs.Prelude.{Some};
    ghost use Rattle.fedrun_watch.specs.Lines.{logged_text};

    ghost output = { λ logged. Some (logged_text logged.0) };

    fn fmt<W: fmt::Write>(&self, f: &mut fmt::Formatter<W>) -> fmt::Result {
        let count = self.0;
        if count == 0 {
            write!(f, "its log has nothing so far: the run begins")
        } else {
            write!(f, "its log has {count} events: it goes on behind them")
        }
    }
}
