//! Where a federate stands, and how far a run is.
ghost use Rattle.std.specs.Prelude.{◌≡◌};
ghost use Rattle.fedrun_watch.specs.Standings.{going_text};

use crate::awaited::{FederateName, Waits};
use crate::seconds::Tenths;
use plan_names::Text;
use std::fmt;
use tag::{FiniteTag, succ};
use wires_hosts::standing::unheard_ms;
use wires_hosts::{Awaited, HowFar, Reached, Standing};

// Whether a federate is connected, and for how long.
#[derive(Drop)]
struct ConnectedText(Standing);

impl fmt::Display for ConnectedText {
    ghost use Rattle.std.specs.Prelude.{Some};
    ghost use Rattle.fedrun_watch.specs.Standings.{connected_text};

    ghost output = { λ text. Some (connected_text text.0) };

    fn fmt<W: fmt::Write>(&self, f: &mut fmt::Formatter<W>) -> fmt::Result {
        let time = Tenths(self.0.lasting_ms);
        if self.0.is_connected {
            write!(f, ": connected for {time}")
        } else {
            write!(f, ": no connection for {time}")
        }
    }
}

// When a federate was heard last.
#[derive(Drop)]
struct HeardAgo(Option<u64>);

impl fmt::Display for HeardAgo {
    ghost use Rattle.std.specs.Prelude.{Some};
    ghost use Rattle.fedrun_watch.specs.Standings.{heard_text};

    ghost output = { λ heard. Some (heard_text heard.0) };

    fn fmt<W: fmt::Write>(&self, f: &mut fmt::Formatter<W>) -> fmt::Result {
        match self.0 {
            Some(millis) => {
                let time = Tenths(millis);
                write!(f, ", heard {time} ago")
            }
            None => write!(f, ", never heard"),
        }
    }
}

/// A tag, where there is one. The last one of its time, as grants have it, stands as what it is: just before the next
/// time.
#[derive(Drop)]
pub(crate) struct TagOrNone(pub Option<FiniteTag>);

impl fmt::Display for TagOrNone {
    ghost use Rattle.std.specs.Prelude.{Some};
    ghost use Rattle.fedrun_watch.specs.Standings.{tag_text};

    ghost output = { λ t. Some (tag_text t.0) };

    fn fmt<W: fmt::Write>(&self, f: &mut fmt::Formatter<W>) -> fmt::Result {
        match self.0 {
            Some(tag) if tag.microstep() == u32::MAX => {
                let next = succ(tag.tag());
                write!(f, "just before {next}")
            }
            Some(tag) => write!(f, "{tag}"),
            None => write!(f, "nothing"),
        }
    }
}

// How many signals aren't acknowledged.
#[derive(Drop)]
struct Unacked(usize);

impl fmt::Display for Unacked {
    ghost use Rattle.std.specs.Prelude.{Some};
    ghost use Rattle.fedrun_watch.specs.Standings.{unacked_text};

    ghost output = { λ unacked. Some (unacked_text unacked.0) };

    fn fmt<W: fmt::Write>(&self, f: &mut fmt::Formatter<W>) -> fmt::Result {
        let count = self.0;
        if count == 1 {
            write!(f, "1 signal not acknowledged")
        } else {
            write!(f, "{count} signals not acknowledged")
        }
    }
}

// How far a federate is.
#[derive(Drop)]
struct ReachedText(Reached);

impl fmt::Display for ReachedText {
    ghost use Rattle.std.specs.Prelude.{Some};
    ghost use Rattle.fedrun_watch.specs.Standings.{reached_text};

    ghost output = { λ text. Some (reached_text text.0) };

    fn fmt<W: fmt::Write>(&self, f: &mut fmt::Formatter<W>) -> fmt::Result {
        let completed = TagOrNone(self.0.completed);
        let granted = TagOrNone(self.0.granted);
        let unacked = Unacked(self.0.unacked);
        write!(f, ", completed {completed}, granted {granted}, {unacked}")
    }
}

// Whether a run goes on.
fn going_text(is_going_on: bool) -> &'static str
    ensures { result.now ≡ going_text is_going_on }
{
    if is_going_on { "it runs" } else { "it stands" }
}

// How many federates are connected, at a coordinator of a run that goes on.
#[derive(Drop)]
struct PresentText {
    is_going_on: bool,
    connected: Awaited,
}

impl fmt::Display for PresentText {
    ghost use Rattle.std.specs.Prelude.{Some};
    ghost use Rattle.fedrun_watch.specs.Standings.{present_going_text};

    ghost output = { λ text. Some (present_going_text text.is_going_on text.connected) };

    fn fmt<W: fmt::Write>(&self, f: &mut fmt::Formatter<W>) -> fmt::Result {
        let present = self.connected.present;
        let federates = self.connected.federates;
        if !self.is_going_on || federates == 0 {
            write!(f, "")
        } else {
            write!(f, ", {present} of {federates} connected")
        }
    }
}

/// How far a run is, how many federates are connected where it goes on, and who is awaited.
#[derive(Drop)]
pub(crate) struct HowFarText<'a> {
    pub names: &'a [Text],
    pub how_far: HowFar,
    pub awaited: Awaited,
}

impl fmt::Display for HowFarText<'_> {
    ghost use Rattle.std.specs.Prelude.{Some};
    ghost use Rattle.fedrun_watch.specs.Standings.{how_far_text};

    ghost output = { λ text. Some (how_far_text text.names.now text.how_far text.awaited) };

    fn fmt<W: fmt::Write>(&self, f: &mut fmt::Formatter<W>) -> fmt::Result {
        let going = going_text(self.how_far.is_going_on);
        let completed = TagOrNone(self.how_far.completed);
        let stop = self.how_far.stop;
        let present = PresentText {
            is_going_on: self.how_far.is_going_on,
            connected: self.awaited,
        };
        let first = Waits {
            names: self.names,
            awaited: self.awaited,
        };
        write!(
            f,
            "{going}: completed {completed} of {stop}{present}{first}"
        )
    }
}

// How a federate is missing for which the run waits.
#[derive(Drop)]
struct MissingFront(Standing);

impl fmt::Display for MissingFront {
    ghost use Rattle.std.specs.Prelude.{Some};
    ghost use Rattle.fedrun_watch.specs.Standings.{missing_front_text};

    ghost output = { λ front. Some (missing_front_text front.0) };

    fn fmt<W: fmt::Write>(&self, f: &mut fmt::Formatter<W>) -> fmt::Result {
        let lasting = Tenths(self.0.lasting_ms);
        if self.0.is_connected {
            let unheard = Tenths(unheard_ms(&self.0));
            write!(f, " wasn't heard for {unheard}: connected for {lasting}")
        } else {
            let heard = HeardAgo(self.0.quiet_ms);
            write!(f, " is awaited for {lasting}{heard}")
        }
    }
}

/// A federate that is missing, and how far it is.
#[derive(Drop)]
pub(crate) struct MissingText<'a> {
    pub names: &'a [Text],
    pub standing: Standing,
}

impl fmt::Display for MissingText<'_> {
    ghost use Rattle.std.specs.Prelude.{Some};
    ghost use Rattle.fedrun_watch.specs.Standings.{missing_text};

    ghost output = { λ text. Some (missing_text text.names.now text.standing) };

    fn fmt<W: fmt::Write>(&self, f: &mut fmt::Formatter<W>) -> fmt::Result {
        let federate = FederateName {
            names: self.names,
            number: self.standing.federate,
        };
        let front = MissingFront(self.standing);
        let reached = ReachedText(self.standing.reached);
        write!(f, "{federate}{front}{reached}")
    }
}

/// Why the coordinator may be silent that a federate doesn't hear which stands there.
#[derive(Drop)]
pub(crate) struct UnheardWhy(pub Standing);

impl fmt::Display for UnheardWhy {
    ghost use Rattle.std.specs.Prelude.{Some};
    ghost use Rattle.fedrun_watch.specs.Standings.{unheard_why_text};

    ghost output = { λ why. Some (unheard_why_text why.0) };

    fn fmt<W: fmt::Write>(&self, f: &mut fmt::Formatter<W>) -> fmt::Result {
        let count = self.0.reached.unacked;
        let unacked = Unacked(count);
        if !self.0.is_connected {
            write!(f, ": there is no connection")
        } else if count == 0 {
            write!(
                f,
                ", and has acknowledged all: another federate may be awaited"
            )
        } else {
            write!(f, ": {unacked}")
        }
    }
}

/// Where a federate stands.
#[derive(Drop)]
pub(crate) struct StandingText<'a> {
    pub names: &'a [Text],
    pub standing: Standing,
}

impl fmt::Display for StandingText<'_> {
    ghost use Rattle.std.specs.Prelude.{Some};
    ghost use Rattle.fedrun_watch.specs.Standings.{standing_text};

    ghost output = { λ text. Some (standing_text text.names.now text.standing) };

    fn fmt<W: fmt::Write>(&self, f: &mut fmt::Formatter<W>) -> fmt::Result {
        let federate = FederateName {
            names: self.names,
            number: self.standing.federate,
        };
        let connected = ConnectedText(self.standing);
        let heard = HeardAgo(self.standing.quiet_ms);
        let reached = ReachedText(self.standing.reached);
        write!(f, "{federate}{connected}{heard}{reached}")
    }
}
