ghost use Rattle.std.specs.Prelude.{◌≡◌, ℕ, ◌<◌, ◌≤◌, ◌^◌, ◌↔◌, IsTrue, IsSome, IfSome, IfNone};
ghost use Rattle.tag.specs.LogicalTime.{greater, lesser};

use crate::delay::Delay;
use crate::time::Time;
use std::fmt;
use std::marker::Model;

/// When something happens: a time below 2^62 ns with a microstep, or `FOREVER`, which is later than all others.
#[derive(Clone, Copy, Debug, PartialEq, Eq, PartialOrd, Ord, Hash)]
pub struct Tag {
    time: u64,
    microstep: u32,
}

impl Model for Tag {
    ghost use Rattle.tag.specs.LogicalTime.{LogicalTime, IsLogicalTime};

    ghost Value = { LogicalTime };

    ghost view = { λ t. record { time = t.time; microstep = t.microstep } };

    ghost invariant = { λ t. IsLogicalTime (record { time = t.time; microstep = t.microstep }) };

    ghost inverse = { λ g. record { time = g.time; microstep = g.microstep } };
}

impl Tag {
    ghost use Rattle.tag.specs.LogicalTime.{LogicalTime, IsLogicalTime, origin, forever};

    /// The tag that is later than all others.
    pub const FOREVER: Tag = Tag {
        time: 1 << 62,
        microstep: 0,
    };

    pub fn new(time: Time, microstep: u32) -> Tag
        ensures { result ≡ record { time = time; microstep = microstep } }
    {
        Tag {
            time: time.nanoseconds(),
            microstep,
        }
    }

    /// The first tag.
    pub fn origin() -> Tag
        ensures { result ≡ origin }
    {
        Tag {
            time: 0,
            microstep: 0,
        }
    }

    /// The tag that is later than the first by the second.
    pub(crate) fn after_origin(delay: Delay) -> Tag
        ensures { result ≡ delay }
    {
        // For the prover: a delay is at most FOREVER.
        delay.invariant();
        Tag {
            time: delay.time(),
            microstep: delay.microstep(),
        }
    }

    /// In ns; 2^62 where it is FOREVER.
    pub fn time(self) -> u64
        ensures { result ≡ self.time }
    {
        self.time
    }

    pub fn microstep(self) -> u32
        ensures { result ≡ self.microstep }
    {
        self.microstep
    }

    pub fn is_forever(self) -> bool
        ensures { IsTrue result ↔ (self ≡ forever) }
    {
        self.time == 1 << 62
    }

    /// What every tag keeps.
    pub fn invariant(self)
        ensures { IsLogicalTime self }
    {}
}

impl fmt::Display for Tag {
    ghost use Rattle.std.specs.Prelude.{Some};
    ghost use Rattle.tag.specs.Printed.{printed_tag};

    ghost output = { λ t. Some (printed_tag t) };

    fn fmt<W: fmt::Write>(&self, f: &mut fmt::Formatter<W>) -> fmt::Result {
        let microstep = self.microstep;
        match Time::new(self.time) {
            Some(time) => write!(f, "({time}, {microstep})"),
            None => write!(f, "FOREVER"),
        }
    }
}

/// The lesser of two tags.
pub fn lesser(tag: Tag, other: Tag) -> Tag
    ensures { result ≡ lesser tag other }
{
    if tag < other { tag } else { other }
}

/// The greater of two tags.
pub fn greater(tag: Tag, other: Tag) -> Tag
    ensures { result ≡ greater tag other }
{
    if tag < other { other } else { tag }
}
