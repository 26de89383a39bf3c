ghost use Rattle.std.specs.Prelude.{◌≡◌, ◌^◌, ◌<◌, ◌↔◌, IsSome, IfSome};
ghost use Rattle.tag.specs.LogicalTime.{is_past};

use crate::tag::Tag;
use crate::time::Time;
use std::fmt;
use std::marker::Model;

/// A tag that isn't FOREVER.
#[derive(Clone, Copy, Debug, PartialEq, Eq, PartialOrd, Ord, Hash)]
pub struct FiniteTag {
    time: Time,
    microstep: u32,
}

impl Model for FiniteTag {
    ghost use Rattle.std.specs.Prelude.{◌^◌, ◌<◌};
    ghost use Rattle.tag.specs.LogicalTime.{LogicalTime};

    ghost Value = { LogicalTime };

    ghost view = { λ t. record { time = t.time; microstep = t.microstep } };

    ghost invariant = { λ t. t.time < 2 ^ 62 };

    ghost inverse = { λ g. record { time = g.time; microstep = g.microstep } };
}

impl FiniteTag {
    ghost use Rattle.tag.specs.LogicalTime.{IsFinite};

    pub fn new(time: Time, microstep: u32) -> FiniteTag
        ensures { result ≡ record { time = time; microstep = microstep } }
    {
        // For the prover: the time is below 2^62 ns.
        let _nanoseconds = time.nanoseconds();
        FiniteTag { time, microstep }
    }

    /// None for FOREVER.
    pub fn of(tag: Tag) -> Option<FiniteTag>
        ensures finite { IsSome result ↔ (tag.time < 2 ^ 62) }
        ensures value { IfSome result (λ t. t ≡ tag) }
    {
        let microstep = tag.microstep();
        Time::new(tag.time()).map(|time| FiniteTag { time, microstep })
    }

    pub fn tag(self) -> Tag
        ensures { result ≡ self }
    {
        Tag::new(self.time, self.microstep)
    }

    pub fn time(self) -> Time
        ensures { result ≡ self.time }
    {
        self.time
    }

    pub fn microstep(self) -> u32
        ensures { result ≡ self.microstep }
    {
        self.microstep
    }

    /// What every such tag keeps.
    pub fn invariant(self)
        ensures { IsFinite self }
    {}
}

impl fmt::Display for FiniteTag {
    ghost use Rattle.std.specs.Prelude.{Some};
    ghost use Rattle.tag.specs.Printed.{printed_tag};

    ghost output = { λ t. Some (printed_tag t) };

    fn fmt<W: fmt::Write>(&self, f: &mut fmt::Formatter<W>) -> fmt::Result {
        fmt::Display::fmt(&self.tag(), f)
    }
}

/// Whether `tag` is later than `last`. None is before every tag.
pub fn is_past(last: Option<FiniteTag>, tag: Tag) -> bool
    ensures { result ≡ is_past last tag }
{
    match last {
        Some(last) => last.tag() < tag,
        None => true,
    }
}
