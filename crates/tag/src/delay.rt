ghost use Rattle.std.specs.Prelude.{◌≡◌, ◌↔◌, IsTrue};

use crate::tag::Tag;
use crate::time::Time;
use std::fmt;
use std::marker::Model;

/// How much later something happens: a time below 2^62 ns with a microstep, or `FOREVER`.
#[derive(Clone, Copy, Debug, PartialEq, Eq, PartialOrd, Ord)]
pub struct Delay {
    time: u64,
    microstep: u32,
}

impl Model for Delay {
    ghost use Rattle.tag.specs.LogicalTime.{LogicalTime, IsLogicalTime};

    ghost Value = { LogicalTime };

    ghost view = { λ d. record { time = d.time; microstep = d.microstep } };

    ghost invariant = { λ d. IsLogicalTime (record { time = d.time; microstep = d.microstep }) };

    ghost inverse = { λ d. record { time = d.time; microstep = d.microstep } };
}

impl Delay {
    ghost use Rattle.tag.specs.LogicalTime.{IsLogicalTime, origin, forever, delay_of};

    /// The delay that is longer than all others.
    pub const FOREVER: Delay = Delay {
        time: 1 << 62,
        microstep: 0,
    };

    pub fn new(time: Time, microstep: u32) -> Delay
        ensures { result ≡ record { time = time; microstep = microstep } }
    {
        Delay {
            time: time.nanoseconds(),
            microstep,
        }
    }

    /// No delay at all, of a connection without `after`.
    pub fn none() -> Delay
        ensures { result ≡ origin }
    {
        Delay {
            time: 0,
            microstep: 0,
        }
    }

    /// The delay of a connection's `after`, or of a scheduling: 0 is the next microstep.
    pub fn after(time: Time) -> Delay
        ensures { result ≡ delay_of time }
    {
        let nanoseconds = time.nanoseconds();
        if nanoseconds > 0 {
            Delay {
                time: nanoseconds,
                microstep: 0,
            }
        } else {
            Delay {
                time: 0,
                microstep: 1,
            }
        }
    }

    /// In ns; 2^62 where it is FOREVER.
    pub fn time(self) -> u64
        ensures { result ≡ self.time }
    {
        self.time
    }

    pub fn microstep(self) -> u32
        ensures { result ≡ self.microstep }
    {
        self.microstep
    }

    pub fn is_none(self) -> bool
        ensures { IsTrue result ↔ (self ≡ origin) }
    {
        self.time == 0 && self.microstep == 0
    }

    pub fn is_forever(self) -> bool
        ensures { IsTrue result ↔ (self ≡ forever) }
    {
        self.time == 1 << 62
    }

    /// What every delay keeps.
    pub fn invariant(self)
        ensures { IsLogicalTime self }
    {}
}

impl fmt::Display for Delay {
    ghost use Rattle.std.specs.Prelude.{Some};
    ghost use Rattle.tag.specs.Printed.{printed_tag};

    ghost output = { λ t. Some (printed_tag t) };

    fn fmt<W: fmt::Write>(&self, f: &mut fmt::Formatter<W>) -> fmt::Result {
        fmt::Display::fmt(&Tag::after_origin(*self), f)
    }
}
