ghost use Rattle.std.specs.Prelude.{◌≡◌, ℕ, ◌<◌, ◌≤◌, ◌^◌, ◌↔◌, ◌++◌, IsTrue, IsSome, IfSome, codes};
ghost use Rattle.std.specs.Fmt.{decimal};
ghost use Rattle.tag.specs.Printed.{printed_time};

use std::fmt;
use std::marker::Model;

/// A time below 2^62 ns, in nanoseconds.
#[derive(Clone, Copy, Debug, PartialEq, Eq, PartialOrd, Ord, Hash)]
pub struct Time {
    nanoseconds: u64,
}

impl Model for Time {
    ghost Value = { ℕ };

    ghost view = { λ t. t.nanoseconds };

    ghost invariant = { λ t. t.nanoseconds < 2 ^ 62 };

    ghost inverse = { λ n. record { nanoseconds = n } };
}

impl Time {
    pub fn zero() -> Time
        ensures { result ≡ 0 }
    {
        Time { nanoseconds: 0 }
    }

    /// None for 2^62 ns or more.
    pub fn new(nanoseconds: u64) -> Option<Time>
        ensures in_range { IsSome result ↔ (nanoseconds < 2 ^ 62) }
        ensures value { IfSome result (λ t. t ≡ nanoseconds) }
    {
        if nanoseconds < 1 << 62 {
            Some(Time { nanoseconds })
        } else {
            None
        }
    }

    /// In ns.
    pub fn nanoseconds(self) -> u64
        ensures value { result ≡ self }
        ensures in_range { result < 2 ^ 62 }
    {
        self.nanoseconds
    }
}

impl fmt::Display for Time {
    ghost use Rattle.std.specs.Prelude.{Some};
    ghost use Rattle.tag.specs.Printed.{printed_time};

    ghost output = { λ t. Some (printed_time t) };

    fn fmt<W: fmt::Write>(&self, f: &mut fmt::Formatter<W>) -> fmt::Result {
        if self.nanoseconds == 0 {
            return write!(f, "0");
        }
        let (count, unit) = in_units(self.nanoseconds);
        write!(f, "{count} {unit}")
    }
}

/// A time in ns as a count of the greatest unit that divides it. The unit is sought from ns on, since most times are of
/// a small one.
#[tactic(auto, using(crate::proofs::Units::in_ns, crate::proofs::Units::in_us, crate::proofs::Units::in_ms))]
pub fn in_units(time: u64) -> (u64, &'static str)
    requires { 0 < time }
    ensures { decimal result.0 ++ (codes " " ++ result.1.now) ≡ printed_time time }
{
    if time % 1_000 != 0 {
        (time, "ns")
    } else if time % 1_000_000 != 0 {
        (time / 1_000, "us")
    } else if time % 1_000_000_000 != 0 {
        (time / 1_000_000, "ms")
    } else {
        (time / 1_000_000_000, "s")
    }
}
