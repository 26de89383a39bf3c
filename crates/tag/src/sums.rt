ghost use Rattle.std.specs.Prelude.{◌≡◌, MatchOption};
ghost use Rattle.tag.specs.LogicalTime.{LogicalTime, IsLogicalTime, forever, sum_of, successor_of, tag_before};

use crate::delay::Delay;
use crate::tag::Tag;
use crate::time::Time;

/// The tag that is the delay later than this one.
pub fn plus(tag: Tag, delay: Delay) -> Tag
    ensures { result ≡ sum_of tag delay }
{
    // For the prover: a tag is at most FOREVER.
    tag.invariant();
    match sum(tag.time(), tag.microstep(), delay) {
        Some((time, microstep)) => Tag::new(time, microstep),
        None => Tag::FOREVER,
    }
}

/// The delay of going the first way and then the second.
pub fn then(first: Delay, second: Delay) -> Delay
    ensures { result ≡ sum_of first second }
{
    // For the prover: a delay is at most FOREVER.
    first.invariant();
    match sum(first.time(), first.microstep(), second) {
        Some((time, microstep)) => Delay::new(time, microstep),
        None => Delay::FOREVER,
    }
}

/// The least later tag; FOREVER stays.
pub fn succ(tag: Tag) -> Tag
    ensures { result ≡ successor_of tag }
{
    plus(tag, Delay::after(Time::zero()))
}

/// The greatest earlier tag, or None for the first tag.
pub fn pred(tag: Tag) -> Option<Tag>
    ensures { result ≡ tag_before tag }
{
    // For the prover: a tag is at most FOREVER.
    tag.invariant();
    let (time, microstep) = match tag.microstep().checked_sub(1) {
        Some(microstep) => (tag.time(), microstep),
        None => (tag.time().checked_sub(1)?, u32::MAX),
    };
    Time::new(time).map(|time| Tag::new(time, microstep))
}

// None where the sum is FOREVER.
fn sum(time: u64, microstep: u32, delay: Delay) -> Option<(Time, u32)>
    requires { IsLogicalTime (record { time = time; microstep = microstep }) }
    ensures { let g : LogicalTime = record { time = time; microstep = microstep }
        in MatchOption result (sum_of g delay ≡ forever)
        (λ s. record { time = s.0; microstep = s.1 } ≡ sum_of g delay) }
{
    // For the prover: a delay is at most FOREVER.
    delay.invariant();
    let (time, microstep) = if delay.time() > 0 {
        (time + delay.time(), delay.microstep())
    } else {
        match microstep.checked_add(delay.microstep()) {
            Some(microstep) => (time, microstep),
            None => (time + 1, 0),
        }
    };
    Time::new(time).map(|time| (time, microstep))
}
