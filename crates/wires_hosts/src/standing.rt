//! Where a federate stands, and how far a run is.
ghost use Rattle.std.specs.Prelude.{◌≡◌};
ghost use Rattle.wires_hosts.specs.Standing as definition;

use crate::times::{MOVING_MS, STILL_MS};
use tag::{FiniteTag, Time};

/// Where a federate stands, as a node knows it: the coordinator of each, and a federate of itself. Times are in ms.
#[derive(Clone, Copy, Debug, PartialEq, Eq)]
pub struct Standing {
    /// Its place among those whose names were told.
    pub federate: u16,
    /// Whether it has a connection.
    pub is_connected: bool,
    /// For how long that is so.
    pub lasting_ms: u64,
    /// How long ago something came of it last, or of the coordinator to it; None where nothing ever did.
    pub quiet_ms: Option<u64>,
    pub reached: Reached,
}

/// How far a federate is, as a node knows it.
#[derive(Clone, Copy, Debug, PartialEq, Eq)]
pub struct Reached {
    /// The last tag that it has completed.
    pub completed: Option<FiniteTag>,
    /// Up to which tag it may run.
    pub granted: Option<FiniteTag>,
    /// How many signals from this node to it, or from it to the coordinator, aren't acknowledged.
    pub unacked: usize,
}

impl Reached {
    ghost use Rattle.std.specs.Prelude.{None};

    /// Nothing is known.
    pub fn nothing() -> Reached
        ensures { result ≡ record { completed = None; granted = None; unacked = 0 } }
    {
        Reached {
            completed: None,
            granted: None,
            unacked: 0,
        }
    }
}

/// How far a run is.
#[derive(Clone, Copy, Debug, PartialEq, Eq)]
pub struct HowFar {
    /// The least of the last tags that federates have completed, of those that have completed one.
    pub completed: Option<FiniteTag>,
    /// The time at which it is over.
    pub stop: Time,
    /// Whether it goes on: a tag was completed a moment ago.
    pub is_going_on: bool,
}

/// The least of the tags that federates have completed, where this was the least so far, and one more has completed
/// that one, or none.
pub fn least_of(least: Option<FiniteTag>, completed: Option<FiniteTag>) -> Option<FiniteTag>
    ensures { result ≡ definition.least_of least completed }
{
    match (least, completed) {
        (None, _) => completed,
        (Some(_), None) => least,
        (Some(before), Some(tag)) => {
            if tag.tag() < before.tag() {
                completed
            } else {
                least
            }
        }
    }
}

/// Whether a federate that has completed this, or nothing, may hold a run back in which this is the least tag that was
/// completed: no federate has completed less.
pub fn holds_back(least: Option<FiniteTag>, completed: Option<FiniteTag>) -> bool
    ensures { result ≡ definition.holds_back least completed }
{
    match (least, completed) {
        (_, None) | (None, Some(_)) => true,
        (Some(least), Some(tag)) => !(least.tag() < tag.tag()),
    }
}

/// Whether a run may wait for this federate, by what the node knows: it isn't connected, or hasn't acknowledged what was
/// sent to it, or holds a run back that stands still.
pub fn may_be_awaited(standing: &Standing, holds_back: bool) -> bool
    ensures { result ≡ definition.may_be_awaited standing.now holds_back }
{
    !standing.is_connected || standing.reached.unacked > 0 || holds_back
}

/// For how many ms nothing was heard of a federate; where nothing ever was, for how many it has a connection or none.
pub fn unheard_ms(standing: &Standing) -> u64
    ensures { result ≡ definition.unheard_ms standing.now }
{
    match standing.quiet_ms {
        Some(quiet_ms) => quiet_ms,
        None => standing.lasting_ms,
    }
}

/// For how many ms a federate is missing for which the run may have waited for so many: nothing was heard of it
/// meanwhile. One that had nothing to say before isn't missing for that.
pub fn missing_ms(standing: &Standing, awaited_ms: u64) -> u64
    ensures { result ≡ definition.missing_ms standing.now awaited_ms }
{
    awaited_ms.min(unheard_ms(standing))
}

/// Whether it is to be told how far a run is, by the ms since it began at the look before and at this one: after 10 s,
/// after 30 s, and at each minute.
pub fn is_how_far_told(before: u64, now: u64) -> bool
    ensures { result ≡ definition.is_how_far_told before now }
{
    has_come(10_000, before, now) || has_come(30_000, before, now) || before / 60_000 < now / 60_000
}

// Whether a moment has come by the second time that hadn't by the first.
fn has_come(moment: u64, before: u64, now: u64) -> bool
    ensures { result ≡ definition.has_come moment before now }
{
    before < moment && moment <= now
}

/// Whether a run goes on in which a tag was completed last so many ms ago. None where it isn't said: a run may be so
/// slow.
pub fn is_going_on(stood_ms: u64) -> Option<bool>
    ensures { result ≡ definition.is_going_on stood_ms }
{
    if stood_ms < MOVING_MS {
        Some(true)
    } else if stood_ms >= STILL_MS {
        Some(false)
    } else {
        None
    }
}
