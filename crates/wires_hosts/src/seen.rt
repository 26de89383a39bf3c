//! What was seen of a federate by looks at a node, and what there is to tell of it.
ghost use Rattle.std.specs.Prelude.{◌≡◌};
ghost use Rattle.wires_hosts.specs.Seen as definition;

use crate::happening::Happening;
use crate::silence::{SilenceTold, told_of_silence};
use crate::standing::{Reached, Standing, missing_ms, unheard_ms};

/// What was seen of a federate. Times are in ms since the node began.
#[derive(Clone, Copy)]
pub(crate) struct Seen {
    pub reached: Reached,
    /// Since when the run may wait for it; None where it doesn't.
    pub awaited_since_ms: Option<u64>,
    /// How long nothing had come of it at the last look; None where nothing ever had.
    pub quiet_ms: Option<u64>,
    /// For how long it had been missing when that was told last; 0 where it wasn't.
    pub told_ms: u64,
    /// Whether it had its name when that was told, then or before, and wasn't only one of so many more.
    pub is_named: bool,
}

impl Seen {
    /// Nothing.
    pub(crate) fn new() -> Seen {
        Seen {
            reached: Reached::nothing(),
            awaited_since_ms: None,
            quiet_ms: None,
            told_ms: 0,
            is_named: false,
        }
    }

    /// The run may wait for it at this time, or it doesn't.
    pub(crate) fn awaited(self, is_awaited: bool, now: u64) -> Seen
        ensures { result ≡ definition.awaited self is_awaited now }
    {
        let awaited_since_ms = match (is_awaited, self.awaited_since_ms) {
            (false, _) => None,
            (true, Some(since_ms)) => Some(since_ms),
            (true, None) => Some(now),
        };
        Seen {
            awaited_since_ms,
            ..self
        }
    }

    /// So many ms don't count: it is as if all of that had been so much later.
    pub(crate) fn later(self, millis: u64) -> Seen
        ensures { result ≡ definition.later self millis }
    {
        let awaited_since_ms = match self.awaited_since_ms {
            Some(since_ms) => Some(since_ms.saturating_add(millis)),
            None => None,
        };
        Seen {
            awaited_since_ms,
            ..self
        }
    }

    // For how many ms it is missing at this time, where it stands there.
    fn missing_ms(self, standing: &Standing, now: u64) -> u64
        ensures { result ≡ definition.missing_at self standing.now now }
    {
        match self.awaited_since_ms {
            Some(since_ms) => missing_ms(standing, now.saturating_sub(since_ms)),
            None => 0,
        }
    }

    /// What there is to tell of it at this time, where it stands there: that it is missing; or that it was heard again,
    /// where it was told by its name that it was missing.
    pub(crate) fn told(self, standing: &Standing, now: u64) -> Option<Happening>
        ensures { result ≡ definition.told_of self standing.now now }
    {
        let told_ms = self.told_ms;
        let before = self.quiet_ms;
        let is_named = self.is_named;
        let silence = told_of_silence(told_ms, self.missing_ms(standing, now));
        match silence {
            Some(SilenceTold::Lasts) => Some(Happening::Missing(*standing)),
            Some(SilenceTold::IsOver) => {
                if is_named {
                    heard_again(standing, before, told_ms)
                } else {
                    None
                }
            }
            None => None,
        }
    }

    /// The same behind that, where there was room for its name or wasn't.
    pub(crate) fn after_look(self, standing: &Standing, now: u64, has_room: bool) -> Seen
        ensures { result ≡ definition.after_look self standing.now now has_room }
    {
        let quiet_ms = standing.quiet_ms;
        let missing_ms = self.missing_ms(standing, now);
        match told_of_silence(self.told_ms, missing_ms) {
            Some(SilenceTold::Lasts) => Seen {
                quiet_ms,
                told_ms: missing_ms,
                is_named: self.is_named || has_room,
                ..self
            },
            Some(SilenceTold::IsOver) => Seen {
                quiet_ms,
                told_ms: 0,
                is_named: false,
                ..self
            },
            None => Seen { quiet_ms, ..self },
        }
    }
}

// That a federate was heard again, of which nothing had come for so long before, and of which it was told last that
// it was missing for so long. None where it is silent still, and awaited no more; or where nothing ever came of it
// before: then it is told that it is connected.
fn heard_again(standing: &Standing, before: Option<u64>, told_ms: u64) -> Option<Happening>
    ensures { result ≡ definition.heard_again standing.now before told_ms }
{
    match before {
        Some(before_ms) => {
            if unheard_ms(standing) < told_ms {
                Some(Happening::HeardAgain(standing.federate, before_ms))
            } else {
                None
            }
        }
        None => None,
    }
}
