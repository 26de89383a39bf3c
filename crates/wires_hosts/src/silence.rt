ghost use Rattle.std.specs.Prelude.{◌≡◌};
ghost use Rattle.wires_hosts.specs.Silence as definition;

use crate::times::{LATE_LOOK_MS, PATIENCE_LOOK_MS, STILL_MS};

/// How long nothing was heard, by looks at how often something was. It is counted in looks and not by the clock: a
/// process that was stopped for a while, and goes on, has heard what came meanwhile before it thinks that it was
/// silent.
#[derive(Clone, Copy, Debug, PartialEq, Eq)]
pub struct Silence {
    /// How often something had been heard at the last look.
    pub heard: u64,
    /// How long nothing more was heard, in ms.
    pub quiet_ms: u64,
}

impl Silence {
    /// The silence begins, where this is how often something was heard by now.
    pub fn new(heard: u64) -> Silence
        ensures { result ≡ record { heard = heard; quiet_ms = 0 } }
    {
        Silence { heard, quiet_ms: 0 }
    }

    /// After one more look, with how often something was heard by now.
    pub fn after_look(self, heard: u64) -> Silence
        ensures { result ≡ definition.after_look self heard }
    {
        let quiet_ms = if self.heard == heard {
            self.quiet_ms.saturating_add(PATIENCE_LOOK_MS)
        } else {
            0
        };
        Silence { heard, quiet_ms }
    }
}

/// What is told of a silence.
#[derive(Clone, Copy, Debug, PartialEq, Eq)]
pub enum SilenceTold {
    /// It lasts.
    Lasts,
    /// It is over, behind one of which was told.
    IsOver,
}

/// What is told of a silence that has lasted for the second number of ms, where it was told last of one that had lasted
/// for the first, or of none by 0: that it lasts, after 5 s, and once it has become twice as long, so that whoever is
/// away for a day has few lines to read; and that the one is over of which was told.
pub fn told_of_silence(told_ms: u64, quiet_ms: u64) -> Option<SilenceTold>
    ensures { result ≡ definition.told_of_silence told_ms quiet_ms }
{
    if quiet_ms < told_ms {
        Some(SilenceTold::IsOver)
    } else if quiet_ms >= STILL_MS && quiet_ms / 2 >= told_ms {
        Some(SilenceTold::Lasts)
    } else {
        None
    }
}

/// How many of the ms between two looks count. Where they are too many, the process was stopped meanwhile, and whoever
/// hears what came had no time for that: they count as the time between two others.
pub fn counted_ms(lapse_ms: u64) -> u64
    ensures { result ≡ definition.counted_ms lapse_ms }
{
    if lapse_ms > LATE_LOOK_MS {
        PATIENCE_LOOK_MS
    } else {
        lapse_ms
    }
}
