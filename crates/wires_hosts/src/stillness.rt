//! Since when a run stands still, and what was told of that.
ghost use Rattle.std.specs.Prelude.{◌≡◌, ◌-◌, true};
ghost use Rattle.wires_hosts.specs.Silence.{told_of_silence};
ghost use Rattle.wires_hosts.specs.Stillness as definition;

use crate::silence::{SilenceTold, told_of_silence};

/// Since when a run stands still, and what was told of that. Times are in ms since the node began.
#[derive(Clone, Copy)]
pub(crate) struct Stillness {
    /// When a tag was completed last, and when one was completed or granted, or the coordinator heard again.
    pub completed_ms: u64,
    pub granted_ms: u64,
    /// For how long nobody had been heard, and nothing had been granted, when that was told last; 0 where it wasn't.
    pub silence_told_ms: u64,
    pub ungranted_told_ms: u64,
    /// Whether it was told that the run stands still, and no tag was completed since.
    pub is_told: bool,
}

impl Stillness {
    /// Of a run that begins at this time.
    pub(crate) fn new(now: u64) -> Stillness
        ensures { result ≡ definition.begun now }
    {
        Stillness {
            completed_ms: now,
            granted_ms: now,
            silence_told_ms: 0,
            ungranted_told_ms: 0,
            is_told: false,
        }
    }

    /// A tag was granted at this time, or the coordinator heard again.
    pub(crate) fn granted(self, now: u64) -> Stillness
        ensures { result ≡ definition.granted self now }
    {
        Stillness {
            granted_ms: now,
            ungranted_told_ms: 0,
            ..self
        }
    }

    /// A tag was completed at this time: the run goes on.
    pub(crate) fn completed(self, now: u64) -> Stillness
        ensures { result ≡ definition.completed self now }
    {
        Stillness {
            completed_ms: now,
            granted_ms: now,
            ungranted_told_ms: 0,
            is_told: false,
            ..self
        }
    }

    /// For how many ms no tag was completed, up to this time.
    pub(crate) fn stood_ms(self, now: u64) -> u64
        ensures { result ≡ now - self.completed_ms }
    {
        now.saturating_sub(self.completed_ms)
    }

    /// What is told of a silence of so many ms.
    pub(crate) fn silence_told(self, quiet_ms: u64) -> Option<SilenceTold>
        ensures { result ≡ told_of_silence self.silence_told_ms quiet_ms }
    {
        told_of_silence(self.silence_told_ms, quiet_ms)
    }

    /// Behind what is told of that silence.
    pub(crate) fn after_silence(self, quiet_ms: u64) -> Stillness
        ensures { result ≡ definition.after_silence self quiet_ms }
    {
        match self.silence_told(quiet_ms) {
            Some(SilenceTold::Lasts) => Stillness {
                silence_told_ms: quiet_ms,
                is_told: true,
                ..self
            },
            Some(SilenceTold::IsOver) => Stillness {
                silence_told_ms: 0,
                ..self
            },
            None => self,
        }
    }

    /// For how many ms nothing was granted, up to this time.
    pub(crate) fn ungranted_ms(self, now: u64) -> u64
        ensures { result ≡ now - self.granted_ms }
    {
        now.saturating_sub(self.granted_ms)
    }

    /// What is told of that.
    pub(crate) fn ungranted_told(self, now: u64) -> Option<SilenceTold>
        ensures { result ≡ definition.told_of_ungranted self now }
    {
        told_of_silence(self.ungranted_told_ms, self.ungranted_ms(now))
    }

    /// It was told at this time that nothing is granted.
    pub(crate) fn told_ungranted(self, now: u64) -> Stillness
        ensures { result ≡ record self { ungranted_told_ms = now - self.granted_ms; is_told = true } }
    {
        Stillness {
            ungranted_told_ms: self.ungranted_ms(now),
            is_told: true,
            ..self
        }
    }

    /// It was told that the run stands still.
    pub(crate) fn told(self) -> Stillness
        ensures { result ≡ record self { is_told = true } }
    {
        Stillness {
            is_told: true,
            ..self
        }
    }

    /// So many ms don't count: it is as if all of that had been so much later.
    pub(crate) fn later(self, millis: u64) -> Stillness
        ensures { result ≡ definition.later self millis }
    {
        Stillness {
            completed_ms: self.completed_ms.saturating_add(millis),
            granted_ms: self.granted_ms.saturating_add(millis),
            ..self
        }
    }
}
