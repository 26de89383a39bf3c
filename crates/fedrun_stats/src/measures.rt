//! What is measured of a command.
ghost use Rattle.std.specs.Prelude.{◌≡◌, ◌+◌, ◌-◌, ◌*◌, ◌^◌, min, None, Some, IfSome};
ghost use Rattle.fedrun_stats.specs.Measured.{stats_of};

use files_stats::{Phases, Stats};
use std::time::{Clock, Instant};
use wires_traffic::Counts;

/// What was measured so far; times are in ms since the command began.
#[derive(Clone, Copy)]
pub(crate) struct Measures {
    // The command.
    command: &'static str,
    // When its nodes began to run.
    began: Option<u64>,
    // When all their workers had ended.
    ran: Option<u64>,
    // Since when federates are told that the run is finished, while they are.
    tells: Option<u64>,
    // For how long they were told so.
    telling: u64,
    coordinator: Option<Counts>,
    federates: Option<Counts>,
}

impl Measures {
    /// Nothing so far.
    pub fn new() -> Measures
        ensures began { result.began ≡ None }
        ensures ran { result.ran ≡ None }
        ensures tells { result.tells ≡ None }
        ensures telling { result.telling ≡ 0 }
    {
        Measures {
            command: "",
            began: None,
            ran: None,
            tells: None,
            telling: 0,
            coordinator: None,
            federates: None,
        }
    }

    /// Its nodes begin to run.
    pub fn begin(&mut self, millis: u64)
        ensures { self.new ≡ record self.old { began = Some millis } }
    {
        self.began = Some(millis);
    }

    /// All workers of this command's nodes have ended, and counted this: those of the coordinator and of federates,
    /// where they ran here.
    pub fn end(
        &mut self,
        command: &'static str,
        millis: u64,
        coordinator: Option<Counts>,
        federates: Option<Counts>,
    )
        ensures { self.new ≡ record self.old {
          command = command.entry;
          ran = Some millis;
          coordinator = coordinator;
          federates = federates;
        } }
    {
        self.command = command;
        self.ran = Some(millis);
        self.coordinator = coordinator;
        self.federates = federates;
    }

    /// Federates are told from now on that the run is finished.
    pub fn tell(&mut self, millis: u64)
        ensures { self.new ≡ record self.old { tells = Some millis } }
    {
        self.tells = Some(millis);
    }

    /// They aren't told any more.
    pub fn end_telling(&mut self, millis: u64)
        ensures told { IfSome self.old.tells (λ begun. self.new ≡ record self.old {
          tells = None;
          telling = min (self.old.telling + (millis - begun)) (2 ^ 64 - 1);
        }) }
        ensures untold { self.old.tells ≡ None → self.new ≡ self.old }
    {
        if let Some(begun) = self.tells {
            self.telling = self.telling.saturating_add(millis.saturating_sub(begun));
            self.tells = None;
        }
    }

    /// All of it, of the command that ended at this time, with this status. None where no node ran.
    pub fn stats(&self, status: u8, ended: u64) -> Option<Stats<'static>>
        ensures { result ≡ stats_of self.now status ended }
    {
        let began = self.began?;
        let ran = self.ran?;
        let phases = Phases {
            loading: began,
            running: ran.saturating_sub(began),
            telling: self.telling,
            ending: ended.saturating_sub(ran).saturating_sub(self.telling),
        };
        Some(Stats {
            command: self.command,
            status,
            phases,
            coordinator: self.coordinator,
            federates: self.federates,
        })
    }
}

/// How many ms ago that was; 0 where the clock can't be read.
pub(crate) fn millis_since<C: Clock>(clock: &C, start: Option<Instant>) -> u64 {
    match start {
        Some(start) => start.elapsed(clock).map_or(
            0,
            |elapsed| millis_of(elapsed.as_secs(), elapsed.subsec_millis()),
        ),
        None => 0,
    }
}

// So many seconds and ms, in ms.
fn millis_of(seconds: u64, millis: u32) -> u64
    ensures { result ≡ min (seconds * 1000 + millis) (2 ^ 64 - 1) }
{
    seconds
        .saturating_mul(1000)
        .saturating_add(u64::from(millis))
}
