ghost use Rattle.std.specs.Prelude.{◌≡◌, ◌<◌, IfOk, OnOk, OnErr};

use crate::broken::Broken;
use std::marker::Model;

/// How many calls over a connection failed.
#[derive(Debug, Drop)]
pub struct Failures {
    count: u64,
}

impl Model for Failures {
    ghost use Rattle.std.specs.Prelude.{ℕ};

    ghost Value = { ℕ };

    ghost view = { λ f. f.count };
}

impl Failures {
    /// None so far.
    pub fn new() -> Failures
        ensures { result ≡ 0 }
    {
        Failures { count: 0 }
    }

    /// Counts a call that failed. After 2^64 - 1 of them no more is counted: the call answers this instead.
    pub fn tell<T: Drop>(&mut self, untold: T) -> Result<T, Broken>
        ensures counted { OnErr result (self.old < self.new) }
        ensures untold { IfOk result (λ answer. answer ≡ untold) }
        ensures not_counted { OnOk result (self.new ≡ self.old) }
    {
        match self.count.checked_add(1) {
            Some(count) => {
                self.count = count;
                Err(Broken)
            }
            None => Ok(untold),
        }
    }
}
