//! Times as counts of milliseconds.
ghost use Rattle.std.specs.Prelude.{◌≡◌, ◌-◌, ◌/◌, ◌^◌, min};
ghost use Rattle.std.specs.Duration.{as_nanos};

use std::time::Duration;

/// A time in whole ms, as far as a number of 64 bits goes.
pub fn millis_of(time: Duration) -> u64
    ensures { result ≡ min (as_nanos time / 1_000_000) (2 ^ 64 - 1) }
{
    match u64::try_from(time.as_millis()) {
        Ok(millis) => millis,
        Err(_) => u64::MAX,
    }
}
