//! Random bytes that are new for one connection.
ghost use Rattle.std.specs.Prelude.{MatchOption};
ghost use Rattle.wires_hosts.specs.Source.{Gave, Failed};

use std::io;
use wires_greeting::RANDOM_SIZE;

/// As many as a greeting has, all from one call that fills bytes; none where that fails.
pub(crate) fn random_bytes<F: FnOnce(&mut [u8]) -> io::Result<()>>(
    fill: F,
) -> Option<[u8; RANDOM_SIZE]>
    requires { F.IsAlwaysCallable fill }
    ensures { MatchOption result (Failed F.FnOnce fill) (λ bytes. Gave F.FnOnce fill bytes) }
{
    let mut random = [0; RANDOM_SIZE];
    match fill(&mut random) {
        Ok(()) => Some(random),
        Err(_) => None,
    }
}
