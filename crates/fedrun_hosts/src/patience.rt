//! How long a node waits for others.
ghost use Rattle.std.specs.Prelude.{◌≡◌, option_map};
ghost use Rattle.std.specs.Duration.{as_nanos};
ghost use Rattle.fedrun_hosts.specs.Waits.{nanos_of, telling_nanos};

use crate::request::NodeRequest;
use std::time::Duration;
use wires_hosts::{Barrier, Heard, LastConnection, Patience};
use wires_transports::Ending;

/// For this many seconds whoever asks is told that the run is finished, where no patience is given.
pub(crate) const PATIENCE_SECONDS: u32 = 10;

/// Who ends a run in which nobody is heard for the node's patience, or in which its log takes nothing more; and a
/// federate's last connection, which is passed in, with the run.
pub(crate) fn watcher<'w, B: Barrier>(
    node: &NodeRequest<'_>,
    heard: &'w Heard,
    barrier: &'w B,
    ending: &'w Ending,
    last: Option<&'w LastConnection>,
) -> Patience<'w, B>
    ensures most { option_map as_nanos result.most ≡ option_map nanos_of node.now.patience }
    ensures last { result.last ≡ last.entry }
{
    Patience {
        heard,
        barrier,
        ending,
        most: patience_of(node),
        last,
    }
}

/// For how long a finished coordinator tells so: for its patience, where it is given some.
pub(crate) fn telling_patience(node: &NodeRequest<'_>) -> Duration
    ensures { as_nanos result ≡ telling_nanos node.now.patience }
{
    seconds(node.patience.unwrap_or(PATIENCE_SECONDS))
}

// How long nobody has to be heard until a node gives up, if it ever does.
fn patience_of(node: &NodeRequest<'_>) -> Option<Duration>
    ensures { option_map as_nanos result ≡ option_map nanos_of node.now.patience }
{
    match node.patience {
        Some(count) => Some(seconds(count)),
        None => None,
    }
}

// This many seconds.
fn seconds(count: u32) -> Duration
    ensures { as_nanos result ≡ nanos_of count }
{
    Duration::from_secs(u64::from(count))
}
