//! Peers that are behind: they haven't acknowledged much of what was sent to them.
ghost use Rattle.std.specs.Prelude.{◌≡◌};
ghost use Rattle.wires_workers.specs.Sending.{is_behind};

use crate::context::Context;
use crate::gate::Gate;
use node::Node;
use std::sync::Wait;
use std::thread;
use std::time::{Clock, Duration};
use wires_transports::times::PAUSE_MS;
use wires_transports::{Cut, Transport};

/// A peer that hasn't acknowledged this many signals is behind. Fewer of them, 20 KiB at most, have room on a
/// connection that nobody reads; so who writes them doesn't wait for a reader.
pub(crate) const SIGNALS_BEHIND: usize = 512;

/// A peer that hasn't acknowledged this many signals is far behind: a quarter of what its end keeps.
pub(crate) const SIGNALS_FAR_BEHIND: usize = 1_024;

// How often it is looked whether a peer is still far behind, at most.
const LOOKS_AT_PEER: u32 = 20;

impl<'a, N: Node, G: Gate, T: Transport, C: Cut> Context<'a, N, G, T, C> {
    /// Waits until a peer isn't far behind any more, but not long: the peer may wait for the worker that asks.
    pub fn wait_for<R: Wait + Clock>(&self, rt: &R, peer: usize) {
        for _ in 0..LOOKS_AT_PEER {
            if self.ending.is_set() || !is_far_behind(self.shared.unacked(rt, peer)) {
                break;
            }
            thread::sleep(rt, Duration::from_millis(PAUSE_MS));
        }
    }
}

/// Whether a peer is behind that hasn't acknowledged this many signals.
pub(crate) fn is_behind(unacked: Option<usize>) -> bool
    ensures { result ≡ is_behind unacked }
{
    matches!(unacked, Some(count) if SIGNALS_BEHIND <= count)
}

/// Whether a peer is far behind that hasn't acknowledged this many signals.
pub(crate) fn is_far_behind(unacked: Option<usize>) -> bool {
    matches!(unacked, Some(count) if SIGNALS_FAR_BEHIND <= count)
}
