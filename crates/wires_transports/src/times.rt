//! How long the threads of a run wait, each in ms. Those between machines alone: `wires_hosts::times`.
//!
//! A runner that hears nothing has waited `WAITS_BEFORE_RESEND` times `RUNNER_WAIT_MS`, which is 100 ms, before it
//! sends again what may be lost.

/// Between two looks at a listener, and before the next attempt to connect.
pub const PAUSE_MS: u64 = 1;

/// Between two looks at a listener that is calm.
pub const CALM_PAUSE_MS: u64 = 10;

/// A listener is calm where every federate has a connection, and for so long nobody came and no other waited to be let
/// in. Until then it is looked at so often that a crowd can't fill the system's queue, in which a federate's own
/// connection would have no place.
pub const CALM_AFTER_MS: u64 = 200;

/// The longest wait of a runner for a wake-up.
pub const RUNNER_WAIT_MS: u64 = 10;

/// After this many waits in a row without a wake-up, what may be lost is sent again.
pub const WAITS_BEFORE_RESEND: u8 = 10;

/// The longest wait until a writer sees by itself that the run is to end.
pub const WRITER_WAIT_MS: u64 = 100;

/// The longest wait of an Ack for another frame to the same peer.
pub const ACK_WAIT_MS: u64 = 1;

/// An attempt to connect that takes longer has failed.
pub const CONNECT_MS: u64 = 3000;

/// A connection that hasn't said whose it is after so long is closed.
pub const SILENCE_MS: u64 = 5000;

/// So long the readers have, once the run is to end, to read what was sent.
pub const END_MS: u64 = 1000;

/// How long an audit beside a run leaves its nodes alone where nothing new was written down.
pub const AUDIT_PAUSE_MS: u64 = 1;
