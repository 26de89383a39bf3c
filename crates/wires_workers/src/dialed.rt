//! The reader of a federate, which makes its connections itself.
use crate::context::Context;
use crate::gate::Gate;
use crate::reader::{ConnectionEnd, Reading, read_connection};
use crate::wake_ups::WakeUp;
use node::Node;
use std::alloc::Global;
use std::sync::Wait;
use std::thread;
use std::time::{Clock, Duration};
use wires_transports::times::PAUSE_MS;
use wires_transports::{Accepted, Cut, Dial, Transport};

/// What a federate's reader leaves.
#[derive(Drop)]
pub struct Dialed {
    /// What came to it.
    pub reading: Reading,
    /// Whether the coordinator acknowledged a signal that was never offered to it. No coordinator of this federate's
    /// run does: one of the two was begun anew without what it knew.
    pub shows_other_history: bool,
}

/// Connects a federate to its one peer, and reads. Where a connection breaks or ends, it makes a new one at once, until
/// the run is to end, the federate's end is closed, or the peer speaks of another history. An attempt that fails counts
/// as a turn of the runner, and so does a connection on which no frame came.
pub fn read_dialed<R: Wait + Clock, N: Node, G: Gate, T: Transport, C: Cut, D: Dial<T, C>>(
    rt: &R,
    alloc: Global,
    context: &Context<'_, N, G, T, C>,
    dial: &D,
) -> Dialed {
    let mut reading = Reading::new(alloc);
    let mut shows_other_history = false;
    for _ in rt.forever() {
        if context.ending.is_set() || context.shared.is_closed(rt, 0) {
            break;
        }
        match connect(rt, alloc, context, &mut reading, dial) {
            ConnectionEnd::Heard => {}
            ConnectionEnd::Silent => tell_failure(rt, context),
            ConnectionEnd::Closed => break,
            ConnectionEnd::OtherHistory => {
                shows_other_history = true;
                break;
            }
        }
    }
    Dialed {
        reading,
        shows_other_history,
    }
}

// Makes a connection, and reads it to its end. The peer is greeted once there is one: an attempt that fails is no event
// of the node.
fn connect<R: Wait + Clock, N: Node, G: Gate, T: Transport, C: Cut, D: Dial<T, C>>(
    rt: &R,
    alloc: Global,
    context: &Context<'_, N, G, T, C>,
    reading: &mut Reading,
    dial: &D,
) -> ConnectionEnd {
    match dial.dial(rt, alloc) {
        Some(connection) => {
            let arrived = Accepted {
                connection,
                first: Vec::new(alloc),
            };
            read_connection(rt, alloc, context, reading, 0, arrived)
        }
        None => ConnectionEnd::Silent,
    }
}

// Tells the runner that an attempt failed, and waits a little before the next one.
fn tell_failure<R: Wait + Clock, N: Node, G: Gate, T: Transport, C: Cut>(
    rt: &R,
    context: &Context<'_, N, G, T, C>,
) {
    context.wake_up(rt, WakeUp::NotConnected);
    thread::sleep(rt, Duration::from_millis(PAUSE_MS));
}
