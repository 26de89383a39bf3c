//! What a step brings to the node at which it happens.
ghost use Rattle.std.specs.Prelude.{◌≡◌};
ghost use Rattle.world_stations.specs.World.{frames_in};
ghost use Rattle.world.specs.World.{stations_of};
ghost use Rattle.fedrun_frames.specs.Brought.{back, acknowledged_last, is_acknowledged, signal_brought, frame_brought};
ghost use Rattle.fedrun_frames.specs.Brought.{brought_by, acknowledged_by};

use signal::Frame;
use world::World;
use world_stations::{Dir, Step};

/// What a step brings to the node at which it happens.
#[derive(Clone, Copy, Debug, PartialEq, Eq)]
pub enum Brought {
    /// A frame that isn't there.
    NoFrame,
    /// A signal that its receiver didn't acknowledge before, nor one after it.
    NewSignal,
    /// A signal that its receiver acknowledged before, or one after it.
    KnownSignal,
    /// A frame without a signal.
    Note,
    /// A federate forgets.
    Forgetting,
    /// Nothing from outside: a node says, runs or sends something by itself.
    Own,
}

/// What a step brings, in the world before it.
pub(crate) fn brought_by(world: &World<'_>, step: Step) -> Brought
    ensures { result ≡ brought_by (stations_of world.now) step }
{
    match step {
        Step::Deliver(dir, k) => frame_brought(world, dir, world.frame(dir, k)),
        Step::Resend(_) | Step::Reconnect(_) | Step::Announce(_) | Step::Advance(_) => Brought::Own,
        Step::Forget(_) => Brought::Forgetting,
    }
}

// What a frame brings that comes in a direction, if it is there.
fn frame_brought(world: &World<'_>, dir: Dir, frame: Option<Frame>) -> Brought
    ensures { result ≡ frame_brought (stations_of world.now) dir frame }
{
    match frame {
        Some(
            Frame::Data {
                incarnation,
                number,
                ..
            },
        ) => signal_brought(is_acknowledged(world, dir, incarnation, number)),
        Some(Frame::Hello(_) | Frame::Ack { .. } | Frame::Refuse { .. }) => Brought::Note,
        None => Brought::NoFrame,
    }
}

fn signal_brought(is_known: bool) -> Brought
    ensures { result ≡ signal_brought is_known }
{
    if is_known {
        Brought::KnownSignal
    } else {
        Brought::NewSignal
    }
}

// Whether the receiver of a direction acknowledged a signal before, or one after it.
fn is_acknowledged(world: &World<'_>, dir: Dir, incarnation: u32, number: u64) -> bool
    ensures { result ≡ is_acknowledged (stations_of world.now) dir incarnation number }
{
    number <= acknowledged_last(world, back(dir), incarnation)
}

// The direction in which what came in another one is acknowledged.
fn back(dir: Dir) -> Dir
    ensures { result ≡ back dir }
{
    match dir {
        Dir::Up(federate) => Dir::Down(federate),
        Dir::Down(federate) => Dir::Up(federate),
    }
}

// The number that a direction's frames acknowledge last in an incarnation, or 0 where none does. Mostly it stands near
// the end: an acknowledgement is sent for each signal that comes.
fn acknowledged_last(world: &World<'_>, dir: Dir, incarnation: u32) -> u64
    ensures { result ≡ acknowledged_last incarnation 0 (frames_in (stations_of world.now) dir) }
{
    for before in (0..world.sent(dir)).rev() {
        match acknowledged_by(world.frame(dir, before + 1), incarnation) {
            Some(number) => return number,
            None => {}
        }
    }
    0
}

// The number that a frame acknowledges in an incarnation.
fn acknowledged_by(frame: Option<Frame>, wanted: u32) -> Option<u64>
    ensures { result ≡ acknowledged_by wanted frame }
{
    match frame {
        Some(
            Frame::Ack {
                incarnation,
                last_taken,
            },
        ) if incarnation == wanted => Some(last_taken),
        _ => None,
    }
}
