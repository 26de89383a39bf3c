ghost use Rattle.std.specs.Prelude.{◌≡◌};
ghost use Rattle.wires_workers.specs.Point.{point_of};

use node::{Event, NodeId};
use std::sync::Wait;
use std::time::Clock;

/// The kind of an event.
#[derive(Clone, Copy, Debug, PartialEq, Eq)]
pub enum Point {
    Frame,
    Resend,
    Hello,
    Announce,
    Advance,
}

impl Point {
    /// The event's kind.
    pub fn of(event: &Event) -> Point
        ensures { result ≡ point_of event.now }
    {
        match event {
            Event::Frame(_, _) => Point::Frame,
            Event::Resend(_) => Point::Resend,
            Event::Hello(_) => Point::Hello,
            Event::Announce => Point::Announce,
            Event::Advance => Point::Advance,
        }
    }
}

/// What each worker passes before each event, with no lock held: it may make the worker wait.
pub trait Gate {
    /// Whether it makes nobody wait. Then it isn't passed, and a worker may hand in several events while it holds a
    /// lock.
    fn is_open(&self) -> bool;

    /// A worker of this node is about to hand in an event of this kind.
    fn pass<R: Wait + Clock>(&self, rt: &R, node: NodeId, point: Point);
}

/// A gate that lets all pass.
#[derive(Clone, Copy, Debug, PartialEq, Eq)]
pub struct NoGate;

impl Gate for NoGate {
    fn is_open(&self) -> bool {
        true
    }

    fn pass<R: Wait + Clock>(&self, _rt: &R, _node: NodeId, _point: Point) {}
}
