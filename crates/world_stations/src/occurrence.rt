//! Which event a step is, and at which node.
ghost use Rattle.std.specs.Prelude.{◌≡◌};
ghost use Rattle.world_stations.specs.World.{federate_of, comes, sends_again, greets};

use crate::Dir;
use node::{Event, NodeId};
use signal::Frame;

/// An event at a node.
#[derive(Clone, Copy)]
pub(crate) struct Occurrence {
    pub(crate) node: NodeId,
    pub(crate) event: Event,
}

/// The federate of a direction.
pub(crate) fn federate_of(dir: Dir) -> usize
    ensures { result ≡ federate_of dir }
{
    match dir {
        Dir::Up(federate) | Dir::Down(federate) => federate,
    }
}

/// A frame of a direction comes to its receiver.
pub(crate) fn comes(dir: Dir, frame: Frame) -> Occurrence
    ensures { record { node = result.node; event = result.event } ≡ comes dir frame }
{
    match dir {
        Dir::Up(federate) => Occurrence {
            node: NodeId::Coordinator,
            event: Event::Frame(federate, frame),
        },
        Dir::Down(federate) => Occurrence {
            node: NodeId::Federate(federate),
            event: Event::Frame(0, frame),
        },
    }
}

/// The sender of a direction sends again what isn't acknowledged.
pub(crate) fn sends_again(dir: Dir) -> Occurrence
    ensures { record { node = result.node; event = result.event } ≡ sends_again dir }
{
    match dir {
        Dir::Up(federate) => Occurrence {
            node: NodeId::Federate(federate),
            event: Event::Resend(0),
        },
        Dir::Down(federate) => Occurrence {
            node: NodeId::Coordinator,
            event: Event::Resend(federate),
        },
    }
}

/// The sender of a direction greets.
pub(crate) fn greets(dir: Dir) -> Occurrence
    ensures { record { node = result.node; event = result.event } ≡ greets dir }
{
    match dir {
        Dir::Up(federate) => Occurrence {
            node: NodeId::Federate(federate),
            event: Event::Hello(0),
        },
        Dir::Down(federate) => Occurrence {
            node: NodeId::Coordinator,
            event: Event::Hello(federate),
        },
    }
}
