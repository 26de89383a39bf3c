//! What holds of nodes and stations for themselves. Each function is a law: it does nothing.
ghost use Rattle.std.specs.Prelude.{◌≡◌, List, [], false};
ghost use Rattle.link.specs.Image.{Image};
ghost use Rattle.node.specs.Mail.{lacks_room};
ghost use Rattle.node.specs.Core.{GoesOn};
ghost use Rattle.node.specs.Step.{Station, step_of, initial_of};
ghost use Rattle.node.specs.declared.event.Event.{Event};

use crate::node::Node;

/// A step that sends nothing needs no room.
#[tactic(none)]
pub fn nothing_needs_no_room()
    ensures { (ends : List Image) → lacks_room ends [] ≡ false }
{}

/// Through every step a station's node keeps its rows, and what it was made from.
#[tactic(none)]
pub fn steps_go_on<N: Node>()
    ensures { (s : Station N) (event : Event)
        → GoesOn N.core s.node (step_of N.core N.HUB s event).station.node }
{}

/// Through every step a station's initial state stays.
#[tactic(none)]
pub fn initial_stations_stay<N: Node>()
    ensures { (s : Station N) (event : Event)
        → initial_of N.core (step_of N.core N.HUB s event).station ≡ initial_of N.core s }
{}
