//! Turns: an announcement and then an advance each.
ghost use Rattle.std.specs.Prelude.{◌≡◌, ◌↔◌, true};
ghost use Rattle.node_journal.specs.Turns.{turn_event};

use node::Event;

/// An event of turns, counted from 0.
pub fn turn_event(number: usize) -> Event
    ensures { result ≡ turn_event number }
{
    if number % 2 == 0 {
        Event::Announce
    } else {
        Event::Advance
    }
}

/// Whether two events are the same.
pub(crate) fn is_same(event: &Event, other: &Event) -> bool
    ensures { (result ≡ true) ↔ (event.now ≡ other.now) }
{
    event == other
}
