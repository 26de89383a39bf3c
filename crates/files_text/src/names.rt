//! The names of a federate's slots and outputs.
ghost use Rattle.std.specs.Prelude.{◌≡◌};
ghost use Rattle.plan_slots.specs.Numbering.{timer_names};
ghost use Rattle.reactor_program.specs.Resolution.{slot_names};
ghost use Rattle.files_text.specs.RowText.{name_at};

use plan::{Slots, Timer};
use plan_names::Text;

/// The name of a slot, or an empty text where there is none.
pub(crate) fn slot_name(slots: &Slots, slot: usize) -> &str
    ensures { result.now ≡ name_at (slot_names slots.now) slot }
{
    if slot == 0 {
        return "startup";
    }
    let place = slot - 1;
    let inputs = slots.inputs.as_slice();
    if place < inputs.len() {
        return name_of(inputs, place);
    }
    let place = place - inputs.len();
    let timers = slots.timers.as_slice();
    if place < timers.len() {
        return timer_name(timers, place);
    }
    let place = place - timers.len();
    let actions = slots.actions.as_slice();
    if place < actions.len() {
        return name_of(actions, place);
    }
    name_of(slots.physical.as_slice(), place - actions.len())
}

/// The name at a place, or an empty text where there is none.
pub(crate) fn name_of(names: &[Text], place: usize) -> &str
    ensures { result.now ≡ name_at names.now place }
{
    match names.get(place) {
        Some(name) => name.as_str(),
        None => "",
    }
}

// The name of the timer at a place, or an empty text where there is none.
fn timer_name(timers: &[Timer], place: usize) -> &str
    ensures { result.now ≡ name_at (timer_names timers.now) place }
{
    match timers.get(place) {
        Some(timer) => timer.name.as_str(),
        None => "",
    }
}
