ghost use Rattle.std.specs.Prelude.{◌≡◌, ◌+◌};
ghost use Rattle.std.specs.Option.{option_map};
ghost use Rattle.plan_names.specs.Naming.{place_of};
ghost use Rattle.plan_slots.specs.Limits.{IsWithinLimits};
ghost use Rattle.plan_slots.specs.Numbering.{first_action};
ghost use Rattle.reactor_program.specs.Resolution.{trigger_slot, operand_slot};

use plan_slots::Slots;

/// The slot that a trigger names.
pub(crate) fn trigger_slot(slots: &Slots, name: &[u8]) -> Option<usize>
    requires { IsWithinLimits slots.now }
    ensures { result ≡ trigger_slot slots.now name.now }
{
    if name == b"startup".as_slice() {
        return Some(Slots::STARTUP);
    }
    if let Some(place) = slots.inputs.place_of(name) {
        return Some(Slots::FIRST_INPUT + place);
    }
    if let Some(place) = slots.timers.place_of(name) {
        return Some(slots.first_timer() + place);
    }
    if let Some(place) = slots.actions.place_of(name) {
        return Some(slots.first_action() + place);
    }
    if let Some(place) = slots.physical.place_of(name) {
        return Some(slots.first_physical() + place);
    }
    None
}

/// The slot of the action of this name that isn't physical.
pub(crate) fn action_slot(slots: &Slots, name: &[u8]) -> Option<usize>
    requires { IsWithinLimits slots.now }
    ensures { result ≡ option_map (λ place. first_action slots.now + place) (place_of slots.now.actions name.now) }
{
    let place = slots.actions.place_of(name)?;
    Some(slots.first_action() + place)
}

/// The slot that an operand names: `startup` only where the reactor has one.
pub(crate) fn operand_slot(slots: &Slots, name: &[u8]) -> Option<usize>
    requires { IsWithinLimits slots.now }
    ensures { result ≡ operand_slot slots.now name.now }
{
    if !slots.startup && name == b"startup".as_slice() {
        return None;
    }
    trigger_slot(slots, name)
}
