//! Federations, and the agenda of the first of their federates.
ghost use Rattle.std.specs.Prelude.{IfSome};
ghost use Rattle.reactor_programs.specs.Programs.{AreProgramsOf};

use loadfed::load;
use plan::Plan;
use reactor_agenda::Agenda;
use reactor_programs::Programs;
use std::alloc::Global;

/// The federation in a text.
pub(crate) fn loaded(alloc: Global, text: &str) -> Option<(Plan, Programs)>
    ensures { IfSome result (λ loaded. AreProgramsOf loaded.0 loaded.1) }
{
    load(alloc, text.as_bytes()).ok()
}

/// What its first federate has to run before any event is put.
pub(crate) fn first_agenda(alloc: Global, plan: &Plan) -> Option<Agenda> {
    plan.invariant();
    let stop = plan.stop_tag();
    let federate = plan.federates().first()?;
    Agenda::new(alloc, &federate.slots, stop).ok()
}

/// One federate, whose slot 1 is an action.
const ONE_ACTION: &str = "stop = \"1 s\"\nfederate = [{ name = \"f\", actions = [\"a\"] }]\n";

/// Its plan.
pub(crate) fn one_action(alloc: Global) -> Option<Plan> {
    let (plan, _programs) = loaded(alloc, ONE_ACTION)?;
    Some(plan)
}
