ghost use Rattle.std.specs.Prelude.{◌≡◌, ◌⊎◌, IfOk, IfErr, codes};
ghost use Rattle.loadfed_tables.specs.Sections.{members_of};
ghost use Rattle.loadfed.specs.Shape.{SaysTimer, SaysSlots, has_startup, wants_startup};
ghost use Rattle.loadfed.specs.ShapeFaults.{HasTimerFault, HasSlotsFault};

use crate::arrays::{FromTable, read_each};
use loadfed_tables::{Section, TableFault};
use plan::{Slots, Timer, Timers};
use plan_names::Text;
use reactor_program::ReactionDraft;
use std::alloc::Global;

/// The slots in a federate's table; its startup is set where one of its reactions, which are these, wants it.
pub fn slots_shape(
    alloc: Global,
    federate: &Section<'_>,
    reactions: &[ReactionDraft],
) -> Result<Slots, TableFault>
    ensures ok { IfOk result (SaysSlots reactions.now (members_of federate.now)) }
    ensures refused { IfErr result
        (λ fault. (fault ≡ TableFault.Memory) ⊎ HasSlotsFault (members_of federate.now) fault) }
{
    let inputs = federate.names("inputs")?;
    let outputs = federate.names("outputs")?;
    let timers = read_each(alloc, federate, "timers")?;
    let actions = federate.names("actions")?;
    let physical = federate.names("physical")?;
    Ok(Slots {
        startup: want_startup(reactions),
        inputs,
        outputs,
        timers: Timers::new(timers),
        actions,
        physical,
    })
}

// Whether one of these reactions is triggered by startup.
fn want_startup(reactions: &[ReactionDraft]) -> bool
    ensures { result ≡ wants_startup reactions.now }
{
    match reactions {
        [first, rest @ ..] => has_startup(first.triggers.as_slice()) || want_startup(rest),
        [] => false,
    }
}

fn has_startup(triggers: &[Text]) -> bool
    ensures { result ≡ has_startup triggers.now }
{
    match triggers {
        [first, rest @ ..] => first.as_str() == "startup" || has_startup(rest),
        [] => false,
    }
}

impl FromTable for Timer {
    ghost says = { SaysTimer };

    ghost has_fault = { HasTimerFault };

    fn from_table(_alloc: Global, table: &Section<'_>) -> Result<Timer, TableFault> {
        table.has_only(&["name", "offset", "period"])?;
        let name = table.name("name")?;
        let offset = table.nanoseconds("offset")?;
        let period = table.nanoseconds("period")?;
        Ok(Timer {
            name,
            offset,
            period,
        })
    }
}
