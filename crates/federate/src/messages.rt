ghost use Rattle.std.specs.Prelude.{◌≡◌, ◌++◌, map, OnOk, if◌then◌else◌, [], Some, None};
ghost use Rattle.tag.specs.LogicalTime.{is_at_most, sum_of};
ghost use Rattle.plan.specs.Federation.{stop_of};
ghost use Rattle.protocol.specs.Federate.{message_over};
ghost use Rattle.network.specs.Event.{value_at};
ghost use Rattle.plan_network.specs.Network.{network_of};
ghost use Rattle.node_cores.specs.FederateCore.{to_coordinator};
ghost use Rattle.federate.specs.Outlets.{messages_by};

use crate::memory::Memory;
use crate::outlet::Outlet;
use plan::Plan;
use protocol::Post;
use reactor_program::Entry;
use reactor_program::entry::value_at;
use signal::Signal;
use tag::{Delay, FiniteTag, plus};

/// A signal for the coordinator, a federate's one peer.
pub fn to_coordinator(signal: Signal) -> Post
    ensures { result ≡ to_coordinator signal }
{
    Post { peer: 0, signal }
}

/// The tag that is the delay later than this one, unless it is later than stop.
pub fn in_time(tag: FiniteTag, delay: Delay, stop: FiniteTag) -> Option<FiniteTag>
    ensures { result ≡ (if is_at_most (sum_of tag delay) stop then Some (sum_of tag delay) else None) }
{
    stop.invariant();
    let later = FiniteTag::of(plus(tag.tag(), delay))?;
    if later <= stop { Some(later) } else { None }
}

/// Adds the messages of a turn that sets these outputs, as far as they aren't later than stop.
pub fn add_messages(
    posts: &mut Vec<Post>,
    plan: &Plan,
    outlets: &[Outlet],
    tag: FiniteTag,
    outputs: &[Entry],
) -> Result<(), Memory>
    ensures { OnOk result (posts.new.items ≡ posts.old.items
        ++ map to_coordinator (messages_by (network_of plan.now [] []) tag (value_at outputs.now) outlets.now)) }
{
    for outlet in outlets {
        let value = value_at(outputs, outlet.connection.port());
        add_message(posts, plan, *outlet, tag, value)?;
    }
    Ok(())
}

// Adds the message of a value, if there is one.
fn add_message(
    posts: &mut Vec<Post>,
    plan: &Plan,
    outlet: Outlet,
    tag: FiniteTag,
    value: Option<i64>,
) -> Result<(), Memory>
    ensures { OnOk result (posts.new.items ≡ posts.old.items
        ++ map to_coordinator (message_over (network_of plan.now [] []) tag outlet.number outlet.connection value)) }
{
    let Some(value) = value else {
        return Ok(());
    };
    let Some(tag) = in_time(tag, outlet.connection.delay(), plan.stop_tag()) else {
        return Ok(());
    };
    let signal = Signal::Msg {
        connection: outlet.number,
        tag,
        value,
    };
    posts.push(to_coordinator(signal))?;
    Ok(())
}
