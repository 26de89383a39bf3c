ghost use Rattle.std.specs.Prelude.{◌≡◌, ◌<◌, ◌++◌, OnOk, IfOk, string_bytes};
ghost use Rattle.plan.specs.Federation.{federate_count};
ghost use Rattle.files_text.specs.PlanText.{federate_name, printed_size, printed_rank, printed_least, printed_each};
ghost use Rattle.files_text.specs.PlanText.{printed_plan};

use crate::memory::Memory;
use plan::Plan;
use std::alloc::{AllocError, Global};

/// A plan: its size, then each federate's rank, then the least delay between any two that a path joins.
pub fn plan_text(alloc: Global, plan: &Plan) -> Result<String, Memory>
    ensures { IfOk result (λ text. string_bytes text ≡ printed_plan plan.now) }
{
    let mut text = String::new(alloc);
    push_size(&mut text, plan)?;
    push_ranks(&mut text, plan)?;
    push_least_delays(&mut text, plan)?;
    Ok(text)
}

// Adds how much there is.
fn push_size(text: &mut String, plan: &Plan) -> Result<(), AllocError>
    ensures { OnOk result (string_bytes text.new ≡ string_bytes text.old ++ printed_size plan.now) }
{
    let federates = plan.federate_count();
    let connections = plan.connections().len();
    let stop = plan.stop_time();
    write!(
        text,
        "federates {federates} connections {connections} stop {stop}\n"
    )
}

// Adds the ranks of all federates.
fn push_ranks(text: &mut String, plan: &Plan) -> Result<(), AllocError>
    ensures { OnOk result (string_bytes text.new ≡ string_bytes text.old
        ++ printed_each (printed_rank plan.now) (federate_count plan.now)) }
{
    for federate in 0..plan.federate_count() {
        push_rank(text, plan, federate)?;
    }
    Ok(())
}

// Adds the rank of a federate.
fn push_rank(text: &mut String, plan: &Plan, federate: usize) -> Result<(), AllocError>
    requires { federate < federate_count plan.now }
    ensures { OnOk result (string_bytes text.new ≡ string_bytes text.old ++ printed_rank plan.now federate) }
{
    let name = federate_name(plan, federate);
    let rank = plan.rank(federate);
    write!(text, "{name} rank {rank}\n")
}

// Adds the least delays between all federates.
fn push_least_delays(text: &mut String, plan: &Plan) -> Result<(), AllocError>
    ensures { OnOk result (string_bytes text.new ≡ string_bytes text.old
        ++ printed_each (λ i. printed_each (printed_least plan.now i) (federate_count plan.now))
        (federate_count plan.now)) }
{
    for from in 0..plan.federate_count() {
        push_least_delays_from(text, plan, from)?;
    }
    Ok(())
}

// Adds the least delays from a federate to all.
fn push_least_delays_from(text: &mut String, plan: &Plan, from: usize) -> Result<(), AllocError>
    requires { from < federate_count plan.now }
    ensures { OnOk result (string_bytes text.new ≡ string_bytes text.old
        ++ printed_each (printed_least plan.now from) (federate_count plan.now)) }
{
    for to in 0..plan.federate_count() {
        push_least_delay(text, plan, from, to)?;
    }
    Ok(())
}

// Adds the least delay from one federate to another, if a path leads there.
fn push_least_delay(
    text: &mut String,
    plan: &Plan,
    from: usize,
    to: usize,
) -> Result<(), AllocError>
    requires from { from < federate_count plan.now }
    requires to { to < federate_count plan.now }
    ensures { OnOk result (string_bytes text.new ≡ string_bytes text.old ++ printed_least plan.now from to) }
{
    match plan.least(from, to) {
        Some(delay) => {
            let from = federate_name(plan, from);
            let to = federate_name(plan, to);
            write!(text, "{from} -> {to} least {delay}\n")
        }
        None => Ok(()),
    }
}

/// The name of a federate, or an empty text where there is none.
pub fn federate_name(plan: &Plan, federate: usize) -> &str
    ensures { result.now ≡ federate_name plan.now federate }
{
    match plan.federates().get(federate) {
        Some(federate) => federate.name.as_str(),
        None => "",
    }
}
