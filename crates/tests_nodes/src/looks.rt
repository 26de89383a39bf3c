//! At how many federates the coordinator's table looks where one's next tag changes, in a chain of 64.
use grants::Table;
use plan::Plan;
use std::alloc::{AllocError, Global};
use tag::Tag;
use tests_samples::with_loaded;

// Federates from f0 to f63, each of which sends to the next one.
fn chain(alloc: Global) -> Result<String, AllocError> {
    let mut text = String::from_str(alloc, "stop = \"20 ms\"\n")?;
    for number in 0..64 {
        text.push_str(&federate(alloc, number)?)?;
    }
    for number in 0..63 {
        text.push_str(&connection(alloc, number, number + 1)?)?;
    }
    Ok(text)
}

fn federate(alloc: Global, number: usize) -> Result<String, AllocError> {
    format!(in alloc; "[[federate]]\nname = \"f{number}\"\ninputs = [\"x\"]\noutputs = [\"y\"]\n")
}

fn connection(alloc: Global, from: usize, to: usize) -> Result<String, AllocError> {
    format!(in alloc; "[[connection]]\nfrom = \"f{from}.y\"\nto = \"f{to}.x\"\n")
}

// How many looks a change of this federate's next tag adds.
fn looks_of(alloc: Global, plan: &Plan, federate: usize) -> Option<u64> {
    let mut table = Table::new(alloc, plan).ok()?;
    if federate >= table.federates() {
        return None;
    }
    let before = table.looks();
    table.set_next(federate, Tag::FOREVER);
    table.looks().checked_sub(before)
}

/// The last federate, the last but one and the first, and how many there are from it to the last.
const MOST: [(usize, u64); 3] = [(63, 1), (62, 2), (0, 64)];

// The first federate for which it looks at none, or at more.
fn first_wrong(alloc: Global, plan: &Plan) -> Option<usize> {
    for (federate, most) in &MOST {
        let looks = looks_of(alloc, plan, *federate);
        if looks < Some(1) || Some(*most) < looks {
            return Some(*federate);
        }
    }
    None
}

fn first_wrong_in_chain(alloc: Global) -> Option<Option<usize>> {
    let text = chain(alloc).ok()?;
    with_loaded(alloc, &text, "", |chain| {
        Some(first_wrong(alloc, chain.plan()))
    })
}

#[test]
fn looks_at_most_at_a_federate_and_those_behind_it(rt: HostRuntime) {
    assert_eq!(rt; first_wrong_in_chain(rt.alloc()), Some(None));
}
