//! What a node tells whoever watches it, beside what happens to its connections.
ghost use Rattle.std.specs.Prelude.{◌≡◌, ◌∷◌, [], IfOk};
ghost use Rattle.plan.specs.Federation.{federate_names};

use crate::loaded::Loaded;
use plan::Federate;
use plan_names::Text;
use std::alloc::{AllocError, Global};
use std::sync::Wait;
use std::time::Clock;
use wires_hosts::Happening;

/// Tells that the node begins, and at what time, where the clock says so.
pub(crate) fn tell_begin<R: Wait + Clock>(rt: &R, loaded: &Loaded) {
    if let Ok(time) = rt.since_1970() {
        loaded
            .teller
            .tell(rt, rt, Happening::Begins(time.as_secs()));
    }
}

/// Tells how many events the node's log has at its begin.
pub(crate) fn tell_log<R: Wait + Clock>(rt: &R, loaded: &Loaded, events: usize) {
    loaded.teller.tell(rt, rt, Happening::Logged(events));
}

/// Tells the names of the federates, where anybody watches and there is memory for them.
pub(crate) fn tell_names<R: Wait>(rt: &R, alloc: Global, loaded: &Loaded) {
    if loaded.teller.is_watched() {
        if let Ok(names) = names_of(alloc, loaded.sources.plan.federates()) {
            loaded.teller.name(rt, names);
        }
    }
}

/// Tells the name of the federate of this number, and no other one.
pub(crate) fn tell_own_name<R: Wait>(rt: &R, alloc: Global, loaded: &Loaded, number: u16) {
    if !loaded.teller.is_watched() {
        return;
    }
    if let Some(own) = loaded.sources.plan.federates().get(usize::from(number)) {
        if let Ok(names) = name_of(alloc, own) {
            loaded.teller.name(rt, names);
        }
    }
}

// The name of one federate.
fn name_of(alloc: Global, federate: &Federate) -> Result<Vec<Text>, AllocError>
    ensures { IfOk result (λ names. names.items ≡ federate.now.name ∷ []) }
{
    let mut names = Vec::new(alloc);
    names.push(federate.name.clone()?)?;
    Ok(names)
}

// The names of federates, in their order.
fn names_of(alloc: Global, federates: &[Federate]) -> Result<Vec<Text>, AllocError>
    ensures { IfOk result (λ names. names.items ≡ federate_names federates.now) }
{
    let mut names = Vec::with_capacity(alloc, federates.len())?;
    for federate in federates {
        names.push(federate.name.clone()?)?;
    }
    Ok(names)
}
