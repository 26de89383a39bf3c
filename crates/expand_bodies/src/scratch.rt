//! Names of scratch states.

ghost use Rattle.std.specs.Prelude.{◌≡◌, IfOk};
ghost use Rattle.std.specs.List.{list_any};
ghost use Rattle.std.specs.Str.{bytes_eq};
ghost use Rattle.expand_bodies.specs.Expanded.{AreScratchNames};

use plan_names::{Names, Text};
use reactor_program::limits::MOST_STATES;
use std::alloc::{AllocError, Global};

/// The names of the first `count` scratch states of a federate with these states: the first of `_1`, `_2`, `_3`, ..
/// that no state has. So they can't clash with a state, whatever it is called.
#[tactic(auto, using(crate::proofs::Unused::one_scratch_more))]
pub fn scratch_names(alloc: Global, states: &Names, count: usize) -> Result<Names, AllocError>
    ensures { IfOk result (AreScratchNames states.now) }
{
    let mut names = Vec::new(alloc);
    // Of that many names there are enough that no state has.
    for number in 1..=2 * MOST_STATES {
        let name = Text::new(format!(in alloc; "_{number}")?);
        if names.len() < count
            && states.place_of(name.as_str().as_bytes()).is_none()
            && !is_among(names.as_slice(), name.as_str())
        {
            names.push(name)?;
        }
    }
    Ok(Names::new(names))
}

fn is_among(names: &[Text], name: &str) -> bool
    ensures { result ≡ list_any (bytes_eq name.now) names.now }
{
    names.iter().any(|other| name == other.as_str())
}
