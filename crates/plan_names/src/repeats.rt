ghost use Rattle.std.specs.Prelude.{◌≡◌, ◌++◌, ◌↔◌, map, Any, IsTrue, IfOk, OnOk, MatchOption};
ghost use Rattle.plan_names.specs.Naming.{AreDistinct, StandsTwice};

use crate::named::Named;
use crate::text::Text;
use std::alloc::AllocError;

fn stands_in(names: &[&Text], name: &Text) -> bool
    ensures { IsTrue result ↔ Any (λ n. n.now ≡ name.now) names.now }
{
    names.iter().any(|n| n.is_same(name))
}

/// A name that stands at two places.
pub fn repeated(names: &[&Text]) -> Result<Option<Text>, AllocError>
    ensures { IfOk result (λ r. MatchOption r (AreDistinct (map (λ n. n.now) names.now))
        (StandsTwice (map (λ n. n.now) names.now))) }
{
    for (place, &name) in names.iter().enumerate() {
        if stands_in(&names[..place], name) {
            return Ok(Some(name.clone()?));
        }
    }
    Ok(None)
}

/// Adds the names of these.
pub fn push_names<'a, T: Named>(names: &mut Vec<&'a Text>, more: &'a [T]) -> Result<(), AllocError>
    ensures { OnOk result (map (λ n. n.now) names.new.items ≡ map (λ n. n.now) names.old.items
        ++ map T.name_of more.now) }
{
    for named in more {
        names.push(named.name())?;
    }
    Ok(())
}
