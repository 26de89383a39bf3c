ghost use Rattle.std.specs.Prelude.{◌≡◌, ◌<◌, ◌↔◌, IsTrue, IfSome, length, map, position};
ghost use Rattle.std.specs.Str.{bytes_eq};
ghost use Rattle.plan_names.specs.Naming.{place_of};

use crate::text::Text;

/// What has a name.
pub trait Named {
    ghost use Rattle.std.specs.Prelude.{◌≡◌, ℕ, List};

    ghost name_of: { Self → List ℕ };

    fn name(&self) -> &Text
        ensures { result.now ≡ name_of self.now };
}

/// The place of the first of these that has this name.
pub fn place_of<T: Named>(named: &[T], name: &[u8]) -> Option<usize>
    ensures value { result ≡ place_of (map T.name_of named.now) name.now }
    ensures there { IfSome result (λ place. place < length named.now) }
{
    position_of(named, name)
}

fn position_of<T: Named>(named: &[T], name: &[u8]) -> Option<usize>
    ensures place { result ≡ position (λ n. bytes_eq (T.name_of n) name.now) named.now }
    ensures there { IfSome result (λ place. place < length named.now) }
{
    named
        .iter()
        .position(|n| n.name().as_str().as_bytes() == name)
}
