//! Tests of tags, and the lesser of a tag and of another that may be there.
ghost use Rattle.std.specs.Prelude.{◌≡◌, ◌||◌};
ghost use Rattle.tag.specs.LogicalTime.{forever, is_at_most, is_same};
ghost use Rattle.grants.specs.Transit.{lesser_with};

use tag::{FiniteTag, Tag, lesser};

/// Whether a tag isn't later than stop.
pub(crate) fn is_in_time(tag: Tag, stop: FiniteTag) -> bool
    ensures { result ≡ is_at_most tag stop }
{
    tag <= stop.tag()
}

/// Whether a next tag isn't later than stop, or is FOREVER.
pub(crate) fn is_next_in_time(tag: Tag, stop: FiniteTag) -> bool
    ensures { result ≡ (is_at_most tag stop || is_same tag forever) }
{
    is_in_time(tag, stop) || tag.is_forever()
}

/// The lesser of a tag and of another, if there is one.
pub(crate) fn lesser_with(tag: Tag, other: Option<FiniteTag>) -> Tag
    ensures { result ≡ lesser_with tag other }
{
    match other {
        Some(other) => lesser(other.tag(), tag),
        None => tag,
    }
}
