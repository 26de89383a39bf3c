ghost use Rattle.std.specs.Prelude.{◌≡◌, ℕ, ◌<◌, ◌^◌, false, IsTrue, if◌then◌else◌, [], ◌∷◌, filter};
ghost use Rattle.tag.specs.LogicalTime.{is_same};
ghost use Rattle.network.specs.Undone.{drop_up_to};
ghost use Rattle.reactor_agenda.specs.Agenda.{least_in};
ghost use Rattle.reactor_agenda.specs.Invariant.{firings_of, firing, has_due, has_before, IsTimer};

use tag::{Tag, Time};

/// The firings of a timer that are left: this many, the first at `next`, and each a period after the one before. Times
/// are in ns.
#[derive(Clone, Copy)]
pub struct Firings {
    pub slot: usize,
    pub next: u64,
    pub period: u64,
    pub left: u64,
}

/// The tag of the next firing, or FOREVER where none is left.
pub fn next_tag(timer: Firings) -> Tag
    requires { IsTimer timer }
    ensures { result ≡ least_in (firings_of timer) }
{
    if timer.left == 0 {
        return Tag::FOREVER;
    }
    Tag::new(Time::new(timer.next).unwrap(), 0)
}

/// The firings later than a tag.
pub fn later_than(timer: Firings, tag: Tag) -> Firings
    requires { IsTimer timer }
    ensures timer { IsTimer result }
    ensures firings { firings_of result ≡ drop_up_to tag (firings_of timer) }
{
    let mut rest = timer;
    while is_due(rest, tag) {
        rest.left -= 1;
        rest.next += rest.period;
    }
    rest
}

// Whether the next firing is not later than a tag.
fn is_due(timer: Firings, tag: Tag) -> bool
    requires { IsTimer timer }
    ensures due { result ≡ has_due tag (firings_of timer) }
    ensures some { IsTrue result → 0 < timer.left }
{
    if timer.left == 0 {
        return false;
    }
    next_tag(timer) <= tag
}

/// Whether one of the firings is at a tag. It goes over those before.
pub fn fires_at(timer: Firings, tag: Tag) -> bool
    requires { IsTimer timer }
    ensures { filter (λ e. is_same e.tag tag) (firings_of timer)
        ≡ (if result then firing timer.slot tag.time ∷ [] else []) }
{
    let mut rest = timer;
    while is_before(rest, tag) {
        rest.left -= 1;
        rest.next += rest.period;
    }
    is_next(rest, tag)
}

// Whether the next firing is before a tag.
fn is_before(timer: Firings, tag: Tag) -> bool
    requires { IsTimer timer }
    ensures before { result ≡ has_before tag (firings_of timer) }
    ensures some { IsTrue result → 0 < timer.left }
{
    if timer.left == 0 {
        return false;
    }
    next_tag(timer) < tag
}

// Whether the next firing, which is not before a tag, is at it.
fn is_next(timer: Firings, tag: Tag) -> bool
    requires timer { IsTimer timer }
    requires none_before { has_before tag (firings_of timer) ≡ false }
    ensures { filter (λ e. is_same e.tag tag) (firings_of timer)
        ≡ (if result then firing timer.slot tag.time ∷ [] else []) }
{
    if timer.left == 0 {
        return false;
    }
    are_same(next_tag(timer), tag)
}

pub fn are_same(tag: Tag, other: Tag) -> bool
    ensures { result ≡ is_same tag other }
{
    tag == other
}
