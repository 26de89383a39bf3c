use reactor_agenda::PendingEvent;
use tag::FiniteTag;

/// What an accepted signal changes.
#[derive(Clone, Copy)]
pub enum Change {
    /// It may run up to this tag.
    Grant(FiniteTag),
    /// An event is to be run, in place of an older one for its slot at its tag.
    Put(PendingEvent),
}
