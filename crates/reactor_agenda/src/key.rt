use tag::FiniteTag;

/// A slot at a tag: by tag, then by slot.
#[derive(Clone, Copy, PartialEq, Eq, PartialOrd, Ord)]
pub struct Key {
    pub tag: FiniteTag,
    pub slot: usize,
}
