use crate::key::Key;

/// What stood for a slot at a tag before an event was put.
#[derive(Clone, Copy)]
pub struct Undo {
    pub key: Key,
    pub was: Option<i64>,
}
