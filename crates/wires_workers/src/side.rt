use std::sync::Arc;

/// The side of a connection on which a writer writes.
#[derive(Drop)]
pub struct Side<T: Drop, C: Drop> {
    pub transport: T,
    pub cut: Arc<C>,
}
