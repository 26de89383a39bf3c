use std::sync::Arc;

/// One end of a connection, for the two workers that share it: one reads and one writes, and either may end it.
#[derive(Drop)]
pub struct Connection<T: Drop, C: Drop> {
    pub incoming: T,
    pub outgoing: T,
    pub cut: Arc<C>,
}

/// A connection that came to a node, with the bytes that were read of it before.
#[derive(Drop)]
pub struct Accepted<T: Drop, C: Drop> {
    pub connection: Connection<T, C>,
    pub first: Vec<u8>,
}
