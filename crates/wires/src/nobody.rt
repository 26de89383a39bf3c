//! Who makes no connections: a coordinator connects to nobody, and a federate lets nobody in.
use std::alloc::Global;
use std::sync::Wait;
use std::time::Clock;
use wires_transports::{Acceptor, Connection, Dial, Ending};

/// Connects to nobody.
#[derive(Drop)]
pub struct NoDial;

impl<T: Drop, C: Drop> Dial<T, C> for NoDial {
    fn dial<R: Wait>(&self, _rt: &R, _alloc: Global) -> Option<Connection<T, C>> {
        None
    }
}

/// Lets nobody in.
#[derive(Drop)]
pub struct NoAcceptor;

impl Acceptor for NoAcceptor {
    fn let_in<R: Wait + Clock>(self, _rt: &R, _alloc: Global, _ending: &Ending) {}
}
