//! How the nodes of a run are connected.
use crate::terms::Terms;
use crossbeam_channel::Receiver;
use wires_transports::Accepted;

/// How a federate is connected to the coordinator. The thread that makes a federate's connections owns `dial` and lets
/// it go at its end: what that holds, as the other end of `arrivals`, ends with it.
#[derive(Drop)]
pub struct Endpoint<D: Drop, T: Drop, C: Drop> {
    pub dial: D,
    /// Where the coordinator's ends of its connections come.
    pub arrivals: Receiver<Accepted<T, C>>,
}

/// How a federation is connected: each federate, in their order, and who lets them in.
#[derive(Drop)]
pub struct FederationLines<D: Drop, E: Drop, T: Drop, C: Drop> {
    pub federates: Vec<Endpoint<D, T, C>>,
    pub acceptor: E,
}

/// How the coordinator is connected where it runs by itself: where the connections of each federate come, by its
/// number, and who lets them in. A reader ends once nobody holds the other end and the connections that came have
/// ended.
#[derive(Drop)]
pub struct CoordinatorLines<E: Drop, T: Drop, C: Drop> {
    pub arrivals: Vec<Receiver<Accepted<T, C>>>,
    pub acceptor: E,
}

/// How the federate of this number is connected where it runs by itself, and what it goes by.
#[derive(Drop)]
pub struct FederateLines<D: Drop> {
    pub number: usize,
    pub dial: D,
    pub terms: Terms,
}
