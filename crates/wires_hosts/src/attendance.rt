//! Which federates have a connection, as the coordinator's acceptor knows it.
ghost use Rattle.std.specs.Prelude.{◌≡◌, slice_get};
ghost use Rattle.wires_hosts.specs.Attendance as definition;

use std::alloc::{AllocError, Global};
use std::net::SocketAddr;

/// A federate's connection to the coordinator. Connections are numbered from 1 on as they are let in.
#[derive(Clone, Copy, Debug, PartialEq, Eq)]
pub struct LetInFrom {
    pub federate: u16,
    pub connection: u64,
    pub address: SocketAddr,
    /// When it was let in, in ms since the node began.
    pub since_ms: u64,
    /// How many connections in a row took another one's place and stood for a moment alone, this one the last; 0 where
    /// it took nobody's.
    pub replaced: u64,
}

/// The connection of each federate by its number, while it has one.
#[derive(Drop)]
pub(crate) struct Attendance {
    present: Vec<Option<LetInFrom>>,
    // How many were let in so far.
    count: u64,
}

impl Attendance {
    /// None of this many federates has one.
    pub(crate) fn new(alloc: Global, federates: usize) -> Result<Attendance, AllocError> {
        let mut present = Vec::new(alloc);
        present.resize_with(federates, || None)?;
        Ok(Attendance { present, count: 0 })
    }

    /// How many federates there are.
    pub(crate) fn federate_count(&self) -> usize {
        self.present.len()
    }

    /// The number of the connection that is let in next.
    pub(crate) fn next_number(&mut self) -> u64 {
        self.count = self.count.saturating_add(1);
        self.count
    }

    /// The connection that a federate has, if it has one.
    pub(crate) fn present(&self, federate: u16) -> Option<LetInFrom> {
        match self.present.get(usize::from(federate)) {
            Some(present) => *present,
            None => None,
        }
    }

    /// A federate was let in on this connection. An older one that it has is its own no more.
    pub(crate) fn come(&mut self, now: LetInFrom) {
        if let Some(place) = self.present.get_mut(usize::from(now.federate)) {
            *place = Some(now);
        }
    }

    /// The connection of the federate at this place, where it is the one that has ended by now: then it has none.
    pub(crate) fn leave(&mut self, federate: usize, ended: u64) -> Option<LetInFrom>
        ensures { result ≡ definition.gone_by (slice_get self.old.present.items federate) ended }
    {
        let gone = gone_by(self.present.get(federate).copied(), ended);
        if gone.is_some() {
            if let Some(place) = self.present.get_mut(federate) {
                *place = None;
            }
        }
        gone
    }
}

// The connection of a federate, where it is the one of this number, which has ended.
fn gone_by(present: Option<Option<LetInFrom>>, ended: u64) -> Option<LetInFrom>
    ensures { result ≡ definition.gone_by present ended }
{
    match present {
        Some(Some(present)) if present.connection == ended => Some(present),
        _ => None,
    }
}
