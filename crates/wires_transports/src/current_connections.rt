//! Where an acceptor hands federates' connections, and which of them each federate has.
use crate::connection::Accepted;
use crate::cut::Cut;
use crate::deadline::Deadline;
use crate::times::{END_MS, PAUSE_MS};
use crossbeam_channel::Sender;
use std::alloc::{AllocError, Global};
use std::sync::{Arc, Wait};
use std::thread;
use std::time::{Clock, Duration};

/// To the reader of each federate, by its number, and the connection of each, while it has one.
#[derive(Drop)]
pub struct CurrentConnections<T: Drop, C: Drop> {
    readers: Vec<Sender<Accepted<T, C>>>,
    cuts: Vec<Option<Arc<C>>>,
}

impl<T: Drop, C: Cut> CurrentConnections<T, C> {
    /// To these readers, before any connection.
    pub fn new(
        alloc: Global,
        readers: Vec<Sender<Accepted<T, C>>>,
    ) -> Result<CurrentConnections<T, C>, AllocError> {
        let mut cuts = Vec::new(alloc);
        cuts.resize_with(readers.len(), || None)?;
        Ok(CurrentConnections { readers, cuts })
    }

    /// How many federates there are.
    pub fn federate_count(&self) -> usize {
        self.readers.len()
    }

    /// Whether every federate has a connection that a worker has.
    pub fn are_all_there(&self) -> bool {
        self.cuts.iter().all(|place| matches!(place, Some(cut) if Arc::strong_count(cut) > 1))
    }

    /// Hands a connection to its federate's reader, in place of the older one, which is ended. Where that can't be, it
    /// is ended too, so that the federate connects again; one of no federate is let go.
    pub fn hand_on<R: Wait>(&mut self, rt: &R, federate: usize, accepted: Accepted<T, C>) {
        let Some(reader) = self.readers.get(federate) else {
            return;
        };
        let Some(place) = self.cuts.get_mut(federate) else {
            return;
        };
        if let Some(older) = place.take() {
            older.cut(rt);
        }
        if let Ok(cut) = Arc::try_clone(&accepted.connection.cut) {
            match reader.send(rt, accepted) {
                Ok(()) => *place = Some(cut),
                Err(_) => cut.cut(rt),
            }
        }
    }

    /// Readers get no more connections. Those that are left are ended, once no worker has them any more or the time for
    /// that is over.
    pub fn end<R: Wait + Clock>(&mut self, rt: &R) {
        self.readers.clear();
        let deadline = Deadline::after(rt, END_MS);
        for _ in rt.forever() {
            let is_read = self
                .cuts
                .iter()
                .flatten()
                .all(|cut| Arc::strong_count(cut) == 1);
            if is_read || deadline.has_passed(rt) {
                break;
            }
            thread::sleep(rt, Duration::from_millis(PAUSE_MS));
        }
        for cut in self.cuts.iter().flatten() {
            cut.cut(rt);
        }
    }
}
