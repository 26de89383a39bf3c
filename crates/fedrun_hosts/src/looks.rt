//! How a node is looked at while it runs: how far its federates are.
use coordinator::Coordinator;
use desk::Shared;
use federate::Federate;
use std::sync::Wait;
use tag::Time;
use wires_hosts::{Look, Reached};

/// Looks at this coordinator.
#[derive(Drop)]
pub(crate) struct CoordinatorLook<'l, 'n> {
    pub shared: &'l Shared<Coordinator<'n>>,
    pub stop: Time,
}

impl Look for CoordinatorLook<'_, '_> {
    fn look<R: Wait>(&self, rt: &R, federate: usize) -> Reached {
        // The lock is held for three reads.
        let desk = self.shared.lock(rt);
        let completed = desk.node().completed(federate);
        let granted = desk.node().granted(federate);
        let unacked = desk.unacked(federate).unwrap_or(0);
        desk.release();
        Reached {
            completed,
            granted,
            unacked,
        }
    }

    fn stop(&self) -> Option<Time> {
        Some(self.stop)
    }

    fn is_federate(&self) -> bool {
        false
    }
}

/// Looks at this federate, whose one peer is the coordinator.
#[derive(Drop)]
pub(crate) struct FederateLook<'l, 'n> {
    pub shared: &'l Shared<Federate<'n>>,
    pub stop: Time,
}

impl Look for FederateLook<'_, '_> {
    fn look<R: Wait>(&self, rt: &R, _federate: usize) -> Reached {
        let desk = self.shared.lock(rt);
        let completed = desk.node().completed();
        let granted = desk.node().granted();
        let unacked = desk.unacked(0).unwrap_or(0);
        desk.release();
        Reached {
            completed,
            granted,
            unacked,
        }
    }

    fn stop(&self) -> Option<Time> {
        Some(self.stop)
    }

    fn is_federate(&self) -> bool {
        true
    }
}
