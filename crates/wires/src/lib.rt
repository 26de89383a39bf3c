//! Nodes in threads: all workers of a federation's nodes, or of one node that has a process of its own, each in a
//! thread of its own, until the run is to end; and the nodes' desks, for one run.
//!
//!     run, run_over_tcp: n + 1 nodes     run_coordinator, run_federate: one
//!         |                                 |
//!         +---- jobs: a node's own list ----+---- threads: starts them in order, and waits for all
//!                                                    |
//!         gather: each node's desk, from the shares of its own workers, which came back through a channel
//!
//! A node that runs by itself has its desk shared by the caller, who may look at it while it runs, and gathers it.
//!
//! Promise to the layer above: as many desks are gathered as were shared; each keeps what every desk keeps, that its
//! station is the replay of its journal; and each one's journal is what the shares of its node's workers say
//! (`specs/Gathered`). Nothing is promised of when a run ends.
//!
//! What workers do stands in `wires_workers`, what connections are in `wires_transports`. Begin with `jobs` and `job`,
//! then `running` and `one_node`; `lines` and `runtime` are what a run takes of connections and of the machine.
#![tactic(auto)]

pub mod gathering;
pub mod job;
mod jobs;
pub mod lines;
pub mod nobody;
pub mod node_workers;
pub mod nodes;
pub mod one_node;
pub mod run_fault;
pub mod running;
pub mod runtime;
pub mod share_channel;
pub mod terms;
pub mod threads;

pub use gathering::gather_desk;
pub use job::{Job, NoWatcher, Work, WorkerResult, counts_of};
pub use lines::{CoordinatorLines, Endpoint, FederateLines, FederationLines};
pub use nobody::{NoAcceptor, NoDial};
pub use node_workers::{NodeWorkers, channels};
pub use nodes::{Gathered, Nodes};
pub use one_node::{FederateRun, NodeResults, run_coordinator, run_federate};
pub use run_fault::{Cause, RunFault};
pub use running::{run, run_over_tcp};
pub use runtime::{NetRuntime, Runtime};
pub use share_channel::ShareChannel;
pub use terms::Terms;
pub use threads::{RunResults, start};
pub use wires_transports::{Cut, Transport};
pub use wires_workers::{Gate, Point};
