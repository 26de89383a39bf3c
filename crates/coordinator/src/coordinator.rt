ghost use Rattle.std.specs.Prelude.{◌≡◌, IfOk};
ghost use Rattle.protocol.specs.FederateRecord.{initial_federate_record};
ghost use Rattle.protocol.specs.FederateRecords.{federate_record_at, federate_records_listed};
ghost use Rattle.signal.specs.Signal.{IsSignal};
ghost use Rattle.plan.specs.Federation.{federate_count};

use crate::memory::Memory;
use crate::state::State;
use grants::Table;
use node::{Node, NodeFault, Outbox};
use plan::Plan;
use signal::Signal;
use std::alloc::Global;
use std::marker::Model;
use tag::FiniteTag;

/// The coordinator of a federation. Its peers are the federates, by number; contracts see the plan's draft and, by
/// number, what it knows of each federate.
///
/// It answers signals alone: `announce` and `advance` do nothing. Where no memory is to be had for a step, nothing has
/// changed.
#[derive(Drop)]
pub struct Coordinator<'a> {
    plan: &'a Plan,
    state: State,
}

impl<'a> Model for Coordinator<'a> {
    ghost use Rattle.node_cores.specs.CoordinatorCore.{CoordinatorNode};

    ghost Value = { CoordinatorNode };

    ghost use Rattle.coordinator.specs.Steps.{IsKept};

    ghost view = { λ c. record { draft = c.plan.now; federate_records = c.state.table.federate_records } };

    ghost invariant = { λ c. IsKept c.plan.now c.state.table };
}

impl<'a> Coordinator<'a> {
    /// Of a plan's federates, before any signal came.
    pub fn new(alloc: Global, plan: &'a Plan) -> Result<Coordinator<'a>, Memory>
        ensures { IfOk result (λ coordinator. coordinator
            ≡ record {
              draft = plan.now;
              federate_records = federate_records_listed (federate_count plan.now)
                  (λ j. initial_federate_record);
            }) }
    {
        let table = Table::new(alloc, plan)?;
        let posts = Vec::new(alloc);
        Ok(Coordinator {
            plan,
            state: State { table, posts },
        })
    }

    /// The tag of a federate's last LTC, if one came. Of a federate that isn't there none is known.
    pub fn completed(&self, federate: usize) -> Option<FiniteTag>
        ensures { result ≡ (federate_record_at self.now.federate_records federate).completed }
    {
        // For the prover: a record for each federate.
        self.state.table.invariant();
        if federate < self.state.table.federates() {
            self.state.table.completed(federate)
        } else {
            None
        }
    }

    /// The last TAG to a federate, if there was one. Of a federate that isn't there none is known.
    pub fn granted(&self, federate: usize) -> Option<FiniteTag>
        ensures { result ≡ (federate_record_at self.now.federate_records federate).granted }
    {
        // For the prover: a record for each federate.
        self.state.table.invariant();
        if federate < self.state.table.federates() {
            self.state.table.granted(federate)
        } else {
            None
        }
    }
}

impl<'a> Node for Coordinator<'a> {
    ghost use Rattle.std.specs.Prelude.{true, []};
    ghost use Rattle.node_cores.specs.CoordinatorCore.{coordinator_core};
    ghost use Rattle.node_cores.proofs.GoingOn.{coordinators_go_on};

    type Row = ();

    type Rows = ();

    ghost listed = { λ none. [] };

    ghost HUB = { true };

    ghost core = { coordinator_core };

    fn accept(
        &mut self,
        peer: usize,
        signal: Signal,
        outbox: &mut Outbox,
    ) -> Result<bool, NodeFault> {
        // For the prover: tags are tags, and least delays are least over all paths.
        signal_invariant(&signal);
        self.state.table.invariant();
        self.state.take(self.plan, peer, &signal, outbox)
    }

    fn announce(&mut self, _outbox: &mut Outbox) -> Result<bool, NodeFault> {
        Ok(false)
    }

    fn advance(&mut self, _outbox: &mut Outbox) -> Result<bool, NodeFault> {
        Ok(false)
    }

    fn has_nothing_to_say(&self) -> bool {
        true
    }

    fn has_nothing_to_run(&self) -> bool {
        true
    }

    fn is_coordinator(&self) -> bool {
        true
    }

    fn rows(&self) -> &() {
        &()
    }

    fn finished(&self) -> bool {
        self.state.is_finished()
    }

    ghost goes_on = { coordinators_go_on };
}

// What every signal keeps.
fn signal_invariant(signal: &Signal)
    ensures { IsSignal signal.now }
{
    signal.invariant();
}
