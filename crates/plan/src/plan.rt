ghost use Rattle.std.specs.Prelude.{◌≡◌, ◌<◌, length, OnOk, IfOk, IfErr, IfSome, MatchOption};
ghost use Rattle.network.specs.Connection.{IsLeastDelay, IsUnreachable};
ghost use Rattle.plan_paths.specs.Least.{IsTotalWithin};
ghost use Rattle.plan.specs.Federation.{connections_of, rank_of, stop_of, federate_count};
ghost use Rattle.plan.specs.declared.limits.TheConstants.{MOST_FEDERATES};
ghost use Rattle.plan.specs.Least.{least_of};
ghost use Rattle.plan.specs.Faults.{IsWithinAllLimits, AreTimersInRange};
ghost use Rattle.plan.specs.External.{found_action, physical_slot};
ghost use Rattle.std.specs.Option.{option_map};

use crate::PlanFault;
use crate::draft::{Draft, Federate};
use crate::input::Input;
use crate::legal::legal_connections;
use crate::lookup::found_action;
use plan_paths::{Connection, LeastDelays, ranks};
use std::alloc::Global;
use std::marker::Model;
use tag::{Delay, FiniteTag, Tag, Time};

/// A legal federation. Contracts see the draft that it was made of.
#[derive(Drop)]
pub struct Plan {
    draft: Draft,
    connections: Vec<Connection>,
    ranks: Vec<usize>,
    delays: LeastDelays,
}

impl Model for Plan {
    ghost use Rattle.plan.specs.declared.draft.Draft.{Draft};

    ghost Value = { Draft };

    ghost use Rattle.plan.specs.Planned.{IsPlanned};

    ghost view = { λ p. p.draft };

    ghost invariant = { λ p. IsPlanned p.draft p.connections.items p.ranks.items p.delays };
}

impl Plan {
    ghost use Rattle.plan.specs.Legal.{IsLegal};
    ghost use Rattle.plan.specs.Faults.{StandsIn};

    /// Plans a legal draft. For any other draft it answers one of its faults.
    pub fn check(alloc: Global, draft: Draft) -> Result<Plan, PlanFault>
        ensures ok { IfOk result (λ plan. plan ≡ draft) }
        ensures legal { OnOk result (IsLegal draft) }

        // A legal draft is refused only for want of memory.
        ensures accepts { IsLegal draft → IfErr result (λ e. e ≡ PlanFault.Memory) }
        ensures fault { IfErr result (StandsIn draft) }

        // A draft over a limit, or with a timer out of range, is never refused for want of memory.
        ensures memory { IfErr result (λ e. e ≡ PlanFault.Memory
            → (0 < length draft.federates) × IsWithinAllLimits draft × AreTimersInRange draft) }
    {
        Plan::planned(alloc, draft)
    }

    fn planned(alloc: Global, draft: Draft) -> Result<Plan, PlanFault>
        ensures ok { IfOk result (λ plan. plan ≡ draft) }
        ensures legal { OnOk result (IsLegal draft) }
        ensures fault { IfErr result (StandsIn draft) }
        ensures memory { IfErr result (λ e. e ≡ PlanFault.Memory
            → (0 < length draft.federates) × IsWithinAllLimits draft × AreTimersInRange draft) }
    {
        let connections = legal_connections(alloc, &draft)?;
        let count = draft.federates.as_slice().len();
        let ranks = ranks(alloc, connections.as_slice(), count)?;
        let delays = LeastDelays::new(alloc, connections.as_slice(), count)?;
        Ok(Plan {
            draft,
            connections,
            ranks,
            delays,
        })
    }

    /// What every plan keeps.
    pub fn invariant(&self)
        ensures { IsLegal self.now }
    {
        // For the prover: the plan keeps it.
        let _ = &self.draft;
    }

    /// The federates, by number.
    pub fn federates(&self) -> &[Federate]
        ensures { result.now ≡ self.now.federates }
    {
        self.draft.federates.as_slice()
    }

    /// The connections, by number.
    pub fn connections(&self) -> &[Connection]
        ensures { result.now ≡ connections_of self.now }
    {
        self.connections.as_slice()
    }

    /// A federate's place in the order in which federates take their turns at one tag.
    pub fn rank(&self, federate: usize) -> usize
        requires { federate < federate_count self.now }
        ensures { result ≡ rank_of self.now federate }
    {
        self.ranks[federate]
    }

    /// The least total of a path of connections from one federate to another, or to itself. None where there is no
    /// path.
    pub fn least(&self, from: usize, to: usize) -> Option<Delay>
        requires from { from < federate_count self.now }
        requires to { to < federate_count self.now }
        ensures value { result ≡ least_of self.now from to }
        ensures least { MatchOption result (IsUnreachable (connections_of self.now) from to)
            (IsLeastDelay (connections_of self.now) from to) }
        ensures few { IfSome result (IsTotalWithin (connections_of self.now) MOST_FEDERATES from to) }
    {
        self.delays.delay(from, to)
    }

    /// The federate of a recorded input, and the slot of its physical action there, where both are there.
    pub fn recorded_at(&self, input: &Input) -> Option<(usize, usize)>
        ensures { result ≡ option_map (λ found. (found.federate, physical_slot self.now.federates found))
            (found_action self.now.federates input.now) }
    {
        let found = found_action(self.federates(), input)?;
        let slots = &self.federates()[found.federate].slots;
        Some((found.federate, slots.first_physical() + found.place))
    }

    pub fn federate_count(&self) -> usize
        ensures { result ≡ federate_count self.now }
    {
        self.federates().len()
    }

    /// The time of the last tag at which anything runs.
    pub fn stop_time(&self) -> Time
        ensures { result ≡ self.now.stop }
    {
        self.draft.stop
    }

    /// The last tag at which anything runs, which is finite.
    pub fn stop_tag(&self) -> FiniteTag
        ensures { result ≡ stop_of self.now }
    {
        FiniteTag::new(self.draft.stop, 0)
    }

    /// The last tag at which anything runs.
    pub fn stop(&self) -> Tag
        ensures { result ≡ stop_of self.now }
    {
        Tag::new(self.draft.stop, 0)
    }
}
