ghost use Rattle.std.specs.Prelude.{◌≡◌, ◌≢◌, ℕ, ◌+◌, ◌<◌, ◌≤◌, [], IfOk, OnErr, MatchBool};
ghost use Rattle.plan.specs.External.{AreInputsOf};
ghost use Rattle.reactor_programs.specs.Programs.{AreProgramsOf};

use crate::agendas::Agendas;
use crate::made::TurnMade;
use plan::{Inputs, Plan};
use reactor::{Memory, Reactor, Rows, TurnRoom};
use reactor_program::Entry;
use reactor_programs::Programs;
use std::alloc::Global;
use std::marker::Model;

/// The undivided program of a plan with its programs and inputs. Contracts see what it was made from, how many turns
/// were made, and of how many of them the rows were let go.
#[derive(Drop)]
pub struct Whole<'a> {
    plan: &'a Plan,
    inputs: &'a Inputs,
    reactors: Vec<Reactor<'a>>,
    agendas: Agendas<'a>,
    /// Room for what is present at a turn, and for what it makes.
    present: Vec<Entry>,
    room: TurnRoom,
    /// One for each turn whose row wasn't let go.
    rows: Rows,
    /// How many rows were let go.
    discarded: u128,
}

impl<'a> Model for Whole<'a> {
    ghost use Rattle.std.specs.Prelude.{◌+◌, length};
    ghost use Rattle.whole.specs.Progress.{Progress};
    ghost use Rattle.whole.specs.Invariant.{programs_in, IsAfterTurns};

    ghost Value = { Progress };

    ghost view = { λ w. record {
      draft = w.plan.now;
      programs = programs_in w.reactors.items;
      inputs = w.inputs.now;
      turns = w.discarded + length w.rows;
      discarded = w.discarded;
    } };

    ghost invariant = { λ w. IsAfterTurns w.plan.now w.inputs.now w.reactors.items w.agendas w.discarded w.rows };
}

impl<'a> Whole<'a> {
    ghost use Rattle.std.specs.Prelude.{length};
    ghost use Rattle.whole.specs.Progress.{rows_in, pending_in, later_by};

    /// Before the first turn.
    pub fn new(
        alloc: Global,
        plan: &'a Plan,
        programs: &'a Programs,
        inputs: &'a Inputs,
    ) -> Result<Whole<'a>, Memory>
        requires programs { AreProgramsOf plan.now programs.now }
        requires inputs { AreInputsOf plan.now inputs.now }
        ensures { IfOk result (λ whole. whole
            ≡ record { draft = plan.now; programs = programs.now; inputs = inputs.now; turns = 0; discarded = 0 }) }
    {
        plan.invariant();
        let mut reactors = Vec::new(alloc);
        for program in programs.as_slice() {
            reactors.push(Reactor::new(alloc, program)?)?;
        }
        Ok(Whole {
            plan,
            inputs,
            reactors,
            agendas: Agendas::new(alloc, plan, inputs)?,
            present: Vec::new(alloc),
            room: TurnRoom::new(alloc),
            rows: Rows::new(alloc),
            discarded: 0,
        })
    }

    /// Makes this many turns, or fewer where nothing is left, and answers how many. Where memory is refused, the turns
    /// before stay made, and something is pending.
    pub fn turns(&mut self, n: u32) -> Result<u32, Memory>
        ensures made { IfOk result (λ made. self.new ≡ later_by made self.old) }
        ensures at_most { IfOk result (λ made. made ≤ n) }
        ensures fewer { IfOk result (λ made. made < n → pending_in self.new ≡ []) }
        ensures err { OnErr result ((made : ℕ) × (made < n) × (self.new ≡ later_by made self.old)) }
        ensures pending { OnErr result (pending_in self.new ≢ []) }
    {
        for made in 0..n {
            if !self.turn()? {
                return Ok(made);
            }
        }
        Ok(n)
    }

    /// One for each turn, oldest first, without those that were let go.
    pub fn rows(&self) -> &Rows
        ensures rows { result.now ≡ rows_in self.now }
        ensures one_for_each_turn { length result.now + self.now.discarded ≡ self.now.turns }
    {
        &self.rows
    }

    /// Lets go of all rows so far, and keeps their room for those of the next turns. It takes no memory.
    pub fn discard(&mut self)
        ensures { self.new ≡ record self.old { discarded = self.old.turns } }
    {
        self.discarded += self.rows.len() as u128;
        self.rows.clear();
    }

    // One turn, if anything is pending. Where memory is refused, something is, and nothing changes.
    fn turn(&mut self) -> Result<bool, Memory>
        ensures made { IfOk result (λ more.
            MatchBool more (self.new ≡ later_by 1 self.old) ((self.new ≡ self.old) × (pending_in self.old ≡ []))) }
        ensures err { OnErr result (self.new ≡ self.old) }
        ensures pending { OnErr result (pending_in self.old ≢ []) }
    {
        let Some(next) = self.agendas.first() else {
            return Ok(false);
        };
        let federate = next.federate;
        self.plan.invariant();
        self.agendas.at(federate, next.tag, &mut self.present)?;
        let reactor = &self.reactors[federate];
        reactor.run_in(self.present.as_slice(), &mut self.room)?;
        let turn = TurnMade {
            federate,
            tag: next.tag,
            stop: self.plan.stop_tag(),
            inputs: self.present.as_slice(),
            outputs: self.room.outputs(),
            schedulings: self.room.schedulings(),
        };
        self.agendas.put(&mut self.rows, &turn)?;
        let reactor = &mut self.reactors[federate];
        reactor.commit_from(&self.room);
        Ok(true)
    }
}
