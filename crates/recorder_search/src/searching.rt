//! Reading journals now and later: as far as they go, and to their ends where they are whole.
ghost use Rattle.std.specs.Prelude.{◌≡◌, ℕ, ◌<◌, List, length, map, replicate, IfOk, OnOk};
ghost use Rattle.recorder_search.specs.Journals.{IsFound};
ghost use Rattle.recorder_search.specs.Reading.{IsReading};

use crate::found::Found;
use crate::memory::Memory;
use crate::reading::{first_unread, none_read, read_all, read_by_guesses};
use crate::step_maker::StepMaker;
use node_journal::Journal;
use std::alloc::Global;
use std::marker::Model;

/// How far each of several journals is read: the coordinator's, then the federates' by number. The journals may grow
/// between two calls: what was read of them stays read.
#[derive(Drop)]
pub struct Reading {
    read: Vec<usize>,
    // In which block of each journal the next event is looked for.
    near: Vec<usize>,
}

impl Model for Reading {
    ghost Value = { List ℕ };

    ghost view = { λ r. r.read.items };
}

impl Reading {
    /// Of this many journals nothing is read.
    pub fn new(alloc: Global, count: usize) -> Result<Reading, Memory>
        ensures { IfOk result (λ reading. reading ≡ replicate count 0) }
    {
        Ok(Reading {
            read: none_read(alloc, count)?,
            near: none_read(alloc, count)?,
        })
    }

    /// Lets the step maker make steps that agree with the journals, by its guesses alone, as far as that goes. Call it
    /// while the journals still grow, as often as wanted. Without memory the step maker stands after some steps, and
    /// nothing is said of them.
    pub fn read_ahead<M: StepMaker>(
        &mut self,
        step_maker: &mut M,
        journals: &[&Journal],
    ) -> Result<(), Memory>
        ensures reading { OnOk result ((initial : M)
            → IsReading M.motion initial (map (λ j. j.now) journals.now)
            (record { state = step_maker.old; read = self.old })
            → IsReading M.motion initial (map (λ j. j.now) journals.now)
            (record { state = step_maker.new; read = self.new })) }
        ensures sized { OnOk result (length self.new ≡ length self.old) }
    {
        read_by_guesses(step_maker, journals, &mut self.read, &mut self.near)
    }

    /// Reads the journals to their ends, or as far as any step maker's step goes: call it when they are whole. What was
    /// found is said of all steps, those made before too. Without memory the step maker stands after some steps, and
    /// nothing is said of them.
    pub fn finish<M: StepMaker>(
        mut self,
        step_maker: &mut M,
        journals: &[&Journal],
    ) -> Result<Found, Memory>
        requires sized { length self ≡ length journals.now }
        ensures { IfOk result (λ found. (initial : M)
            → IsReading M.motion initial (map (λ j. j.now) journals.now)
            (record { state = step_maker.old; read = self })
            → IsFound M.motion initial (map (λ j. j.now) journals.now) step_maker.new found) }
    {
        find(step_maker, journals, &mut self.read, &mut self.near)
    }
}

/// Lets the step maker make steps that agree with the journals: the coordinator's, then the federates' by number. For
/// each event it asks the step maker at worst twice for each node, and copies no journal. Without memory the step maker
/// stands after some steps, and nothing is said of them.
pub fn search<M: StepMaker>(
    alloc: Global,
    step_maker: &mut M,
    journals: &[&Journal],
) -> Result<Found, Memory>
    ensures { IfOk result
        (λ found. IsFound M.motion step_maker.old (map (λ j. j.now) journals.now) step_maker.new found) }
{
    let reading = Reading::new(alloc, journals.len())?;
    reading.finish(step_maker, journals)
}

// The search, from where the journals are read to.
fn find<M: StepMaker>(
    step_maker: &mut M,
    journals: &[&Journal],
    read: &mut [usize],
    near: &mut [usize],
) -> Result<Found, Memory>
    requires sized { length read.old ≡ length journals.now }
    ensures { IfOk result (λ found. (initial : M)
        → IsReading M.motion initial (map (λ j. j.now) journals.now)
        (record { state = step_maker.old; read = read.old })
        → IsFound M.motion initial (map (λ j. j.now) journals.now) step_maker.new found) }
{
    read_all(step_maker, journals, read, near)?;
    match first_unread(journals, read, near) {
        Some((node, event)) => Ok(Found::Stuck(node, event)),
        None => Ok(Found::All),
    }
}
