//! Made-up lists of steps: whatever happens to the frames, the rows of each federate that kept its state are a prefix of
//! its part of the undivided program's rows.
ghost use Rattle.std.specs.Prelude.{◌<◌, length};

use crate::worlds::{Scene, seen_in};
use reactor::Rows;
use std::alloc::Global;
use tests_samples::{
    CHAIN, CHAIN_INPUT, COUNTER, DELAYED_COUNTER, Federation, LOOP, REPLACED, STARTED_COUNTER,
    is_same, loaded, undivided,
};
use world::World;
use world_stations::{Dir, Step};

/// How many lists are made up for each federation.
const LISTS: u64 = 1_000;

/// How many steps each has.
const STEPS: usize = 200;

/// How many rows of a federation its lists compare at least. Where one federate gets each step, no step of some 43
/// lists is Forget, (63/64)^200 of all, and each of these compares a row or more.
const LEAST_ROWS: usize = 40;

/// Made-up numbers, the same ones each time.
#[derive(Drop)]
struct Dice {
    state: u64,
}

impl Dice {
    // A number below this one; 0 where there is none.
    fn roll(&mut self, sides: usize) -> usize {
        self.state = self
            .state
            .wrapping_mul(6_364_136_223_846_793_005)
            .wrapping_add(1_442_695_040_888_963_407);
        let rolled = (self.state >> 33) as usize;
        rolled.checked_rem(sides).unwrap_or(0)
    }
}

fn made_up_step(dice: &mut Dice, world: &World<'_>) -> Step {
    let federate = dice.roll(world.federate_count());
    let dir = if dice.roll(2) == 0 {
        Dir::Up(federate)
    } else {
        Dir::Down(federate)
    };
    match dice.roll(64) {
        0..=13 => Step::Announce(federate),
        14..=27 => Step::Advance(federate),
        28..=55 => Step::Deliver(dir, made_up_frame(dice, world.sent(dir))),
        56..=59 => Step::Resend(dir),
        60..=62 => Step::Reconnect(dir),
        _ => Step::Forget(federate),
    }
}

// One of the last frames, mostly, or any.
fn made_up_frame(dice: &mut Dice, sent: usize) -> usize {
    if dice.roll(4) == 0 {
        dice.roll(sent).saturating_add(1)
    } else {
        sent.saturating_sub(dice.roll(4))
    }
}

// Whether these rows are a prefix of a federate's part of all rows.
fn is_prefix(rows: &Rows, federate: usize, all: &Rows) -> bool {
    let mut next = 0;
    for place in 0..all.len() {
        if next >= rows.len() {
            return true;
        }
        let row = all.row(place);
        if row.federate() == federate {
            if !is_same(&rows.row(next), &row) {
                return false;
            }
            next += 1;
        }
    }
    next >= rows.len()
}

// How many rows are compared, which are those of the federates that kept their state; None where they aren't a prefix.
fn compared(world: &World<'_>, all: &Rows) -> Option<usize> {
    let mut count = 0usize;
    for federate in 0..world.federate_count() {
        if world.kept(federate) {
            let rows = world.rows(federate)?;
            if !is_prefix(rows, federate, all) {
                return None;
            }
            count = count.saturating_add(rows.len());
        }
    }
    Some(count)
}

/// The list of a seed, after which rows are compared with all.
#[derive(Drop)]
struct MadeUp<'a> {
    seed: u64,
    all: &'a Rows,
}

impl<'a> Scene<usize> for MadeUp<'a> {
    fn play(&self, world: &mut World<'_>) -> Option<usize> {
        let mut dice = Dice { state: self.seed };
        for _ in 0..STEPS {
            let step = made_up_step(&mut dice, world);
            world.apply(step).ok()?;
        }
        compared(world, self.all)
    }
}

// How many rows are compared in all lists together; else the seed of the first list that is wrong.
fn compared_in_lists(alloc: Global, federation: &Federation, all: &Rows) -> Result<usize, u64> {
    let mut count = 0usize;
    for seed in 0..LISTS {
        match seen_in(alloc, federation, &MadeUp { seed, all }) {
            Some(rows) => count = count.saturating_add(rows),
            None => return Err(seed),
        }
    }
    Ok(count)
}

// The same beside the undivided program; None where there is no memory for that.
fn compared_beside(alloc: Global, federation: &Federation) -> Option<Result<usize, u64>> {
    let whole = undivided(alloc, federation)?;
    Some(compared_in_lists(alloc, federation, whole.rows()))
}

// The same of a federation's file and its input file; None also where they aren't taken.
fn rows_compared(alloc: Global, federation: &str, inputs: &str) -> Option<Result<usize, u64>> {
    let federation = loaded(alloc, federation, inputs)?;
    compared_beside(alloc, &federation)
}

/// Federations and their input files.
const FEDERATIONS: &[(&str, &str)] = &[
    (COUNTER, ""),
    (DELAYED_COUNTER, ""),
    (STARTED_COUNTER, ""),
    (REPLACED, ""),
    (LOOP, ""),
    (CHAIN, CHAIN_INPUT),
];

#[test]
fn keeps_to_the_undivided_rows(rt: HostRuntime) {
    for (federation, inputs) in FEDERATIONS {
        let rows = rows_compared(rt.alloc(), federation, inputs);
        assert!(rt;
            matches!(rows, Some(Ok(count)) if count >= LEAST_ROWS),
            "{rows:?} rows of {federation}"
        );
    }
}
