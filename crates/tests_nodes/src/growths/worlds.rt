//! A world whose steps are those of rounds, behind some that don't apply.
use crate::growths::is_so_of_counter;
use crate::rows::are_first;
use std::alloc::Global;
use tests_samples::Federation;
use world::World;
use world_stations::{Dir, Outcome, Step};

/// Steps of federates and frames that aren't there: with the greatest numbers that are kept in little memory, with
/// greater ones, and with small ones behind these.
const IDLE: [Step; 9] = [
    Step::Announce(65_535),
    Step::Deliver(Dir::Up(0), 4_294_967_295),
    Step::Deliver(Dir::Down(1), 4_294_967_296),
    Step::Advance(65_536),
    Step::Resend(Dir::Up(65_536)),
    Step::Reconnect(Dir::Down(4_294_967_296)),
    Step::Forget(18_446_744_073_709_551_615),
    Step::Announce(2),
    Step::Deliver(Dir::Up(1), 3),
];

/// What the federates do in a round, before the frames come that were sent by then.
const TURNS: [Step; 4] = [
    Step::Announce(0),
    Step::Advance(0),
    Step::Announce(1),
    Step::Advance(1),
];

const DIRECTIONS: [Dir; 4] = [Dir::Up(0), Dir::Up(1), Dir::Down(0), Dir::Down(1)];

/// How far a world has come: its steps, the rows of each federate, and of each direction how many signals its sender
/// keeps and may still offer.
type Marks = [Option<usize>; 11];

fn marks(world: &World<'_>) -> Marks {
    [
        Some(world.steps().len()),
        row_count(world, 0),
        row_count(world, 1),
        world.unacked(Dir::Up(0)),
        world.unacked(Dir::Up(1)),
        world.unacked(Dir::Down(0)),
        world.unacked(Dir::Down(1)),
        world.room_left(Dir::Up(0)),
        world.room_left(Dir::Up(1)),
        world.room_left(Dir::Down(0)),
        world.room_left(Dir::Down(1)),
    ]
}

fn row_count(world: &World<'_>, federate: usize) -> Option<usize> {
    Some(world.rows(federate)?.len())
}

// Whether a step is made and no node refuses it: at once, or where it was out of memory and all is as before, the next
// time.
fn is_made(world: &mut World<'_>, step: Step) -> bool {
    let before = marks(world);
    let outcome = match world.apply(step) {
        Err(memory) if memory.number() == 90 && marks(world) == before => world.apply(step),
        outcome => outcome,
    };
    matches!(outcome, Ok(Outcome::Nothing | Outcome::Done))
}

fn are_made(world: &mut World<'_>, steps: &[Step]) -> bool {
    for step in steps {
        if !is_made(world, *step) {
            return false;
        }
    }
    true
}

// Whether the frames of a direction come behind this many, up to those that were sent by now, and are counted.
fn are_delivered(world: &mut World<'_>, dir: Dir, cursor: &mut usize) -> bool {
    let sent = world.sent(dir);
    for place in *cursor..sent {
        if !is_made(world, Step::Deliver(dir, place.saturating_add(1))) {
            return false;
        }
    }
    *cursor = sent;
    true
}

// Whether the steps of a round are made, where this many frames of each direction have come.
fn goes_round(world: &mut World<'_>, cursors: &mut [usize; 4]) -> bool {
    if !are_made(world, &TURNS) {
        return false;
    }
    for place in 0..4 {
        if !are_delivered(world, DIRECTIONS[place], &mut cursors[place]) {
            return false;
        }
    }
    true
}

fn has_all_rows(world: &World<'_>, federate: usize) -> bool {
    match world.rows(federate) {
        Some(rows) => are_first(rows, federate, 3),
        None => false,
    }
}

// Whether ten rounds are made behind the steps that don't apply, and all rows are there then.
fn is_played(world: &mut World<'_>) -> bool {
    let mut cursors = [0; 4];
    if !are_made(world, &IDLE) {
        return false;
    }
    for _ in 0..10 {
        if !goes_round(world, &mut cursors) {
            return false;
        }
    }
    world.finished() && has_all_rows(world, 0) && has_all_rows(world, 1)
}

// A world before any step, at the second attempt where the first was out of memory.
fn opened(alloc: Global, federation: &Federation) -> Option<World<'_>> {
    let plan = federation.plan();
    let programs = federation.programs();
    let inputs = federation.inputs();
    match World::new(alloc, plan, programs, inputs) {
        Ok(world) => Some(world),
        Err(memory) if memory.number() == 90 => World::new(alloc, plan, programs, inputs).ok(),
        Err(_) => None,
    }
}

fn plays(alloc: Global, federation: &Federation) -> bool {
    match opened(alloc, federation) {
        Some(mut world) => is_played(&mut world),
        None => false,
    }
}

#[test]
fn makes_the_same_step_after_a_refusal(rt: HostRuntime) {
    let alloc = rt.alloc();
    assert!(rt; is_so_of_counter(alloc, |counter| plays(alloc, counter)));
}
