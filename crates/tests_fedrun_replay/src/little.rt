//! In how little memory a world keeps the steps that were made, which no contract says.
use crate::worlds::{Scene, seen};
use std::{fs, rt};
use tests_samples::COUNTER;
use world::World;
use world_stations::{Dir, Step};

/// How many steps are made.
const STEPS: u32 = 2_000_000;

/// How many bytes one of them may take. A step whose numbers are small takes eight, and any other 32. This stands
/// between, since memory that was let go while the list grew may be held for a time.
const MOST: u64 = 24;

// How much memory this process holds, in bytes: the machine counts it in pages, in the second number of this file.
fn held<R: rt::Files + AllocGlobal>(rt: &R) -> Option<u64> {
    let text = fs::read_to_string(rt, "/proc/self/statm").ok()?;
    let (_, behind) = text.as_str().split_once(' ')?;
    let (pages, _) = behind.split_once(' ')?;
    Some(pages.parse::<u64>().ok()?.saturating_mul(4096))
}

/// How many bytes more are held once this step was made so often. It is made once before.
#[derive(Drop)]
struct Holding<'r, R> {
    rt: &'r R,
    step: Step,
}

impl<'r, R: rt::Files + AllocGlobal> Scene<u64> for Holding<'r, R> {
    fn play(&self, world: &mut World<'_>) -> Option<u64> {
        world.apply(self.step).ok()?;
        let before = held(self.rt)?;
        for _ in 0..STEPS {
            world.apply(self.step).ok()?;
        }
        Some(held(self.rt)?.saturating_sub(before))
    }
}

// Whether steps like this one are kept in so few bytes each; how many are held by all of them where they aren't.
fn excess<R: rt::Files + AllocGlobal>(rt: &R, step: Step) -> Result<(), Option<u64>> {
    match seen(rt.alloc(), COUNTER, &Holding { rt, step }) {
        Some(bytes) if bytes < u64::from(STEPS).saturating_mul(MOST) => Ok(()),
        bytes => Err(bytes),
    }
}

// A federate announces that has announced before.
#[test]
fn keeps_steps_in_little_memory(rt: HostRuntime) {
    assert_eq!(rt; excess(&rt, Step::Announce(0)), Ok(()));
}

// A frame doesn't come that isn't there, and its number is as great as in a long run.
#[test]
fn keeps_steps_with_great_numbers_in_little_memory(rt: HostRuntime) {
    let step = Step::Deliver(Dir::Down(1), 4_000_000_000);
    assert_eq!(rt; excess(&rt, step), Ok(()));
}
