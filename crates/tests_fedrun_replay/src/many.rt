//! That there may be many of what no limit is stated for: schedulings in one turn, events on an agenda, messages in
//! transit. Ample memory has to suffice for all of them. Of steps of a replay `schedules` has many.
use crate::room::{GRANTED, advances};
use crate::worlds::{Scene, seen};
use std::alloc::Global;
use world::World;
use world_stations::{Dir, Outcome, Step};

// Adds a reaction to startup that schedules 200 events, from this microsecond on one in each. A reaction has at most 256
// lines.
fn add_reaction(file: &mut String, first: u32) -> Option<()> {
    file.push_str("[[federate.reaction]]\ntriggers = [\"startup\"]\nbody = [\n")
        .ok()?;
    for time in first..first.saturating_add(200) {
        write!(file, "\"schedule tick {time} us 7\",\n").ok()?;
    }
    file.push_str("]\n").ok()
}

// A federate that schedules 400 events in its first turn, by two reactions.
fn scheduling(alloc: Global) -> Option<String> {
    let mut file = String::new(alloc);
    file.push_str("stop = \"1 ms\"\n[[federate]]\nname = \"a\"\nactions = [\"tick\"]\n")
        .ok()?;
    add_reaction(&mut file, 0)?;
    add_reaction(&mut file, 200)?;
    Some(file)
}

/// How often the only federate of a world advances once it is granted, and what happens then.
#[derive(Drop)]
struct Advancing;

impl Scene<(usize, Outcome)> for Advancing {
    fn play(&self, world: &mut World<'_>) -> Option<(usize, Outcome)> {
        world.run(GRANTED).ok()?;
        advances(world, 0)
    }
}

fn advances_scheduling(alloc: Global) -> Option<(usize, Outcome)> {
    let file = scheduling(alloc)?;
    seen(alloc, file.as_str(), &Advancing)
}

// Its first turn, and one for each event.
#[test]
fn schedules_many_events_in_one_turn(rt: HostRuntime) {
    assert_eq!(rt;
        advances_scheduling(rt.alloc()),
        Some((401, Outcome::Nothing))
    );
}

/// A sender of 300 messages, and their receiver.
const SENDING: &str = r#"stop = "299 us"
connection = [{ from = "src.y", to = "snk.x" }]
[[federate]]
name = "src"
outputs = ["y"]
timers = [{ name = "t", period = "1 us" }]
reaction = [{ triggers = ["t"], body = ["out.y = 7"] }]
[[federate]]
name = "snk"
inputs = ["x"]
"#;

// Brings all frames of a direction from this one on, in their order; none of them is refused.
fn deliver(world: &mut World<'_>, dir: Dir, from: usize) -> Option<()> {
    let sent = world.sent(dir);
    for k in from..sent.saturating_add(1) {
        if let Outcome::Refused(_) = world.apply(Step::Deliver(dir, k)).ok()? {
            return None;
        }
    }
    Some(())
}

/// How many messages are on their way to the receiver at once, where it hears of nothing before all are sent, and how
/// often it then advances.
#[derive(Drop)]
struct Receiving;

impl Scene<(usize, usize)> for Receiving {
    fn play(&self, world: &mut World<'_>) -> Option<(usize, usize)> {
        world.run(GRANTED).ok()?;
        advances(world, 0)?;
        deliver(world, Dir::Up(0), 2)?;
        let in_transit = world.sent(Dir::Down(1));
        deliver(world, Dir::Down(1), 1)?;
        world.apply(Step::Announce(1)).ok()?;
        deliver(world, Dir::Up(1), 1)?;
        deliver(world, Dir::Down(1), in_transit.saturating_add(1))?;
        let (count, _) = advances(world, 1)?;
        Some((in_transit, count))
    }
}

#[test]
fn keeps_many_messages_in_transit(rt: HostRuntime) {
    assert_eq!(rt; seen(rt.alloc(), SENDING, &Receiving), Some((300, 300)));
}
