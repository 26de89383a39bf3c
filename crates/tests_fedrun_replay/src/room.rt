//! The room of a link: how many signals a federate sends that aren't acknowledged. The number is that of
//! docs/FILES.md, written out: a test that cited the constant of the code would pass with any.
use crate::worlds::{Scene, seen};
use world::World;
use world_stations::{Dir, Outcome, Step};

/// A timer of one nanosecond.
pub(crate) const TICKS: &str = r#"stop = "1 s"
[[federate]]
name = "one"
outputs = ["y"]
timers = [{ name = "t", offset = "0", period = "1 ns" }]
state = [{ name = "n", value = 0 }]
[[federate.reaction]]
triggers = ["t"]
body = ["n = n + 1", "out.y = n"]
"#;

/// It announces, and is granted all that it has to run. The acknowledgement, the first frame that goes to it, is on its
/// way.
pub(crate) const GRANTED: &[Step] = &[
    Step::Announce(0),
    Step::Deliver(Dir::Up(0), 1),
    Step::Deliver(Dir::Down(0), 2),
];

/// How often a federate advances, one signal each time, before something else happens, and what; none within 10,000
/// times.
pub(crate) fn advances(world: &mut World<'_>, federate: usize) -> Option<(usize, Outcome)> {
    for count in 0..10_000 {
        let outcome = world.apply(Step::Advance(federate)).ok()?;
        if outcome != Outcome::Done {
            return Some((count, outcome));
        }
    }
    None
}

/// How often a world's only federate advances once it is granted, and again after the acknowledgement has come.
#[derive(Drop)]
struct Twice;

impl Scene<[(usize, Outcome); 2]> for Twice {
    fn play(&self, world: &mut World<'_>) -> Option<[(usize, Outcome); 2]> {
        world.run(GRANTED).ok()?;
        let first = advances(world, 0)?;
        world.apply(Step::Deliver(Dir::Down(0), 1)).ok()?;
        let second = advances(world, 0)?;
        Some([first, second])
    }
}

// With the NET that it announced, 4,096 signals aren't acknowledged. The acknowledgement of the NET makes room for one.
#[test]
fn refuses_the_4097th_signal_without_an_acknowledgement(rt: HostRuntime) {
    let full = Outcome::Refused(60);
    assert_eq!(rt;
        seen(rt.alloc(), TICKS, &Twice),
        Some([(4_095, full), (1, full)])
    );
}
