//! Rows of sources that were expanded, worked by hand.
use crate::answers::answer;
use crate::sources::{CONTROLLER, FAN_IN, LIGHT, PLATOON, RING, THERMOSTAT};
use reactor::Rows;
use reactor_program::Entry;
use std::alloc::Global;
use std::test::Fail;
use tests_samples::{loaded, undivided};

/// A row: the number of its federate, its time in ms, and what it sends, if it sends something.
type Worked = (usize, u32, Option<i64>);

/// A source, the values that are given, and the rows.
const WORKED: &[(&str, &[(&str, i64)], &[Worked])] = &[
    // It cools by 5 every ten seconds, and is heated by 8: 190, 185, and then up until it is above 210.
    (
        THERMOSTAT,
        &[],
        &[
            (0, 0, Some(190)),
            (1, 0, Some(0)),
            (0, 1000, None),
            (0, 10000, Some(185)),
            (1, 10000, Some(1)),
            (0, 11000, None),
            (0, 20000, Some(193)),
            (1, 20000, Some(1)),
            (0, 21000, None),
            (0, 30000, Some(201)),
            (1, 30000, Some(1)),
            (0, 31000, None),
            (0, 40000, Some(209)),
            (1, 40000, Some(1)),
            (0, 41000, None),
            (0, 50000, Some(217)),
            (1, 50000, Some(0)),
        ],
    ),
    // Red at 0, green at 5 s, yellow at 13 s, red at 15 s, and so on.
    (
        LIGHT,
        &[],
        &[
            (0, 0, Some(0)),
            (0, 5000, Some(1)),
            (0, 13000, Some(2)),
            (0, 15000, Some(0)),
            (0, 20000, Some(1)),
            (0, 28000, Some(2)),
            (0, 30000, Some(0)),
        ],
    ),
    // Each node hears the one before it, node0 the last.
    (
        RING,
        &[],
        &[
            (0, 0, Some(0)),
            (1, 0, Some(100)),
            (2, 0, Some(200)),
            (3, 0, Some(300)),
            (0, 10, Some(301)),
            (1, 10, Some(1)),
            (2, 10, Some(101)),
            (3, 10, Some(201)),
            (0, 20, Some(202)),
            (1, 20, Some(302)),
            (2, 20, Some(2)),
            (3, 20, Some(102)),
        ],
    ),
    // A node that hears itself too late.
    (RING, &[("delay", 30), ("nodes", 1)], &[(0, 0, Some(0))]),
    (
        FAN_IN,
        &[],
        &[
            (0, 0, Some(10)),
            (1, 0, Some(20)),
            (2, 0, Some(30)),
            (3, 0, Some(60)),
            (0, 5, Some(10)),
            (1, 5, Some(20)),
            (2, 5, Some(30)),
            (3, 5, Some(60)),
        ],
    ),
    // It goes too far: 10 * 2, 20 * 2; then 20 + 0, 40 - 20 * 2.
    (
        PLATOON,
        &[("gain", 2)],
        &[
            (0, 0, Some(10)),
            (1, 0, Some(20)),
            (2, 0, Some(40)),
            (0, 10, Some(20)),
            (1, 10, Some(20)),
            (2, 10, Some(0)),
        ],
    ),
    // Errors 100, 60, 26, 0, -18; pushes 4000 / 100, 3400 / 100, 2640 / 100, 1860 / 100, 1140 / 100.
    (
        CONTROLLER,
        &[],
        &[
            (0, 0, Some(0)),
            (1, 0, Some(40)),
            (0, 5, None),
            (0, 10, Some(40)),
            (1, 10, Some(34)),
            (0, 15, None),
            (0, 20, Some(74)),
            (1, 20, Some(26)),
            (0, 25, None),
            (0, 30, Some(100)),
            (1, 30, Some(18)),
            (0, 35, None),
            (0, 40, Some(118)),
            (1, 40, Some(11)),
        ],
    ),
    // The same below 0, since quotients are rounded to it.
    (
        CONTROLLER,
        &[("goal", -100)],
        &[
            (0, 0, Some(0)),
            (1, 0, Some(-40)),
            (0, 5, None),
            (0, 10, Some(-40)),
            (1, 10, Some(-34)),
            (0, 15, None),
            (0, 20, Some(-74)),
            (1, 20, Some(-26)),
            (0, 25, None),
            (0, 30, Some(-100)),
            (1, 30, Some(-18)),
            (0, 35, None),
            (0, 40, Some(-118)),
            (1, 40, Some(-11)),
        ],
    ),
];

// Whether these outputs are what is sent, at the first port.
fn is_sent(outputs: &[Entry], sent: Option<i64>) -> bool {
    match sent {
        Some(value) => outputs == [Entry::new(0, value)].as_slice(),
        None => outputs.is_empty(),
    }
}

fn are_worked(rows: &Rows, worked: &[Worked]) -> bool {
    for (place, (federate, time, sent)) in worked.iter().enumerate() {
        if place >= rows.len() {
            return false;
        }
        let row = rows.row(place);
        let is_then = row.tag().time() == u64::from(*time) * 1_000_000
            && row.tag().microstep() == 0;
        if row.federate() != *federate || !is_then || !is_sent(row.outputs(), *sent) {
            return false;
        }
    }
    rows.len() == worked.len()
}

fn gives(alloc: Global, source: &str, values: &[(&str, i64)], worked: &[Worked]) -> Option<bool> {
    let text = answer(alloc, source, values)?;
    let federation = loaded(alloc, text.as_str(), "")?;
    let whole = undivided(alloc, &federation)?;
    Some(are_worked(whole.rows(), worked))
}

#[test]
fn an_expanded_source_gives_the_worked_rows(rt: HostRuntime) {
    for (source, values, worked) in WORKED {
        assert_eq!(rt; gives(rt.alloc(), source, values, worked), Some(true));
    }
}
