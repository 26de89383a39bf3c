//! The lines on a terminal that are drawn again.
use crossbeam_channel::{TryRecvError, bounded};
use fedrun_watch::{Screen, View};
use plan_names::Text;
use std::alloc::Global;
use std::net::SocketAddr;
use tag::{FiniteTag, Time};
use tests_samples::Machine;
use wires_hosts::{Happened, Happening, Looked, Reached, Standing, Told};

// The names `src` and `snk`.
fn names(alloc: Global) -> Option<Vec<Text>> {
    let mut names = Vec::new(alloc);
    for name in ["src", "snk"] {
        names
            .push(Text::new(String::from_str(alloc, name).ok()?))
            .ok()?;
    }
    Some(names)
}

// Where a federate stands that is connected or not.
fn stands(federate: u16, is_connected: bool) -> Option<Told> {
    let granted = FiniteTag::new(Time::new(10_000_000)?, 1);
    Some(Told::Stands(Standing {
        federate,
        is_connected,
        lasting_ms: 31_049,
        quiet_ms: if is_connected { Some(50) } else { None },
        reached: Reached {
            completed: None,
            granted: Some(granted),
            unacked: 3,
        },
    }))
}

// Where `src` stands, which has completed and may run up to the last tags of their times: its line is too long.
fn stands_far() -> Option<Told> {
    let granted = FiniteTag::new(Time::new(2_299_999_999)?, u32::MAX);
    let completed = FiniteTag::new(Time::new(1_299_999_999)?, 7);
    Some(Told::Stands(Standing {
        federate: 0,
        is_connected: true,
        lasting_ms: 31_049,
        quiet_ms: Some(123_456),
        reached: Reached {
            completed: Some(completed),
            granted: Some(granted),
            unacked: 0,
        },
    }))
}

// A look that is over, at a run that is over after 3600 s, and leaves so many out.
fn looked(more: usize) -> Told {
    Told::Looked(Looked {
        more,
        stop: Time::new(3_600_000_000_000),
    })
}

// What is shown of two looks, at `src` and `snk` and at `snk` alone, of which the second leaves so many out; `snk` is
// let in between them.
fn shown(alloc: Global, view: View, more: usize) -> Option<String> {
    let at = SocketAddr::from(([10, 0, 0, 2], 41_234));
    let mut screen = Screen::new(alloc, view);
    let mut out = Vec::new(alloc);
    screen.take(Told::Federates(names(alloc)?), &mut out);
    screen.take(stands_far()?, &mut out);
    screen.take(stands(1, false)?, &mut out);
    screen.take(looked(0), &mut out);
    let happened = Happened {
        millis: 6000,
        what: Happening::LetIn(1, at),
        left_out: 0,
    };
    screen.take(Told::Happened(happened), &mut out);
    screen.take(stands(1, true)?, &mut out);
    screen.take(looked(more), &mut out);
    screen.wipe(&mut out);
    String::from_utf8(out).ok()
}

/// The lines of the two looks: of each there is what has room in 79 columns.
const FIRST: &str =
    "\x1b[?7l  src: heard 123.4 s ago, at (1299999999 ns, 7) of 3600 s, to just before (2300\n  snk: no connection \
                     for 31.0 s, 3 unacked, at nothing of 3600 s, to (10 ms, 1)\n\x1b[?7h";

const SECOND: &str =
    "\x1b[?7l  snk: heard 0.0 s ago, 3 unacked, at nothing of 3600 s, to (10 ms, 1)\n";

// Whether a text is these, one behind the other.
fn is_all(text: &str, parts: &[&str]) -> bool {
    let mut rest = text;
    for part in parts {
        match rest.strip_prefix(*part) {
            Some(left) => rest = left,
            None => return false,
        }
    }
    rest.is_empty()
}

// Whether this is shown behind the lines of the first look.
fn is_shown(alloc: Global, lines: bool, more: usize, parts: &[&str]) -> Option<bool> {
    let text = shown(alloc, View { lines, rows: true }, more)?;
    Some(is_all(text.as_str().strip_prefix(FIRST)?, parts))
}

#[test]
fn lines_are_drawn_over_those_of_before(rt: HostRuntime) {
    let with_more = [
        "\x1b[2A\r\x1b[J",
        SECOND,
        "  and 5 more\n\x1b[?7h",
        "\x1b[2A\r\x1b[J",
    ];
    let below_lines = [
        "\x1b[2A\r\x1b[J",
        "6.000 s: snk is connected, from 10.0.0.2:41234\n",
        SECOND,
        "\x1b[?7h",
        "\x1b[1A\r\x1b[J",
    ];
    let are_shown = [
        is_shown(rt.alloc(), false, 5, &with_more),
        is_shown(rt.alloc(), true, 0, &below_lines),
    ];
    assert_eq!(rt; are_shown, [Some(true); 2]);
}

// What is shown of a look, of the end of all looks, and of a look behind that. None where whoever waits for that end
// doesn't go on.
fn wiped<R: Machine>(rt: &R) -> Option<String> {
    let alloc = rt.alloc();
    let mut screen = Screen::new(
        alloc,
        View {
            lines: false,
            rows: true,
        },
    );
    let mut out = Vec::new(alloc);
    let (until, is_wiped) = bounded(alloc, 1).ok()?;
    screen.take(Told::Federates(names(alloc)?), &mut out);
    screen.take(stands(0, true)?, &mut out);
    screen.take(looked(0), &mut out);
    screen.take(Told::Wipe(until), &mut out);
    screen.take(stands(0, true)?, &mut out);
    screen.take(looked(0), &mut out);
    if matches!(is_wiped.try_recv(rt), Err(TryRecvError::Disconnected)) {
        String::from_utf8(out).ok()
    } else {
        None
    }
}

/// What is shown of it.
const WIPED: &str =
    "\x1b[?7l  src: heard 0.0 s ago, 3 unacked, at nothing of 3600 s, to (10 ms, 1)\n\x1b[?7h\x1b[1A\r\x1b[J";

#[test]
fn lines_are_wiped_before_the_end_is_said(rt: HostRuntime) {
    let text = wiped(&rt);
    assert_eq!(rt; text.as_ref().map(|text| text.as_str()), Some(WIPED));
}
