//! Runs that make their connections over TCP themselves: their rows, what is printed of them, and their turns.
use crate::federations::TICKS;
use crate::lines::{AMPLE, seen_of_run};
use crate::seen::NodeSeen;
use fedrun_progress::NoProgress;
use fedrun_run::{AuditedFault, RunOutput, print_audited_run};
use files_text::RowFormat;
use node::Event;
use std::net::{Net, TcpListener, TcpStream};
use tests_samples::worked_rows::COUNTER_ROWS;
use tests_samples::{CHAIN, CHAIN_INPUT, COUNTER, Federation, Machine, with_loaded};
use wires::Terms;

/// The federations that are run, each with its input file. The program's `run` has the rows of others.
const ALL: &[(&str, &str)] = &[(COUNTER, ""), (CHAIN, CHAIN_INPUT)];

// Whether each of five runs has the rows of the undivided program, and an audit proves them.
fn runs_each_time<R: Machine + Net<Stream = TcpStream, Listener = TcpListener>>(
    rt: &R,
    federation: &str,
    inputs: &str,
) -> bool {
    for _ in 0..5 {
        match seen_of_run(rt, federation, inputs, AMPLE) {
            Some(seen) if seen.is_right => {}
            _ => return false,
        }
    }
    true
}

#[test]
fn has_the_undivided_rows_of_each_federate(rt: HostRuntime) {
    for (federation, inputs) in ALL {
        assert!(rt; runs_each_time(&rt, federation, inputs));
    }
}

// What is printed of a run of at most this many turns, and whether it isn't finished; None where another fault is told.
fn printed<R: Machine + Net<Stream = TcpStream, Listener = TcpListener>>(
    rt: &R,
    federation: &Federation,
    turns: u32,
) -> Option<(String, bool)> {
    let mut out = Vec::new(rt.alloc());
    let told = print_audited_run(
        rt,
        rt.alloc(),
        federation.plan(),
        federation.programs(),
        federation.inputs(),
        Terms { turns, frames: 2 },
        RunOutput::Rows(RowFormat::Text),
        &mut out,
        &NoProgress,
    );
    let is_unfinished = match told {
        Ok(()) => false,
        Err(AuditedFault::NotFinished(_)) => true,
        Err(_) => return None,
    };
    Some((String::from_utf8(out).ok()?, is_unfinished))
}

// Whether this is printed of such a run of the counter, and it isn't finished where nothing is.
fn prints<R: Machine + Net<Stream = TcpStream, Listener = TcpListener>>(
    rt: &R,
    turns: u32,
    text: &str,
) -> bool {
    let printed = with_loaded(
        rt.alloc(),
        COUNTER,
        "",
        |federation| printed(rt, federation, turns),
    );
    match printed {
        Some((rows, is_unfinished)) => { rows.as_str() == text && is_unfinished == text.is_empty() }
        None => false,
    }
}

/// How many turns a run of the counter may make, and what is printed of it. Its first federate comes to its end in its
/// fourth turn at the earliest.
const PRINTED: &[(u32, &str)] = &[(100_000, COUNTER_ROWS), (0, ""), (3, "")];

#[test]
fn prints_all_rows_of_a_finished_run_and_else_none(rt: HostRuntime) {
    for (turns, text) in PRINTED {
        assert!(rt; prints(&rt, *turns, *text), "{turns}");
    }
}

// How many turns a federate made, its reader's among them; none where an announcement isn't followed by an advance at
// once, or an advance stands alone.
fn turns(events: &[Event]) -> Option<u32> {
    let mut turns: u32 = 0;
    let mut has_announced = false;
    for event in events {
        if has_announced != (*event == Event::Advance) {
            return None;
        }
        has_announced = *event == Event::Announce;
        if has_announced {
            turns = turns.saturating_add(1);
        }
    }
    if has_announced { None } else { Some(turns) }
}

// The most turns that any federate made.
fn most_turns(federates: &[NodeSeen]) -> Option<u32> {
    let mut most = 0;
    for federate in federates {
        most = most.max(turns(&federate.events)?);
    }
    Some(most)
}

// The most turns that one of two federates made where each may make this many; none where the run is finished all the
// same.
fn made<R: Machine + Net<Stream = TcpStream, Listener = TcpListener>>(
    rt: &R,
    turns: u32,
) -> Option<u32> {
    let seen = seen_of_run(rt, TICKS, "", Terms { turns, frames: 2 })?;
    if seen.is_finished {
        None
    } else {
        most_turns(&seen.federates)
    }
}

#[test]
fn makes_as_many_turns_as_it_may_and_no_more(rt: HostRuntime) {
    for turns in [0, 1, 2, 3, 7, 20, 50] {
        for _ in 0..3 {
            assert_eq!(rt; made(&rt, turns), Some(turns));
        }
    }
}
