//! What is shown of a node that tells more than there is room for, since nothing is taken before it ends.
use fedrun_watch::{View, show};
use std::time::Duration;
use tests_samples::Machine;
use wires::Work;
use wires_hosts::teller::MOST_WAITING;
use wires_hosts::{Happening, Heard, NoBarrier, Patience, Teller};
use wires_transports::Ending;

// Looks once at a node of one federate, and gives its run up: a look and two things that happen are told.
fn look_once<R: Machine>(rt: &R, teller: Teller) -> Option<()> {
    let heard = Heard::watched(rt.alloc(), 1, teller).ok()?;
    let ending = Ending::new();
    let barrier = NoBarrier;
    let patience = Patience {
        heard: &heard,
        barrier: &barrier,
        ending: &ending,
        most: Some(Duration::from_millis(50)),
        last: None,
    };
    let _ = patience.work(rt, rt.alloc());
    Some(())
}

// What is shown of a node of one federate at which somebody looks once, behind which there is no room for all that
// happens, nor for the end of all looks.
fn shown<R: Machine>(rt: &R, view: View) -> Option<String> {
    let alloc = rt.alloc();
    let (teller, watcher) = Teller::watched(rt, alloc).ok()?;
    let teller = teller.with_looks();
    look_once(rt, teller.another())?;
    for _ in 0..MOST_WAITING {
        teller.tell(rt, rt, Happening::Finished);
    }
    teller.wipe(rt, alloc);
    drop(teller);
    let mut out = Vec::new(alloc);
    show(rt, alloc, &watcher, view, &mut out);
    String::from_utf8(out).ok()
}

#[test]
fn no_look_is_drawn_once_the_end_is_said(rt: HostRuntime) {
    let rows = View {
        lines: false,
        rows: true,
    };
    let text = shown(&rt, rows);
    assert_eq!(rt; text.as_ref().map(|text| text.as_str()), Some(""));
}

#[test]
fn what_is_left_out_last_is_counted_at_the_end(rt: HostRuntime) {
    let lines = View {
        lines: true,
        rows: false,
    };
    let text = shown(&rt, lines);
    let is_counted = text.as_ref().map(|text| {
        text.as_str()
            .ends_with("\n(4 more happened, and are left out)\n")
    });
    assert_eq!(rt; is_counted, Some(true));
}
