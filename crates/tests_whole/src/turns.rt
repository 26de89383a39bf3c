//! A turn of a reactor by itself: what it gives, and that only `commit` makes it the reactor's own.
use crate::opened::loaded;
use reactor::{Reactor, Turn};
use reactor_program::{Entry, Program};
use std::alloc::Global;
use tests_samples::COUNTER;

// What a turn gives on its only output.
fn output(turn: &Turn) -> Option<i64> {
    match turn.outputs() {
        [entry] => Some(entry.value()),
        _ => None,
    }
}

// The only state of a reactor.
fn state(reactor: &Reactor<'_>) -> Option<i64> {
    match reactor.states() {
        [state] => Some(*state),
        _ => None,
    }
}

// The outputs of two turns at which the timer, slot 1, fires, and the state after each of them, committed or not.
fn counted(alloc: Global, program: &Program) -> Option<[Option<i64>; 5]> {
    let mut reactor = Reactor::new(alloc, program).ok()?;
    let fired = [Entry::new(1, 0)];
    let first = reactor.run(&fired).ok()?;
    let given = output(&first);
    let uncommitted = state(&reactor);
    reactor.commit(first);
    let committed = state(&reactor);
    let second = reactor.run(&fired).ok()?;
    Some([
        given,
        uncommitted,
        committed,
        output(&second),
        state(&reactor),
    ])
}

// The same of the counter's sender.
fn counted_by_sender(alloc: Global) -> Option<[Option<i64>; 5]> {
    let (_plan, programs) = loaded(alloc, COUNTER)?;
    counted(alloc, programs.as_slice().first()?)
}

#[test]
fn counts_with_each_committed_turn(rt: HostRuntime) {
    let counted = counted_by_sender(rt.alloc());
    assert_eq!(rt;
        counted,
        Some([Some(1), Some(0), Some(1), Some(2), Some(1)])
    );
}
