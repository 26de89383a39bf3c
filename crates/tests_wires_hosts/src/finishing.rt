//! Who hears that the run is finished.
use crate::entrance::{
    Entrance, Host, LONG_MS, Machine, challenged, gets_no_more, host_of, is_closed, told_behind,
};
use crate::process::{Process, is_told};
use std::net::{Net, TcpListener, TcpStream};
use std::time::{Duration, Instant};
use wires_hosts::{DialFault, Happening};

/// Whether all federates' processes hear that the run is finished, and end by it.
pub fn all_hear<R: Host + Net<Stream = TcpStream, Listener = TcpListener>>(
    rt: &R,
    entrance: &Entrance<'_>,
) -> Option<bool> {
    for federate in 0..3 {
        let host = host_of(entrance.address, federate)?;
        let process = Process::new(entrance.alloc)?;
        if !process.is_refused(rt, entrance.alloc, host, DialFault::Finished, true) {
            return Some(false);
        }
    }
    Some(true)
}

// The run is finished: whether all federates' processes hear it, and end by it, and whoever watches is told of each.
fn are_told<R: Host + Net<Stream = TcpStream, Listener = TcpListener>>(
    rt: &R,
    entrance: &Entrance<'_>,
) -> Option<bool> {
    let no_more = gets_no_more(rt, entrance);
    Some(no_more && all_hear(rt, entrance)? && are_hearers_told(rt, entrance.coordinator))
}

// Whether whoever watches the coordinator is told next that each federate heard it.
fn are_hearers_told<R: Host>(rt: &R, coordinator: &Process) -> bool {
    is_told(rt, &coordinator.told, Happening::Told(0))
        && is_told(rt, &coordinator.told, Happening::Told(1))
        && is_told(rt, &coordinator.told, Happening::Told(2))
}

// Whether that was before the coordinator's patience was over.
fn are_told_at_once<R: Machine + Net<Stream = TcpStream, Listener = TcpListener>>(
    rt: &R,
) -> Option<bool> {
    let begin = Instant::now(rt).ok()?;
    let told = told_behind(rt, LONG_MS, are_told)?;
    Some(told == [true; 4] && begin.elapsed(rt).ok()? < Duration::from_millis(LONG_MS))
}

#[test]
fn tells_each_federate_that_the_run_is_finished_and_ends(rt: HostRuntime) {
    assert_eq!(rt; are_told_at_once(&rt), Some(true));
}

// Whoever greets as this federate is answered that the run is finished; the connection.
fn answered<R: Net<Stream = TcpStream, Listener = TcpListener>>(
    rt: &R,
    entrance: &Entrance<'_>,
    federate: u16,
) -> Option<TcpStream> {
    let (stream, challenge) = challenged(rt, entrance.address, federate)?;
    if challenge[0] == 4 {
        Some(stream)
    } else {
        None
    }
}

// Federate 0 is answered and doesn't prove that it heard so, and federate 1 hears it. Whether the coordinator closes
// once its patience is over, and whoever watches is told of the one, then of the other two, and of nothing more.
fn is_closed_unproved<R: Host + Net<Stream = TcpStream, Listener = TcpListener>>(
    rt: &R,
    entrance: &Entrance<'_>,
) -> Option<bool> {
    let told = &entrance.coordinator.told;
    let no_more = gets_no_more(rt, entrance);
    let stream = answered(rt, entrance, 0)?;
    let host = host_of(entrance.address, 1)?;
    let process = entrance.process;
    let hears = process.is_refused(rt, entrance.alloc, host, DialFault::Finished, true);
    let are_told = is_told(rt, told, Happening::Told(1))
        && is_told(rt, told, Happening::Untold(0))
        && is_told(rt, told, Happening::Untold(2));
    Some(no_more && hears && are_told && is_closed(&stream, 0) && told.try_recv(rt).is_err())
}

#[test]
fn ends_once_its_patience_is_over_and_tells_who_was_not_told(rt: HostRuntime) {
    assert_eq!(rt;
        told_behind(&rt, 2000, is_closed_unproved),
        Some([false, true, false, false])
    );
}

// The run was given up: whether federate 0, and whoever waited for it, hears that it is finished no more.
fn hears_nothing<R: Host + Net<Stream = TcpStream, Listener = TcpListener>>(
    rt: &R,
    entrance: &Entrance<'_>,
) -> Option<bool> {
    let process = entrance.process;
    let host = host_of(entrance.address, 0)?;
    let waiting = challenged(rt, entrance.address, 0);
    entrance.coordinator.heard.give_up();
    let no_more = gets_no_more(rt, entrance);
    let is_in_vain = process.is_in_vain(rt, entrance.alloc, host);
    let fault = process.heard.last_fault(rt);
    let is_untold = matches!(
        fault,
        Some(DialFault::NotConnected(_) | DialFault::NoAnswer)
    ) && !process.ending.is_set();
    Some(waiting.is_some() && no_more && is_in_vain && is_untold)
}

#[test]
fn tells_nobody_that_a_run_is_finished_which_was_given_up(rt: HostRuntime) {
    assert_eq!(rt; told_behind(&rt, LONG_MS, hears_nothing), Some([false; 4]));
}
