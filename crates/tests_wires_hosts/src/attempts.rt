//! How long attempts to connect wait.
use crate::entrance::{
    Entrance, Host, Machine, greeting_at, host_of, host_to, listener_of, visited,
};
use crate::process::{Meeting, Process, failed, is_told, meet, met};
use crate::simulated::{Counting, EndsAt, Meanwhile, Nothing, Simulated, attempted_until};
use std::net::{Net, TcpListener, TcpStream};
use wires_hosts::{DialFault, FederateHost, HostDial, Unreached};
use wires_transports::{Dial, Transport};

/// What an attempt comes to where nobody listens.
const NOBODY: DialFault = DialFault::NotConnected(Unreached::Refused);

// A federate's process that connects to where nobody listens.
fn host_to_nobody<R: Net<Stream = TcpStream, Listener = TcpListener>>(
    rt: &R,
) -> Option<FederateHost> {
    let listener = listener_of(rt)?;
    host_to(&listener)
}

// When each of some attempts that come to nothing was over, in ms. None where whoever watches isn't told of them as he
// should be.
fn attempted_at<R: Machine + Net<Stream = TcpStream, Listener = TcpListener>>(
    rt: &R,
) -> Option<[u64; 13]> {
    let host = host_to_nobody(rt)?;
    let process = Process::new(rt.alloc())?;
    let times = attempted_by(rt, &process, &host);
    if are_few_told(rt, &process, &host) {
        Some(times)
    } else {
        None
    }
}

// The same of this process: ten attempts in a row, and three behind something that was heard. An attempt itself takes no
// time, for nobody is there.
fn attempted_by<R: Machine + Net<Stream = TcpStream, Listener = TcpListener>>(
    rt: &R,
    process: &Process,
    host: &FederateHost,
) -> [u64; 13] {
    let source = Counting::new();
    let machine = Simulated::new(rt, &source, Nothing);
    let dial = HostDial::new(
        &machine,
        *host,
        &process.heard,
        &process.barrier,
        &process.last,
        &process.ending,
    );
    let mut times = [u64::MAX; 13];
    attempt_all(rt, &dial, process, &machine, &mut times);
    times
}

// Whether it is told of the first, second, fourth and eighth of attempts that nobody answers, and of no other.
fn are_few_told<R: Machine>(rt: &R, process: &Process, host: &FederateHost) -> bool {
    [1, 2, 4, 8].iter().all(|count| { is_told(rt, &process.told, failed(host, NOBODY, *count)) })
        && process.told.try_recv(rt).is_err()
}

// Makes these attempts, and notes when each of them was over. One that comes to something else is never over.
fn attempt_all<R: Machine, D: Dial<T, C>, T: Transport, C: Drop, M: Meanwhile>(
    rt: &R,
    dial: &D,
    process: &Process,
    machine: &Simulated<'_, R, Counting, M>,
    times: &mut [u64; 13],
) {
    for (number, time) in times.iter_mut().enumerate() {
        if number == 10 {
            process.heard.hear();
        }
        let is_in_vain = dial.dial(rt, rt.alloc()).is_none();
        let fault = process.heard.last_fault(rt);
        if is_in_vain && fault == Some(NOBODY) && !process.ending.is_set() {
            *time = machine.time();
        }
    }
}

// 10 ms before the second attempt, then twice as long each time, up to 1 s; from anew once something was heard.
#[test]
fn keeps_the_pauses_between_attempts_that_fail(rt: HostRuntime) {
    let times = [
        0, 10, 30, 70, 150, 310, 630, 1270, 2270, 3270, 3270, 3280, 3300,
    ];
    assert_eq!(rt; attempted_at(&rt), Some(times));
}

// Whether no attempt is made once the run is to end.
fn is_over<R: Host + Net<Stream = TcpStream, Listener = TcpListener>>(
    rt: &R,
    meeting: &Meeting,
) -> Option<bool> {
    let process = &meeting.process;
    process.ending.set();
    let is_in_vain = process.is_in_vain(rt, meeting.alloc, meeting.host);
    let is_unmade = process.heard.last_fault(rt).is_none() && meeting.listener.accept().is_err();
    Some(is_in_vain && is_unmade)
}

#[test]
fn makes_no_attempt_once_the_run_is_to_end(rt: HostRuntime) {
    assert_eq!(rt; met(&rt, is_over), Some(true));
}

// Whether an attempt that failed is forgotten once the next one comes to a connection.
fn is_forgotten<R: Host + Net<Stream = TcpStream, Listener = TcpListener>>(
    rt: &R,
    entrance: &Entrance<'_>,
) -> Option<bool> {
    let process = entrance.process;
    let alloc = entrance.alloc;
    let nobody = host_to_nobody(rt)?;
    let has_failed = process.is_refused(rt, alloc, nobody, NOBODY, false);
    let host = host_of(entrance.address, 0)?;
    let is_connected = !process.is_in_vain(rt, alloc, host);
    Some(has_failed && is_connected && process.heard.last_fault(rt).is_none())
}

#[test]
fn forgets_a_failure_once_it_is_connected(rt: HostRuntime) {
    assert_eq!(rt; visited(&rt, &rt, is_forgotten), Some(true));
}

// What the next one who connects says first.
fn next_greeting(listener: &TcpListener) -> Option<[u8; 74]> {
    let (_, greeting) = greeting_at(listener)?;
    Some(greeting)
}

// Whether the next two say the same but for random bytes, which are new.
fn are_new(listener: &TcpListener) -> Option<bool> {
    let first = next_greeting(listener)?;
    let second = next_greeting(listener)?;
    let is_same = first.get(..42)? == second.get(..42)?;
    let is_new = first.get(42..)? != second.get(42..)?;
    Some(is_same && is_new)
}

// Whether two attempts of a process come to nothing.
fn are_in_vain<R: Machine + Net<Stream = TcpStream, Listener = TcpListener>>(
    rt: &R,
    process: &Process,
    host: &FederateHost,
) -> bool {
    for _ in 0..2 {
        if !process.is_in_vain(rt, rt.alloc(), *host) {
            return false;
        }
    }
    true
}

// Whether what they say does.
fn has_new_bytes<R: Machine + Net<Stream = TcpStream, Listener = TcpListener>>(
    rt: &R,
) -> Option<bool> {
    meet(rt, are_new, |process, host| are_in_vain(rt, process, &host))
}

#[test]
fn says_new_random_bytes_at_each_attempt(rt: HostRuntime) {
    assert_eq!(rt; has_new_bytes(&rt), Some(true));
}

// How long an attempt takes whose run is to end after 200 ms, in ms, while whoever listens says nothing.
fn ends_with_the_run<R: Host + Net<Stream = TcpStream, Listener = TcpListener>>(
    rt: &R,
    meeting: &Meeting,
) -> Option<u64> {
    let ends = EndsAt {
        ending: &meeting.process.ending,
        ms: 200,
    };
    attempted_until(rt, meeting, DialFault::NoAnswer, true, ends)
}

#[test]
fn ends_an_attempt_with_the_run(rt: HostRuntime) {
    assert_eq!(rt; met(&rt, ends_with_the_run), Some(200));
}
