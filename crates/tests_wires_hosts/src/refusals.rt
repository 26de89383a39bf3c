//! What a federate's process makes of a refusal, and what it doesn't believe.
use crate::entrance::{FILES, Host, Machine, SECRET, answer_to, greeting_at};
use crate::process::{Meeting, meet, met};
use crate::simulated::{Meanwhile, attempted_until, counted};
use std::io::Write;
use std::net::{Net, TcpListener, TcpStream};
use wires_greeting::Greeting;
use wires_hosts::DialFault;

/// What whoever listens at the coordinator's address says to a greeting, before it ends the connection.
#[derive(Clone, Copy)]
enum Says {
    /// The coordinator's challenge, by this secret, where the federate may take part or not and the run is finished or
    /// not.
    Challenge(&'static [u8; 16], bool, bool),
    /// This many bytes of the challenge.
    Part(usize),
    /// Bytes that are no challenge.
    Garbage,
}

// Says it to the greeting of the first that connects.
fn say(listener: &TcpListener, says: Says) -> Option<bool> {
    let (mut stream, greeting) = greeting_at(listener)?;
    let is_said = match says {
        Says::Challenge(secret, allowed, finished) => {
            let challenge = answer_to(&greeting, secret, allowed, finished)?;
            stream.write_all(&challenge).is_ok()
        }
        Says::Part(count) => {
            let challenge = answer_to(&greeting, SECRET, true, false)?;
            stream.write_all(challenge.get(..count)?).is_ok()
        }
        Says::Garbage => stream.write_all(&[0x55; 65]).is_ok(),
    };
    Some(is_said)
}

// Whether the federate's attempt comes to nothing for this, where that is said to it, and whether its run is to end
// then.
fn is_refused_by<R: Machine + Net<Stream = TcpStream, Listener = TcpListener>>(
    rt: &R,
    says: Says,
    fault: DialFault,
    ends: bool,
) -> Option<bool> {
    meet(
        rt,
        |listener| say(listener, says),
        |process, host| process.is_refused(rt, rt.alloc(), host, fault, ends),
    )
}

const OTHER_SECRET: &[u8; 16] = b"fedcba9876543210";

/// What is said, for what the attempt comes to nothing, and whether the run is to end.
const SAID: &[(Says, DialFault, bool)] = &[
    (
        Says::Challenge(SECRET, false, false),
        DialFault::NotAllowed,
        true,
    ),
    (
        Says::Challenge(SECRET, true, true),
        DialFault::Finished,
        true,
    ),
    (
        Says::Challenge(OTHER_SECRET, true, true),
        DialFault::NotProved,
        false,
    ),
    (
        Says::Challenge(OTHER_SECRET, false, false),
        DialFault::NotProved,
        false,
    ),
    (Says::Garbage, DialFault::NotProved, false),
    (Says::Part(0), DialFault::NoAnswer, false),
    (Says::Part(64), DialFault::NoAnswer, false),
];

// The place of the first by which something else comes of it.
fn first_wrong<R: Machine + Net<Stream = TcpStream, Listener = TcpListener>>(
    rt: &R,
) -> Option<usize> {
    SAID.iter().position(|(says, fault, ends)| {
        is_refused_by(rt, *says, *fault, *ends) != Some(true)
    })
}

#[test]
fn ends_the_run_by_a_refusal_that_is_proved_alone(rt: HostRuntime) {
    assert_eq!(rt; first_wrong(&rt), None);
}

/// A coordinator that says to whoever connects that the run is finished, and breaks the connection off without having
/// read what came: nothing can be sent behind that.
#[derive(Drop)]
struct BrokenOff<'a> {
    listener: &'a TcpListener,
}

impl<'a> Meanwhile for BrokenOff<'a> {
    fn at(&self, _ms: u64) {
        if let Ok((stream, _)) = self.listener.accept() {
            let _ = say_finished(stream);
        }
    }
}

// Says it to federate 0, whose random bytes are known.
fn say_finished(stream: TcpStream) -> Option<()> {
    let greeting = Greeting {
        federate: 0,
        files: FILES,
        random: counted(0),
    };
    let challenge = answer_to(&greeting.bytes(), SECRET, true, true)?;
    let mut stream = stream;
    stream.write_all(&challenge).ok()
}

// Whether the federate's process believes it though it can't say that it heard so.
fn believes_it<R: Host + Net<Stream = TcpStream, Listener = TcpListener>>(
    rt: &R,
    meeting: &Meeting,
) -> Option<bool> {
    let meanwhile = BrokenOff {
        listener: &meeting.listener,
    };
    let until = attempted_until(rt, meeting, DialFault::Finished, true, meanwhile);
    Some(until.is_some())
}

#[test]
fn believes_that_the_run_is_finished_though_its_proof_cannot_be_sent(rt: HostRuntime) {
    assert_eq!(rt; met(&rt, believes_it), Some(true));
}
