//! Nodes that don't end well: what each says, and what is left of it.
use crate::nodes::{ANY, Host, NOT_FINISHED, commanded};
use crate::runs::{COORDINATOR, Node, SNK, SRC, run};
use crate::shared_files::{Operation, Process, SharedFiles};
use std::io;
use std::net::{Net, TcpListener, TcpStream};

/// Words of nodes that keep no logs and give up after a second.
const PATIENT: &str = "--sync no --secret secret --patience 1";

/// A federate that isn't finished.
#[derive(Clone, Copy)]
struct Refused {
    federation: &'static str,
    /// Its inputs, and its name.
    given: &'static str,
    more: &'static str,
    failing: Option<Operation>,
    status: u8,
    err: &'static str,
    /// What is on the machine then, whose coordinator leaves its report `c`.
    left: &'static [&'static str],
}

/// Its report.
const REPORT: &[&str] = &["c", "r"];

/// The temporary file of its report.
const PART: &[&str] = &["c", "r.part"];

/// No file of it.
const NOTHING: &[&str] = &["c"];

const UNPROVED: Refused = Refused {
    federation: "f",
    given: "i src",
    more: "--sync no --secret wrong --patience 1",
    failing: None,
    status: 1,
    err: "fedrun: 119 NotProved\n",
    left: REPORT,
};

const UNSAVED: Refused = Refused {
    more: PATIENT,
    status: 3,
    ..UNPROVED
};

const REFUSED: &[Refused] = &[
    UNPROVED,
    // Its turns are made: it has no patience.
    Refused {
        more: "--sync no --secret wrong --turns 50",
        ..UNPROVED
    },
    Refused {
        given: "other src",
        more: PATIENT,
        err: "fedrun: 118 OtherFiles\n",
        ..UNPROVED
    },
    // It has a federate of the same name.
    Refused {
        federation: "replaced",
        more: PATIENT,
        err: "fedrun: 118 OtherFiles\n",
        ..UNPROVED
    },
    Refused {
        given: "i nobody",
        more: PATIENT,
        err: "fedrun: 115 NoSuchFederate nobody\n",
        left: NOTHING,
        ..UNPROVED
    },
    Refused {
        more: "--sync no --secret secret --turns 0",
        err: "fedrun: not finished\n",
        ..UNSAVED
    },
    Refused {
        failing: Some(Operation::Look),
        err: "fedrun: 120 Unsaved r: cannot look\n",
        left: NOTHING,
        ..UNSAVED
    },
    Refused {
        failing: Some(Operation::Create),
        err: "fedrun: 120 Unsaved r: cannot create\n",
        left: NOTHING,
        ..UNSAVED
    },
    Refused {
        failing: Some(Operation::Open),
        err: "fedrun: 120 Unsaved r.part: cannot open\n",
        left: PART,
        ..UNSAVED
    },
    Refused {
        failing: Some(Operation::WriteFirst),
        err: "fedrun: 120 Unsaved r: cannot write\n",
        left: NOTHING,
        ..UNSAVED
    },
    Refused {
        failing: Some(Operation::Write),
        err: "fedrun: 120 Unsaved r: cannot write\n",
        left: PART,
        ..UNSAVED
    },
    Refused {
        failing: Some(Operation::Sync),
        err: "fedrun: 120 Unsaved r: cannot sync\n",
        left: PART,
        ..UNSAVED
    },
    Refused {
        failing: Some(Operation::Rename),
        err: "fedrun: 120 Unsaved r: cannot rename\n",
        left: PART,
        ..UNSAVED
    },
];

// Whether a federate is refused so, and the coordinator isn't finished by it.
fn is_refused<R: Host + Net<Stream = TcpStream, Listener = TcpListener>>(
    rt: &R,
    refused: &Refused,
) -> Option<bool> {
    let files = SharedFiles::new(rt.alloc());
    let nodes = [
        Node {
            more: PATIENT,
            end: NOT_FINISHED,
            ..COORDINATOR
        },
        Node {
            role: "join --report r --connect",
            federation: refused.federation,
            given: refused.given,
            more: refused.more,
            failing: refused.failing,
            end: (refused.status, "", refused.err),
        },
    ];
    Some(run(rt, &files, ANY, &nodes)? && files.are_just(rt, refused.left))
}

// The place of the first that isn't.
fn first_wrong<R: Host + Net<Stream = TcpStream, Listener = TcpListener>>(rt: &R) -> Option<usize> {
    REFUSED
        .iter()
        .position(|refused| is_refused(rt, refused) != Some(true))
}

#[test]
fn says_why_it_does_not_end_well(rt: HostRuntime) {
    assert_eq!(rt; first_wrong(&rt), None);
}

/// What the coordinator's disk can't do at the end of a run that is finished, and what it says.
const UNSAVED_BY_COORDINATOR: &[(Operation, &str)] = &[
    (Operation::Write, "fedrun: 120 Unsaved c: cannot write\n"),
    (Operation::Sync, "fedrun: 120 Unsaved c: cannot sync\n"),
    (Operation::Rename, "fedrun: 120 Unsaved c: cannot rename\n"),
];

// Whether a coordinator says just that whose disk can't do this, and no federate hears that the run is finished.
fn says_so_alone<R: Host + Net<Stream = TcpStream, Listener = TcpListener>>(
    rt: &R,
    failing: Operation,
    err: &str,
) -> Option<bool> {
    let files = SharedFiles::new(rt.alloc());
    let nodes = [
        Node {
            more: PATIENT,
            failing: Some(failing),
            end: (3, "", err),
            ..COORDINATOR
        },
        Node {
            more: PATIENT,
            end: NOT_FINISHED,
            ..SRC
        },
        Node {
            more: PATIENT,
            end: NOT_FINISHED,
            ..SNK
        },
    ];
    Some(run(rt, &files, ANY, &nodes)? && files.are_just(rt, &["c.part", "src", "snk"]))
}

// What is said of the first where it is otherwise.
fn first_told<R: Host + Net<Stream = TcpStream, Listener = TcpListener>>(
    rt: &R,
) -> Option<&'static str> {
    for (failing, err) in UNSAVED_BY_COORDINATOR {
        if says_so_alone(rt, *failing, err) != Some(true) {
            return Some(*err);
        }
    }
    None
}

// Neither does it say so itself, nor does it tell federates, who would end with status 0 then.
#[test]
fn does_not_say_finished_where_its_report_is_not_saved(rt: HostRuntime) {
    assert_eq!(rt; first_told(&rt), None);
}

/// A writer that refuses.
#[derive(Drop)]
struct Refusing;

impl io::Write for Refusing {
    fn write(&mut self, _buf: &[u8]) -> io::Result<usize> {
        Err(io::Error::other("no room"))
    }

    fn flush(&mut self) -> io::Result<()> {
        Err(io::Error::other("no room"))
    }
}

// Whether a coordinator that has a secret of this many bytes, and whose standard output refuses, ends so and leaves no
// file.
fn is_unheard<R: Host + Net<Stream = TcpStream, Listener = TcpListener>>(
    rt: &R,
    length: usize,
    status: u8,
    err: &str,
) -> Option<bool> {
    let secret = "s".repeat(rt.alloc(), length).ok()?;
    let files = SharedFiles::new(rt.alloc());
    let (answered, printed) = commanded(
        rt,
        &["coordinate f i --listen 127.0.0.1:0 --report r --patience 1 --sync no --secret secret"],
        secret.as_str(),
        &mut Process::new(rt, &files, None),
        &mut Process::new(rt, &files, None),
        &mut Refusing,
    )?;
    Some(answered == status && printed.as_slice() == err.as_bytes() && files.are_just(rt, &[]))
}

// The longest secret, and one byte more.
#[test]
fn begins_nothing_where_nobody_hears_where_it_listens_nor_by_too_long_a_secret(rt: HostRuntime) {
    let is_unheard = [
        is_unheard(&rt, 4096, 3, "fedrun: cannot write\n"),
        is_unheard(&rt, 4097, 1, "fedrun: 113 SecretTooLong\n"),
    ];
    assert_eq!(rt; is_unheard, [Some(true); 2]);
}
