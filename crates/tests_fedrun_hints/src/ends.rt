//! Nodes that can't listen at their address, or aren't finished: why, and how far federates were.
use crate::told::{is_told, no_files, told_of_command, told_of_node};
use fedrun_commands::NodeFault;
use fedrun_hosts::{HostFault, ListenFault, Unfinished};
use fedrun_words::Fault;
use files_reports::{FileDigests, NodeReport, write_report};
use node::Event;
use node_journal::Journal;
use signal::{Frame, Hello, Signal};
use std::alloc::Global;
use tag::{FiniteTag, Time};
use tests_outcomes::NamedFiles;
use wires::Cause;
use wires_hosts::{DialFault, Unreached};

/// Words of a coordinator.
const COORDINATE: &[&str] = &[
    "coordinate",
    "f",
    "-",
    "--listen",
    "10.0.0.9:7000",
    "--report",
    "r",
    "--patience",
    "5",
];

/// The same of one that keeps no log.
const REPORTING: &[&str] = &[
    "coordinate",
    "f",
    "-",
    "--listen",
    "10.0.0.9:7000",
    "--report",
    "r",
    "--sync",
    "no",
    "--patience",
    "5",
];

/// Words of a federate.
const JOIN: &[&str] = &[
    "join",
    "f",
    "-",
    "sink",
    "--connect",
    "10.0.0.9:7000",
    "--report",
    "r",
    "--patience",
    "5",
    "--turns",
    "9",
];

/// Words of a coordinator and a federate with a host's name.
const COORDINATE_NAMED: &[&str] = &[
    "coordinate",
    "f",
    "-",
    "--listen",
    "here.example:7000",
    "--report",
    "r",
];

const JOIN_NAMED: &[&str] = &[
    "join",
    "f",
    "-",
    "sink",
    "--connect",
    "here.example:7000",
    "--report",
    "r",
    "--patience",
    "5",
];

/// Why a coordinator can't listen at its address, and what is told.
const LISTENERS: &[(ListenFault, &str)] = &[
    (
        ListenFault::InUse,
        "help: somebody listens at 10.0.0.9:7000 already: ss -ltnp shows who\n",
    ),
    (
        ListenFault::NotHere,
        "help: 10.0.0.9:7000 isn't an address of this machine: ip addr shows which are\n",
    ),
    (
        ListenFault::NotAllowed,
        "help: whoever runs this may not listen at 10.0.0.9:7000: take a port from 1024 on\n",
    ),
    (
        ListenFault::Other,
        "help: the system gives no listener at 10.0.0.9:7000: look at its network and at its open files (ulimit -n)\n",
    ),
];

// Whether this is told of a node's fault, given these words, where there are no files.
fn is_node_told(alloc: Global, words: &[&str], fault: HostFault<'_>, text: &str) -> bool {
    is_told(
        &told_of_node(alloc, words, fault, &mut no_files(alloc)),
        text,
    )
}

/// Why a federate isn't finished, and what is told.
const FEDERATES: &[(Unfinished, &str)] = &[
    (
        Unfinished::OutOfPatience(None),
        "help: nobody was heard for 5 s (--patience): it was connected; look at the coordinator at 10.0.0.9:7000, and \
         at the federates that it waits for\n",
    ),
    (
        Unfinished::OutOfPatience(Some(DialFault::NotConnected(Unreached::Refused))),
        "help: nobody was heard for 5 s (--patience): nobody took the last connection to 10.0.0.9:7000; look whether \
         the coordinator listens there, and at the way to it\n",
    ),
    (
        Unfinished::OutOfPatience(Some(DialFault::NotConnected(Unreached::NoWay))),
        "help: nobody was heard for 5 s (--patience): nothing answered from 10.0.0.9:7000; look whether that machine is \
         on, and at the way to it\n",
    ),
    (
        Unfinished::Stopped(Some(DialFault::NoAnswer)),
        "help: its 9 turns were made (--turns), or its end was closed: whoever took the last connection to \
         10.0.0.9:7000 gave no answer as a coordinator does; look who listens there\n",
    ),
    (
        Unfinished::Stopped(Some(DialFault::NoRandom)),
        "help: its 9 turns were made (--turns), or its end was closed: the system gave no random bytes for the last \
         connection to 10.0.0.9:7000\n",
    ),
    (
        Unfinished::NotRun(Cause::SharesDisagree),
        "help: what a node's threads kept doesn't agree: give the command again, and tell us, with the files\n",
    ),
];

#[test]
fn tells_why_nodes_end(rt: HostRuntime) {
    for (why, text) in LISTENERS {
        let fault = HostFault::CannotListen(*why);
        assert!(rt; is_node_told(rt.alloc(), COORDINATE, fault, text), "{text}");
    }
    for (why, text) in FEDERATES {
        let fault = HostFault::NotFinished(*why);
        assert!(rt; is_node_told(rt.alloc(), JOIN, fault, text), "{text}");
    }
}

#[test]
fn tells_of_hosts_that_may_have_no_address(rt: HostRuntime) {
    let fault = HostFault::CannotListen(ListenFault::Other);
    let text =
        "help: the system gives no listener at here.example:7000: look whether the name has an address (getent hosts), \
         and at the open files (ulimit -n)\n";
    assert!(rt; is_node_told(rt.alloc(), COORDINATE_NAMED, fault, text));
    let why = Unfinished::OutOfPatience(Some(DialFault::NotConnected(Unreached::NoAddress)));
    let text =
        "help: nobody was heard for 5 s (--patience): no address was found for here.example:7000; look whether the name \
         has one (getent hosts)\n";
    assert!(rt; is_node_told(rt.alloc(), JOIN_NAMED, HostFault::NotFinished(why), text));
}

#[test]
fn tells_of_files_that_nodes_keep(rt: HostRuntime) {
    let fault = HostFault::PartExists("r");
    let text =
        "help: another process has this log, as where two nodes are given one report: give each its own; or a node \
         with --sync no was ended in the midst, as a line in the file says: then end the run, remove the file, and \
         begin the run anew\n";
    assert!(rt; is_node_told(rt.alloc(), COORDINATE, fault, text));
    assert!(rt; is_node_told(rt.alloc(), JOIN, fault, text));
    let text =
        "help: where the file begins with fedrep 2, it is this node's log: leave out --sync no, and it goes on; else \
         another process has this report, or a node with --sync no was ended in the midst: then end the run, remove \
         the file, and begin the run anew\n";
    assert!(rt; is_node_told(rt.alloc(), REPORTING, fault, text));
}

const FEDERATION: &str =
    "stop = \"0\"\nfederate = [{ name = \"source\" }, { name = \"sink\" }, { name = \"idle\" }]\n";

/// What a federate says.
#[derive(Clone, Copy)]
enum Said {
    /// How it starts.
    Start,
    /// By the signal of this number, that it has completed the tag at this many ns.
    Completed(u64, u64),
}

/// What a coordinator hears: of the first federate two tags, of which the earlier one comes again; of the second that
/// it starts; of the third nothing.
const HEARD: &[(u16, Said)] = &[
    (0, Said::Start),
    (0, Said::Completed(1, 10_000_000)),
    (1, Said::Start),
    (0, Said::Completed(2, 20_000_000)),
    (0, Said::Completed(1, 10_000_000)),
];

// What comes where a federate says this, behind what came before.
fn add(journal: &mut Journal, federate: u16, said: Said) -> Option<()> {
    let place = usize::from(federate);
    match said {
        Said::Start => {
            let hello = Hello {
                federate,
                incarnation: 1,
                last_taken: 0,
            };
            journal
                .push(&Event::Frame(place, Frame::Hello(hello)), None)
                .ok()
        }
        Said::Completed(number, nanoseconds) => {
            let data = Frame::Data {
                incarnation: 1,
                number,
                signal: Signal::Ltc(FiniteTag::new(Time::new(nanoseconds)?, 0)),
            };
            journal.push(&Event::Frame(place, data), None).ok()
        }
    }
}

// The journal of a coordinator that heard this.
fn journal(alloc: Global) -> Option<Journal> {
    let mut journal = Journal::new(alloc);
    for (federate, said) in HEARD {
        add(&mut journal, *federate, *said)?;
    }
    Some(journal)
}

// Its report.
fn report(alloc: Global) -> Option<Vec<u8>> {
    let digests = FileDigests::new(FEDERATION.as_bytes(), b"".as_slice());
    let report = NodeReport::Coordinator(journal(alloc)?);
    write_report(alloc, &digests, &report).ok()
}

// What is told of a coordinator that isn't finished, given these words, where its report or log has this name.
fn told_of_coordinator(alloc: Global, words: &[&str], name: &str) -> Option<String> {
    let report = report(alloc)?;
    let named = [("f", FEDERATION.as_bytes()), (name, report.as_slice())];
    let mut files = NamedFiles::new(alloc, &named);
    let why = Unfinished::OutOfPatience(None);
    told_of_node(alloc, words, HostFault::NotFinished(why), &mut files)
}

const COORDINATOR: &str =
    "help: nobody was heard for 5 s (--patience): look at the federates, whether they run and \
                           reach 10.0.0.9:7000\nhelp: source has completed (20 ms, 0)\nhelp: sink has completed no \
                           tag\nhelp: idle wasn't heard\n";

/// The same where its report can't be read.
const UNREAD: &str =
    "help: nobody was heard for 5 s (--patience): look at the federates, whether they run and reach \
                      10.0.0.9:7000\n";

// What is told of an audit of a run that isn't finished.
fn told_of_audit(alloc: Global) -> Option<String> {
    let report = report(alloc)?;
    let named = [("f", FEDERATION.as_bytes()), ("c", report.as_slice())];
    let mut files = NamedFiles::new(alloc, &named);
    let fault = Fault::More(NodeFault::NotFinished(Cause::TurnsUsedUp));
    told_of_command(alloc, &["audit", "f", "-", "c", "s"], &fault, &mut files)
}

const AUDIT: &str =
    "help: the reports are proved, and by its own the coordinator isn't finished: where the nodes \
                     still run, ask again once they have ended\nhelp: source has completed (20 ms, 0)\nhelp: sink has \
                     completed no tag\nhelp: idle wasn't heard\n";

#[test]
fn tells_how_far_federates_were(rt: HostRuntime) {
    let alloc = rt.alloc();
    assert!(rt;
        is_told(
            &told_of_coordinator(alloc, COORDINATE, "r.part"),
            COORDINATOR
        )
    );
    assert!(rt; is_told(&told_of_coordinator(alloc, REPORTING, "r"), COORDINATOR));
    assert!(rt; is_told(&told_of_coordinator(alloc, COORDINATE, "r"), UNREAD));
    assert!(rt; is_told(&told_of_audit(alloc), AUDIT));
}
