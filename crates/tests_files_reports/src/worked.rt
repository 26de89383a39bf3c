//! Two files worked by hand: of a federate that counted to two, and of a coordinator.
use files_reports::{FileDigests, NodeReport, read_report, write_report};
use node::Event;
use node_journal::Journal;
use reactor::Rows;
use reactor_program::Entry;
use recorder_reports::Report;
use signal::{Frame, Hello, Signal};
use std::alloc::{AllocError, Global};
use tag::{FiniteTag, Tag, Time};

/// What the run is of; there are no recorded inputs.
const FEDERATION: &[u8] = b"stop = \"20 ms\"\n";

/// The SHA-256 of `FEDERATION`, by another program.
const FEDERATION_DIGEST: [u8; 32] = [
    0x43, 0x83, 0x34, 0x9d, 0x71, 0xdc, 0x67, 0xec, 0xce, 0x6a, 0x3f, 0x0f, 0x05, 0xa2, 0x7c, 0xc8,
    0xef, 0xd6, 0x23, 0x27, 0xf2, 0x6e, 0x3c, 0xee, 0x24, 0x54, 0x74, 0x67, 0x22, 0xe0, 0xad, 0xe8,
];

/// The SHA-256 of no bytes.
const INPUTS_DIGEST: [u8; 32] = [
    0xe3, 0xb0, 0xc4, 0x42, 0x98, 0xfc, 0x1c, 0x14, 0x9a, 0xfb, 0xf4, 0xc8, 0x99, 0x6f, 0xb9, 0x24,
    0x27, 0xae, 0x41, 0xe4, 0x64, 0x9b, 0x93, 0x4c, 0xa4, 0x95, 0x99, 0x1b, 0x78, 0x52, 0xb8, 0x55,
];

/// What federate 0 says: two rows and three events.
const SAID: [u8; 179] = [
    0, 0, // federate 0
    0, 0, 0, 0, 0, 0, 0, 2, // two rows
    0, 0, 0, 0, 0, 0, 0, 0, 0, 0, 0, 0, // at the first tag
    0, 0, 0, 0, 0, 0, 0, 1, // one input
    0, 0, 0, 0, 0, 0, 0, 1, 0, 0, 0, 0, 0, 0, 0, 0, // at slot 1 the value 0
    0, 0, 0, 0, 0, 0, 0, 1, // one output
    0, 0, 0, 0, 0, 0, 0, 0, 0, 0, 0, 0, 0, 0, 0, 1, // at port 0 the value 1
    0, 0, 0, 0, 0, 0x98, 0x96, 0x80, 0, 0, 0, 0, // at 10,000,000 ns
    0, 0, 0, 0, 0, 0, 0, 1, // one input
    0, 0, 0, 0, 0, 0, 0, 1, 0, 0, 0, 0, 0, 0, 0, 0, // at slot 1 the value 0
    0, 0, 0, 0, 0, 0, 0, 1, // one output
    0, 0, 0, 0, 0, 0, 0, 0, 0, 0, 0, 0, 0, 0, 0, 2, // at port 0 the value 2
    0, 0, 0, 0, 0, 0, 0, 3, // three events
    4, // it announced
    1, 0, 0, 0, 0, 0, 0, 0, 0, // a frame from peer 0
    0, 0, 0, 26, 2, 0, 0, 0, 1, 0, 0, 0, 0, 0, 0, 0, 1, // a Data, incarnation 1, number 1
    3, 0, 0, 0, 0, 0, 0, 0, 0, 0, 0, 0, 0, // a TAG of the first tag
    5, // it advanced
];

/// The SHA-256 of all that stands before it in its file, by another program.
const SEAL: [u8; 32] = [
    0x27, 0x7e, 0x71, 0x56, 0x93, 0xf0, 0xb4, 0xd1, 0x3e, 0x4c, 0xed, 0x5e, 0x0e, 0x10, 0xf4, 0x73,
    0x24, 0xbc, 0x7b, 0x9c, 0x56, 0x65, 0x5b, 0x91, 0x70, 0x5b, 0x7c, 0xec, 0x27, 0x3b, 0xa5, 0xc8,
];

/// What the coordinator says: three events.
const COORDINATOR_SAID: [u8; 57] = [
    0xff, 0xff, // the coordinator
    0, 0, 0, 0, 0, 0, 0, 3, // three events
    3, 0, 0, 0, 0, 0, 0, 0, 1, // federate 1 is to be greeted
    1, 0, 0, 0, 0, 0, 0, 0, 1, // a frame from federate 1
    0, 0, 0, 16, 1, 1, 0, 1, 0, 0, 0, 0, 0, 0, 0, 0, 0, 0, 0, 0, // its Hello
    2, 0, 0, 0, 0, 0, 0, 0x12, 0x34, // to federate 0x1234 all is to be sent again
];

/// The SHA-256 of all that stands before it in that file.
const COORDINATOR_SEAL: [u8; 32] = [
    0x97, 0xea, 0x7c, 0x59, 0x77, 0x14, 0x09, 0x06, 0x72, 0x1a, 0xad, 0xee, 0x69, 0xe2, 0xad, 0x6d,
    0x7c, 0xe8, 0x2a, 0x60, 0x44, 0xa4, 0x89, 0xfc, 0x9e, 0xba, 0xf2, 0x11, 0x24, 0x6f, 0x19, 0x6d,
];

/// Of the run.
pub(crate) fn digests() -> FileDigests {
    FileDigests::new(FEDERATION, b"")
}

/// Its file, where this is said, with this behind it.
pub(crate) fn file(alloc: Global, said: &[u8], seal: &[u8]) -> Result<Vec<u8>, AllocError> {
    let mut bytes = Vec::new(alloc);
    bytes.extend_from_slice(b"fedrep 1")?;
    bytes.extend_from_slice(&FEDERATION_DIGEST)?;
    bytes.extend_from_slice(&INPUTS_DIGEST)?;
    bytes.extend_from_slice(said)?;
    bytes.extend_from_slice(seal)?;
    Ok(bytes)
}

// At that many ns.
fn at(nanoseconds: u64) -> Tag {
    match Time::new(nanoseconds) {
        Some(time) => Tag::new(time, 0),
        None => Tag::FOREVER,
    }
}

// A row of federate 0, in which the timer was present and the output was set to this.
fn add_row(rows: &mut Rows, nanoseconds: u64, value: i64) -> bool {
    rows.push(
        0,
        at(nanoseconds),
        &[Entry::new(1, 0)],
        &[Entry::new(0, value)],
    )
    .is_ok()
}

// What `src` says.
fn counted_twice(alloc: Global) -> Option<NodeReport> {
    let mut rows = Rows::new(alloc);
    if !add_row(&mut rows, 0, 1) || !add_row(&mut rows, 10_000_000, 2) {
        return None;
    }
    let grant = Frame::Data {
        incarnation: 1,
        number: 1,
        signal: Signal::Tag(FiniteTag::new(Time::zero(), 0)),
    };
    let events = [Event::Announce, Event::Frame(0, grant), Event::Advance];
    Some(NodeReport::Federate(Report {
        federate: 0,
        rows,
        journal: Journal::of(alloc, &events).ok()?,
    }))
}

// What the coordinator says.
fn coordinated(alloc: Global) -> Option<NodeReport> {
    let hello = Frame::Hello(Hello {
        federate: 1,
        incarnation: 0,
        last_taken: 0,
    });
    let events = [
        Event::Hello(1),
        Event::Frame(1, hello),
        Event::Resend(0x1234),
    ];
    Some(NodeReport::Coordinator(Journal::of(alloc, &events).ok()?))
}

// Whether a report of the run is written as the file of what is said, and that file is read as a report.
fn is_file_of(alloc: Global, report: Option<NodeReport>, said: &[u8], seal: &[u8]) -> Option<bool> {
    let file = file(alloc, said, seal).ok()?;
    let written = write_report(alloc, &digests(), &report?).ok()?;
    let is_read = read_report(alloc, &digests(), &file).is_ok();
    Some(is_read && written.as_slice() == file.as_slice())
}

#[test]
fn writes_and_reads_what_nodes_say(rt: HostRuntime) {
    let alloc = rt.alloc();
    let are_files = [
        is_file_of(alloc, counted_twice(alloc), &SAID, &SEAL),
        is_file_of(
            alloc,
            coordinated(alloc),
            &COORDINATOR_SAID,
            &COORDINATOR_SEAL,
        ),
    ];
    assert_eq!(rt; are_files, [Some(true); 2]);
}
