//! What commands tell of how far they are, and that the line of it goes before the line of a fault comes.
use fedrun_progress::Progress;
use std::io;
use std::io::Write;
use std::net::{Net, TcpListener, TcpStream};
use std::sync::atomic::{AtomicU64, Ordering};
use tag::{Tag, Time};
use tests_outcomes::{NamedFiles, status_into};
use tests_samples::{COUNTER, Machine};

/// What was told.
#[derive(Drop)]
struct Told {
    rows: AtomicU64,
    /// The time of the last row.
    latest: AtomicU64,
    /// The time until which the command goes on.
    stop: AtomicU64,
    steps: AtomicU64,
    step_counts: AtomicU64,
    ends: AtomicU64,
    /// How many bytes are on standard error, and how many were when the end was told last.
    written: AtomicU64,
    written_before: AtomicU64,
}

impl Told {
    fn new() -> Told {
        Told {
            rows: AtomicU64::new(0),
            latest: AtomicU64::new(0),
            stop: AtomicU64::new(0),
            steps: AtomicU64::new(0),
            step_counts: AtomicU64::new(0),
            ends: AtomicU64::new(0),
            written: AtomicU64::new(0),
            written_before: AtomicU64::new(0),
        }
    }

    // Whether this is what a case wants to be told.
    fn is(&self, case: &Case) -> bool {
        case.rows.is_met(&self.rows)
            && case.latest.is_met(&self.latest)
            && case.stop.is_met(&self.stop)
            && case.steps.is_met(&self.steps)
            && case.step_counts.is_met(&self.step_counts)
            && case.ends.is_met(&self.ends)
            && case.written.is_met(&self.written)
            && case.written_before.is_met(&self.written_before)
    }
}

impl Progress for Told {
    fn until(&self, stop: Time) {
        self.stop.store(stop.nanoseconds(), Ordering::SeqCst);
    }

    fn rows(&self, more: usize, latest: Tag) {
        self.rows.fetch_add(more as u64, Ordering::SeqCst);
        self.latest.store(latest.time(), Ordering::SeqCst);
    }

    fn steps(&self, made: usize) {
        self.steps.store(made as u64, Ordering::SeqCst);
        self.step_counts.fetch_add(1, Ordering::SeqCst);
    }

    fn end(&self) {
        let written = self.written.load(Ordering::SeqCst);
        self.written_before.store(written, Ordering::SeqCst);
        self.ends.fetch_add(1, Ordering::SeqCst);
    }
}

/// A writer that counts its bytes where the line's end can be compared with it.
#[derive(Drop)]
struct Counted<'a> {
    told: &'a Told,
}

impl Write for Counted<'_> {
    fn write(&mut self, buf: &[u8]) -> io::Result<usize> {
        self.told
            .written
            .fetch_add(buf.len() as u64, Ordering::SeqCst);
        Ok(buf.len())
    }

    fn flush(&mut self) -> io::Result<()> {
        Ok(())
    }
}

/// What a number has to be.
#[derive(Clone, Copy)]
enum Wanted {
    Just(u64),
    AtLeast(u64),
    Anything,
}

impl Wanted {
    fn is_met(self, number: &AtomicU64) -> bool {
        let number = number.load(Ordering::SeqCst);
        match self {
            Wanted::Just(wanted) => number == wanted,
            Wanted::AtLeast(least) => number >= least,
            Wanted::Anything => true,
        }
    }
}

/// Words over the counter, or an empty file, and a schedule of two lines; their status, and what is told of the command.
#[derive(Clone, Copy)]
struct Case {
    words: &'static [&'static str],
    is_counter: bool,
    status: u8,
    rows: Wanted,
    latest: Wanted,
    stop: Wanted,
    steps: Wanted,
    step_counts: Wanted,
    ends: Wanted,
    written: Wanted,
    written_before: Wanted,
}

/// Words of which anything is told.
const ANY: Case = Case {
    words: &[],
    is_counter: true,
    status: 0,
    rows: Wanted::Anything,
    latest: Wanted::Anything,
    stop: Wanted::Anything,
    steps: Wanted::Anything,
    step_counts: Wanted::Anything,
    ends: Wanted::Anything,
    written: Wanted::Anything,
    written_before: Wanted::Anything,
};

// Whether that is told.
fn is_told<R: Machine + Net<Stream = TcpStream, Listener = TcpListener>>(
    rt: &R,
    case: &Case,
) -> bool {
    let federation = if case.is_counter { COUNTER } else { "" };
    let files = [
        ("f", federation.as_bytes()),
        ("s", "announce src\ndeliver up src 1\n".as_bytes()),
    ];
    let mut files = NamedFiles::new(rt.alloc(), &files);
    let told = Told::new();
    let mut out = Vec::new(rt.alloc());
    let mut err = Counted { told: &told };
    let status = status_into(rt, case.words, &mut files, &mut out, &mut err, &told);
    status == Some(case.status) && told.is(case)
}

// The place of the first of which it isn't.
fn first_wrong<R: Machine + Net<Stream = TcpStream, Listener = TcpListener>>(
    rt: &R,
    cases: &[Case],
) -> Option<usize> {
    cases.iter().position(|case| !is_told(rt, case))
}

/// Words that are done.
const DONE: &[Case] = &[
    Case {
        words: &["whole", "f", "-", "100", "--progress"],
        rows: Wanted::Just(6),
        latest: Wanted::Just(20_000_000),
        stop: Wanted::Just(20_000_000),
        steps: Wanted::Just(0),
        step_counts: Wanted::Just(0),
        ends: Wanted::Just(1),
        written: Wanted::Just(0),
        written_before: Wanted::Just(0),
        ..ANY
    },
    Case {
        words: &["replay", "f", "-", "s", "--progress"],
        rows: Wanted::Just(0),
        latest: Wanted::Just(0),
        stop: Wanted::Just(0),
        steps: Wanted::Just(2),
        step_counts: Wanted::Just(2),
        ends: Wanted::Just(1),
        written: Wanted::Just(0),
        written_before: Wanted::Just(0),
        ..ANY
    },
];

#[test]
fn whole_and_replay_tell_their_rows_and_steps(rt: HostRuntime) {
    assert_eq!(rt; first_wrong(&rt, DONE), None);
}

/// A row counts once more where the coordinator hears of it again.
const RUN: &[Case] = &[Case {
    words: &["run", "f", "-", "--progress"],
    rows: Wanted::AtLeast(6),
    stop: Wanted::Just(20_000_000),
    ends: Wanted::AtLeast(1),
    ..ANY
}];

#[test]
fn run_tells_its_rows(rt: HostRuntime) {
    assert_eq!(rt; first_wrong(&rt, RUN), None);
}

/// Schedules with closing rounds. Once for each line, and once behind each closing round that may be made, of which two
/// are needed: of both links each end sends again, each of the two federates announces and advances, and what was sent
/// comes.
const CLOSED: &[Case] = &[
    Case {
        words: &["replay", "f", "-", "s", "--until-stuck", "1", "--progress"],
        step_counts: Wanted::Just(3),
        steps: Wanted::AtLeast(10),
        ..ANY
    },
    Case {
        words: &["replay", "f", "-", "s", "--until-stuck", "2", "--progress"],
        step_counts: Wanted::Just(4),
        steps: Wanted::AtLeast(18),
        ..ANY
    },
];

#[test]
fn replay_tells_its_steps_after_each_closing_round(rt: HostRuntime) {
    assert_eq!(rt; first_wrong(&rt, CLOSED), None);
}

/// A fault is told once the line has ended. Else it would be wiped with the line.
const REFUSED: Case = Case {
    status: 1,
    is_counter: false,
    ends: Wanted::AtLeast(1),
    written_before: Wanted::Just(0),
    written: Wanted::AtLeast(1),
    ..ANY
};

const REFUSALS: &[Case] = &[
    Case {
        words: &["whole", "f", "-", "4", "--progress"],
        ..REFUSED
    },
    Case {
        words: &["replay", "f", "-", "s", "--progress"],
        ..REFUSED
    },
    Case {
        words: &["run", "f", "-", "--turns", "0", "--progress"],
        is_counter: true,
        status: 3,
        ..REFUSED
    },
    Case {
        words: &["whole", "--progress"],
        is_counter: true,
        status: 2,
        ..REFUSED
    },
];

#[test]
fn the_line_ends_before_a_fault_is_told(rt: HostRuntime) {
    assert_eq!(rt; first_wrong(&rt, REFUSALS), None);
}
