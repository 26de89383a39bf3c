//! The line on a terminal.
use crate::Progress;
use crate::count::Count;
use std::alloc::Global;
use std::fmt::Write as _;
use std::io::Write;
use std::sync::{Condvar, Mutex, Wait};
use std::time::{Clock, Duration, Instant};
use tag::{Tag, Time};

// How long a line stands before it is renewed.
const RENEWAL_MS: u64 = 250;

// To the beginning of the line, of which nothing is left.
const WIPED: &str = "\r\x1b[K";

#[derive(Clone, Copy)]
struct State {
    count: Count,
    // Whether a line may stand on the terminal.
    is_shown: bool,
    is_over: bool,
}

/// How far a command is, and since when. The command tells it; another thread shows it.
#[derive(Drop)]
pub struct ProgressLine<'a, R> {
    rt: &'a R,
    // None where the clock couldn't be read.
    start: Option<Instant>,
    state: Mutex<State>,
    changed: Condvar,
}

impl<'a, R: Wait + Clock> ProgressLine<'a, R> {
    /// Of a command that begins.
    pub fn new(rt: &'a R) -> ProgressLine<'a, R> {
        ProgressLine {
            rt,
            start: Instant::now(rt).ok(),
            state: Mutex::new(State {
                count: Count::new(),
                is_shown: false,
                is_over: false,
            }),
            changed: Condvar::new(),
        }
    }

    /// Shows the line until the command is at its end, and wipes it then. A line that can't be written is left out.
    pub fn show<E: Write>(&self, alloc: Global, err: &mut E) {
        for _ in self.rt.forever() {
            match self.next() {
                Some(count) => self.write(alloc, &count, err),
                None => break,
            }
        }
        let mut state = self.state.lock(self.rt);
        if state.is_shown {
            let _ = err.write_all(WIPED.as_bytes());
            state.is_shown = false;
            self.changed.notify_all();
        }
    }

    // What is shown next, after a while, or None once the command is at its end.
    fn next(&self) -> Option<Count> {
        let state = self.state.lock(self.rt);
        let pause = Duration::from_millis(RENEWAL_MS);
        let (mut state, _) = self
            .changed
            .wait_timeout_while(self.rt, state, pause, |state| !state.is_over);
        if state.is_over {
            None
        } else {
            state.is_shown = true;
            Some(state.count)
        }
    }

    // Writes the line in one piece.
    fn write<E: Write>(&self, alloc: Global, count: &Count, err: &mut E) {
        let mut line = String::new(alloc);
        let seconds = self.seconds();
        if write!(line, "{WIPED}{count}, {seconds} s").is_ok() {
            let _ = err.write_all(line.as_bytes());
        }
    }

    // Since the command began.
    fn seconds(&self) -> u64 {
        match self.start {
            Some(start) => start
                .elapsed(self.rt)
                .map_or(0, |elapsed| elapsed.as_secs()),
            None => 0,
        }
    }
}

impl<'a, R: Wait + Clock> Progress for ProgressLine<'a, R> {
    fn until(&self, stop: Time) {
        let mut state = self.state.lock(self.rt);
        state.count.stop = Some(stop);
    }

    fn rows(&self, more: usize, latest: Tag) {
        let mut state = self.state.lock(self.rt);
        state.count.add_rows(more, latest);
    }

    fn steps(&self, made: usize) {
        let mut state = self.state.lock(self.rt);
        state.count.steps = made;
    }

    fn end(&self) {
        let mut state = self.state.lock(self.rt);
        state.is_over = true;
        self.changed.notify_all();
        let _gone = self
            .changed
            .wait_while(self.rt, state, |state| state.is_shown);
    }
}

/// Whether a line is asked for: one of the words is `--progress`.
pub fn asks_for_progress(words: &[String]) -> bool {
    words.iter().any(|word| word.as_str() == "--progress")
}
