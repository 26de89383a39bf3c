//! `whole` and `check` by themselves, which take no other command.
use fedrun_progress::NoProgress;
use fedrun_whole::command;
use std::alloc::Global;
use tests_outcomes::{NamedFiles, given};
use tests_samples::COUNTER;

const TWO_ROWS: &str = "src (0, 0) [t] -> [y=1]
snk (0, 0) [x=1] -> [total=1]
";

const PLAN: &str = "federates 2 connections 1 stop 20 ms
src rank 0
snk rank 1
src -> snk least (0, 0)
";

const USAGE: &str = "fedrun: usage\n";

/// Words, the status that is wanted, and what is wanted on standard output and on standard error. The file `i` is empty.
const ANSWERS: &[(&[&str], u8, &str, &str)] = &[
    (&["whole", "f", "-", "2"], 0, TWO_ROWS, ""),
    (&["check", "f"], 0, PLAN, ""),
    (&["check", "g"], 1, "", "fedrun: cannot read g\n"),
    (&["check", "i"], 1, "", "fedrun: 31 WrongShape stop\n"),
    (&["whole", "f", "-"], 2, "", USAGE),
    (&["run", "f", "-"], 2, "", USAGE),
    (&["replay", "f", "-", "-"], 2, "", USAGE),
];

// Whether the words answer this.
fn is_answered(alloc: Global, words: &[&str], status: u8, out: &str, err: &str) -> Option<bool> {
    let words = given(alloc, words)?;
    let files = [("f", COUNTER.as_bytes()), ("i", "".as_bytes())];
    let mut files = NamedFiles::new(alloc, &files);
    let mut written = Vec::new(alloc);
    let mut told = Vec::new(alloc);
    let answer = command(
        alloc,
        words.as_slice(),
        &mut files,
        &mut written,
        &mut told,
        &NoProgress,
    );
    Some(
        answer == status
            && written.as_slice() == out.as_bytes()
            && told.as_slice() == err.as_bytes(),
    )
}

#[test]
fn answers_whole_and_check_alone(rt: HostRuntime) {
    for (words, status, out, err) in ANSWERS {
        let is_answered = is_answered(rt.alloc(), words, *status, out, err);
        assert_eq!(rt; is_answered, Some(true), "{words:?}");
    }
}
