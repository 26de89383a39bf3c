//! Which lines a schedule has, what each asks for, and which line is answered as bad.
use files_script::{Command, ScheduleLine, ScriptFault, read_script};
use loadfed::load;
use plan::Plan;
use std::alloc::Global;
use tests_samples::COUNTER;
use world_stations::{Dir, Step};

/// Lines about `src` (0) and `snk` (1), and what each asks for.
const FORMS: &[(&str, Command)] = &[
    ("announce src", Command::Make(Step::Announce(0))),
    ("advance snk", Command::Make(Step::Advance(1))),
    (
        "deliver up src 1",
        Command::Make(Step::Deliver(Dir::Up(0), 1)),
    ),
    (
        "deliver down snk 4294967295",
        Command::Make(Step::Deliver(Dir::Down(1), 4_294_967_295)),
    ),
    (
        "deliver up snk 0007",
        Command::Make(Step::Deliver(Dir::Up(1), 7)),
    ),
    ("resend down src", Command::Make(Step::Resend(Dir::Down(0)))),
    (
        "reconnect up src",
        Command::Make(Step::Reconnect(Dir::Up(0))),
    ),
    ("forget src", Command::Make(Step::Forget(0))),
    ("skip up snk", Command::Skip(Dir::Up(1))),
    ("round", Command::Round),
];

// Whether these are one command, in line 1.
fn is_one(lines: &[ScheduleLine], command: Command) -> bool {
    match lines {
        [line] => line.number == 1 && line.command == command,
        _ => false,
    }
}

// Whether a file is read as one command, in its one line.
fn reads(alloc: Global, plan: &Plan, file: &[u8], command: Command) -> bool {
    match read_script(alloc, file, plan) {
        Ok(script) => script.last_line() == 1 && is_one(script.lines(), command),
        Err(_) => false,
    }
}

// The place of the first form that is read as something else.
fn first_other_form(alloc: Global, plan: &Plan) -> Option<usize> {
    for (place, (line, command)) in FORMS.iter().enumerate() {
        if !reads(alloc, plan, line.as_bytes(), *command) {
            return Some(place);
        }
    }
    None
}

/// Files, with the line that is answered as bad, 0 where none is; else how many commands they have, the line of the
/// last of these, and how many lines they have.
const FILES: &[(&[u8], usize, usize, usize, usize)] = &[
    (b"", 0, 0, 0, 0),
    (b"round", 0, 1, 1, 1),
    (b"round\n\n", 0, 1, 1, 2),
    (b"\n# \xff\xc3, \x00 and\r\n#\nround\n\nround", 0, 2, 6, 6),
    (b"\nadvance nobody", 2, 0, 0, 0),
    (b"round\nround 1\nround 2\n", 2, 0, 0, 0),
    // Lines that ask for nothing that there is.
    (b" ", 1, 0, 0, 0),
    (b"announce", 1, 0, 0, 0),
    (b"announce coordinator", 1, 0, 0, 0),
    (b"announce  src", 1, 0, 0, 0),
    (b"announce src\r", 1, 0, 0, 0),
    (b"announce src # now", 1, 0, 0, 0),
    (b"Announce src", 1, 0, 0, 0),
    (b"skip src", 1, 0, 0, 0),
    (b"deliver up src", 1, 0, 0, 0),
    (b"deliver up src 0", 1, 0, 0, 0),
    (b"deliver up src 4294967296", 1, 0, 0, 0),
    (b"deliver up src +1", 1, 0, 0, 0),
];

// The line of the last command; 0 where there is none.
fn last_number(lines: &[ScheduleLine]) -> usize {
    match lines {
        [.., line] => line.number,
        [] => 0,
    }
}

// What stands in the table of files.
fn answer(alloc: Global, plan: &Plan, file: &[u8]) -> Option<(usize, usize, usize, usize)> {
    match read_script(alloc, file, plan) {
        Ok(script) => {
            let lines = script.lines();
            Some((0, lines.len(), last_number(lines), script.last_line()))
        }
        Err(ScriptFault::ScheduleLine(number)) => Some((number, 0, 0, 0)),
        Err(_) => None,
    }
}

// The place of the first file that is answered otherwise.
fn first_other_file(alloc: Global, plan: &Plan) -> Option<usize> {
    for (place, (file, bad, commands, number, last)) in FILES.iter().enumerate() {
        if answer(alloc, plan, file) != Some((*bad, *commands, *number, *last)) {
            return Some(place);
        }
    }
    None
}

// The same of both, over the counter.
fn first_others(alloc: Global) -> Option<[Option<usize>; 2]> {
    let (plan, _programs) = load(alloc, COUNTER.as_bytes()).ok()?;
    Some([
        first_other_form(alloc, &plan),
        first_other_file(alloc, &plan),
    ])
}

#[test]
fn reads_each_form_counts_lines_and_refuses_others(rt: HostRuntime) {
    assert_eq!(rt; first_others(rt.alloc()), Some([None; 2]));
}
