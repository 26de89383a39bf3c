//! Pictures of federations.
use crate::made::{fan_in, line_of, many};
use crate::standing::{has_texts, wrong_line, wrong_place};
use fedrun_draw::figures_of;
use files_pictures::federation_picture;
use files_pictures::figures::Figures;
use files_pictures::shapes::{Area, Line, Mark, Picture, Point, Sign};
use std::alloc::Global;
use tests_samples::{CHAIN, COUNTER, LOOP, loaded};

/// A federation that is drawn.
#[derive(Clone, Copy)]
enum Drawn {
    /// This many federates, each of which sends to the next one.
    Chain(usize),
    /// The same, and the last sends to the first.
    Ring(usize),
    /// This many federates, each of which sends to one more.
    FanIn(usize),
    /// 64 federates with 200 connections.
    Many,
    Counter,
    /// A federate that sends to itself.
    Loop,
    /// A chain of three, with reactions.
    Reactions,
}

const FEDERATIONS: &[(&str, Drawn)] = &[
    ("a ring of one", Drawn::Ring(1)),
    ("a chain of 2", Drawn::Chain(2)),
    ("a ring of 2", Drawn::Ring(2)),
    ("a ring of 8", Drawn::Ring(8)),
    ("a chain of 64", Drawn::Chain(64)),
    ("a ring of 64", Drawn::Ring(64)),
    ("many that send to one", Drawn::FanIn(12)),
    ("many connections", Drawn::Many),
    ("the counter", Drawn::Counter),
    ("a loop", Drawn::Loop),
    ("reactions", Drawn::Reactions),
];

// What is drawn of it.
fn figures(alloc: Global, drawn: Drawn) -> Option<Figures> {
    match drawn {
        Drawn::Chain(count) => line_of(alloc, count, false).ok(),
        Drawn::Ring(count) => line_of(alloc, count, true).ok(),
        Drawn::FanIn(count) => fan_in(alloc, count).ok(),
        Drawn::Many => many(alloc).ok(),
        Drawn::Counter => figures_of_file(alloc, COUNTER, false),
        Drawn::Loop => figures_of_file(alloc, LOOP, false),
        Drawn::Reactions => figures_of_file(alloc, CHAIN, true),
    }
}

fn figures_of_file(alloc: Global, federation: &str, has_reactions: bool) -> Option<Figures> {
    let federation = loaded(alloc, federation, "")?;
    let programs = if has_reactions {
        Some(federation.programs())
    } else {
        None
    };
    figures_of(alloc, federation.plan(), programs).ok()
}

/// The boxes of the counter's two federates.
const BOXES: &[Area] = &[
    Area {
        left: 24,
        top: 28,
        width: 166,
        height: 72,
    },
    Area {
        left: 270,
        top: 28,
        width: 105,
        height: 54,
    },
];

/// The line of its connection.
const POINTS: &[Point] = &[
    Point { x: 190, y: 65 },
    Point { x: 202, y: 65 },
    Point { x: 258, y: 65 },
    Point { x: 270, y: 65 },
];

// Whether the boxes and the line are the counter's, and the line isn't dashed.
fn is_counter(picture: &Picture) -> bool {
    match picture.lines.as_slice() {
        [line] => {
            picture.boxes.as_slice() == BOXES
                && line.points.as_slice() == POINTS
                && !line.stroke.is_dashed
        }
        _ => false,
    }
}

// Whether a federate that is triggered by startup has a connection with itself, which goes out to the right, over the
// top, and in from the left, dashed.
fn is_loop(picture: &Picture) -> Option<bool> {
    let area = picture.boxes.first()?;
    let line = picture.lines.first()?;
    match line.points.as_slice() {
        [_, _, over, back, _, _] => Some(
            line.stroke.is_dashed
                && over.y < area.top
                && back.x < area.left
                && has_startup(picture.marks.as_slice()),
        ),
        _ => None,
    }
}

fn has_startup(marks: &[Mark]) -> bool {
    for mark in marks {
        if mark.sign == Sign::Startup {
            return true;
        }
    }
    false
}

/// What is written of the chain's reactions: triggers, and behind the arrow outputs, and actions with their delays.
const REACTIONS: &[&str] = &[
    "1 t -> y",
    "1 x -> act after 5 ms",
    "2 act -> z",
    "3 p -> z",
    "1 w -> o",
    "2 t -> o",
];

// Whether each of the chain's reactions has its mark and its text.
fn has_reactions(picture: &Picture) -> bool {
    let mut count = 0usize;
    for mark in picture.marks.as_slice() {
        if mark.sign == Sign::Reaction {
            count = count.saturating_add(1);
        }
    }
    count == REACTIONS.len() && has_texts(picture.labels.as_slice(), REACTIONS)
}

/// The widest that a chain or a ring is, however long.
const WIDEST: usize = 2_000;

// Whether no line goes up or down where another does.
fn go_apart(lines: &[Line]) -> bool {
    for (place, line) in lines.iter().enumerate() {
        for before in lines.iter().take(place) {
            if do_share(before.points.as_slice(), line.points.as_slice()) {
                return false;
            }
        }
    }
    true
}

// Whether an upright leg of one line lies on one of another.
fn do_share(one: &[Point], other: &[Point]) -> bool {
    for (from, to) in one.iter().zip(one.iter().skip(1)) {
        if from.x == to.x && is_beside(*from, *to, other) {
            return true;
        }
    }
    false
}

// Whether a line has an upright leg that lies on the one between these two points.
fn is_beside(from: Point, to: Point, other: &[Point]) -> bool {
    for (begin, end) in other.iter().zip(other.iter().skip(1)) {
        if begin.x == from.x
            && end.x == from.x
            && begin.y.min(end.y) < from.y.max(to.y)
            && from.y.min(to.y) < begin.y.max(end.y)
        {
            return true;
        }
    }
    false
}

// Whether lines go straight from one column to the next, and are apart in the middle, so that each can be followed.
fn are_strands(lines: &[Line]) -> bool {
    for (place, line) in lines.iter().enumerate() {
        for before in lines.iter().take(place) {
            if !are_apart(middle(before), middle(line)) {
                return false;
            }
        }
    }
    !lines.is_empty()
}

fn are_apart(one: Option<usize>, other: Option<usize>) -> bool {
    match (one, other) {
        (Some(one), Some(other)) => one.abs_diff(other) >= 8,
        _ => false,
    }
}

// How high a straight line is in the middle between two columns that follow each other; None of other lines.
fn middle(line: &Line) -> Option<usize> {
    match line.points.as_slice() {
        [_, begin, end, _] if !line.bends => Some((begin.y / 2).saturating_add(end.y / 2)),
        _ => None,
    }
}

// What is wrong with a picture of a federation; None where nothing is.
fn wrong_in(alloc: Global, picture: &Picture, all: &Figures, drawn: Drawn) -> Option<&'static str> {
    if let Some(wrong) = wrong_place(alloc, picture) {
        return Some(wrong);
    }
    match drawn {
        Drawn::Counter if !is_counter(picture) => Some("it isn't the counter"),
        Drawn::Loop if is_loop(picture) != Some(true) => Some("it isn't the loop"),
        Drawn::Reactions if !has_reactions(picture) => Some("a reaction is wanting"),
        Drawn::Chain(_) | Drawn::Ring(_) if picture.width > WIDEST => Some("it is too wide"),
        Drawn::Ring(_) if !go_apart(picture.lines.as_slice()) => Some("a line lies on another"),
        Drawn::FanIn(_) if !are_strands(picture.lines.as_slice()) => Some("lines run together"),
        _ => wrong_line(picture, all),
    }
}

// The same of the picture that is made of it.
fn wrong_of(alloc: Global, drawn: Drawn) -> Option<&'static str> {
    let Some(all) = figures(alloc, drawn) else {
        return Some("no federation");
    };
    match federation_picture(alloc, &all) {
        Ok(picture) => wrong_in(alloc, &picture, &all, drawn),
        Err(_) => Some("no picture"),
    }
}

#[test]
fn federations_are_drawn_and_nothing_lies_on_anything_else(rt: HostRuntime) {
    for (name, drawn) in FEDERATIONS {
        assert_eq!(rt; wrong_of(rt.alloc(), *drawn), None, "{name}");
    }
}
