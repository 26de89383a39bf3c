//! Pictures of schedules: those of examples/ that are played over the counter, and what their comments say of them; of
//! a loop, and of a chain of three.
use crate::standing::{has_texts, wrong_place};
use fedrun_draw::{DrawFault, Excerpt, history_of_schedule};
use files_pictures::history::{Arrival, History, Moment, RowMark, Sending};
use files_pictures::schedule_picture;
use files_pictures::shapes::{Area, Ending, Ink, Line, Mark, Picture, Point, Sign};
use files_script::read_script;
use std::alloc::{AllocError, Global};
use tests_samples::{CHAIN, COUNTER, LOOP, loaded};

// What is drawn of some steps of a schedule over a federation; the outer None where something isn't taken.
fn history(
    alloc: Global,
    federation: &str,
    schedule: &str,
    excerpt: Excerpt,
) -> Option<Result<History, DrawFault>> {
    let federation = loaded(alloc, federation, "")?;
    let script = read_script(alloc, schedule.as_bytes(), federation.plan()).ok()?;
    Some(history_of_schedule(
        alloc,
        federation.plan(),
        federation.programs(),
        federation.inputs(),
        &script,
        None,
        excerpt,
    ))
}

/// Frames that come in another order, and one of them again.
const REORDERED: &str = "announce src
deliver up src 1
deliver down src 2
advance src
deliver up src 4
deliver up src 3
deliver up src 1
";

/// A frame that is lost, one that is refused, and a federate that forgets.
const FORGOTTEN: &str = "round
round
round
forget snk
reconnect up snk
round
round
round
round
round
";

const LOST: &str = "announce src
skip up src
round
round
resend up src
round
round
round
round
round
round
round
round
round
round
";

/// A federate that sends to itself after 5 ms is granted all before that.
const LOOPED: &str = "announce loop
deliver up loop 1
deliver down loop 2
advance loop
";

/// Frames of each federate of a chain of three, and to each: two of them stand left of the coordinator.
const PAST: &str = "announce a
deliver up a 1
deliver down a 1
announce b
deliver up b 1
deliver down b 1
announce c
deliver up c 1
deliver down c 1
";

/// A step on the third line, and a round on the fourth: four announcements and advances, two frames that come to the
/// coordinator, and three that come from there.
const COMMENTED: &str = "# what src says comes

announce src
round
";

/// What a picture of a schedule shows.
#[derive(Clone, Copy)]
enum Shown {
    /// The steps that brought a frame, each with the number by which it was refused, and whether the frame had come
    /// before.
    Arrivals(&'static [(usize, Option<u16>, bool)]),
    /// How many frames came and were refused by this number.
    Refused(u16, usize),
    /// How many rows were added.
    Rows(usize),
    /// The federate and the step of the first row, and its text.
    FirstRow(usize, usize, &'static str),
    /// The lines that its steps were made for.
    Lines(&'static [usize]),
    /// Texts that the picture has.
    Texts(&'static [&'static str]),
    /// The tags that begin, each with a row.
    Tags(&'static [&'static str]),
    /// What is written of the frame at this place among all that were sent.
    Frame(usize, &'static str),
    /// How many arrows there are.
    Heads(usize),
    /// How wide the picture is at most.
    Width(usize),
    /// How many lines end in a cross.
    Crosses(usize),
    /// How many bridges arrows make over lifelines; no arrow goes through a lifeline otherwise.
    Bridges(usize),
    /// How many lifelines are cut, each as often as it is.
    Cuts(usize),
    /// The first frame that was sent never came; a cross stands for each that didn't.
    FirstIsLost,
}

/// Federations with schedules, and what their pictures show, besides that nothing lies on anything else.
const SCHEDULES: &[(&str, &str, &[Shown])] = &[
    (
        COUNTER,
        "",
        &[Shown::Arrivals(&[]), Shown::Rows(0), Shown::Tags(&[])],
    ),
    (
        COUNTER,
        REORDERED,
        &[
            Shown::Arrivals(&[
                (1, None, false),
                (2, None, false),
                (4, Some(52), false),
                (5, None, false),
                (6, None, true),
            ]),
            Shown::FirstRow(0, 3, "(0, 0) [t] -> [y=1]"),
            Shown::Rows(1),
            Shown::Tags(&["(0, 0)"]),
            Shown::Bridges(0),
        ],
    ),
    (
        COUNTER,
        FORGOTTEN,
        &[Shown::Refused(51, 3), Shown::Refused(52, 0), Shown::Cuts(1)],
    ),
    (
        COUNTER,
        LOST,
        &[
            Shown::FirstIsLost,
            Shown::Rows(6),
            Shown::Tags(&["(0, 0)", "(10 ms, 0)", "(20 ms, 0)"]),
        ],
    ),
    (
        COUNTER,
        COMMENTED,
        &[
            Shown::Lines(&[3, 4, 4, 4, 4, 4, 4, 4, 4, 4]),
            Shown::Texts(&[
                "step",
                "line",
                "tag",
                "1",
                "3",
                "announce src",
                "10",
                "4",
                "deliver down snk 1",
            ]),
        ],
    ),
    (
        LOOP,
        LOOPED,
        &[
            Shown::Frame(0, "1 NET (0, 0)"),
            Shown::Frame(2, "2 TAG just before (5 ms, 0)"),
            Shown::Frame(4, "3 MSG loop.x=1 (5 ms, 0)"),
        ],
    ),
    (CHAIN, PAST, &[Shown::Bridges(2), Shown::Width(1_700)]),
];

// Whether this is shown.
fn is_shown(history: &History, picture: &Picture, shown: Shown) -> bool {
    let arrivals = history.arrivals.as_slice();
    match shown {
        Shown::Arrivals(wanted) => are_arrivals(arrivals, wanted),
        Shown::Refused(number, count) => refusal_count(arrivals, number) == count,
        Shown::Rows(count) => history.rows.len() == count,
        Shown::FirstRow(federate, step, text) => is_row(history.rows.first(), federate, step, text),
        Shown::Lines(wanted) => are_lines(history.steps.as_slice(), wanted),
        Shown::Texts(wanted) => has_texts(picture.labels.as_slice(), wanted),
        Shown::Tags(wanted) => are_tags(history.rows.as_slice(), wanted),
        Shown::Frame(place, text) => is_frame(history, place, text),
        Shown::Heads(count) => ending_count(picture.lines.as_slice(), Ending::Head) == count,
        Shown::Width(most) => picture.width <= most,
        Shown::Crosses(count) => cross_count(picture.lines.as_slice()) == count,
        Shown::Bridges(count) => bridge_count(picture) == Some(count),
        Shown::Cuts(count) => cut_count(picture.marks.as_slice()) == count,
        Shown::FirstIsLost => {
            let lost = lost_count(history);
            lost > 0 && !has_come(arrivals, 0) && cross_count(picture.lines.as_slice()) == lost
        }
    }
}

fn are_arrivals(arrivals: &[Arrival], wanted: &[(usize, Option<u16>, bool)]) -> bool {
    for (arrival, (step, refused, is_again)) in arrivals.iter().zip(wanted) {
        if arrival.step != *step || arrival.refused != *refused || arrival.is_again != *is_again {
            return false;
        }
    }
    arrivals.len() == wanted.len()
}

fn refusal_count(arrivals: &[Arrival], number: u16) -> usize {
    let mut count = 0usize;
    for arrival in arrivals {
        if arrival.refused == Some(number) {
            count = count.saturating_add(1);
        }
    }
    count
}

fn is_row(row: Option<&RowMark>, federate: usize, step: usize, text: &str) -> bool {
    match row {
        Some(row) => row.federate == federate && row.step == step && row.text.as_str() == text,
        None => false,
    }
}

fn are_lines(steps: &[Moment], wanted: &[usize]) -> bool {
    for (moment, line) in steps.iter().zip(wanted) {
        if moment.line != *line {
            return false;
        }
    }
    steps.len() == wanted.len()
}

// Whether just these tags begin with rows, in this order.
fn are_tags(rows: &[RowMark], wanted: &[&str]) -> bool {
    let mut count = 0usize;
    for row in rows {
        if let Some(tag) = &row.begins {
            if !is_text(wanted.get(count), tag.as_str()) {
                return false;
            }
            count = count.saturating_add(1);
        }
    }
    count == wanted.len()
}

fn is_text(wanted: Option<&&str>, text: &str) -> bool {
    match wanted {
        Some(wanted) => *wanted == text,
        None => false,
    }
}

fn is_frame(history: &History, place: usize, text: &str) -> bool {
    match history.frames.get(place) {
        Some(frame) => frame.text.as_str() == text,
        None => false,
    }
}

// How many bridges the arrows of a picture make over lifelines; None where one goes through a lifeline otherwise.
fn bridge_count(picture: &Picture) -> Option<usize> {
    let mut count = 0usize;
    for line in picture.lines.as_slice() {
        if line.stroke.ending == Ending::Head {
            let bridges = bridges_of(picture.boxes.as_slice(), line.points.as_slice())?;
            count = count.saturating_add(bridges);
        }
    }
    Some(count)
}

// The same of one arrow. A lifeline stands below the middle of each of the upper boxes.
fn bridges_of(boxes: &[Area], points: &[Point]) -> Option<usize> {
    let top = boxes.first()?.top;
    let mut count = 0usize;
    for area in boxes {
        if area.top == top {
            let middle = area.left.saturating_add(area.width / 2);
            count = count.saturating_add(bridges_over(middle, points)?);
        }
    }
    Some(count)
}

// The same of one arrow and one lifeline.
fn bridges_over(x: usize, points: &[Point]) -> Option<usize> {
    let mut count = 0usize;
    let mut before: Option<Point> = None;
    for point in points {
        if let Some(before) = before {
            count = count.saturating_add(bridges_in(x, before, *point)?);
        }
        before = Some(*point);
    }
    Some(count)
}

// The same of one leg of an arrow.
fn bridges_in(x: usize, one: Point, other: Point) -> Option<usize> {
    if !is_between(x, one, other) {
        Some(0)
    } else if is_bridge(one, other) {
        Some(1)
    } else {
        None
    }
}

fn is_between(x: usize, one: Point, other: Point) -> bool {
    one.x.min(other.x) < x && x < one.x.max(other.x)
}

// Whether a leg of an arrow is the top of a bridge: level, and as short as that.
fn is_bridge(one: Point, other: Point) -> bool {
    one.y == other.y && one.x.abs_diff(other.x) == 6
}

fn cut_count(marks: &[Mark]) -> usize {
    let mut count = 0usize;
    for mark in marks {
        if mark.sign == Sign::Cut {
            count = count.saturating_add(1);
        }
    }
    count
}

// How many lines of a picture end in a cross.
fn cross_count(lines: &[Line]) -> usize {
    ending_count(lines, Ending::Cross)
}

// How many of them end so.
fn ending_count(lines: &[Line], ending: Ending) -> usize {
    let mut count = 0usize;
    for line in lines {
        if line.stroke.ending == ending {
            count = count.saturating_add(1);
        }
    }
    count
}

// How many frames never came.
fn lost_count(history: &History) -> usize {
    let mut count = 0usize;
    for place in 0..history.frames.len() {
        if !has_come(history.arrivals.as_slice(), place) {
            count = count.saturating_add(1);
        }
    }
    count
}

fn has_come(arrivals: &[Arrival], frame: usize) -> bool {
    for arrival in arrivals {
        if arrival.frame == frame {
            return true;
        }
    }
    false
}

// What is wrong with the picture of some steps that has to show all this; None where nothing is.
fn wrong_of(
    alloc: Global,
    federation: &str,
    schedule: &str,
    excerpt: Excerpt,
    all: &[Shown],
) -> Option<&'static str> {
    match history(alloc, federation, schedule, excerpt) {
        Some(Ok(history)) => wrong_in(alloc, &history, all),
        _ => Some("it isn't drawn"),
    }
}

// The same of what is drawn.
fn wrong_in(alloc: Global, history: &History, all: &[Shown]) -> Option<&'static str> {
    let Ok(picture) = schedule_picture(alloc, history) else {
        return Some("no memory");
    };
    for shown in all {
        if !is_shown(history, &picture, *shown) {
            return Some("it doesn't show what it has to");
        }
    }
    wrong_place(alloc, &picture)
}

#[test]
fn schedules_show_what_became_of_frames(rt: HostRuntime) {
    for (federation, schedule, all) in SCHEDULES {
        let wrong = wrong_of(rt.alloc(), federation, schedule, Excerpt::ALL, all);
        assert_eq!(rt; wrong, None, "{schedule}");
    }
}

/// The first step that is drawn, and the last.
type Steps = (Option<u32>, Option<u32>);

/// Schedules over the counter, which of their steps are drawn, and what the picture of these shows.
const EXCERPTS: &[(&str, Steps, &[Shown])] = &[
    // A message leaves, and comes after the picture; what left behind it comes first, and is refused.
    (
        REORDERED,
        (Some(4), Some(5)),
        &[
            Shown::Lines(&[4, 5]),
            Shown::FirstRow(0, 0, "(0, 0) [t] -> [y=1]"),
            Shown::Arrivals(&[(1, Some(52), false)]),
            Shown::Frame(0, "3 MSG snk.x=1 (0, 0) ..."),
            Shown::Frame(1, "4 LTC (0, 0)"),
            Shown::Crosses(0),
        ],
    ),
    // It comes, and then what came before the picture comes again.
    (
        REORDERED,
        (Some(6), Some(7)),
        &[
            Shown::Lines(&[6, 7]),
            Shown::Rows(0),
            Shown::Tags(&[]),
            Shown::Arrivals(&[(0, None, false), (1, None, true)]),
            Shown::Frame(0, "3 MSG snk.x=1 (0, 0)"),
            Shown::Crosses(3),
        ],
    ),
    (
        COMMENTED,
        (Some(10), Some(10)),
        &[
            Shown::Lines(&[4]),
            Shown::Texts(&["10", "4", "deliver down snk 1"]),
        ],
    ),
    (COMMENTED, (Some(9), None), &[Shown::Lines(&[4, 4])]),
    (COMMENTED, (None, Some(1)), &[Shown::Lines(&[3])]),
    (COMMENTED, (Some(0), Some(2)), &[Shown::Lines(&[3, 4])]),
    (COMMENTED, (Some(11), Some(12)), &[Shown::Lines(&[])]),
    (COMMENTED, (Some(5), Some(4)), &[Shown::Lines(&[])]),
];

fn excerpt_of((from, to): Steps) -> Excerpt {
    Excerpt { from, to }
}

#[test]
fn excerpts_show_what_comes_in_from_before_and_goes_on_behind(rt: HostRuntime) {
    for (schedule, steps, all) in EXCERPTS {
        let wrong = wrong_of(rt.alloc(), COUNTER, schedule, excerpt_of(*steps), all);
        let (from, to) = steps;
        assert_eq!(rt; wrong, None, "{from:?} to {to:?} of {schedule}");
    }
}

// A step of a federate with the longest name that there may be.
fn long_named(alloc: Global) -> Result<History, AllocError> {
    let mut history = History::new(alloc);
    let name = "n".repeat(alloc, 32)?;
    history.names.push(name)?;
    history.add_step(Moment {
        line: 1,
        text: String::from_str(alloc, "advance nn")?,
        ink: Ink::Faint,
        is_shown: true,
        forgets: None,
    })?;
    Ok(history)
}

// What is wrong with its picture; None where nothing is.
fn wrong_of_long_name(alloc: Global) -> Option<&'static str> {
    match long_named(alloc) {
        Ok(history) => wrong_in(alloc, &history, &[]),
        Err(_) => Some("no memory"),
    }
}

#[test]
fn a_long_name_reaches_no_text(rt: HostRuntime) {
    assert_eq!(rt; wrong_of_long_name(rt.alloc()), None);
}

/// What the picture has of five acknowledgements: three of them as one, with the arrow of the last, the others alone.
const FOLDED: &[&str] = &[
    "2-4",
    "deliver down n 1 to 3",
    "1 to 3 Ack 3",
    "5",
    "deliver down n 4",
    "4 Ack 4",
    "6",
    "deliver down n 5",
];

// A step that delivers the acknowledgement of this number, for a line.
fn add_delivery(
    alloc: Global,
    history: &mut History,
    number: usize,
    line: usize,
) -> Result<(), AllocError> {
    history.add_frame(Sending {
        federate: 0,
        is_up: false,
        number,
        step: Some(0),
        ink: Ink::Ack,
        text: format!(in alloc; "{number} Ack {number}")?,
        is_late: false,
    })?;
    history.add_step(Moment {
        line,
        text: format!(in alloc; "deliver down n {number}")?,
        ink: Ink::Faint,
        is_shown: true,
        forgets: None,
    })?;
    history.add_arrival(Arrival {
        frame: number.saturating_sub(1),
        step: number,
        refused: None,
        is_again: false,
    })
}

// Deliveries of acknowledgements: three for one line, the fourth with a row, and the fifth for another line.
fn acknowledged(alloc: Global) -> Result<History, AllocError> {
    let mut history = History::new(alloc);
    history.names.push(String::from_str(alloc, "n")?)?;
    history.add_step(Moment {
        line: 1,
        text: String::from_str(alloc, "advance n")?,
        ink: Ink::Faint,
        is_shown: true,
        forgets: None,
    })?;
    for number in 1..6 {
        let line = if number < 5 { 2 } else { 3 };
        add_delivery(alloc, &mut history, number, line)?;
    }
    history.add_row(RowMark {
        federate: 0,
        step: 4,
        text: String::from_str(alloc, "row")?,
        begins: None,
    })?;
    Ok(history)
}

// What is wrong with the picture of these; None where nothing is.
fn wrong_of_acknowledged(alloc: Global) -> Option<&'static str> {
    match acknowledged(alloc) {
        Ok(history) => wrong_in(alloc, &history, &[Shown::Texts(FOLDED), Shown::Heads(3)]),
        Err(_) => Some("no memory"),
    }
}

#[test]
fn acknowledgements_one_after_the_other_are_drawn_as_one(rt: HostRuntime) {
    assert_eq!(rt; wrong_of_acknowledged(rt.alloc()), None);
}

// Why these of so many steps aren't drawn; the outer None where the schedule isn't taken.
fn fault_of(alloc: Global, count: usize, excerpt: Excerpt) -> Option<Option<DrawFault>> {
    let schedule = "announce src\n".repeat(alloc, count).ok()?;
    Some(history(alloc, COUNTER, schedule.as_str(), excerpt)?.err())
}

#[test]
fn refuses_more_than_two_thousand_steps(rt: HostRuntime) {
    assert_eq!(rt; fault_of(rt.alloc(), 2_000, Excerpt::ALL), Some(None));
    let refused = Some(Some(DrawFault::TooManySteps(2_001)));
    assert_eq!(rt; fault_of(rt.alloc(), 2_001, Excerpt::ALL), refused);
    let behind_first = excerpt_of((Some(2), None));
    assert_eq!(rt; fault_of(rt.alloc(), 2_001, behind_first), Some(None));
}
