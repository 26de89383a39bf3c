//! The picture of a schedule: lifelines, and arrows between them.
use crate::arrows::{add_arrivals, add_lost};
use crate::history::{History, Moment, RowMark};
use crate::shapes::{
    Anchor, Area, Ending, INKS, Ink, Picture, Point, Sign, Stroke, letters, text_width,
};
use crate::times::{LINE_HEADING, STEP_HEADING, TAG_HEADING, Times};
use std::alloc::{AllocError, Global};

/// How far below the middle of a line of text its base line is.
const BASE: usize = 4;

/// The space between a line and a text beside it.
const BESIDE: usize = 12;

/// Where the words stand that say what colours and lines mean.
const LEGEND: usize = 22;

/// Where the names of the lifelines stand.
const NAMES: usize = 48;

/// The height of a box with a name.
const BOX: usize = 26;

/// A lifeline, or a line of the time axis.
const FAINT: Stroke = Stroke {
    ink: Ink::Faint,
    is_dashed: false,
    ending: Ending::Plain,
};

/// The picture of a schedule.
pub fn schedule_picture(alloc: Global, history: &History) -> Result<Picture, AllocError> {
    let times = Times::new(alloc, history)?;
    let mut picture = Picture::new(alloc);
    add_all(alloc, &mut picture, &times, history)?;
    Ok(picture)
}

// Adds all that stands in the picture, and settles its size.
fn add_all(
    alloc: Global,
    picture: &mut Picture,
    times: &Times,
    history: &History,
) -> Result<(), AllocError> {
    let legend = add_legend(alloc, picture)?;
    picture.width = times.right().max(legend);
    picture.height = times.bottom.saturating_add(BOX + BESIDE);
    add_tags(alloc, picture, times, history.rows.as_slice())?;
    add_lifelines(alloc, picture, times, history)?;
    add_headings(alloc, picture, times)?;
    add_steps(alloc, picture, times, history)?;
    add_lost(alloc, picture, times, history)?;
    add_arrivals(alloc, picture, times, history)?;
    add_rows(picture, times, history)
}

// Adds what colours and lines mean, and says how far right that goes.
fn add_legend(alloc: Global, picture: &mut Picture) -> Result<usize, AllocError> {
    let mut x = BESIDE;
    for ink in INKS {
        let word = legend_word(ink);
        add_legend_word(alloc, picture, x, ink, word)?;
        x = x
            .saturating_add(text_width(word))
            .saturating_add(2 * BESIDE);
    }
    Ok(x)
}

// Adds a word of them.
fn add_legend_word(
    alloc: Global,
    picture: &mut Picture,
    x: usize,
    ink: Ink,
    word: &str,
) -> Result<(), AllocError> {
    let text = String::from_str(alloc, word)?;
    picture.add_label(
        Point { x, y: LEGEND },
        text,
        letters(Anchor::Begins, ink, true),
    )
}

// What an ink means, or, of inks that mean nothing, how lines are drawn.
fn legend_word(ink: Ink) -> &'static str {
    match ink {
        Ink::Net => "NET",
        Ink::Ltc => "LTC",
        Ink::Tag => "TAG",
        Ink::Msg => "MSG",
        Ink::Ack => "Ack",
        Ink::Hello => "Hello",
        Ink::Refused => "refused",
        Ink::Plain => "dashed: delivered again",
        Ink::Faint => "cross: never delivered",
    }
}

// Adds the time axis: a level line where a tag begins, with that tag.
fn add_tags(
    alloc: Global,
    picture: &mut Picture,
    times: &Times,
    rows: &[RowMark],
) -> Result<(), AllocError> {
    for row in rows {
        if let Some(tag) = &row.begins {
            add_tag(alloc, picture, times, times.height(row.step), tag)?;
        }
    }
    Ok(())
}

// Adds the line above the step with which a tag begins.
fn add_tag(
    alloc: Global,
    picture: &mut Picture,
    times: &Times,
    height: usize,
    tag: &String,
) -> Result<(), AllocError> {
    let from = Point {
        x: times.axis,
        y: height.saturating_sub(BESIDE),
    };
    let to = Point {
        x: times.right(),
        y: from.y,
    };
    picture.add_straight(alloc, from, to, FAINT)?;
    let at = Point {
        x: times.axis,
        y: height.saturating_add(BASE),
    };
    let look = letters(Anchor::Begins, Ink::Faint, true);
    picture.add_label(at, tag.clone()?, look)
}

// Adds the lifelines, each with its name.
fn add_lifelines(
    alloc: Global,
    picture: &mut Picture,
    times: &Times,
    history: &History,
) -> Result<(), AllocError> {
    for number in 0..history.names.len() {
        if let Some(name) = history.names.get(number) {
            add_names(picture, times, times.federate(number), name)?;
            add_lifeline(alloc, picture, times, history, number)?;
        }
    }
    let x = times.coordinator();
    let name = String::from_str(alloc, "coordinator")?;
    add_names(picture, times, x, &name)?;
    add_life(alloc, picture, x, NAMES + BOX, times.bottom)
}

// Adds the boxes of a name above its lifeline and below it.
fn add_names(
    picture: &mut Picture,
    times: &Times,
    x: usize,
    name: &String,
) -> Result<(), AllocError> {
    add_name(picture, x, NAMES, name.clone()?)?;
    add_name(picture, x, times.bottom, name.clone()?)
}

// Adds the box of a name.
fn add_name(picture: &mut Picture, x: usize, top: usize, name: String) -> Result<(), AllocError> {
    let width = text_width(name.as_str()).saturating_add(2 * BESIDE);
    picture.add_box(Area {
        left: x.saturating_sub(width / 2),
        top,
        width,
        height: BOX,
    })?;
    let at = Point {
        x,
        y: top.saturating_add(BOX / 2 + BASE),
    };
    picture.add_label(at, name, letters(Anchor::Centred, Ink::Plain, true))
}

// Adds a federate's lifeline, cut where it forgets.
fn add_lifeline(
    alloc: Global,
    picture: &mut Picture,
    times: &Times,
    history: &History,
    number: usize,
) -> Result<(), AllocError> {
    let x = times.federate(number);
    let mut from = NAMES + BOX;
    for step in 0..history.steps.len() {
        if let Some(moment) = history.steps.get(step) {
            if makes_forget(moment, number) {
                let y = times.height(step);
                add_life(alloc, picture, x, from, y.saturating_sub(BASE))?;
                picture.add_mark(Point { x, y }, Sign::Cut)?;
                from = y.saturating_add(BASE);
            }
        }
    }
    add_life(alloc, picture, x, from, times.bottom)
}

// Whether a step makes this federate forget.
fn makes_forget(moment: &Moment, number: usize) -> bool {
    match moment.forgets {
        Some(forgetting) => forgetting == number,
        None => false,
    }
}

// Adds a part of a lifeline.
fn add_life(
    alloc: Global,
    picture: &mut Picture,
    x: usize,
    from: usize,
    to: usize,
) -> Result<(), AllocError> {
    picture.add_straight(alloc, Point { x, y: from }, Point { x, y: to }, FAINT)
}

// Adds what stands above the numbers of steps and lines, and above tags.
fn add_headings(alloc: Global, picture: &mut Picture, times: &Times) -> Result<(), AllocError> {
    add_heading(
        alloc,
        picture,
        times.numbers_end,
        Anchor::Ends,
        STEP_HEADING,
    )?;
    add_heading(alloc, picture, times.lines_end, Anchor::Ends, LINE_HEADING)?;
    add_heading(alloc, picture, times.axis, Anchor::Begins, TAG_HEADING)
}

// Adds a heading, as high as the names of lifelines.
fn add_heading(
    alloc: Global,
    picture: &mut Picture,
    x: usize,
    anchor: Anchor,
    heading: &str,
) -> Result<(), AllocError> {
    let at = Point {
        x,
        y: NAMES + BOX / 2 + BASE,
    };
    let text = String::from_str(alloc, heading)?;
    picture.add_label(at, text, letters(anchor, Ink::Faint, true))
}

// Adds what is written beside the steps.
fn add_steps(
    alloc: Global,
    picture: &mut Picture,
    times: &Times,
    history: &History,
) -> Result<(), AllocError> {
    for step in 0..history.steps.len() {
        if let Some(moment) = history.steps.get(step) {
            if moment.is_shown && !times.runs.is_folded(step) {
                add_step(alloc, picture, times, history, step, moment)?;
            }
        }
    }
    Ok(())
}

// Adds what is written beside a step, or beside the first of several that are drawn as one: its number, that of its line,
// and its words.
fn add_step(
    alloc: Global,
    picture: &mut Picture,
    times: &Times,
    history: &History,
    step: usize,
    moment: &Moment,
) -> Result<(), AllocError> {
    let y = times.height(step).saturating_add(BASE);
    let last = times.runs.last(step);
    let faint = letters(Anchor::Ends, Ink::Faint, false);
    let numbers = Point {
        x: times.numbers_end,
        y,
    };
    picture.add_label(
        numbers,
        step_numbers(alloc, history.gone, step, last)?,
        faint,
    )?;
    let line = Point {
        x: times.lines_end,
        y,
    };
    picture.add_label(line, number_text(alloc, moment.line)?, faint)?;
    let words = Point {
        x: times.lines_end.saturating_add(BESIDE),
        y,
    };
    let look = letters(Anchor::Begins, moment.ink, false);
    picture.add_label(words, step_words(alloc, history, moment, last)?, look)
}

// The number of a step, behind this many before what is drawn; or the first and the last of several.
fn step_numbers(
    alloc: Global,
    gone: usize,
    step: usize,
    last: Option<usize>,
) -> Result<String, AllocError> {
    let number = gone.saturating_add(step).saturating_add(1);
    match last {
        Some(last) => {
            let end = gone.saturating_add(last).saturating_add(1);
            format!(in alloc; "{number}-{end}")
        }
        None => number_text(alloc, number),
    }
}

fn number_text(alloc: Global, number: usize) -> Result<String, AllocError> {
    format!(in alloc; "{number}")
}

// The words of a step; of several that are drawn as one also which frame comes last.
fn step_words(
    alloc: Global,
    history: &History,
    moment: &Moment,
    last: Option<usize>,
) -> Result<String, AllocError> {
    match last {
        Some(last) => {
            let words = moment.text.as_str();
            let number = number_brought(history, last);
            format!(in alloc; "{words} to {number}")
        }
        None => moment.text.clone(),
    }
}

// The number of the frame that a step brought.
fn number_brought(history: &History, step: usize) -> usize {
    for arrival in history.arrivals.as_slice() {
        if arrival.step == step {
            if let Some(frame) = history.frames.get(arrival.frame) {
                return frame.number;
            }
        }
    }
    0
}

// Adds the rows, each at its federate's lifeline.
fn add_rows(picture: &mut Picture, times: &Times, history: &History) -> Result<(), AllocError> {
    for row in history.rows.as_slice() {
        add_row(picture, times, row)?;
    }
    Ok(())
}

// Adds a row, on the side away from the coordinator.
fn add_row(picture: &mut Picture, times: &Times, row: &RowMark) -> Result<(), AllocError> {
    let x = times.federate(row.federate);
    let y = times.height(row.step);
    picture.add_mark(Point { x, y }, Sign::Row)?;
    let beside = y.saturating_add(BASE);
    if times.is_left(row.federate) {
        let at = Point {
            x: x.saturating_sub(BESIDE),
            y: beside,
        };
        let look = letters(Anchor::Ends, Ink::Plain, false);
        picture.add_label(at, row.text.clone()?, look)
    } else {
        let at = Point {
            x: x.saturating_add(BESIDE),
            y: beside,
        };
        let look = letters(Anchor::Begins, Ink::Plain, false);
        picture.add_label(at, row.text.clone()?, look)
    }
}
