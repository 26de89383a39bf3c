//! Where the lifelines of a schedule's picture stand, and at which height each step.
use crate::history::{Arrival, History, Moment, RowMark, Sending};
use crate::runs::Runs;
use crate::shapes::{Ink, number_at, put_number, text_width, zeros};
use std::alloc::{AllocError, Global};

/// The height of a step.
const STEP: usize = 24;

/// The height that a frame takes that never came.
pub(crate) const LOST: usize = 18;

/// Where the first step stands.
const FIRST: usize = 112;

/// How far below the height at which a step receives it sends.
const AFTER: usize = 6;

/// The space beside texts.
const BESIDE: usize = 12;

/// The space in which arrows slant from one height to another.
const SLANT: usize = 64;

/// The widest that stands beside a step, or an arrow, of several that are drawn as one, behind what that of one has.
const MORE: &str = " to 00000";

/// What stands above the numbers of steps, above those of their lines, and above tags.
pub(crate) const STEP_HEADING: &str = "step";

pub(crate) const LINE_HEADING: &str = "line";

pub(crate) const TAG_HEADING: &str = "tag";

/// Where all stands.
#[derive(Drop)]
pub(crate) struct Times {
    /// How many federates there are.
    pub count: usize,
    /// Which steps are drawn as one.
    pub runs: Runs,
    /// Where the first lifeline stands.
    first: usize,
    /// Where the numbers of steps end, and those of their lines.
    pub numbers_end: usize,
    pub lines_end: usize,
    /// Where the time axis stands, left of all lifelines.
    pub axis: usize,
    /// From one lifeline to the next.
    pub gap: usize,
    /// Beside each lifeline: how far texts of arrows go.
    pub zone: usize,
    /// Right of the last lifeline.
    beyond: usize,
    /// The height of each step.
    heights: Vec<usize>,
    /// How many times each frame came.
    comings: Vec<usize>,
    /// How many frames of the same step, before this one, never came.
    losses: Vec<usize>,
    /// Below all steps.
    pub bottom: usize,
}

impl Times {
    /// Of a schedule.
    pub(crate) fn new(alloc: Global, history: &History) -> Result<Times, AllocError> {
        let comings = comings(alloc, history)?;
        let (losses, lost) = loss_places(alloc, history, comings.as_slice())?;
        let runs = Runs::new(alloc, history)?;
        let more = more_width(&runs);
        let (heights, bottom) = heights(alloc, history, lost.as_slice(), &runs)?;
        let count = history.names.len();
        let names = names_width(history.names.as_slice());
        let zone = zone(history, names, more);
        let rows = rows_width(history.rows.as_slice());
        let gap = gap(count, zone, rows.max(names.saturating_mul(2)));
        let last = history.gone.saturating_add(history.steps.len());
        let numbers = number_width(alloc, STEP_HEADING, last)?;
        let numbers_end = numbers
            .saturating_add(range_width(&runs, numbers))
            .saturating_add(BESIDE);
        let lines = number_width(alloc, LINE_HEADING, last_line(history.steps.as_slice()))?;
        let lines_end = numbers_end.saturating_add(BESIDE).saturating_add(lines);
        let axis = lines_end.saturating_add(steps_width(history, &runs, more));
        let tags = tags_width(history.rows.as_slice());
        Ok(Times {
            count,
            runs,
            first: axis.saturating_add(tags).saturating_add(rows.max(names)),
            numbers_end,
            lines_end,
            axis,
            gap,
            zone,
            beyond: rows.max(zone),
            heights,
            comings,
            losses,
            bottom,
        })
    }

    /// Where a federate's lifeline stands.
    pub(crate) fn federate(&self, number: usize) -> usize {
        if self.is_left(number) {
            self.line(number)
        } else {
            self.line(number.saturating_add(1))
        }
    }

    /// Where the coordinator's lifeline stands: between those of the federates.
    pub(crate) fn coordinator(&self) -> usize {
        self.line(self.left_count())
    }

    /// Whether a federate stands left of the coordinator.
    pub(crate) fn is_left(&self, number: usize) -> bool {
        number < self.left_count()
    }

    /// How many lifelines stand between a federate's and the coordinator's.
    pub(crate) fn between(&self, number: usize) -> usize {
        if self.is_left(number) {
            self.left_count().saturating_sub(number).saturating_sub(1)
        } else {
            number.saturating_sub(self.left_count())
        }
    }

    /// The height of a step.
    pub(crate) fn height(&self, step: usize) -> usize {
        number_at(self.heights.as_slice(), step)
    }

    /// How far an arrow goes level that leaves one lifeline for another: as far as texts go there, if it is far enough.
    pub(crate) fn near(&self, from: usize, to: usize) -> usize {
        from.abs_diff(to)
            .saturating_sub(self.zone)
            .saturating_sub(SLANT)
            .min(self.zone)
    }

    /// The height at which a frame leaves; above all steps, where that was before them.
    pub(crate) fn sent_height(&self, frame: &Sending) -> usize {
        match frame.step {
            Some(step) => self.height(step).saturating_add(AFTER),
            None => FIRST - STEP,
        }
    }

    /// How many times a frame came.
    pub(crate) fn coming_count(&self, frame: usize) -> usize {
        number_at(self.comings.as_slice(), frame)
    }

    /// How many frames of the same step, before this one, never came.
    pub(crate) fn loss_place(&self, frame: usize) -> usize {
        number_at(self.losses.as_slice(), frame)
    }

    /// Right of all.
    pub(crate) fn right(&self) -> usize {
        self.line(self.count).saturating_add(self.beyond)
    }

    // How many federates stand left of the coordinator.
    fn left_count(&self) -> usize {
        self.count.saturating_add(1) / 2
    }

    // Where the lifeline at a place from the left stands.
    fn line(&self, place: usize) -> usize {
        self.first.saturating_add(place.saturating_mul(self.gap))
    }
}

// Beside each lifeline: room for what arrows and names take there; acknowledgements take so much more, where several are
// drawn as one.
fn zone(history: &History, names: usize, more: usize) -> usize {
    let frames = history.frames.as_slice();
    frames_width(frames)
        .saturating_add(refusal_width(history.arrivals.as_slice()))
        .max(acks_width(frames).saturating_add(more))
        .max(names)
}

// How much wider the numbers of steps are, where several are drawn as one: as wide as a number, with a hyphen.
fn range_width(runs: &Runs, numbers: usize) -> usize {
    if runs.are_some() {
        numbers.saturating_add(text_width("-"))
    } else {
        0
    }
}

// The width of what is written before a frame that is refused, where there is one.
fn refusal_width(arrivals: &[Arrival]) -> usize {
    for arrival in arrivals {
        if arrival.refused.is_some() {
            return text_width("00: ");
        }
    }
    0
}

// From one lifeline to the next. Of two federates, the rows stand outside, and there is room for what arrows take at
// both ends; of more there is room for what they take where they come, and the picture is less wide.
fn gap(count: usize, zone: usize, rows: usize) -> usize {
    if count > 2 {
        zone.saturating_add(SLANT + BESIDE).max(rows)
    } else {
        zone.saturating_mul(2).saturating_add(SLANT)
    }
}

// How many times each frame came.
fn comings(alloc: Global, history: &History) -> Result<Vec<usize>, AllocError> {
    let mut comings = zeros(alloc, history.frames.len())?;
    for arrival in history.arrivals.as_slice() {
        let count = number_at(comings.as_slice(), arrival.frame).saturating_add(1);
        put_number(&mut comings, arrival.frame, count);
    }
    Ok(comings)
}

// Of each frame that never came, how many there are before it of the same step; and of each step, how many there are.
fn loss_places(
    alloc: Global,
    history: &History,
    comings: &[usize],
) -> Result<(Vec<usize>, Vec<usize>), AllocError> {
    let mut losses = zeros(alloc, history.frames.len())?;
    let mut lost = zeros(alloc, history.steps.len())?;
    for place in 0..history.frames.len() {
        if let Some(step) = lost_by(history, comings, place) {
            let before = number_at(lost.as_slice(), step);
            put_number(&mut losses, place, before);
            put_number(&mut lost, step, before.saturating_add(1));
        }
    }
    Ok((losses, lost))
}

// The step that sent the frame at a place, where that never came.
fn lost_by(history: &History, comings: &[usize], place: usize) -> Option<usize> {
    if number_at(comings, place) == 0 {
        history.frames.get(place)?.step
    } else {
        None
    }
}

// The height of each step, and what is below all.
fn heights(
    alloc: Global,
    history: &History,
    lost: &[usize],
    runs: &Runs,
) -> Result<(Vec<usize>, usize), AllocError> {
    let mut heights = Vec::new(alloc);
    let mut height = FIRST;
    for place in 0..history.steps.len() {
        if runs.is_folded(place) {
            let before = number_at(heights.as_slice(), place.saturating_sub(1));
            heights.push(before)?;
        } else {
            heights.push(height)?;
            height = height.saturating_add(step_height(history, lost, place));
        }
    }
    Ok((heights, height))
}

// The height that a step takes, if it is shown.
fn step_height(history: &History, lost: &[usize], place: usize) -> usize {
    match history.steps.get(place) {
        Some(moment) if moment.is_shown => number_at(lost, place)
            .saturating_mul(LOST)
            .saturating_add(STEP),
        _ => 0,
    }
}

// How much wider texts are where several steps are drawn as one.
fn more_width(runs: &Runs) -> usize {
    if runs.are_some() { text_width(MORE) } else { 0 }
}

// The width of the longest text beside a step, with the space beside it; it takes so much more, where several are drawn
// as one.
fn steps_width(history: &History, runs: &Runs, more: usize) -> usize {
    let mut most = 0;
    for place in 0..history.steps.len() {
        if let Some(moment) = history.steps.get(place) {
            if moment.is_shown {
                let width = text_width(moment.text.as_str());
                let more = if runs.first(place).is_some() { more } else { 0 };
                most = width.saturating_add(more).max(most);
            }
        }
    }
    most.saturating_add(2 * BESIDE)
}

// The same of frames.
fn frames_width(frames: &[Sending]) -> usize {
    let mut most = 0;
    for frame in frames {
        most = text_width(frame.text.as_str()).max(most);
    }
    most.saturating_add(2 * BESIDE)
}

// The same of acknowledgements.
fn acks_width(frames: &[Sending]) -> usize {
    let mut most = 0;
    for frame in frames {
        if frame.ink == Ink::Ack {
            most = text_width(frame.text.as_str()).max(most);
        }
    }
    most.saturating_add(2 * BESIDE)
}

// The same of rows.
fn rows_width(rows: &[RowMark]) -> usize {
    let mut most = 0;
    for row in rows {
        most = text_width(row.text.as_str()).max(most);
    }
    most.saturating_add(2 * BESIDE)
}

// The width of a heading, or of a number below it.
fn number_width(alloc: Global, heading: &str, number: usize) -> Result<usize, AllocError> {
    let text = format!(in alloc; "{number}")?;
    Ok(text_width(text.as_str()).max(text_width(heading)))
}

// The last line of a schedule for which a step was made.
fn last_line(steps: &[Moment]) -> usize {
    let mut last = 0;
    for moment in steps {
        last = moment.line.max(last);
    }
    last
}

// The width of the heading of tags, or of the longest that begins with one of these rows, with the space beside it.
fn tags_width(rows: &[RowMark]) -> usize {
    let mut most = text_width(TAG_HEADING).saturating_add(BESIDE);
    for row in rows {
        most = tag_width(row).max(most);
    }
    most
}

// The width of the tag that begins with a row, with the space beside it.
fn tag_width(row: &RowMark) -> usize {
    match &row.begins {
        Some(tag) => text_width(tag.as_str()).saturating_add(BESIDE),
        None => 0,
    }
}

// Half the width of the longest of these names, with the space beside it.
fn names_width(names: &[String]) -> usize {
    let mut most = 0;
    for name in names {
        most = text_width(name.as_str()).max(most);
    }
    (most / 2).saturating_add(2 * BESIDE)
}
