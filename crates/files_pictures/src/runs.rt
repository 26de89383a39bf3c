//! Runs of steps that say little, which are drawn as one: acknowledgements that come one after the other.
use crate::history::{Arrival, History, Sending};
use crate::shapes::{Ink, number_at, put_number, zeros};
use std::alloc::{AllocError, Global};

/// The least number of steps that are drawn as one.
const LEAST: usize = 3;

/// Which steps are drawn as one.
#[derive(Drop)]
pub(crate) struct Runs {
    /// Of each step, the first of those that it goes on with.
    firsts: Vec<usize>,
    /// Of each step with which others go on, the last of these.
    lasts: Vec<usize>,
}

impl Runs {
    /// Of a schedule: in a line of it, deliveries of acknowledgements over one link in one direction, one after the
    /// other, each of which comes for the first time and changes nothing that is drawn.
    pub(crate) fn new(alloc: Global, history: &History) -> Result<Runs, AllocError> {
        let quiet = quiet_frames(alloc, history)?;
        let mut firsts = zeros(alloc, history.steps.len())?;
        let mut lasts = zeros(alloc, history.steps.len())?;
        for step in 0..history.steps.len() {
            let first = if goes_on(history, quiet.as_slice(), step) {
                number_at(firsts.as_slice(), step.saturating_sub(1))
            } else {
                step
            };
            put_number(&mut firsts, step, first);
            put_number(&mut lasts, first, step);
        }
        Ok(Runs { firsts, lasts })
    }

    /// The first step of those that are drawn as one with this; None where it stands alone.
    pub(crate) fn first(&self, step: usize) -> Option<usize> {
        let first = number_at(self.firsts.as_slice(), step);
        let last = number_at(self.lasts.as_slice(), first);
        if last.saturating_sub(first).saturating_add(1) < LEAST {
            None
        } else {
            Some(first)
        }
    }

    /// The last of these.
    pub(crate) fn last(&self, step: usize) -> Option<usize> {
        let first = self.first(step)?;
        Some(number_at(self.lasts.as_slice(), first))
    }

    /// Whether a step has no line of its own: it goes on with others.
    pub(crate) fn is_folded(&self, step: usize) -> bool {
        match self.first(step) {
            Some(first) => first != step,
            None => false,
        }
    }

    /// Whether what a step brings isn't drawn: others go on with it.
    pub(crate) fn goes_before(&self, step: usize) -> bool {
        match self.last(step) {
            Some(last) => last != step,
            None => false,
        }
    }

    /// Whether any steps are drawn as one.
    pub(crate) fn are_some(&self) -> bool {
        for step in 0..self.firsts.len() {
            if self.is_folded(step) {
                return true;
            }
        }
        false
    }
}

// Of each step that brings an acknowledgement and does nothing else, one more than the place of its frame; of others 0.
fn quiet_frames(alloc: Global, history: &History) -> Result<Vec<usize>, AllocError> {
    let mut quiet = zeros(alloc, history.steps.len())?;
    for arrival in history.arrivals.as_slice() {
        if is_quiet(history, *arrival) {
            put_number(&mut quiet, arrival.step, arrival.frame.saturating_add(1));
        }
    }
    for frame in history.frames.as_slice() {
        if let Some(step) = frame.step {
            put_number(&mut quiet, step, 0);
        }
    }
    for row in history.rows.as_slice() {
        put_number(&mut quiet, row.step, 0);
    }
    Ok(quiet)
}

// Whether an acknowledgement comes for the first time, and isn't refused.
fn is_quiet(history: &History, arrival: Arrival) -> bool {
    match history.frames.get(arrival.frame) {
        Some(frame) => {
            frame.ink == Ink::Ack
                && frame.step.is_some()
                && arrival.refused.is_none()
                && !arrival.is_again
        }
        None => false,
    }
}

// Whether a step brings the frame behind that which the step before brought, both of them quiet and for one line.
fn goes_on(history: &History, quiet: &[usize], step: usize) -> bool {
    let before = step.saturating_sub(1);
    match (
        quiet_frame(history, quiet, before),
        quiet_frame(history, quiet, step),
    ) {
        (Some(one), Some(next)) => is_next(one, next) && is_one_line(history, before, step),
        _ => false,
    }
}

// The frame that a quiet step brought.
fn quiet_frame<'a>(history: &'a History, quiet: &[usize], step: usize) -> Option<&'a Sending> {
    let place = number_at(quiet, step).checked_sub(1)?;
    history.frames.get(place)
}

fn is_next(one: &Sending, next: &Sending) -> bool {
    one.federate == next.federate
        && one.is_up == next.is_up
        && one.number.saturating_add(1) == next.number
}

// Whether two steps were made for one line.
fn is_one_line(history: &History, one: usize, other: usize) -> bool {
    match (history.steps.get(one), history.steps.get(other)) {
        (Some(one), Some(other)) => one.line == other.line,
        _ => false,
    }
}
