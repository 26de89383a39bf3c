//! The frames in the picture of a schedule: an arrow for each that came, a short line for each that didn't.
use crate::history::{Arrival, History, Sending};
use crate::shapes::{Anchor, Ending, Ink, Line, Picture, Point, Stroke, letters};
use crate::times::{LOST, Times};
use std::alloc::{AllocError, Global};

/// How far below the middle of a line of text its base line is.
const BASE: usize = 4;

/// The space between a line and a text beside it.
const BESIDE: usize = 12;

/// How far a frame goes that never comes.
const SHORT: usize = 30;

/// How far on both sides of a lifeline the bridge over it goes, and how high it is.
const BRIDGE: usize = 6;

// Where a frame leaves, and where it is to go.
fn ends(times: &Times, frame: &Sending) -> (usize, usize) {
    let federate = times.federate(frame.federate);
    let coordinator = times.coordinator();
    if frame.is_up {
        (federate, coordinator)
    } else {
        (coordinator, federate)
    }
}

// So far from a place, towards another.
fn towards(from: usize, to: usize, far: usize) -> usize {
    if from < to {
        from.saturating_add(far)
    } else {
        from.saturating_sub(far)
    }
}

// On which side of a point a text stands that is further on towards a place.
fn anchor_towards(from: usize, to: usize) -> Anchor {
    if from < to {
        Anchor::Begins
    } else {
        Anchor::Ends
    }
}

/// Adds the frames that never came.
pub(crate) fn add_lost(
    alloc: Global,
    picture: &mut Picture,
    times: &Times,
    history: &History,
) -> Result<(), AllocError> {
    for place in 0..history.frames.len() {
        if let Some(frame) = history.frames.get(place) {
            if times.coming_count(place) == 0 {
                add_lost_frame(alloc, picture, times, frame, times.loss_place(place))?;
            }
        }
    }
    Ok(())
}

// Adds a frame that never came: a short line that ends in a cross, below those of the same step before it. Where it
// comes after what is drawn, there is no cross.
fn add_lost_frame(
    alloc: Global,
    picture: &mut Picture,
    times: &Times,
    frame: &Sending,
    place: usize,
) -> Result<(), AllocError> {
    let (x, receiver) = ends(times, frame);
    let y = times.sent_height(frame);
    let end = Point {
        x: towards(x, receiver, SHORT),
        y: y.saturating_add(BESIDE)
            .saturating_add(place.saturating_mul(LOST)),
    };
    let stroke = Stroke {
        ink: frame.ink,
        is_dashed: false,
        ending: lost_ending(frame),
    };
    picture.add_straight(alloc, Point { x, y }, end, stroke)?;
    let at = Point {
        x: towards(end.x, receiver, BESIDE),
        y: end.y.saturating_add(BASE),
    };
    let look = letters(anchor_towards(x, receiver), frame.ink, false);
    picture.add_label(at, frame.text.clone()?, look)
}

// How the line of a frame ends that doesn't come in what is drawn.
fn lost_ending(frame: &Sending) -> Ending {
    if frame.is_late {
        Ending::Plain
    } else {
        Ending::Cross
    }
}

/// Adds the frames that came, each as often as it did; of those whose steps are drawn as one the last.
pub(crate) fn add_arrivals(
    alloc: Global,
    picture: &mut Picture,
    times: &Times,
    history: &History,
) -> Result<(), AllocError> {
    for arrival in history.arrivals.as_slice() {
        if !times.runs.goes_before(arrival.step) {
            if let Some(frame) = history.frames.get(arrival.frame) {
                add_arrow(alloc, picture, times, *arrival, frame)?;
                add_arrow_text(alloc, picture, times, *arrival, frame)?;
            }
        }
    }
    Ok(())
}

// The ink of a frame that came.
fn arrival_ink(arrival: Arrival, frame: &Sending) -> Ink {
    match arrival.refused {
        Some(_) => Ink::Refused,
        None => frame.ink,
    }
}

// Adds the arrow of a frame that came: level beside both lifelines, where texts stand, and aslant between, with a
// bridge over each lifeline that it goes past. Where it left before what is drawn, it begins beside its sender's.
fn add_arrow(
    alloc: Global,
    picture: &mut Picture,
    times: &Times,
    arrival: Arrival,
    frame: &Sending,
) -> Result<(), AllocError> {
    let (x, receiver) = ends(times, frame);
    let y = times.sent_height(frame);
    let end = times.height(arrival.step);
    let level = if frame.step.is_some() {
        times.near(x, receiver)
    } else {
        BESIDE
    };
    let from = Point {
        x: towards(x, receiver, level),
        y,
    };
    let to = Point {
        x: towards(receiver, x, times.zone),
        y: end,
    };
    let mut points = Vec::new(alloc);
    if frame.step.is_some() {
        points.push(Point { x, y })?;
    }
    points.push(from)?;
    add_bridges(&mut points, times, frame, from, to)?;
    points.push(to)?;
    points.push(Point {
        x: receiver,
        y: end,
    })?;
    picture.add_line(Line {
        points,
        stroke: Stroke {
            ink: arrival_ink(arrival, frame),
            is_dashed: arrival.is_again,
            ending: Ending::Head,
        },
        bends: false,
    })
}

// Adds to an arrow, where it slants, the bridges over all lifelines between its ends.
fn add_bridges(
    points: &mut Vec<Point>,
    times: &Times,
    frame: &Sending,
    from: Point,
    to: Point,
) -> Result<(), AllocError> {
    let (x, receiver) = ends(times, frame);
    for before in 0..times.between(frame.federate) {
        let far = before.saturating_add(1).saturating_mul(times.gap);
        add_bridge(points, from, to, towards(x, receiver, far))?;
    }
    Ok(())
}

// Adds to an arrow from one point to another the bridge over the lifeline that stands here.
fn add_bridge(points: &mut Vec<Point>, from: Point, to: Point, x: usize) -> Result<(), AllocError> {
    let y = height_at(from, to, x);
    let top = y.saturating_sub(BRIDGE);
    points.push(Point {
        x: towards(x, from.x, BRIDGE),
        y,
    })?;
    points.push(Point {
        x: towards(x, from.x, BRIDGE / 2),
        y: top,
    })?;
    points.push(Point {
        x: towards(x, to.x, BRIDGE / 2),
        y: top,
    })?;
    points.push(Point {
        x: towards(x, to.x, BRIDGE),
        y,
    })?;
    Ok(())
}

// How high a line is here that goes down from one point to another.
fn height_at(from: Point, to: Point, x: usize) -> usize {
    let width = from.x.abs_diff(to.x);
    let deep = to.y.saturating_sub(from.y);
    let gone = from.x.abs_diff(x);
    if width == 0 {
        from.y
    } else {
        from.y.saturating_add(gone.saturating_mul(deep) / width)
    }
}

// Adds the text of a frame that came, above the end of its arrow.
fn add_arrow_text(
    alloc: Global,
    picture: &mut Picture,
    times: &Times,
    arrival: Arrival,
    frame: &Sending,
) -> Result<(), AllocError> {
    let (x, receiver) = ends(times, frame);
    let at = Point {
        x: towards(receiver, x, BESIDE),
        y: times.height(arrival.step).saturating_sub(BASE),
    };
    let look = letters(
        anchor_towards(receiver, x),
        arrival_ink(arrival, frame),
        false,
    );
    picture.add_label(at, arrival_text(alloc, times, arrival, frame)?, look)
}

// What is written beside a frame that came.
fn arrival_text(
    alloc: Global,
    times: &Times,
    arrival: Arrival,
    frame: &Sending,
) -> Result<String, AllocError> {
    let text = frame.text.as_str();
    match (arrival.refused, times.runs.first(arrival.step)) {
        (Some(number), _) => format!(in alloc; "{number}: {text}"),
        (None, Some(first)) => {
            let gone = arrival.step.saturating_sub(first);
            let number = frame.number.saturating_sub(gone);
            format!(in alloc; "{number} to {text}")
        }
        (None, None) => frame.text.clone(),
    }
}
