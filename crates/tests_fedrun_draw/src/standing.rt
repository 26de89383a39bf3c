//! What no picture may have: boxes or texts that lie on each other or stand outside, connections that don't begin and
//! end at their ports, lines through boxes.
use files_pictures::figures::{Figures, Wire};
use files_pictures::shapes::{Anchor, Area, Label, Line, Picture, Point, text_width};
use std::alloc::{AllocError, Global};

/// What is wrong with where boxes and texts stand in a picture; None where nothing is.
pub fn wrong_place(alloc: Global, picture: &Picture) -> Option<&'static str> {
    match text_areas(alloc, picture.labels.as_slice()) {
        Ok(texts) => wrong_among(picture, texts.as_slice()),
        Err(_) => Some("no memory"),
    }
}

// The same, where the texts cover these.
fn wrong_among(picture: &Picture, texts: &[Area]) -> Option<&'static str> {
    let boxes = picture.boxes.as_slice();
    if texts.is_empty() {
        Some("no text")
    } else if !are_apart(boxes) {
        Some("a box lies on another")
    } else if !are_apart(texts) {
        Some("a text lies on another")
    } else if !are_inside(picture, boxes) || !are_inside(picture, texts) {
        Some("something stands outside")
    } else {
        None
    }
}

/// What is wrong with the lines in a federation's picture; None where nothing is.
pub fn wrong_line(picture: &Picture, all: &Figures) -> Option<&'static str> {
    if picture.lines.len() != all.wires.len() {
        return Some("a line for each connection is wanting");
    }
    for (wire, line) in all.wires.iter().zip(&picture.lines) {
        if does_join(picture, wire, line) != Some(true) {
            return Some("a line begins or ends elsewhere");
        }
        if !does_pass(picture, line) {
            return Some("a line goes through a box");
        }
    }
    None
}

/// Whether these texts have all of the wanted ones among them.
pub fn has_texts(labels: &[Label], wanted: &[&str]) -> bool {
    for text in wanted {
        if !has_text(labels, text) {
            return false;
        }
    }
    true
}

fn has_text(labels: &[Label], text: &str) -> bool {
    for label in labels {
        if label.text.as_str() == text {
            return true;
        }
    }
    false
}

// What texts cover.
fn text_areas(alloc: Global, labels: &[Label]) -> Result<Vec<Area>, AllocError> {
    let mut areas = Vec::new(alloc);
    for label in labels {
        areas.push(text_area(label))?;
    }
    Ok(areas)
}

// What a text covers; its letters stand 10 above their base line and 2 below.
fn text_area(label: &Label) -> Area {
    let width = text_width(label.text.as_str());
    let before = match label.lettering.anchor {
        Anchor::Begins => 0,
        Anchor::Centred => width / 2,
        Anchor::Ends => width,
    };
    Area {
        left: label.at.x.saturating_sub(before),
        top: label.at.y.saturating_sub(10),
        width,
        height: 12,
    }
}

fn are_apart(areas: &[Area]) -> bool {
    for (place, area) in areas.iter().enumerate() {
        for before in areas.iter().take(place) {
            if do_meet(*before, *area) {
                return false;
            }
        }
    }
    true
}

// Whether some point is in both.
fn do_meet(one: Area, other: Area) -> bool {
    one.left < other.right()
        && other.left < one.right()
        && one.top < other.bottom()
        && other.top < one.bottom()
}

fn are_inside(picture: &Picture, areas: &[Area]) -> bool {
    for area in areas {
        if area.right() > picture.width || area.bottom() > picture.height {
            return false;
        }
    }
    true
}

// Whether the line of a connection begins at its output port and ends at its input port.
fn does_join(picture: &Picture, wire: &Wire, line: &Line) -> Option<bool> {
    let source = picture.boxes.get(wire.source)?;
    let target = picture.boxes.get(wire.target)?;
    let begin = Point {
        x: source.right(),
        y: port_height(source, wire.output),
    };
    let end = Point {
        x: target.left,
        y: port_height(target, wire.input),
    };
    Some(*line.points.first()? == begin && *line.points.last()? == end)
}

// Where a port has its middle, beside a box: 37 below its top, and 18 more for each port above it.
fn port_height(area: &Area, place: usize) -> usize {
    area.top
        .saturating_add(37)
        .saturating_add(place.saturating_mul(18))
}

fn does_pass(picture: &Picture, line: &Line) -> bool {
    let mut before: Option<Point> = None;
    for point in line.points.as_slice() {
        if let Some(before) = before {
            if is_blocked(picture.boxes.as_slice(), before, *point) {
                return false;
            }
        }
        before = Some(*point);
    }
    true
}

// Whether a box stands between two points that follow each other on a line.
fn is_blocked(boxes: &[Area], one: Point, other: Point) -> bool {
    let (left, right) = (one.x.min(other.x), one.x.max(other.x));
    let (top, bottom) = (one.y.min(other.y), one.y.max(other.y));
    for area in boxes {
        if left < area.right() && area.left < right && top < area.bottom() && area.top < bottom {
            return true;
        }
    }
    false
}
