//! Lines as SVG.
ghost use Rattle.std.specs.Prelude.{◌≡◌, OnOk};
ghost use Rattle.std.specs.List.{flat_map};
ghost use Rattle.std.specs.Io.KnownBytes.{Appends};
ghost use Rattle.files_pictures.specs.Svg.{dash_text, marker_end_text, head_text, cross_text, stroke_text, pair_text};
ghost use Rattle.files_pictures.specs.Svg.{swing_text, is_level, bend_text, leg_text, point_at, point_text};
ghost use Rattle.files_pictures.specs.Svg.{points_text, line_text};

use crate::looks::{ink_colour, ink_name};
use crate::shapes::{Ending, Ink, Line, Point, Stroke};
use std::io;
use std::io::Write;

/// Writes lines.
pub(crate) fn write_lines<W: Write>(out: &mut W, lines: &[Line]) -> io::Result<()>
    ensures { OnOk result (Appends (W.contents out.old) (W.contents out.new) (flat_map line_text lines.now)) }
{
    for line in lines {
        write_line(out, line)?;
    }
    Ok(())
}

// Writes a line.
#[tactic(auto, unfolding(crate::specs::Svg::line_text))]
fn write_line<W: Write>(out: &mut W, line: &Line) -> io::Result<()>
    ensures { OnOk result (Appends (W.contents out.old) (W.contents out.new) (line_text line.now)) }
{
    out.write_all(b"<path")?;
    write_stroke(out, line.stroke)?;
    out.write_all(b" d='")?;
    write_points(out, line.points.as_slice(), line.bends)?;
    write_cross(out, line.stroke.ending)?;
    out.write_all(b"'/>\n")
}

// Writes how a line looks.
#[tactic(auto, unfolding(crate::specs::Svg::stroke_text))]
fn write_stroke<W: Write>(out: &mut W, stroke: Stroke) -> io::Result<()>
    ensures { OnOk result (Appends (W.contents out.old) (W.contents out.new) (stroke_text stroke)) }
{
    write_dash(out, stroke.is_dashed)?;
    out.write_all(b" stroke='")?;
    out.write_all(ink_colour(stroke.ink).as_bytes())?;
    out.write_all(b"'")?;
    write_head(out, stroke.ending, stroke.ink)
}

// Writes whether a line is dashed.
fn write_dash<W: Write>(out: &mut W, is_dashed: bool) -> io::Result<()>
    ensures { OnOk result (Appends (W.contents out.old) (W.contents out.new) (dash_text is_dashed)) }
{
    if is_dashed {
        out.write_all(b" class='dashed'")
    } else {
        Ok(())
    }
}

// Writes the head in which a line ends, where it does.
#[tactic(auto, unfolding(crate::specs::Svg::head_text))]
fn write_head<W: Write>(out: &mut W, ending: Ending, ink: Ink) -> io::Result<()>
    ensures { OnOk result (Appends (W.contents out.old) (W.contents out.new) (head_text ending ink)) }
{
    match ending {
        Ending::Head => write_marker_end(out, ink_name(ink)),
        Ending::Plain | Ending::Cross => Ok(()),
    }
}

// Writes that a line ends in the head of this name.
#[tactic(auto, unfolding(crate::specs::Svg::marker_end_text))]
fn write_marker_end<W: Write>(out: &mut W, name: &str) -> io::Result<()>
    ensures { OnOk result (Appends (W.contents out.old) (W.contents out.new) (marker_end_text name.now)) }
{
    write!(out, " marker-end='url(#{name})'")
}

// Writes the cross in which a line ends, where it does.
#[tactic(auto, unfolding(crate::specs::Svg::cross_text))]
fn write_cross<W: Write>(out: &mut W, ending: Ending) -> io::Result<()>
    ensures { OnOk result (Appends (W.contents out.old) (W.contents out.new) (cross_text ending)) }
{
    match ending {
        Ending::Cross => out.write_all(b"m-4 -4l8 8m0 -8l-8 8"),
        Ending::Plain | Ending::Head => Ok(()),
    }
}

// Writes the points of a line.
#[tactic(auto, unfolding(crate::specs::Svg::points_text))]
fn write_points<W: Write>(out: &mut W, points: &[Point], bends: bool) -> io::Result<()>
    ensures { OnOk result (Appends (W.contents out.old) (W.contents out.new) (points_text bends points.now)) }
{
    for place in 0..points.len() {
        write_point(out, points, place, bends)?;
    }
    Ok(())
}

// Writes how a line goes on to the point at a place.
#[tactic(auto, unfolding(crate::specs::Svg::point_text))]
fn write_point<W: Write>(out: &mut W, points: &[Point], place: usize, bends: bool) -> io::Result<()>
    ensures { OnOk result (Appends (W.contents out.old) (W.contents out.new) (point_text bends points.now place)) }
{
    let point = point_at(points, place);
    if place == 0 {
        write_pair(out, "M", point.x, point.y)
    } else {
        write_leg(out, point_at(points, place - 1), point, bends)
    }
}

// The point at a place.
fn point_at(points: &[Point], place: usize) -> Point
    ensures { result ≡ point_at points.now place }
{
    match points.get(place) {
        Some(point) => *point,
        None => Point { x: 0, y: 0 },
    }
}

// Writes how a line goes from one point to the next.
#[tactic(auto, unfolding(crate::specs::Svg::leg_text))]
fn write_leg<W: Write>(out: &mut W, from: Point, to: Point, bends: bool) -> io::Result<()>
    ensures { OnOk result (Appends (W.contents out.old) (W.contents out.new) (leg_text bends from to)) }
{
    if bends {
        write_bend(out, from, to)
    } else {
        write_pair(out, "L", to.x, to.y)
    }
}

// Writes how it goes there where lines bend: straight, where both have a coordinate in common.
#[tactic(auto, unfolding(crate::specs::Svg::bend_text))]
fn write_bend<W: Write>(out: &mut W, from: Point, to: Point) -> io::Result<()>
    ensures { OnOk result (Appends (W.contents out.old) (W.contents out.new) (bend_text from to)) }
{
    if is_level(from, to) {
        write_pair(out, "L", to.x, to.y)
    } else {
        write_swing(out, from, to)
    }
}

// Whether two points have a coordinate in common.
fn is_level(from: Point, to: Point) -> bool
    ensures { result ≡ is_level from to }
{
    from.x == to.x || from.y == to.y
}

// Writes a letter of a path and two numbers.
#[tactic(auto, unfolding(crate::specs::Svg::pair_text))]
fn write_pair<W: Write>(out: &mut W, letter: &str, x: usize, y: usize) -> io::Result<()>
    ensures { OnOk result (Appends (W.contents out.old) (W.contents out.new) (pair_text letter.now x y)) }
{
    write!(out, "{letter}{x} {y}")
}

// Writes a swing from one point to another, level at both.
#[tactic(auto, unfolding(crate::specs::Svg::swing_text))]
fn write_swing<W: Write>(out: &mut W, from: Point, to: Point) -> io::Result<()>
    ensures { OnOk result (Appends (W.contents out.old) (W.contents out.new) (swing_text from to)) }
{
    let middle = from.x / 2 + to.x / 2;
    write_pair(out, "C", middle, from.y)?;
    write_pair(out, " ", middle, to.y)?;
    write_pair(out, " ", to.x, to.y)
}
