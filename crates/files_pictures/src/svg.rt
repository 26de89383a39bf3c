//! A picture as SVG: one file that a browser opens, without scripts or fonts of its own.
ghost use Rattle.std.specs.Prelude.{OnOk};
ghost use Rattle.std.specs.List.{flat_map};
ghost use Rattle.std.specs.Io.KnownBytes.{Appends};
ghost use Rattle.files_pictures.specs.Svg.{svg_text, size_text, style_text, ground_text, marker_text};
ghost use Rattle.files_pictures.specs.Svg.{marker_size_text, marker_shape_text, arrow_head_text, arrow_heads_text};
ghost use Rattle.files_pictures.specs.Svg.{heads_text, beginning_text, corner_text, extent_text, box_text, spot_text};
ghost use Rattle.files_pictures.specs.Svg.{sign_text, mark_text, picture_text};

use crate::labels::write_labels;
use crate::lines::write_lines;
use crate::looks::{ink_colour, ink_name, sign_class, sign_shape};
use crate::shapes::{Area, INKS, Ink, Mark, Picture, Point, Sign};
use std::io;
use std::io::Write;

/// How all looks.
const STYLE: &str = r#"<style>
text { font: 12px ui-monospace, "DejaVu Sans Mono", "Liberation Mono", monospace; paint-order: stroke; stroke: #fff; stroke-width: 4px; stroke-linejoin: round; }
path { fill: none; }
path:hover { stroke-width: 3; }
.bold { font-weight: bold; }
.dashed { stroke-dasharray: 5 3; }
rect { fill: #fff; stroke: #57606a; }
.sign { fill: #fff; stroke: #24292f; }
.solid { fill: #24292f; }
</style>
"#;

/// Writes a picture. The caller flushes; it is written in many small parts. Where the writer refuses, some of them may
/// have been written.
#[tactic(auto, unfolding(crate::specs::Svg::picture_text))]
pub fn write_picture<W: Write>(out: &mut W, picture: &Picture) -> io::Result<()>
    ensures { OnOk result (Appends (W.contents out.old) (W.contents out.new) (picture_text picture.now)) }
{
    write_beginning(out, picture.width, picture.height)?;
    write_lines(out, picture.lines.as_slice())?;
    write_boxes(out, picture.boxes.as_slice())?;
    write_marks(out, picture.marks.as_slice())?;
    write_labels(out, picture.labels.as_slice())?;
    out.write_all(b"</svg>\n")
}

// Writes what stands before all shapes.
#[tactic(auto, unfolding(crate::specs::Svg::beginning_text))]
fn write_beginning<W: Write>(out: &mut W, width: usize, height: usize) -> io::Result<()>
    ensures { OnOk result (Appends (W.contents out.old) (W.contents out.new) (beginning_text width height)) }
{
    write_svg(out, width, height)?;
    write_size(out, width, height)?;
    write_style(out)?;
    write_ground(out, width, height)?;
    write_heads(out)
}

// Writes the beginning of the file's first element.
#[tactic(auto, unfolding(crate::specs::Svg::svg_text))]
fn write_svg<W: Write>(out: &mut W, width: usize, height: usize) -> io::Result<()>
    ensures { OnOk result (Appends (W.contents out.old) (W.contents out.new) (svg_text width height)) }
{
    write!(
        out,
        "<svg xmlns='http://www.w3.org/2000/svg' viewBox='0 0 {width} {height}'"
    )
}

// Writes how large it is shown.
#[tactic(auto, unfolding(crate::specs::Svg::size_text))]
fn write_size<W: Write>(out: &mut W, width: usize, height: usize) -> io::Result<()>
    ensures { OnOk result (Appends (W.contents out.old) (W.contents out.new) (size_text width height)) }
{
    write!(out, " width='{width}' height='{height}'>\n")
}

// Writes how all looks.
#[tactic(auto, unfolding(crate::specs::Svg::style_text))]
fn write_style<W: Write>(out: &mut W) -> io::Result<()>
    ensures { OnOk result (Appends (W.contents out.old) (W.contents out.new) style_text) }
{
    out.write_all(STYLE.as_bytes())
}

// Writes what it stands on.
#[tactic(auto, unfolding(crate::specs::Svg::ground_text))]
fn write_ground<W: Write>(out: &mut W, width: usize, height: usize) -> io::Result<()>
    ensures { OnOk result (Appends (W.contents out.old) (W.contents out.new) (ground_text width height)) }
{
    write!(
        out,
        "<path d='M0 0H{width}V{height}H0Z' style='fill:#fff'/>\n"
    )
}

// Writes the heads of arrows, one for each ink.
#[tactic(auto, unfolding(crate::specs::Svg::heads_text))]
fn write_heads<W: Write>(out: &mut W) -> io::Result<()>
    ensures { OnOk result (Appends (W.contents out.old) (W.contents out.new) heads_text) }
{
    out.write_all(b"<defs>\n")?;
    write_arrow_heads(out, INKS.as_slice())?;
    out.write_all(b"</defs>\n")
}

// Writes the heads of arrows of these inks.
#[tactic(auto, unfolding(crate::specs::Svg::arrow_heads_text))]
fn write_arrow_heads<W: Write>(out: &mut W, inks: &[Ink]) -> io::Result<()>
    ensures { OnOk result (Appends (W.contents out.old) (W.contents out.new) (arrow_heads_text inks.now)) }
{
    for ink in inks {
        write_arrow_head(out, *ink)?;
    }
    Ok(())
}

// Writes the head of arrows of an ink.
#[tactic(auto, unfolding(crate::specs::Svg::arrow_head_text))]
fn write_arrow_head<W: Write>(out: &mut W, ink: Ink) -> io::Result<()>
    ensures { OnOk result (Appends (W.contents out.old) (W.contents out.new) (arrow_head_text ink)) }
{
    write_marker(out, ink_name(ink))?;
    write_marker_size(out)?;
    write_marker_shape(out, ink_colour(ink))
}

// Writes the beginning of an arrow's head of this name.
#[tactic(auto, unfolding(crate::specs::Svg::marker_text))]
fn write_marker<W: Write>(out: &mut W, name: &str) -> io::Result<()>
    ensures { OnOk result (Appends (W.contents out.old) (W.contents out.new) (marker_text name.now)) }
{
    write!(out, "<marker id='{name}'")
}

// Writes its size, and how it lies.
#[tactic(auto, unfolding(crate::specs::Svg::marker_size_text))]
fn write_marker_size<W: Write>(out: &mut W) -> io::Result<()>
    ensures { OnOk result (Appends (W.contents out.old) (W.contents out.new) marker_size_text) }
{
    out.write_all(
        b" viewBox='0 0 8 8' refX='8' refY='4' markerWidth='8' markerHeight='8' markerUnits='userSpaceOnUse' orient='auto'>",
    )
}

// Writes its shape, of this colour, and its end.
#[tactic(auto, unfolding(crate::specs::Svg::marker_shape_text))]
fn write_marker_shape<W: Write>(out: &mut W, colour: &str) -> io::Result<()>
    ensures { OnOk result (Appends (W.contents out.old) (W.contents out.new) (marker_shape_text colour.now)) }
{
    write!(
        out,
        "<path d='M0 1L8 4L0 7Z' style='fill:{colour}'/></marker>\n"
    )
}

// Writes boxes.
fn write_boxes<W: Write>(out: &mut W, boxes: &[Area]) -> io::Result<()>
    ensures { OnOk result (Appends (W.contents out.old) (W.contents out.new) (flat_map box_text boxes.now)) }
{
    for area in boxes {
        write_box(out, *area)?;
    }
    Ok(())
}

// Writes a box.
#[tactic(auto, unfolding(crate::specs::Svg::box_text))]
fn write_box<W: Write>(out: &mut W, area: Area) -> io::Result<()>
    ensures { OnOk result (Appends (W.contents out.old) (W.contents out.new) (box_text area)) }
{
    write_corner(out, area)?;
    write_extent(out, area)
}

// Writes where a box stands.
#[tactic(auto, unfolding(crate::specs::Svg::corner_text))]
fn write_corner<W: Write>(out: &mut W, area: Area) -> io::Result<()>
    ensures { OnOk result (Appends (W.contents out.old) (W.contents out.new) (corner_text area)) }
{
    write!(out, "<rect x='{}' y='{}' rx='5'", area.left, area.top)
}

// Writes how large it is.
#[tactic(auto, unfolding(crate::specs::Svg::extent_text))]
fn write_extent<W: Write>(out: &mut W, area: Area) -> io::Result<()>
    ensures { OnOk result (Appends (W.contents out.old) (W.contents out.new) (extent_text area)) }
{
    write!(out, " width='{}' height='{}'/>\n", area.width, area.height)
}

// Writes marks.
fn write_marks<W: Write>(out: &mut W, marks: &[Mark]) -> io::Result<()>
    ensures { OnOk result (Appends (W.contents out.old) (W.contents out.new) (flat_map mark_text marks.now)) }
{
    for mark in marks {
        write_mark(out, *mark)?;
    }
    Ok(())
}

// Writes a mark.
#[tactic(auto, unfolding(crate::specs::Svg::mark_text))]
fn write_mark<W: Write>(out: &mut W, mark: Mark) -> io::Result<()>
    ensures { OnOk result (Appends (W.contents out.old) (W.contents out.new) (mark_text mark)) }
{
    write_spot(out, mark.at)?;
    write_sign(out, mark.sign)
}

// Writes where a mark stands.
#[tactic(auto, unfolding(crate::specs::Svg::spot_text))]
fn write_spot<W: Write>(out: &mut W, at: Point) -> io::Result<()>
    ensures { OnOk result (Appends (W.contents out.old) (W.contents out.new) (spot_text at)) }
{
    write!(out, "<path transform='translate({} {})'", at.x, at.y)
}

// Writes what it is.
#[tactic(auto, unfolding(crate::specs::Svg::sign_text))]
fn write_sign<W: Write>(out: &mut W, sign: Sign) -> io::Result<()>
    ensures { OnOk result (Appends (W.contents out.old) (W.contents out.new) (sign_text sign)) }
{
    write!(
        out,
        " class='{}' d='{}'/>\n",
        sign_class(sign),
        sign_shape(sign)
    )
}
