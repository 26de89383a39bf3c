//! Texts as SVG, escaped.
ghost use Rattle.std.specs.Prelude.{◌≡◌, OnOk};
ghost use Rattle.std.specs.List.{flat_map};
ghost use Rattle.std.specs.Io.KnownBytes.{Appends};
ghost use Rattle.files_pictures.specs.Escaped.{escaped, escaped_letter, plain_letter, is_forbidden};
ghost use Rattle.files_pictures.specs.Svg.{bold_text, anchor_text, look_text, lettering_text, label_text};

use crate::looks::{anchor_name, ink_colour};
use crate::shapes::{Label, Lettering, Point};
use std::io;
use std::io::Write;

/// Writes texts.
pub(crate) fn write_labels<W: Write>(out: &mut W, labels: &[Label]) -> io::Result<()>
    ensures { OnOk result (Appends (W.contents out.old) (W.contents out.new) (flat_map label_text labels.now)) }
{
    for label in labels {
        write_label(out, label)?;
    }
    Ok(())
}

// Writes a text.
#[tactic(auto, unfolding(crate::specs::Svg::label_text))]
fn write_label<W: Write>(out: &mut W, label: &Label) -> io::Result<()>
    ensures { OnOk result (Appends (W.contents out.old) (W.contents out.new) (label_text label.now)) }
{
    write_anchor(out, label.at)?;
    write_lettering(out, label.lettering)?;
    write_escaped(out, label.text.as_str())?;
    out.write_all(b"</text>\n")
}

// Writes where a text stands.
#[tactic(auto, unfolding(crate::specs::Svg::anchor_text))]
fn write_anchor<W: Write>(out: &mut W, at: Point) -> io::Result<()>
    ensures { OnOk result (Appends (W.contents out.old) (W.contents out.new) (anchor_text at)) }
{
    write!(out, "<text x='{}' y='{}'", at.x, at.y)
}

// Writes how a text looks.
#[tactic(auto, unfolding(crate::specs::Svg::lettering_text))]
fn write_lettering<W: Write>(out: &mut W, look: Lettering) -> io::Result<()>
    ensures { OnOk result (Appends (W.contents out.old) (W.contents out.new) (lettering_text look)) }
{
    write_bold(out, look.is_bold)?;
    write_look(out, ink_colour(look.ink), anchor_name(look.anchor))
}

// Writes its colour and its side, up to where it begins.
#[tactic(auto, unfolding(crate::specs::Svg::look_text))]
fn write_look<W: Write>(out: &mut W, colour: &str, side: &str) -> io::Result<()>
    ensures { OnOk result (Appends (W.contents out.old) (W.contents out.new) (look_text colour.now side.now)) }
{
    write!(out, " fill='{colour}' text-anchor='{side}'>")
}

// Writes whether a text is bold.
fn write_bold<W: Write>(out: &mut W, is_bold: bool) -> io::Result<()>
    ensures { OnOk result (Appends (W.contents out.old) (W.contents out.new) (bold_text is_bold)) }
{
    if is_bold {
        out.write_all(b" class='bold'")
    } else {
        Ok(())
    }
}

// Writes a text so that no part of it is read as part of the file's form.
fn write_escaped<W: Write>(out: &mut W, text: &str) -> io::Result<()>
    ensures { OnOk result (Appends (W.contents out.old) (W.contents out.new) (escaped text.now)) }
{
    for letter in text.chars() {
        write_letter(out, letter)?;
    }
    Ok(())
}

// Writes a letter of a text.
#[tactic(auto, unfolding(crate::specs::Escaped::escaped_letter))]
fn write_letter<W: Write>(out: &mut W, letter: char) -> io::Result<()>
    ensures { OnOk result (Appends (W.contents out.old) (W.contents out.new) (escaped_letter letter)) }
{
    match letter {
        '&' => out.write_all(b"&amp;"),
        '<' => out.write_all(b"&lt;"),
        '>' => out.write_all(b"&gt;"),
        '"' => out.write_all(b"&quot;"),
        '\'' => out.write_all(b"&apos;"),
        _ => write_plain(out, letter),
    }
}

// Writes a letter that has no meaning of its own. What no such file may have becomes a space.
#[tactic(auto, unfolding(crate::specs::Escaped::plain_letter))]
fn write_plain<W: Write>(out: &mut W, letter: char) -> io::Result<()>
    ensures { OnOk result (Appends (W.contents out.old) (W.contents out.new) (plain_letter letter)) }
{
    if is_forbidden(letter) {
        out.write_all(b" ")
    } else {
        write!(out, "{letter}")
    }
}

// Whether a letter is a control character, or one of the two that no such file may have.
fn is_forbidden(letter: char) -> bool
    ensures { result ≡ is_forbidden letter }
{
    letter < ' ' || letter == '\u{fffe}' || letter == '\u{ffff}'
}
