//! A picture as plain data: what stands where, in pixels from the left and from the top.
ghost use Rattle.std.specs.Prelude.{◌≡◌, ◌+◌, ◌-◌, ◌*◌, ◌/◌, ◌^◌, [], ◌∷◌, ◌++◌, min, length, replicate, slice_index};
ghost use Rattle.std.specs.Prelude.{slice_set, IfOk, OnOk};

use std::alloc::{AllocError, Global};

#[derive(Clone, Copy, Debug, PartialEq, Eq)]
pub struct Point {
    pub x: usize,
    pub y: usize,
}

/// A rectangle.
#[derive(Clone, Copy, Debug, PartialEq, Eq)]
pub struct Area {
    pub left: usize,
    pub top: usize,
    pub width: usize,
    pub height: usize,
}

impl Area {
    /// Just right of it.
    pub fn right(self) -> usize
        ensures { result ≡ min (self.left + self.width) (2 ^ 64 - 1) }
    {
        self.left.saturating_add(self.width)
    }

    /// Just below it.
    pub fn bottom(self) -> usize
        ensures { result ≡ min (self.top + self.height) (2 ^ 64 - 1) }
    {
        self.top.saturating_add(self.height)
    }
}

/// What something is drawn for: its colour.
#[derive(Clone, Copy, Debug, PartialEq, Eq)]
pub enum Ink {
    Plain,
    /// What is less important.
    Faint,
    Net,
    Ltc,
    Tag,
    Msg,
    Ack,
    Hello,
    /// What was refused.
    Refused,
}

/// Every ink.
pub const INKS: [Ink; 9] = [
    Ink::Net,
    Ink::Ltc,
    Ink::Tag,
    Ink::Msg,
    Ink::Ack,
    Ink::Hello,
    Ink::Refused,
    Ink::Plain,
    Ink::Faint,
];

/// How a line ends.
#[derive(Clone, Copy, Debug, PartialEq, Eq)]
pub enum Ending {
    Plain,
    Head,
    Cross,
}

/// How a line looks.
#[derive(Clone, Copy, Debug, PartialEq, Eq)]
pub struct Stroke {
    pub ink: Ink,
    pub is_dashed: bool,
    pub ending: Ending,
}

/// A line from its first point to its last. Where two points that follow each other have neither coordinate in common,
/// it swings from one to the other if it bends, and else goes straight.
#[derive(Drop)]
pub struct Line {
    pub points: Vec<Point>,
    pub stroke: Stroke,
    pub bends: bool,
}

impl Line {
    /// It goes on to a point.
    pub(crate) fn lead(&mut self, point: Point) -> Result<(), AllocError>
        ensures { OnOk result (self.new.points.items ≡ self.old.points.items ++ point ∷ []) }
    {
        self.points.push(point)?;
        Ok(())
    }
}

/// On which side of its point a text stands.
#[derive(Clone, Copy, Debug, PartialEq, Eq)]
pub enum Anchor {
    /// The text begins at the point.
    Begins,
    Centred,
    /// The text ends at the point.
    Ends,
}

/// How a text looks.
#[derive(Clone, Copy, Debug, PartialEq, Eq)]
pub struct Lettering {
    pub anchor: Anchor,
    pub ink: Ink,
    pub is_bold: bool,
}

/// A text in an ink.
pub(crate) fn letters(anchor: Anchor, ink: Ink, is_bold: bool) -> Lettering
    ensures { result ≡ record { anchor = anchor; ink = ink; is_bold = is_bold } }
{
    Lettering {
        anchor,
        ink,
        is_bold,
    }
}

/// A text; the point is on its base line.
#[derive(Drop)]
pub struct Label {
    pub at: Point,
    pub text: String,
    pub lettering: Lettering,
}

/// What a mark stands for.
#[derive(Clone, Copy, Debug, PartialEq, Eq)]
pub enum Sign {
    Port,
    Startup,
    Timer,
    Action,
    Physical,
    Reaction,
    Row,
    /// Where a federate forgot.
    Cut,
}

/// A small mark; the point is its middle.
#[derive(Clone, Copy, Debug, PartialEq, Eq)]
pub struct Mark {
    pub at: Point,
    pub sign: Sign,
}

/// All that is drawn: first the lines, then the boxes, marks and texts.
#[derive(Drop)]
pub struct Picture {
    pub width: usize,
    pub height: usize,
    pub boxes: Vec<Area>,
    pub lines: Vec<Line>,
    pub marks: Vec<Mark>,
    pub labels: Vec<Label>,
}

impl Picture {
    /// An empty one.
    pub fn new(alloc: Global) -> Picture
        ensures boxes { result.boxes.items ≡ [] }
        ensures lines { result.lines.items ≡ [] }
        ensures marks { result.marks.items ≡ [] }
        ensures labels { result.labels.items ≡ [] }
    {
        Picture {
            width: 0,
            height: 0,
            boxes: Vec::new(alloc),
            lines: Vec::new(alloc),
            marks: Vec::new(alloc),
            labels: Vec::new(alloc),
        }
    }

    pub(crate) fn add_box(&mut self, area: Area) -> Result<(), AllocError>
        ensures { OnOk result (self.new.boxes.items ≡ self.old.boxes.items ++ area ∷ []) }
    {
        self.boxes.push(area)?;
        Ok(())
    }

    pub(crate) fn add_line(&mut self, line: Line) -> Result<(), AllocError>
        ensures { OnOk result (self.new.lines.items ≡ self.old.lines.items ++ line ∷ []) }
    {
        self.lines.push(line)?;
        Ok(())
    }

    /// A line straight from one point to another.
    pub(crate) fn add_straight(
        &mut self,
        alloc: Global,
        from: Point,
        to: Point,
        stroke: Stroke,
    ) -> Result<(), AllocError> {
        let mut points = Vec::new(alloc);
        points.push(from)?;
        points.push(to)?;
        self.add_line(Line {
            points,
            stroke,
            bends: false,
        })
    }

    pub(crate) fn add_mark(&mut self, at: Point, sign: Sign) -> Result<(), AllocError>
        ensures { OnOk result (self.new.marks.items ≡ self.old.marks.items ++ record { at = at; sign = sign } ∷ []) }
    {
        self.marks.push(Mark { at, sign })?;
        Ok(())
    }

    pub fn add_label(
        &mut self,
        at: Point,
        text: String,
        lettering: Lettering,
    ) -> Result<(), AllocError>
        ensures { OnOk result (self.new.labels.items ≡ self.old.labels.items
            ++ record { at = at; text = text; lettering = lettering } ∷ []) }
    {
        self.labels.push(Label {
            at,
            text,
            lettering,
        })?;
        Ok(())
    }
}

/// How wide a text is, in letters of one width.
pub fn text_width(text: &str) -> usize
    ensures { result ≡ min (length text.now * 29) (2 ^ 64 - 1) / 4 }
{
    text.len().saturating_mul(29) / 4
}

/// The number at a place, or 0 where there is none.
pub fn number_at(numbers: &[usize], place: usize) -> usize
    ensures { result ≡ slice_index numbers.now place }
{
    match numbers.get(place) {
        Some(number) => *number,
        None => 0,
    }
}

/// Puts a number at a place, if there is that place.
pub fn put_number(numbers: &mut Vec<usize>, place: usize, number: usize)
    ensures { numbers.new.items ≡ slice_set numbers.old.items place number }
{
    if place < numbers.len() {
        numbers[place] = number;
    }
}

/// This many zeros.
pub fn zeros(alloc: Global, count: usize) -> Result<Vec<usize>, AllocError>
    ensures { IfOk result (λ zeros. zeros.items ≡ replicate count 0) }
{
    let mut zeros = Vec::new(alloc);
    zeros.resize(count, 0)?;
    Ok(zeros)
}
