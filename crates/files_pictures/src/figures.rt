//! What is drawn of a federation: its federates and connections, as names and numbers.
ghost use Rattle.std.specs.Prelude.{◌≡◌, []};

use crate::shapes::{Sign, text_width};
use std::alloc::Global;

/// What a federate has beside its ports.
#[derive(Drop)]
pub struct Part {
    pub sign: Sign,
    pub text: String,
}

/// A federate, as it is drawn.
#[derive(Drop)]
pub struct Figure {
    pub name: String,
    pub rank: usize,
    pub inputs: Vec<String>,
    pub outputs: Vec<String>,
    pub parts: Vec<Part>,
}

/// A connection, as it is drawn: federates by number, ports by their place among the inputs or outputs.
#[derive(Drop)]
pub struct Wire {
    pub source: usize,
    pub output: usize,
    pub target: usize,
    pub input: usize,
    /// What is written beside it; it is drawn dashed.
    pub delay: Option<String>,
}

/// A federation, as it is drawn.
#[derive(Drop)]
pub struct Figures {
    pub figures: Vec<Figure>,
    pub wires: Vec<Wire>,
    /// What is written below all.
    pub caption: String,
}

impl Figures {
    /// None yet.
    pub fn new(alloc: Global) -> Figures
        ensures figures { result.figures.items ≡ [] }
        ensures wires { result.wires.items ≡ [] }
    {
        Figures {
            figures: Vec::new(alloc),
            wires: Vec::new(alloc),
            caption: String::new(alloc),
        }
    }
}

/// The height of a line of text in a box.
pub(crate) const LINE: usize = 18;

/// The height of a box above its ports.
const HEAD: usize = 28;

/// The space beside and below what stands in a box.
const MARGIN: usize = 8;

impl Figure {
    // How many lines the ports take.
    fn port_lines(&self) -> usize {
        self.inputs.len().max(self.outputs.len())
    }

    /// How high its box is.
    pub(crate) fn height(&self) -> usize {
        self.port_lines()
            .saturating_add(self.parts.len())
            .saturating_mul(LINE)
            .saturating_add(HEAD + MARGIN)
    }

    /// How wide its box has to be.
    pub(crate) fn width(&self) -> usize {
        self.head_width()
            .max(self.ports_width())
            .max(parts_width(self.parts.as_slice()))
            .max(90)
    }

    // Of its name and rank.
    fn head_width(&self) -> usize {
        text_width(self.name.as_str()).saturating_add(84)
    }

    // Of the names of its ports, side by side.
    fn ports_width(&self) -> usize {
        widest(self.inputs.as_slice())
            .saturating_add(widest(self.outputs.as_slice()))
            .saturating_add(44)
    }

    /// How far below the top of the box a port has its middle.
    pub(crate) fn port_drop(place: usize) -> usize {
        place.saturating_mul(LINE).saturating_add(HEAD + LINE / 2)
    }

    /// How far below the top of the box a part has its middle.
    pub(crate) fn part_drop(&self, place: usize) -> usize {
        Figure::port_drop(self.port_lines().saturating_add(place))
    }
}

// The width of the longest of these texts.
fn widest(texts: &[String]) -> usize {
    let mut most = 0;
    for text in texts {
        most = text_width(text.as_str()).max(most);
    }
    most
}

// The width of the longest of these parts, with its mark.
fn parts_width(parts: &[Part]) -> usize {
    let mut most = 0;
    for part in parts {
        most = text_width(part.text.as_str()).max(most);
    }
    most.saturating_add(36)
}
