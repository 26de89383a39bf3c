//! The picture of a federation.
use crate::figures::{Figure, Figures};
use crate::grid::Grid;
use crate::shapes::{Anchor, Ink, Lettering, Picture, Point, Sign, text_width};
use std::alloc::{AllocError, Global};

/// How far below the middle of a line of text its base line is.
const BASE: usize = 4;

/// The space between a mark and its text.
const BESIDE: usize = 10;

const NAME: Lettering = Lettering {
    anchor: Anchor::Begins,
    ink: Ink::Plain,
    is_bold: true,
};

const PLAIN: Lettering = Lettering {
    anchor: Anchor::Begins,
    ink: Ink::Plain,
    is_bold: false,
};

const TO_THE_LEFT: Lettering = Lettering {
    anchor: Anchor::Ends,
    ink: Ink::Plain,
    is_bold: false,
};

const FAINT: Lettering = Lettering {
    anchor: Anchor::Ends,
    ink: Ink::Faint,
    is_bold: false,
};

/// The picture of a federation: boxes in columns, and lines between their ports.
pub fn federation_picture(alloc: Global, all: &Figures) -> Result<Picture, AllocError> {
    let grid = Grid::placed(alloc, all)?;
    let mut picture = Picture::new(alloc);
    add_all(alloc, &mut picture, &grid, all)?;
    picture.lines = grid.into_lines();
    Ok(picture)
}

// Adds all but the lines.
fn add_all(
    alloc: Global,
    picture: &mut Picture,
    grid: &Grid<'_>,
    all: &Figures,
) -> Result<(), AllocError> {
    for number in 0..all.figures.len() {
        if let Some(figure) = all.figures.get(number) {
            add_figure(alloc, picture, grid, number, figure)?;
        }
    }
    add_delays(picture, grid, all)?;
    add_caption(picture, grid, all)
}

// Adds a federate's box and what stands in it.
fn add_figure(
    alloc: Global,
    picture: &mut Picture,
    grid: &Grid<'_>,
    number: usize,
    figure: &Figure,
) -> Result<(), AllocError> {
    let area = grid.area(number);
    picture.add_box(area)?;
    let y = area.top.saturating_add(18);
    let left = Point {
        x: area.left.saturating_add(BESIDE),
        y,
    };
    let right = Point {
        x: area.right().saturating_sub(BESIDE),
        y,
    };
    picture.add_label(left, figure.name.clone()?, NAME)?;
    picture.add_label(right, rank_text(alloc, figure.rank)?, FAINT)?;
    add_inputs(picture, grid, number, figure)?;
    add_outputs(picture, grid, number, figure)?;
    add_parts(picture, grid, number, figure)
}

fn rank_text(alloc: Global, rank: usize) -> Result<String, AllocError> {
    format!(in alloc; "rank {rank}")
}

// Adds a federate's input ports.
fn add_inputs(
    picture: &mut Picture,
    grid: &Grid<'_>,
    number: usize,
    figure: &Figure,
) -> Result<(), AllocError> {
    for place in 0..figure.inputs.len() {
        if let Some(name) = figure.inputs.get(place) {
            let at = grid.input_point(number, place);
            add_marked(picture, at, Sign::Port, name, PLAIN)?;
        }
    }
    Ok(())
}

// Adds a federate's output ports.
fn add_outputs(
    picture: &mut Picture,
    grid: &Grid<'_>,
    number: usize,
    figure: &Figure,
) -> Result<(), AllocError> {
    for place in 0..figure.outputs.len() {
        if let Some(name) = figure.outputs.get(place) {
            let at = grid.output_point(number, place);
            add_marked(picture, at, Sign::Port, name, TO_THE_LEFT)?;
        }
    }
    Ok(())
}

// Adds a federate's startup, timers and actions.
fn add_parts(
    picture: &mut Picture,
    grid: &Grid<'_>,
    number: usize,
    figure: &Figure,
) -> Result<(), AllocError> {
    let area = grid.area(number);
    for place in 0..figure.parts.len() {
        if let Some(part) = figure.parts.get(place) {
            let at = Point {
                x: area.left.saturating_add(16),
                y: area.top.saturating_add(figure.part_drop(place)),
            };
            add_marked(picture, at, part.sign, &part.text, PLAIN)?;
        }
    }
    Ok(())
}

// Adds a mark, and its text beside it.
fn add_marked(
    picture: &mut Picture,
    at: Point,
    sign: Sign,
    text: &String,
    look: Lettering,
) -> Result<(), AllocError> {
    picture.add_mark(at, sign)?;
    let x = match look.anchor {
        Anchor::Ends => at.x.saturating_sub(BESIDE),
        Anchor::Begins | Anchor::Centred => at.x.saturating_add(BESIDE),
    };
    let beside = Point {
        x,
        y: at.y.saturating_add(BASE),
    };
    picture.add_label(beside, text.clone()?, look)
}

// Adds the delays, each above its line where that ends.
fn add_delays(picture: &mut Picture, grid: &Grid<'_>, all: &Figures) -> Result<(), AllocError> {
    for number in 0..all.wires.len() {
        if let Some(wire) = all.wires.get(number) {
            if let Some(delay) = &wire.delay {
                let (_from, to) = grid.ends(number);
                let at = Point {
                    x: to.x.saturating_sub(BESIDE),
                    y: to.y.saturating_sub(BASE),
                };
                picture.add_label(at, delay.clone()?, FAINT)?;
            }
        }
    }
    Ok(())
}

// Adds what is written below all, and settles the size.
fn add_caption(picture: &mut Picture, grid: &Grid<'_>, all: &Figures) -> Result<(), AllocError> {
    let at = Point {
        x: BESIDE,
        y: grid.bottom().saturating_add(8),
    };
    let width = text_width(all.caption.as_str()).saturating_add(2 * BESIDE);
    picture.width = grid.right().max(width);
    picture.height = at.y.saturating_add(14);
    picture.add_label(at, all.caption.clone()?, PLAIN)
}
