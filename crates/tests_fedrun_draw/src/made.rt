//! Federations that are made by numbers.
use files_pictures::figures::{Figure, Figures, Wire};
use std::alloc::{AllocError, Global};

// This many names of a letter and a number.
fn names(alloc: Global, letter: &str, count: usize) -> Result<Vec<String>, AllocError> {
    let mut names = Vec::new(alloc);
    for number in 0..count {
        names.push(format!(in alloc; "{letter}{number}")?)?;
    }
    Ok(names)
}

// A federate with this many inputs, and with two outputs.
fn figure(alloc: Global, rank: usize, inputs: usize) -> Result<Figure, AllocError> {
    Ok(Figure {
        name: format!(in alloc; "federate_{rank}")?,
        rank,
        inputs: names(alloc, "in", inputs)?,
        outputs: names(alloc, "out", 2)?,
        parts: Vec::new(alloc),
    })
}

// This many federates with this many inputs each, and no connection.
fn federates(alloc: Global, count: usize, inputs: usize) -> Result<Figures, AllocError> {
    let mut all = Figures::new(alloc);
    for rank in 0..count {
        all.figures.push(figure(alloc, rank, inputs)?)?;
    }
    Ok(all)
}

// Connects an output of a federate with an input of another; back and to itself with a delay.
fn connect(
    alloc: Global,
    all: &mut Figures,
    (source, output): (usize, usize),
    (target, input): (usize, usize),
) -> Result<(), AllocError> {
    let delay = if source < target {
        None
    } else {
        Some(String::from_str(alloc, "after 5 ms")?)
    };
    all.wires.push(Wire {
        source,
        output,
        target,
        input,
        delay,
    })?;
    Ok(())
}

/// This many federates, each of which sends to the next one, and the last to the first if it is a ring.
pub fn line_of(alloc: Global, count: usize, is_ring: bool) -> Result<Figures, AllocError> {
    let mut all = federates(alloc, count, 1)?;
    for rank in 1..count {
        connect(alloc, &mut all, (rank.saturating_sub(1), 0), (rank, 0))?;
    }
    if is_ring {
        connect(alloc, &mut all, (count.saturating_sub(1), 0), (0, 0))?;
    }
    Ok(all)
}

/// This many federates, each of which sends to one more.
pub fn fan_in(alloc: Global, count: usize) -> Result<Figures, AllocError> {
    let mut all = federates(alloc, count, 0)?;
    all.figures.push(figure(alloc, count, count)?)?;
    for rank in 0..count {
        connect(alloc, &mut all, (rank, 0), (count, rank))?;
    }
    Ok(all)
}

/// 64 federates with four inputs each, of which 200 have a connection from somewhere.
pub fn many(alloc: Global) -> Result<Figures, AllocError> {
    let mut all = federates(alloc, 64, 4)?;
    let mut number = 7usize;
    for place in 0..200 {
        number = number.saturating_mul(75).saturating_add(74) % 65_537;
        let from = (number % 64, number / 64 % 2);
        connect(alloc, &mut all, from, (place / 4, place % 4))?;
    }
    Ok(all)
}
