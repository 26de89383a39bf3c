//! Which federate stands in which column, which columns stand side by side in a band, and where each stands.
use crate::figures::{Figure, Wire};
use crate::shapes::{number_at, put_number, text_width, zeros};
use std::alloc::{AllocError, Global};

/// The space between lines side by side.
pub(crate) const APART: usize = 8;

/// The space between a box and what stands beside it.
const BESIDE: usize = 12;

/// The least space in which lines swing from one height to another.
const SWING: usize = 56;

/// The space there for each line, where they are many.
const STRAND: usize = 12;

/// The most lines between two columns that swing. More of them would run into each other where they are steep: they go
/// straight.
const MOST_SWINGS: usize = 4;

/// How wide columns may be side by side. What is wider stands in several bands, one below the other.
const BAND_WIDTH: usize = 1_600;

/// A column. To its left are the delays of the connections that end there, and left of them the lines that come down
/// from above the boxes; to its right are those that go up.
#[derive(Clone, Copy, Debug, PartialEq, Eq)]
pub(crate) struct Column {
    /// The band in which it stands.
    pub band: usize,
    pub left: usize,
    pub right: usize,
    /// How wide the delays are.
    pub delays: usize,
    /// How many lines come down.
    pub downs: usize,
    /// How many lines go up.
    pub ups: usize,
}

impl Column {
    /// Where lines that come from the left have ended their swing.
    pub(crate) fn swing_end(self) -> usize {
        self.down_at(self.downs)
    }

    /// Where lines to the right begin their swing.
    pub(crate) fn swing_begin(self) -> usize {
        self.up_at(self.ups)
    }

    /// Where a line comes down.
    pub(crate) fn down_at(self, place: usize) -> usize {
        self.left
            .saturating_sub(self.delays)
            .saturating_sub(BESIDE)
            .saturating_sub(place.saturating_mul(APART))
    }

    /// Where a line goes up.
    pub(crate) fn up_at(self, place: usize) -> usize {
        self.right
            .saturating_add(BESIDE)
            .saturating_add(place.saturating_mul(APART))
    }
}

/// The column of each federate, and the band of each column.
#[derive(Drop)]
pub(crate) struct Places {
    pub numbers: Vec<usize>,
    pub bands: Vec<usize>,
    /// How many connections go to the right past the space behind each column.
    strands: Vec<usize>,
}

impl Places {
    /// Of a federation.
    pub(crate) fn new(
        alloc: Global,
        figures: &[Figure],
        wires: &[Wire],
    ) -> Result<Places, AllocError> {
        let numbers = column_numbers(alloc, figures, wires)?;
        let bands = band_numbers(alloc, figures, numbers.as_slice())?;
        let mut places = Places {
            numbers,
            bands,
            strands: Vec::new(alloc),
        };
        places.add_strands(wires)?;
        Ok(places)
    }

    // Counts what goes past the space behind each column.
    fn add_strands(&mut self, wires: &[Wire]) -> Result<(), AllocError> {
        for column in 0..self.bands.len() {
            let count = self.strand_count(wires, column);
            self.strands.push(count)?;
        }
        Ok(())
    }

    // How many connections go to the right past the space behind a column.
    fn strand_count(&self, wires: &[Wire], column: usize) -> usize {
        let mut count = 0usize;
        for wire in wires {
            if self.goes_over(wire, column) {
                count = count.saturating_add(1);
            }
        }
        count
    }

    /// The column of a federate.
    pub(crate) fn column_of(&self, figure: usize) -> usize {
        number_at(self.numbers.as_slice(), figure)
    }

    /// The band of a column.
    pub(crate) fn band(&self, column: usize) -> usize {
        number_at(self.bands.as_slice(), column)
    }

    /// The band of a federate.
    pub(crate) fn band_of(&self, figure: usize) -> usize {
        self.band(self.column_of(figure))
    }

    /// Whether a connection is drawn to the right, within a band.
    pub(crate) fn is_forward(&self, wire: &Wire) -> bool {
        self.column_of(wire.source) < self.column_of(wire.target)
            && self.band_of(wire.source) == self.band_of(wire.target)
    }

    /// How many connections go to the right past the space behind a column.
    pub(crate) fn strands(&self, column: usize) -> usize {
        number_at(self.strands.as_slice(), column)
    }

    // Whether a connection does.
    fn goes_over(&self, wire: &Wire, column: usize) -> bool {
        self.is_forward(wire)
            && self.column_of(wire.source) <= column
            && column < self.column_of(wire.target)
    }

    /// Whether the line of a connection swings wherever it changes its height: it is nowhere one of many.
    pub(crate) fn does_swing(&self, wire: &Wire) -> bool {
        for column in 0..self.bands.len() {
            if self.goes_over(wire, column) && self.strands(column) > MOST_SWINGS {
                return false;
            }
        }
        true
    }
}

// Whether a connection goes from a lower rank to a higher. Each that doesn't has a delay.
fn rises(figures: &[Figure], wire: &Wire) -> bool {
    let Some(source) = figures.get(wire.source) else {
        return false;
    };
    match figures.get(wire.target) {
        Some(target) => source.rank < target.rank,
        None => false,
    }
}

// The column of each federate: the number of connections on the longest way to it along which ranks rise.
fn column_numbers(
    alloc: Global,
    figures: &[Figure],
    wires: &[Wire],
) -> Result<Vec<usize>, AllocError> {
    let mut numbers = zeros(alloc, figures.len())?;
    for _round in 0..figures.len() {
        for wire in wires {
            move_right(&mut numbers, figures, wire);
        }
    }
    Ok(numbers)
}

// Where ranks rise along a connection, its target stands right of its source.
fn move_right(numbers: &mut Vec<usize>, figures: &[Figure], wire: &Wire) {
    if rises(figures, wire) {
        let least = number_at(numbers.as_slice(), wire.source).saturating_add(1);
        let most = number_at(numbers.as_slice(), wire.target).max(least);
        put_number(numbers, wire.target, most);
    }
}

// How wide bands are to be: all alike, and no more of them than are needed.
fn band_width(figures: &[Figure], numbers: &[usize]) -> usize {
    let mut all = 0usize;
    for number in 0..column_count(numbers) {
        all = all.saturating_add(column_width(figures, numbers, number));
    }
    let bands = all / BAND_WIDTH + 1;
    all / bands
}

// The width of a column with the space beside it, as far as it is known before connections are.
fn column_width(figures: &[Figure], numbers: &[usize], number: usize) -> usize {
    boxes_width(figures, numbers, number).saturating_add(SWING + 2 * BESIDE)
}

// The band of each column.
fn band_numbers(
    alloc: Global,
    figures: &[Figure],
    numbers: &[usize],
) -> Result<Vec<usize>, AllocError> {
    let wanted = band_width(figures, numbers);
    let mut bands = Vec::new(alloc);
    let mut band = 0usize;
    let mut width = 0usize;
    for number in 0..column_count(numbers) {
        let more = column_width(figures, numbers, number);
        if width > 0 && width.saturating_add(more / 2) > wanted {
            band = band.saturating_add(1);
            width = 0;
        }
        width = width.saturating_add(more);
        bands.push(band)?;
    }
    Ok(bands)
}

/// The columns, band by band from left to right. Left of them is room for this many lines.
pub(crate) fn all_columns(
    alloc: Global,
    figures: &[Figure],
    wires: &[Wire],
    places: &Places,
    margin: usize,
) -> Result<Vec<Column>, AllocError> {
    let mut columns = Vec::new(alloc);
    let begin = margin_at(margin);
    let mut from = begin;
    for number in 0..places.bands.len() {
        if places.band(number) != places.band(number.saturating_sub(1)) {
            from = begin;
        }
        let column = column_from(figures, wires, places, number, from);
        columns.push(column)?;
        from = column
            .swing_begin()
            .saturating_add(swing_space(places.strands(number)));
    }
    Ok(columns)
}

/// Where a line goes from one band to another, left of all columns.
pub(crate) fn margin_at(place: usize) -> usize {
    place.saturating_mul(APART).saturating_add(BESIDE)
}

// The space in which this many lines come from one height to another.
fn swing_space(strands: usize) -> usize {
    strands.saturating_mul(STRAND).max(SWING)
}

// How many columns there are.
fn column_count(numbers: &[usize]) -> usize {
    let mut count = 0;
    for number in numbers {
        count = number.saturating_add(1).max(count);
    }
    count
}

// The column of this number, whose lines have ended their swing here.
fn column_from(
    figures: &[Figure],
    wires: &[Wire],
    places: &Places,
    number: usize,
    from: usize,
) -> Column {
    let delays = delays_width(wires, places, number);
    let downs = down_count(wires, places, number);
    let ups = up_count(wires, places, number);
    let left = from
        .saturating_add(downs.saturating_mul(APART))
        .saturating_add(delays)
        .saturating_add(BESIDE);
    let right = left.saturating_add(boxes_width(figures, places.numbers.as_slice(), number));
    Column {
        band: places.band(number),
        left,
        right,
        delays,
        downs,
        ups,
    }
}

// The width of the boxes of a column.
fn boxes_width(figures: &[Figure], numbers: &[usize], number: usize) -> usize {
    let mut most = 0;
    for place in 0..figures.len() {
        if let Some(figure) = figures.get(place) {
            if number_at(numbers, place) == number {
                most = figure.width().max(most);
            }
        }
    }
    most
}

// The width of the delays of what ends in a column.
fn delays_width(wires: &[Wire], places: &Places, number: usize) -> usize {
    let mut most = 0;
    for wire in wires {
        if places.column_of(wire.target) == number {
            most = delay_width(wire).max(most);
        }
    }
    most
}

// The width of a connection's delay.
fn delay_width(wire: &Wire) -> usize {
    match &wire.delay {
        Some(text) => text_width(text.as_str()).saturating_add(4),
        None => 0,
    }
}

// How many connections come down to a column.
fn down_count(wires: &[Wire], places: &Places, number: usize) -> usize {
    let mut count = 0usize;
    for wire in wires {
        if !places.is_forward(wire) && places.column_of(wire.target) == number {
            count = count.saturating_add(1);
        }
    }
    count
}

// How many connections go up from a column.
fn up_count(wires: &[Wire], places: &Places, number: usize) -> usize {
    let mut count = 0usize;
    for wire in wires {
        if !places.is_forward(wire) && places.column_of(wire.source) == number {
            count = count.saturating_add(1);
        }
    }
    count
}
