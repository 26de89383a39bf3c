//! Where the boxes of a federation and the lines between them stand, band by band from the top, and in each column by
//! column from the left.
use crate::columns::{Column, Places, all_columns};
use crate::figures::{Figure, Figures, Wire};
use crate::returns::{Along, Return, all_alongs, all_returns, lane_counts, lane_of, margin_count};
use crate::shapes::{Area, Ending, Ink, Line, Point, Stroke, number_at, put_number, zeros};
use std::alloc::{AllocError, Global};

/// The height that a line takes where it goes past the boxes of a column.
const LANE: usize = 12;

/// The space between boxes.
const APART: usize = 24;

/// The space above all.
const ABOVE: usize = 16;

/// Boxes and lines, as far as they are placed.
#[derive(Drop)]
pub(crate) struct Grid<'a> {
    figures: &'a [Figure],
    wires: &'a [Wire],
    places: Places,
    columns: Vec<Column>,
    /// How many lines go along above the boxes of each band.
    lanes: Vec<usize>,
    /// Where the boxes of each band begin, of those that are begun.
    firsts: Vec<usize>,
    /// The top of each box.
    tops: Vec<usize>,
    /// At which height each line came last.
    heights: Vec<usize>,
    /// A line for each connection.
    lines: Vec<Line>,
    /// Below all boxes and lines so far.
    bottom: usize,
}

/// What is to be placed in a column, in the order in which it is: a box, or a line that goes past.
#[derive(Clone, Copy, Debug, PartialEq, Eq, PartialOrd, Ord)]
struct Waiting {
    /// Where its top is wanted.
    wanted: usize,
    /// A federate's rank; of lines, more than that.
    order: usize,
    /// The number of the federate, or of the connection.
    number: usize,
    is_box: bool,
}

impl<'a> Grid<'a> {
    /// All boxes and lines, placed.
    pub(crate) fn placed(alloc: Global, all: &'a Figures) -> Result<Grid<'a>, AllocError> {
        let figures = all.figures.as_slice();
        let wires = all.wires.as_slice();
        let places = Places::new(alloc, figures, wires)?;
        let margin = margin_count(wires, &places);
        let columns = all_columns(alloc, figures, wires, &places, margin)?;
        let back = all_returns(alloc, wires, &places, columns.as_slice())?;
        let alongs = all_alongs(alloc, back.as_slice())?;
        let lanes = lane_counts(alloc, alongs.as_slice(), places.bands.len())?;
        let tops = zeros(alloc, figures.len())?;
        let heights = zeros(alloc, wires.len())?;
        let lines = blank_lines(alloc, wires, &places)?;
        let mut grid = Grid {
            figures,
            wires,
            places,
            columns,
            lanes,
            firsts: Vec::new(alloc),
            tops,
            heights,
            lines,
            bottom: 0,
        };
        grid.place_columns(alloc)?;
        grid.draw_returns(back.as_slice(), alongs.as_slice())?;
        Ok(grid)
    }

    /// A federate's box.
    pub(crate) fn area(&self, number: usize) -> Area {
        let column = self.column_of(number);
        let height = match self.figures.get(number) {
            Some(figure) => figure.height(),
            None => 0,
        };
        Area {
            left: column.left,
            top: number_at(self.tops.as_slice(), number),
            width: column.right.saturating_sub(column.left),
            height,
        }
    }

    /// Right of all.
    pub(crate) fn right(&self) -> usize {
        let mut right = 0;
        for column in self.columns.as_slice() {
            right = column.swing_begin().max(right);
        }
        right.saturating_add(ABOVE)
    }

    /// Below all.
    pub(crate) fn bottom(&self) -> usize {
        self.bottom
    }

    /// The lines, taken out.
    pub(crate) fn into_lines(self) -> Vec<Line> {
        self.lines
    }

    // The column of a federate.
    fn column_of(&self, figure: usize) -> Column {
        self.column(self.places.column_of(figure))
    }

    // The column of this number.
    fn column(&self, number: usize) -> Column {
        match self.columns.get(number) {
            Some(column) => *column,
            None => Column {
                band: 0,
                left: 0,
                right: 0,
                delays: 0,
                downs: 0,
                ups: 0,
            },
        }
    }

    // Places all columns, band by band from the left.
    fn place_columns(&mut self, alloc: Global) -> Result<(), AllocError> {
        for number in 0..self.columns.len() {
            let band = self.places.band(number);
            self.begin_band(band)?;
            self.place_column(alloc, number)?;
        }
        Ok(())
    }

    // Where a band isn't begun, it begins below all that is placed: with its lines, and then its boxes.
    fn begin_band(&mut self, band: usize) -> Result<(), AllocError> {
        if self.firsts.len() <= band {
            let lanes = number_at(self.lanes.as_slice(), band);
            let first = self.bottom.saturating_add(height_above_boxes(lanes));
            self.firsts.push(first)?;
        }
        Ok(())
    }

    // Places what stands in a column and what goes past there, each as high as it is wanted where there is room.
    fn place_column(&mut self, alloc: Global, number: usize) -> Result<(), AllocError> {
        let waiting = self.waiting(alloc, number)?;
        let mut from = number_at(self.firsts.as_slice(), self.places.band(number));
        for each in waiting.as_slice() {
            let top = each.wanted.max(from);
            from = self.place(number, *each, top)?;
        }
        self.bottom = from.max(self.bottom);
        Ok(())
    }

    // What is to be placed in a column, in order.
    fn waiting(&self, alloc: Global, number: usize) -> Result<Vec<Waiting>, AllocError> {
        let mut waiting = Vec::new(alloc);
        self.add_boxes(&mut waiting, number)?;
        self.add_passing(&mut waiting, number)?;
        waiting.sort()?;
        Ok(waiting)
    }

    // Adds the boxes of a column.
    fn add_boxes(&self, waiting: &mut Vec<Waiting>, number: usize) -> Result<(), AllocError> {
        for place in 0..self.figures.len() {
            if self.places.column_of(place) == number {
                waiting.push(Waiting {
                    wanted: self.wanted_top(place),
                    order: self.rank(place),
                    number: place,
                    is_box: true,
                })?;
            }
        }
        Ok(())
    }

    // Adds the lines that go past in a column.
    fn add_passing(&self, waiting: &mut Vec<Waiting>, number: usize) -> Result<(), AllocError> {
        for place in 0..self.wires.len() {
            if self.goes_past(place, number) {
                let height = number_at(self.heights.as_slice(), place);
                waiting.push(Waiting {
                    wanted: height.saturating_sub(LANE / 2),
                    order: self.figures.len().saturating_add(place),
                    number: place,
                    is_box: false,
                })?;
            }
        }
        Ok(())
    }

    // A federate's rank.
    fn rank(&self, figure: usize) -> usize {
        match self.figures.get(figure) {
            Some(figure) => figure.rank,
            None => 0,
        }
    }

    // Whether a connection goes to the right past a column.
    fn goes_past(&self, wire: usize, number: usize) -> bool {
        match self.wires.get(wire) {
            Some(wire) => {
                self.places.is_forward(wire)
                    && self.places.column_of(wire.source) < number
                    && number < self.places.column_of(wire.target)
            }
            None => false,
        }
    }

    // Where the top of a box has to be, on average, for the lines to it to go straight, or 0 where there are none.
    fn wanted_top(&self, figure: usize) -> usize {
        let mut sum = 0usize;
        let mut count = 0usize;
        for place in 0..self.wires.len() {
            if let Some(wire) = self.wires.get(place) {
                if wire.target == figure && self.places.is_forward(wire) {
                    let height = number_at(self.heights.as_slice(), place);
                    let top = height.saturating_sub(Figure::port_drop(wire.input));
                    sum = sum.saturating_add(top);
                    count = count.saturating_add(1);
                }
            }
        }
        if count == 0 { 0 } else { sum / count }
    }

    // Places a box or a line in a column, and says where the next may begin.
    fn place(&mut self, number: usize, each: Waiting, top: usize) -> Result<usize, AllocError> {
        if each.is_box {
            self.place_box(each.number, top)
        } else {
            let height = top.saturating_add(LANE / 2);
            self.pass(number, each.number, height)?;
            Ok(top.saturating_add(LANE))
        }
    }

    // Places a box: lines end there, and begin there.
    fn place_box(&mut self, figure: usize, top: usize) -> Result<usize, AllocError> {
        put_number(&mut self.tops, figure, top);
        for wire in 0..self.wires.len() {
            self.end_line(wire, figure, top)?;
            self.begin_line(wire, figure, top)?;
        }
        Ok(self.area(figure).bottom().saturating_add(APART))
    }

    // Where a line goes to the right to this box, it ends there.
    fn end_line(&mut self, wire: usize, figure: usize, top: usize) -> Result<(), AllocError> {
        let Some(input) = self.input_at(wire, figure) else {
            return Ok(());
        };
        let column = self.column_of(figure);
        let y = top.saturating_add(Figure::port_drop(input));
        self.lead(wire, column.swing_end(), y)?;
        self.lead(wire, column.left, y)
    }

    // Where a line goes to the right from this box, it begins there.
    fn begin_line(&mut self, wire: usize, figure: usize, top: usize) -> Result<(), AllocError> {
        let Some(output) = self.output_at(wire, figure) else {
            return Ok(());
        };
        let column = self.column_of(figure);
        let y = top.saturating_add(Figure::port_drop(output));
        self.lead(wire, column.right, y)?;
        self.lead(wire, column.swing_begin(), y)
    }

    // A line goes past a column at a height.
    fn pass(&mut self, number: usize, wire: usize, y: usize) -> Result<(), AllocError> {
        let column = self.column(number);
        self.lead(wire, column.swing_end(), y)?;
        self.lead(wire, column.swing_begin(), y)
    }

    // The input at which a connection to the right ends, where that is at this federate.
    fn input_at(&self, wire: usize, figure: usize) -> Option<usize> {
        let wire = self.wires.get(wire)?;
        if wire.target == figure && self.places.is_forward(wire) {
            Some(wire.input)
        } else {
            None
        }
    }

    // The output at which a connection to the right begins, where that is at this federate.
    fn output_at(&self, wire: usize, figure: usize) -> Option<usize> {
        let wire = self.wires.get(wire)?;
        if wire.source == figure && self.places.is_forward(wire) {
            Some(wire.output)
        } else {
            None
        }
    }

    // A line goes on to a point.
    fn lead(&mut self, wire: usize, x: usize, y: usize) -> Result<(), AllocError> {
        put_number(&mut self.heights, wire, y);
        if let Some(line) = self.lines.get_mut(wire) {
            line.lead(Point { x, y })?;
        }
        Ok(())
    }

    // The lines of connections that aren't drawn to the right within a band.
    fn draw_returns(&mut self, back: &[Return], alongs: &[Along]) -> Result<(), AllocError> {
        for each in back {
            self.draw_return(*each, alongs)?;
        }
        Ok(())
    }

    // The line of such a connection: out, up, along, down and in. Between two bands it goes left of all columns.
    fn draw_return(&mut self, back: Return, alongs: &[Along]) -> Result<(), AllocError> {
        let (from, to) = self.ends(back.wire);
        let first = self.along_height(alongs, back.wire, back.first_band);
        let last = self.along_height(alongs, back.wire, back.last_band);
        self.lead(back.wire, from.x, from.y)?;
        self.lead(back.wire, back.up, from.y)?;
        self.lead(back.wire, back.up, first)?;
        if back.changes_band() {
            self.lead(back.wire, back.margin, first)?;
            self.lead(back.wire, back.margin, last)?;
        }
        self.lead(back.wire, back.down, last)?;
        self.lead(back.wire, back.down, to.y)?;
        self.lead(back.wire, to.x, to.y)
    }

    // At which height a line goes along above the boxes of a band.
    fn along_height(&self, alongs: &[Along], wire: usize, band: usize) -> usize {
        let first = number_at(self.firsts.as_slice(), band);
        lane_height(first, lane_of(alongs, wire, band))
    }

    /// The ports of a connection.
    pub(crate) fn ends(&self, wire: usize) -> (Point, Point) {
        match self.wires.get(wire) {
            Some(wire) => (
                self.output_point(wire.source, wire.output),
                self.input_point(wire.target, wire.input),
            ),
            None => (Point { x: 0, y: 0 }, Point { x: 0, y: 0 }),
        }
    }

    /// Where an input port stands.
    pub(crate) fn input_point(&self, figure: usize, place: usize) -> Point {
        let area = self.area(figure);
        Point {
            x: area.left,
            y: area.top.saturating_add(Figure::port_drop(place)),
        }
    }

    /// Where an output port stands.
    pub(crate) fn output_point(&self, figure: usize, place: usize) -> Point {
        let area = self.area(figure);
        Point {
            x: area.right(),
            y: area.top.saturating_add(Figure::port_drop(place)),
        }
    }
}

// The height of this many lines that go along above boxes, with the space around them.
fn height_above_boxes(lanes: usize) -> usize {
    lanes.saturating_mul(LANE).saturating_add(ABOVE + APART / 2)
}

// The height of a lane above the boxes.
fn lane_height(first: usize, lane: usize) -> usize {
    first
        .saturating_sub(APART / 2)
        .saturating_sub(lane.saturating_mul(LANE))
}

// A line for each connection, without points.
fn blank_lines(alloc: Global, wires: &[Wire], places: &Places) -> Result<Vec<Line>, AllocError> {
    let mut lines = Vec::new(alloc);
    for wire in wires {
        let bends = places.does_swing(wire);
        lines.push(blank_line(alloc, wire.delay.is_some(), bends))?;
    }
    Ok(lines)
}

fn blank_line(alloc: Global, is_dashed: bool, bends: bool) -> Line {
    Line {
        points: Vec::new(alloc),
        stroke: Stroke {
            ink: Ink::Plain,
            is_dashed,
            ending: Ending::Plain,
        },
        bends,
    }
}
