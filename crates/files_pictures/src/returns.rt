//! The connections that aren't drawn to the right within a band: where they go up, along and down, and from one band to
//! another.
use crate::columns::{APART, Column, Places, margin_at};
use crate::figures::Wire;
use crate::shapes::{number_at, put_number, zeros};
use std::alloc::{AllocError, Global};

/// The line of such a connection: it leaves its source to the right, goes along above the boxes of a band, and comes to
/// its target from the left. Where it has to go along above those of another band too, it goes there left of all
/// columns.
#[derive(Clone, Copy, Debug, PartialEq, Eq)]
pub(crate) struct Return {
    pub wire: usize,
    /// Where it goes up or down from its source.
    pub up: usize,
    /// Where it comes down to its target.
    pub down: usize,
    /// Above the boxes of which band it goes along first, and last.
    pub first_band: usize,
    pub last_band: usize,
    /// Where it goes from one to the other.
    pub margin: usize,
}

impl Return {
    /// Whether it goes from one band to another left of all columns.
    pub(crate) fn changes_band(self) -> bool {
        self.first_band != self.last_band
    }
}

/// A part of such a line that goes along above the boxes of a band. Ordered by how far it goes.
#[derive(Clone, Copy, Debug, PartialEq, Eq, PartialOrd, Ord)]
pub(crate) struct Along {
    pub span: usize,
    pub wire: usize,
    pub band: usize,
    pub left: usize,
    pub right: usize,
    /// How many lines are between it and the boxes.
    pub lane: usize,
}

// The bands above whose boxes a connection goes along first and last: one to a lower band leaves its own below.
fn bands_of(places: &Places, wire: &Wire) -> (usize, usize) {
    let source = places.band_of(wire.source);
    let target = places.band_of(wire.target);
    if source < target {
        (source.saturating_add(1), target)
    } else {
        (source, target)
    }
}

/// How many connections go from one band to another left of all columns.
pub(crate) fn margin_count(wires: &[Wire], places: &Places) -> usize {
    let mut count = 0usize;
    for wire in wires {
        if !places.is_forward(wire) {
            let (first, last) = bands_of(places, wire);
            if first != last {
                count = count.saturating_add(1);
            }
        }
    }
    count
}

/// All of them.
pub(crate) fn all_returns(
    alloc: Global,
    wires: &[Wire],
    places: &Places,
    columns: &[Column],
) -> Result<Vec<Return>, AllocError> {
    let mut ups = zeros(alloc, columns.len())?;
    let mut downs = zeros(alloc, columns.len())?;
    let mut margins = 0usize;
    let mut found = Vec::new(alloc);
    for place in 0..wires.len() {
        if let Some(wire) = wires.get(place) {
            if !places.is_forward(wire) {
                let (first_band, last_band) = bands_of(places, wire);
                let up = next_up(columns, &mut ups, places.column_of(wire.source)).saturating_add(
                    aside(places, wire),
                );
                let down = next_down(columns, &mut downs, places.column_of(wire.target));
                let margin = next_margin(&mut margins, first_band != last_band);
                found.push(Return {
                    wire: place,
                    up,
                    down,
                    first_band,
                    last_band,
                    margin,
                })?;
            }
        }
    }
    Ok(found)
}

// Where the next line goes from one band to another, if it does.
fn next_margin(used: &mut usize, changes_band: bool) -> usize {
    let place = *used;
    if changes_band {
        *used = place.saturating_add(1);
    }
    margin_at(place)
}

// Where the next line goes up, right of a column.
fn next_up(columns: &[Column], ups: &mut Vec<usize>, number: usize) -> usize {
    let used = number_at(ups.as_slice(), number);
    put_number(ups, number, used.saturating_add(1));
    match columns.get(number) {
        Some(column) => column.up_at(used),
        None => 0,
    }
}

// How far right of that a line goes down to a lower band: columns of two bands often stand below each other, and it
// shall lie on none that goes up from the band below.
fn aside(places: &Places, wire: &Wire) -> usize {
    if places.band_of(wire.source) < places.band_of(wire.target) {
        APART / 2
    } else {
        0
    }
}

// Where the next line comes down, left of a column.
fn next_down(columns: &[Column], downs: &mut Vec<usize>, number: usize) -> usize {
    let used = number_at(downs.as_slice(), number);
    put_number(downs, number, used.saturating_add(1));
    match columns.get(number) {
        Some(column) => column.down_at(used),
        None => 0,
    }
}

/// Where their lines go along, shorter parts nearer to the boxes.
pub(crate) fn all_alongs(alloc: Global, returns: &[Return]) -> Result<Vec<Along>, AllocError> {
    let mut alongs = Vec::new(alloc);
    for each in returns {
        add_alongs(&mut alongs, *each)?;
    }
    alongs.sort()?;
    give_lanes(&mut alongs);
    Ok(alongs)
}

// Adds where the line of a connection goes along: in one band, or in two.
fn add_alongs(alongs: &mut Vec<Along>, each: Return) -> Result<(), AllocError> {
    if each.changes_band() {
        alongs.push(part_along(each.wire, each.first_band, each.up, each.margin))?;
        alongs.push(part_along(each.wire, each.last_band, each.margin, each.down))?;
    } else {
        alongs.push(part_along(each.wire, each.first_band, each.up, each.down))?;
    }
    Ok(())
}

// A part of a line that goes along between two places, in lane 0.
fn part_along(wire: usize, band: usize, one: usize, other: usize) -> Along {
    Along {
        span: one.abs_diff(other),
        wire,
        band,
        left: one.min(other),
        right: one.max(other),
        lane: 0,
    }
}

// Each gets the lowest lane in which it meets none before it.
fn give_lanes(alongs: &mut Vec<Along>) {
    for place in 0..alongs.len() {
        let lane = free_lane(alongs.as_slice(), place);
        if let Some(mine) = alongs.get_mut(place) {
            mine.lane = lane;
        }
    }
}

// The lowest lane in which this one meets none before it.
fn free_lane(alongs: &[Along], place: usize) -> usize {
    for lane in 0..place {
        if is_free(alongs, place, lane) {
            return lane;
        }
    }
    place
}

// Whether none before this one meets it in a lane.
fn is_free(alongs: &[Along], place: usize, lane: usize) -> bool {
    let Some(mine) = alongs.get(place) else {
        return true;
    };
    for before in 0..place {
        if let Some(other) = alongs.get(before) {
            if other.lane == lane && do_meet(mine, other) {
                return false;
            }
        }
    }
    true
}

// Whether two of them would meet in one lane.
fn do_meet(one: &Along, other: &Along) -> bool {
    one.band == other.band && one.left <= other.right && other.left <= one.right
}

/// How many lanes there are above the boxes of each of this many bands.
pub(crate) fn lane_counts(
    alloc: Global,
    alongs: &[Along],
    bands: usize,
) -> Result<Vec<usize>, AllocError> {
    let mut counts = zeros(alloc, bands)?;
    for each in alongs {
        let count = each.lane.saturating_add(1);
        let most = number_at(counts.as_slice(), each.band).max(count);
        put_number(&mut counts, each.band, most);
    }
    Ok(counts)
}

/// The lane in which the line of a connection goes along above the boxes of a band.
pub(crate) fn lane_of(alongs: &[Along], wire: usize, band: usize) -> usize {
    for each in alongs {
        if each.wire == wire && each.band == band {
            return each.lane;
        }
    }
    0
}
