//! Where two lists of rows differ.
ghost use Rattle.std.specs.Prelude.{◌≡◌, ◌↔◌, IsTrue, MatchOption};
ghost use Rattle.recorder_reports.specs.Difference.{DifferAt};

use reactor::{RowView, Rows};
use reactor_program::Entry;
use tag::Tag;

/// The first place, counted from 1, at which they differ. Where one is a prefix of the other, it is the place after the
/// shorter one.
pub fn first_difference(rows: &Rows, others: &Rows) -> Option<usize>
    ensures { MatchOption result (rows.now ≡ others.now) (DifferAt rows.now others.now) }
{
    let shorter = rows.len().min(others.len());
    for place in 0..shorter {
        if !are_same(&rows.row(place), &others.row(place)) {
            return Some(place + 1);
        }
    }
    if rows.len() == others.len() {
        None
    } else {
        Some(shorter + 1)
    }
}

// Whether two rows are the same.
fn are_same(row: &RowView, other: &RowView) -> bool
    ensures { IsTrue result ↔ (row.now ≡ other.now) }
{
    row.federate() == other.federate()
        && is_same_tag(row.tag(), other.tag())
        && are_same_entries(row.inputs(), other.inputs())
        && are_same_entries(row.outputs(), other.outputs())
}

// Whether two tags are the same.
fn is_same_tag(tag: Tag, other: Tag) -> bool
    ensures { IsTrue result ↔ (tag ≡ other) }
{
    tag == other
}

// Whether two lists of entries are the same.
fn are_same_entries(entries: &[Entry], others: &[Entry]) -> bool
    ensures { IsTrue result ↔ (entries.now ≡ others.now) }
{
    if entries.len() != others.len() {
        return false;
    }
    for place in 0..entries.len() {
        if !is_same_entry(entries[place], others[place]) {
            return false;
        }
    }
    true
}

// Whether two entries are the same.
fn is_same_entry(entry: Entry, other: Entry) -> bool
    ensures { IsTrue result ↔ (entry ≡ other) }
{
    entry.place() == other.place() && entry.value() == other.value()
}
