//! The counter's rows, worked by hand.
use reactor::{RowView, Rows};
use reactor_program::Entry;

/// A row's time in ns, what is present at slot 1 (a timer's value is 0), and what is set at output 0.
type Row = (u64, i64, i64);

/// The rows of each federate.
const ROWS: [[Row; 3]; 2] = [
    [(0, 0, 1), (10_000_000, 0, 2), (20_000_000, 0, 3)],
    [(0, 1, 1), (10_000_000, 2, 3), (20_000_000, 3, 6)],
];

fn is_row(row: &RowView<'_>, federate: usize, expected: &Row) -> bool {
    let (time, input, output) = *expected;
    row.federate() == federate
        && row.tag().time() == time
        && row.tag().microstep() == 0
        && row.inputs() == [Entry::new(1, input)].as_slice()
        && row.outputs() == [Entry::new(0, output)].as_slice()
}

/// Whether these are the first rows of a federate, this many.
pub(crate) fn are_first(rows: &Rows, federate: usize, count: usize) -> bool {
    let Some(expected) = ROWS.get(federate) else {
        return false;
    };
    for (place, row) in expected.iter().enumerate() {
        if place < rows.len() && !is_row(&rows.row(place), federate, row) {
            return false;
        }
    }
    rows.len() == count
}
