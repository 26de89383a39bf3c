//! The rows that a federation must have.
use crate::federation::Federation;
use reactor::{RowView, Rows};
use std::alloc::Global;
use whole::Whole;

/// The undivided program after all its turns; None where there is no memory for it.
pub fn undivided(alloc: Global, federation: &Federation) -> Option<Whole<'_>> {
    let mut whole = Whole::new(
        alloc,
        federation.plan(),
        federation.programs(),
        federation.inputs(),
    )
    .ok()?;
    whole.turns(u32::MAX).ok()?;
    Some(whole)
}

/// Whether two rows have the same tag, inputs and outputs.
pub fn is_same(row: &RowView<'_>, other: &RowView<'_>) -> bool {
    row.tag() == other.tag() && row.inputs() == other.inputs() && row.outputs() == other.outputs()
}

/// Whether these are a federate's rows among all.
pub fn are_rows_of(rows: &Rows, federate: usize, all: &Rows) -> bool {
    let mut next = 0;
    for place in 0..all.len() {
        let row = all.row(place);
        if row.federate() == federate {
            if next >= rows.len() || !is_same(&rows.row(next), &row) {
                return false;
            }
            next += 1;
        }
    }
    next == rows.len()
}
