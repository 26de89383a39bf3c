//! Rows, read from the front of some bytes, and the bytes behind them.

ghost use Rattle.std.specs.Prelude.{◌≡◌, ◌++◌, ◌∷◌, [], OnOk, true, false, MatchOption, IfOk};
ghost use Rattle.std.specs.List.{flat_map};
ghost use Rattle.tag.specs.LogicalTime.{IsLogicalTime};
ghost use Rattle.signal.specs.Signal.{tag_bytes};
ghost use Rattle.signal.specs.Fault.{is_tag};
ghost use Rattle.signal.specs.Begun.{tag_of};
ghost use Rattle.files_reports.specs.Said.{AreSoMany, AreCounted, IsEntry, IsRowOf};
ghost use Rattle.files_reports.specs.Spelling.{counted, entry_bytes, row_bytes};
ghost use Rattle.files_reports.specs.Reading.{Gives, IsTaken, tag_part, entry_part, many, counted_part, row_part};

use crate::content_fault::ContentFault;
use crate::numbers::{number_of_eight, number_of_four};
use crate::read_fault::ReadFault;
use reactor::{Row, Rows};
use reactor_program::{Entries, Entry};
use signal::wire::{FOREVER_MICROSTEP, FOREVER_TIME};
use std::alloc::Global;
use tag::{Tag, Time};

/// A federate's rows, behind their count.
#[tactic(auto, unfolding(crate::specs::Reading::counted_part))]
pub fn rows_of(alloc: Global, federate: usize, bytes: &[u8]) -> Result<(Rows, &[u8]), ReadFault>
    ensures given { Gives (λ x. (x.0, x.1.now)) result (counted_part (row_part federate) bytes.now) }
    ensures taken { IfOk result (λ x.
        IsTaken (counted row_bytes) (AreCounted (IsRowOf federate)) bytes.now x.0 x.1.now) }
{
    let (count, rest) = number_of_eight(bytes)?;
    many_rows(alloc, federate, count, rest)
}

// This many of them.
fn many_rows(
    alloc: Global,
    federate: usize,
    count: u64,
    bytes: &[u8],
) -> Result<(Rows, &[u8]), ReadFault>
    ensures given { Gives (λ x. (x.0, x.1.now)) result (many (row_part federate) count bytes.now) }
    ensures taken { IfOk result (λ x.
        IsTaken (flat_map row_bytes) (AreSoMany (IsRowOf federate) count) bytes.now x.0 x.1.now) }
{
    let mut rows = Rows::new(alloc);
    let mut rest = bytes;
    for _ in 0..count {
        let (row, behind) = row_of(alloc, federate, rest)?;
        add(&mut rows, &row)?;
        rest = behind;
    }
    Ok((rows, rest))
}

fn add(rows: &mut Rows, row: &Row) -> Result<(), reactor::Memory>
    ensures { OnOk result (rows.new ≡ rows.old ++ row.now ∷ []) }
{
    rows.push(row.federate(), row.tag(), row.inputs(), row.outputs())
}

#[tactic(auto, unfolding(crate::specs::Reading::row_part))]
fn row_of(alloc: Global, federate: usize, bytes: &[u8]) -> Result<(Row, &[u8]), ReadFault>
    ensures given { Gives (λ x. (x.0, x.1.now)) result (row_part federate bytes.now) }
    ensures taken { IfOk result (λ x. IsTaken row_bytes (IsRowOf federate) bytes.now x.0 x.1.now) }
{
    let (tag, rest) = match tag_of(bytes) {
        Ok(taken) => taken,
        Err(fault) => return Err(fault),
    };
    let (inputs, rest) = entries_of(alloc, rest)?;
    let (outputs, rest) = entries_of(alloc, rest)?;
    let row = Row::new(federate, tag, Entries::new(inputs), Entries::new(outputs));
    Ok((row, rest))
}

#[tactic(auto, unfolding(crate::specs::Reading::tag_part))]
fn tag_of(bytes: &[u8]) -> Result<(Tag, &[u8]), ReadFault>
    ensures given { Gives (λ x. (x.0, x.1.now)) result (tag_part bytes.now) }
    ensures taken { IfOk result (λ x. IsTaken tag_bytes IsLogicalTime bytes.now x.0 x.1.now) }
{
    let (time, rest) = number_of_eight(bytes)?;
    let (microstep, rest) = number_of_four(rest)?;
    match tag_in(time, microstep) {
        Some(tag) => Ok((tag, rest)),
        None => Err(ReadFault::Content(ContentFault::BadTag)),
    }
}

// The tag of these two numbers, if they are those of one.
fn tag_in(time: u64, microstep: u32) -> Option<Tag>
    ensures { MatchOption result (is_tag true time microstep ≡ false)
        (λ tag. (is_tag true time microstep ≡ true) × (tag ≡ tag_of time microstep)) }
{
    match Time::new(time) {
        Some(time) => Some(Tag::new(time, microstep)),
        None if time == FOREVER_TIME && microstep == FOREVER_MICROSTEP => Some(Tag::FOREVER),
        None => None,
    }
}

// Entries, behind their count.
#[tactic(auto, unfolding(crate::specs::Reading::counted_part))]
fn entries_of(alloc: Global, bytes: &[u8]) -> Result<(Vec<Entry>, &[u8]), ReadFault>
    ensures given { Gives (λ x. (x.0.items, x.1.now)) result (counted_part entry_part bytes.now) }
    ensures taken { IfOk result (λ x. IsTaken (counted entry_bytes) (AreCounted IsEntry) bytes.now x.0.items x.1.now) }
{
    let (count, rest) = number_of_eight(bytes)?;
    many_entries(alloc, count, rest)
}

// This many of them.
fn many_entries(alloc: Global, count: u64, bytes: &[u8]) -> Result<(Vec<Entry>, &[u8]), ReadFault>
    ensures given { Gives (λ x. (x.0.items, x.1.now)) result (many entry_part count bytes.now) }
    ensures taken { IfOk result (λ x.
        IsTaken (flat_map entry_bytes) (AreSoMany IsEntry count) bytes.now x.0.items x.1.now) }
{
    let mut entries = Vec::new(alloc);
    let mut rest = bytes;
    for _ in 0..count {
        let (entry, behind) = match entry_of(rest) {
            Ok(taken) => taken,
            Err(fault) => return Err(fault),
        };
        entries.push(entry)?;
        rest = behind;
    }
    Ok((entries, rest))
}

#[tactic(auto, unfolding(crate::specs::Reading::entry_part))]
fn entry_of(bytes: &[u8]) -> Result<(Entry, &[u8]), ReadFault>
    ensures given { Gives (λ x. (x.0, x.1.now)) result (entry_part bytes.now) }
    ensures taken { IfOk result (λ x. IsTaken entry_bytes IsEntry bytes.now x.0 x.1.now) }
{
    let (place, rest) = number_of_eight(bytes)?;
    let (value, rest) = number_of_eight(rest)?;
    Ok((Entry::new(place as usize, value.cast_signed()), rest))
}
