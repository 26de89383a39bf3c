//! The bytes of numbers, tags and entries, written behind others.

ghost use Rattle.std.specs.Prelude.{◌≡◌, ◌++◌, OnOk};
ghost use Rattle.byteorder.specs.Endian.{big_bytes};
ghost use Rattle.tag.specs.LogicalTime.{IsLogicalTime};
ghost use Rattle.signal.specs.Signal.{tag_number_bytes, tag_bytes};
ghost use Rattle.files_reports.specs.Said.{IsEntry, AreCounted};
ghost use Rattle.files_reports.specs.Spelling.{counted, entry_bytes};

use crate::memory::Memory;
use byteorder::{BigEndian, ByteOrder};
use reactor_program::Entry;
use signal::wire::{FOREVER_MICROSTEP, FOREVER_TIME};
use tag::Tag;

/// Appends bytes as they are.
pub fn append(bytes: &mut Vec<u8>, more: &[u8]) -> Result<(), Memory>
    ensures { OnOk result (bytes.new.items ≡ bytes.old.items ++ more.now) }
{
    bytes.extend_from_slice(more)?;
    Ok(())
}

pub fn append_two(bytes: &mut Vec<u8>, number: u16) -> Result<(), Memory>
    ensures { OnOk result (bytes.new.items ≡ bytes.old.items ++ big_bytes 2 number) }
{
    let mut two = [0; 2];
    BigEndian::write_u16(&mut two, number);
    append(bytes, &two)
}

pub fn append_eight(bytes: &mut Vec<u8>, number: u64) -> Result<(), Memory>
    ensures { OnOk result (bytes.new.items ≡ bytes.old.items ++ big_bytes 8 number) }
{
    let mut eight = [0; 8];
    BigEndian::write_u64(&mut eight, number);
    append(bytes, &eight)
}

pub fn append_tag(bytes: &mut Vec<u8>, tag: Tag) -> Result<(), Memory>
    ensures written { OnOk result (bytes.new.items ≡ bytes.old.items ++ tag_bytes tag) }
    ensures is_tag { IsLogicalTime tag }
{
    tag.invariant();
    append(bytes, &tag_number_bytes(numbers_of(tag)))
}

// The tag's two numbers in its bytes.
fn numbers_of(tag: Tag) -> (u64, u32)
    ensures { tag_bytes tag ≡ tag_number_bytes result.0 result.1 }
{
    tag.invariant();
    if tag.is_forever() {
        (FOREVER_TIME, FOREVER_MICROSTEP)
    } else {
        (tag.time(), tag.microstep())
    }
}

fn tag_number_bytes(numbers: (u64, u32)) -> [u8; 12]
    ensures { result ≡ tag_number_bytes numbers.0 numbers.1 }
{
    let mut bytes = [0; 12];
    BigEndian::write_u64(&mut bytes, numbers.0);
    BigEndian::write_u32(&mut bytes[8..], numbers.1);
    bytes
}

/// Appends entries behind their count.
pub fn append_entries(bytes: &mut Vec<u8>, entries: &[Entry]) -> Result<(), Memory>
    ensures written { OnOk result (bytes.new.items ≡ bytes.old.items ++ counted entry_bytes entries.now) }
    ensures are_entries { OnOk result (AreCounted IsEntry entries.now) }
{
    append_eight(bytes, entries.len() as u64)?;
    for entry in entries {
        append_entry(bytes, *entry)?;
    }
    Ok(())
}

fn append_entry(bytes: &mut Vec<u8>, entry: Entry) -> Result<(), Memory>
    ensures written { OnOk result (bytes.new.items ≡ bytes.old.items ++ entry_bytes entry) }
    ensures is_entry { OnOk result (IsEntry entry) }
{
    append_eight(bytes, entry.place() as u64)?;
    append_eight(bytes, entry.value().cast_unsigned())
}
