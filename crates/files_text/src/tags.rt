//! Numbers and tags, written as they are displayed.
ghost use Rattle.std.specs.Prelude.{◌++◌, OnOk, codes};
ghost use Rattle.std.specs.Fmt.{decimal, signed_decimal};
ghost use Rattle.std.specs.Io.KnownBytes.{Appends};
ghost use Rattle.tag.specs.Printed.{printed_time};
ghost use Rattle.files_text.specs.RowText.{spaced_tag};

use crate::put::{CannotWrite, put};
use itoa::Buffer;
use std::io::Write;
use tag::{Tag, Time, in_units};

/// Writes a tag between spaces. Digits of numbers are put together in the room that is passed in.
#[tactic(auto, unfolding(crate::specs::RowText::spaced_tag))]
pub fn write_tag<W: Write>(out: &mut W, digits: &mut Buffer, tag: Tag) -> Result<(), CannotWrite>
    ensures { OnOk result (Appends (W.contents out.old) (W.contents out.new) (spaced_tag tag)) }
{
    let time = tag.time();
    match Time::new(time) {
        Some(_) => {
            put(out, b" (")?;
            write_time(out, digits, time)?;
            write_microstep(out, digits, tag.microstep())
        }
        None => put(out, b" FOREVER "),
    }
}

// Writes a microstep after its time, and the end of the tag.
fn write_microstep<W: Write>(
    out: &mut W,
    digits: &mut Buffer,
    microstep: u32,
) -> Result<(), CannotWrite>
    ensures { OnOk result (Appends (W.contents out.old) (W.contents out.new)
        (codes ", " ++ (decimal microstep ++ codes ") "))) }
{
    if microstep == 0 {
        return put(out, b", 0) ");
    }
    put(out, b", ")?;
    write_count(out, digits, u64::from(microstep))?;
    put(out, b") ")
}

// Writes a time in the greatest unit that divides it.
fn write_time<W: Write>(out: &mut W, digits: &mut Buffer, time: u64) -> Result<(), CannotWrite>
    ensures { OnOk result (Appends (W.contents out.old) (W.contents out.new) (printed_time time)) }
{
    if time == 0 {
        return put(out, b"0");
    }
    let (count, unit) = in_units(time);
    write_count(out, digits, count)?;
    put(out, b" ")?;
    put(out, unit.as_bytes())
}

/// Writes a number.
#[inline(always)]
pub fn write_count<W: Write>(
    out: &mut W,
    digits: &mut Buffer,
    count: u64,
) -> Result<(), CannotWrite>
    ensures { OnOk result (Appends (W.contents out.old) (W.contents out.new) (decimal count)) }
{
    put(out, digits.format(count).as_bytes())
}

/// Writes a value.
#[inline(always)]
pub fn write_value<W: Write>(
    out: &mut W,
    digits: &mut Buffer,
    value: i64,
) -> Result<(), CannotWrite>
    ensures { OnOk result (Appends (W.contents out.old) (W.contents out.new) (signed_decimal value)) }
{
    put(out, digits.format(value).as_bytes())
}
