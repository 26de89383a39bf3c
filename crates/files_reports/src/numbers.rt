//! Numbers at the front of some bytes, and the bytes behind them.

ghost use Rattle.std.specs.Prelude.{◌≡◌, ◌^◌, ◌<◌, ◌++◌, IfOk};
ghost use Rattle.byteorder.specs.Endian.{big_bytes};
ghost use Rattle.files_reports.specs.Reading.{Gives, number_part};

use crate::content_fault::ContentFault;
use crate::read_fault::ReadFault;
use byteorder::{BigEndian, ByteOrder};

pub fn number_of_two(bytes: &[u8]) -> Result<(u16, &[u8]), ReadFault>
    ensures given { Gives (λ x. (x.0, x.1.now)) result (number_part 2 bytes.now) }
    ensures taken { IfOk result (λ x. bytes.now ≡ big_bytes 2 x.0 ++ x.1.now) }
    ensures fits { IfOk result (λ x. x.0 < 2 ^ 16) }
{
    if bytes.len() < 2 {
        return Err(ReadFault::Content(ContentFault::Short));
    }
    let (front, rest) = bytes.split_at(2);
    Ok((BigEndian::read_u16(front), rest))
}

pub fn number_of_four(bytes: &[u8]) -> Result<(u32, &[u8]), ReadFault>
    ensures given { Gives (λ x. (x.0, x.1.now)) result (number_part 4 bytes.now) }
    ensures taken { IfOk result (λ x. bytes.now ≡ big_bytes 4 x.0 ++ x.1.now) }
    ensures fits { IfOk result (λ x. x.0 < 2 ^ 32) }
{
    if bytes.len() < 4 {
        return Err(ReadFault::Content(ContentFault::Short));
    }
    let (front, rest) = bytes.split_at(4);
    Ok((BigEndian::read_u32(front), rest))
}

pub fn number_of_eight(bytes: &[u8]) -> Result<(u64, &[u8]), ReadFault>
    ensures given { Gives (λ x. (x.0, x.1.now)) result (number_part 8 bytes.now) }
    ensures taken { IfOk result (λ x. bytes.now ≡ big_bytes 8 x.0 ++ x.1.now) }
    ensures fits { IfOk result (λ x. x.0 < 2 ^ 64) }
{
    if bytes.len() < 8 {
        return Err(ReadFault::Content(ContentFault::Short));
    }
    let (front, rest) = bytes.split_at(8);
    Ok((BigEndian::read_u64(front), rest))
}
