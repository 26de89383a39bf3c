//! Numbers at the front of some bytes, and the bytes behind them.

ghost use Rattle.std.specs.Prelude.{◌≡◌, ◌≤◌, ◌++◌, length, drop};
ghost use Rattle.byteorder.specs.Endian.{big_bytes, big_number};

use byteorder::{BigEndian, ByteOrder};

pub fn take_u16(bytes: &[u8]) -> (u16, &[u8])
    requires { 2 ≤ length bytes.now }
    ensures value { result.0 ≡ big_number 2 bytes.now }
    ensures rest { result.1.now ≡ drop 2 bytes.now }
    ensures parts { bytes.now ≡ big_bytes 2 result.0 ++ result.1.now }
{
    let (front, rest) = bytes.split_at(2);
    (BigEndian::read_u16(front), rest)
}

pub fn take_u32(bytes: &[u8]) -> (u32, &[u8])
    requires { 4 ≤ length bytes.now }
    ensures value { result.0 ≡ big_number 4 bytes.now }
    ensures rest { result.1.now ≡ drop 4 bytes.now }
    ensures parts { bytes.now ≡ big_bytes 4 result.0 ++ result.1.now }
{
    let (front, rest) = bytes.split_at(4);
    (BigEndian::read_u32(front), rest)
}

pub fn take_u64(bytes: &[u8]) -> (u64, &[u8])
    requires { 8 ≤ length bytes.now }
    ensures value { result.0 ≡ big_number 8 bytes.now }
    ensures rest { result.1.now ≡ drop 8 bytes.now }
    ensures parts { bytes.now ≡ big_bytes 8 result.0 ++ result.1.now }
{
    let (front, rest) = bytes.split_at(8);
    (BigEndian::read_u64(front), rest)
}
