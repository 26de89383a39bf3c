//! Numbers at the front of some bytes, and the bytes behind them; and numbers as bytes.

ghost use Rattle.std.specs.Prelude.{◌≡◌, ◌<◌, ◌≤◌, ◌^◌, ◌++◌, length, drop};
ghost use Rattle.byteorder.specs.Endian.{big_bytes, big_number};

use byteorder::{BigEndian, ByteOrder};

pub fn take_two(bytes: &[u8]) -> (u16, &[u8])
    requires { 2 ≤ length bytes.now }
    ensures parts { bytes.now ≡ big_bytes 2 result.0 ++ result.1.now }
    ensures fits { result.0 < 2 ^ 16 }
{
    let (front, rest) = bytes.split_at(2);
    (BigEndian::read_u16(front), rest)
}

pub fn take_four(bytes: &[u8]) -> (u32, &[u8])
    requires { 4 ≤ length bytes.now }
    ensures value { result.0 ≡ big_number 4 bytes.now }
    ensures rest { result.1.now ≡ drop 4 bytes.now }
    ensures parts { bytes.now ≡ big_bytes 4 result.0 ++ result.1.now }
{
    let (front, rest) = bytes.split_at(4);
    (BigEndian::read_u32(front), rest)
}

pub fn take_eight(bytes: &[u8]) -> (u64, &[u8])
    requires { 8 ≤ length bytes.now }
    ensures value { result.0 ≡ big_number 8 bytes.now }
    ensures rest { result.1.now ≡ drop 8 bytes.now }
    ensures parts { bytes.now ≡ big_bytes 8 result.0 ++ result.1.now }
    ensures fits { result.0 < 2 ^ 64 }
{
    let (front, rest) = bytes.split_at(8);
    (BigEndian::read_u64(front), rest)
}

pub fn two_bytes(number: u16) -> [u8; 2]
    ensures { result ≡ big_bytes 2 number }
{
    let mut bytes = [0; 2];
    BigEndian::write_u16(&mut bytes, number);
    bytes
}

pub fn four_bytes(number: u32) -> [u8; 4]
    ensures { result ≡ big_bytes 4 number }
{
    let mut bytes = [0; 4];
    BigEndian::write_u32(&mut bytes, number);
    bytes
}

pub fn eight_bytes(number: u64) -> [u8; 8]
    ensures { result ≡ big_bytes 8 number }
{
    let mut bytes = [0; 8];
    BigEndian::write_u64(&mut bytes, number);
    bytes
}
