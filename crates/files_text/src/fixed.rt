//! Bytes in room of a fixed size, so that a row's many small writes cost little.
ghost use Rattle.std.specs.Prelude.{◌≡◌, ◌+◌, ◌-◌, ◌≤◌, ◌++◌, [], MatchBool, length, take, drop};

use std::io;
use std::io::{ErrorKind, Write};
use std::marker::Model;

/// How many bytes there is room for.
const ROOM: usize = 32768;

/// Bytes, at most as many as there is room for. Contracts see the list of them.
#[derive(Drop)]
pub struct FixedBytes {
    bytes: [u8; ROOM],
    len: usize,
}

impl Model for FixedBytes {
    ghost use Rattle.std.specs.Prelude.{ℕ, List, take, ◌≤◌};

    ghost Value = { List ℕ };

    ghost view = { λ f. take f.len f.bytes };

    ghost invariant = { λ f. f.len ≤ 32768 };
}

impl FixedBytes {
    /// None yet.
    pub fn new() -> FixedBytes
        ensures { result ≡ [] }
    {
        FixedBytes {
            bytes: [0; ROOM],
            len: 0,
        }
    }

    pub fn as_slice(&self) -> &[u8]
        ensures { result.now ≡ self.now }
    {
        &self.bytes[..self.len]
    }

    /// Lets go of all.
    pub fn clear(&mut self)
        ensures { self.new ≡ [] }
    {
        self.len = 0;
    }

    // Adds bytes, if there is room for all of them.
    #[inline(always)]
    fn add(&mut self, bytes: &[u8]) -> bool
        ensures { MatchBool result (self.new ≡ self.old ++ bytes.now) (self.new ≡ self.old) }
    {
        if bytes.len() > ROOM - self.len {
            return false;
        }
        let end = self.len + bytes.len();
        copy(&mut self.bytes[self.len..end], bytes);
        self.len = end;
        true
    }
}

// Copies bytes. Of a few the first and the last are copied, and may overlap: that takes no call.
#[inline(always)]
fn copy(to: &mut [u8], from: &[u8])
    requires { length to.old ≡ length from.now }
    ensures { to.new ≡ from.now }
{
    match from.len() {
        0 => {}
        1 => to[0] = from[0],
        2 | 3 => copy_ends::<2>(to, from),
        4..=7 => copy_ends::<4>(to, from),
        8..=16 => copy_ends::<8>(to, from),
        _ => to.copy_from_slice(from),
    }
}

// Copies the first `N` bytes and the last `N`, which are all of them.
#[inline(always)]
fn copy_ends<const N: usize>(to: &mut [u8], from: &[u8])
    requires size { length to.old ≡ length from.now }
    requires within { N ≤ length from.now }
    requires all { length from.now ≤ N + N }
    ensures { to.new ≡ from.now }
{
    copy_first::<N>(to, from);
    copy_last::<N>(to, from);
}

#[inline(always)]
fn copy_first<const N: usize>(to: &mut [u8], from: &[u8])
    requires size { length to.old ≡ length from.now }
    requires within { N ≤ length from.now }
    ensures { to.new ≡ take N from.now ++ drop N to.old }
{
    if let (Some(to), Some(from)) = (to.first_chunk_mut::<N>(), from.first_chunk::<N>()) {
        *to = *from;
    }
}

#[inline(always)]
fn copy_last<const N: usize>(to: &mut [u8], from: &[u8])
    requires size { length to.old ≡ length from.now }
    requires within { N ≤ length from.now }
    ensures { to.new ≡ take (length from.now - N) to.old ++ drop (length from.now - N) from.now }
{
    if let (Some(to), Some(from)) = (to.last_chunk_mut::<N>(), from.last_chunk::<N>()) {
        *to = *from;
    }
}

/// A write is taken whole, or refused where there is no room for it.
impl Write for FixedBytes {
    ghost use Rattle.std.specs.Prelude.{Some};

    ghost contents = { λ f. Some f };

    fn write(&mut self, buf: &[u8]) -> io::Result<usize> {
        if self.add(buf) {
            return Ok(buf.len());
        }
        Ok(0)
    }

    fn flush(&mut self) -> io::Result<()> {
        Ok(())
    }

    #[inline(always)]
    fn write_all(&mut self, buf: &[u8]) -> io::Result<()> {
        if self.add(buf) {
            return Ok(());
        }
        Err(io::Error::from(ErrorKind::WriteZero))
    }
}
