//! Sums of bytes.

ghost use Rattle.std.specs.Prelude.{◌≡◌, ◌<◌, ◌^◌, length};
ghost use Rattle.files_logs.specs.Sums as sums;

use crate::numbers::{eight_bytes, four_bytes};
use std::hash::{DefaultHasher, Hasher};

/// The sum of some bytes.
pub fn sum_of(bytes: &[u8]) -> u64
    ensures { result ≡ sums.sum_of bytes.now }
{
    let mut hasher = DefaultHasher::new();
    hasher.write(bytes);
    hasher.finish()
}

/// The check of a size behind a sum.
pub fn size_check(before: u64, size: u32) -> u32
    ensures { result ≡ sums.size_check before size }
{
    let mut hasher = DefaultHasher::new();
    hasher.write(&eight_bytes(before));
    hasher.write(&four_bytes(size));
    (hasher.finish() % (1 << 32)) as u32
}

/// The sum of a block that says this, behind a sum.
pub fn block_sum(before: u64, said: &[u8]) -> u64
    requires { length said.now < 2 ^ 32 }
    ensures { result ≡ sums.block_sum before said.now }
{
    let mut hasher = DefaultHasher::new();
    hasher.write(&eight_bytes(before));
    hasher.write(&four_bytes(said.len() as u32));
    hasher.write(said);
    hasher.finish()
}
