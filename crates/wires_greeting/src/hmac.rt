//! HMAC-SHA-256.

ghost use Rattle.std.specs.Prelude.{◌≡◌, ◌≤◌, ◌++◌, length};
ghost use Rattle.sha2.specs.Sha256.{sha256};
ghost use Rattle.wires_greeting.specs.Hmac.{key_block, filled, padded, hmac_by, hmac};

use crate::sizes::PROOF_SIZE;
use sha2::{Digest, Sha256};

/// Bytes of a block of SHA-256.
pub const BLOCK_SIZE: usize = 64;

/// What each byte of the key is changed by within the inner hash.
pub const INNER_PAD: u8 = 0x36;

/// What each byte of the key is changed by within the outer hash.
pub const OUTER_PAD: u8 = 0x5c;

/// HMAC-SHA-256 of a message, by a key of any length.
pub fn hmac_sha256(key: &[u8], message: &[u8]) -> [u8; PROOF_SIZE]
    ensures { result ≡ hmac key.now message.now }
{
    hmac_of_parts(&block_of_key(key), message, b"", b"")
}

/// HMAC-SHA-256 of three parts, one behind the other, by the block that a key fills.
pub fn hmac_of_parts(
    block: &[u8; BLOCK_SIZE],
    first: &[u8],
    second: &[u8],
    third: &[u8],
) -> [u8; PROOF_SIZE]
    ensures { result ≡ hmac_by block.now (first.now ++ second.now ++ third.now) }
{
    let inner = digest_behind(&pad(block, INNER_PAD), first, second, third);
    digest_behind(&pad(block, OUTER_PAD), &inner, b"", b"")
}

// SHA-256 of a block and three parts behind it.
fn digest_behind(
    block: &[u8; BLOCK_SIZE],
    first: &[u8],
    second: &[u8],
    third: &[u8],
) -> [u8; PROOF_SIZE]
    ensures { result ≡ sha256 (block.now ++ (first.now ++ second.now ++ third.now)) }
{
    let mut hasher = Sha256::new();
    hasher.update(block);
    hasher.update(first);
    hasher.update(second);
    hasher.update(third);
    hasher.finalize()
}

/// The key in a block's bytes: hashed where it is longer, and filled up with zeros.
pub fn block_of_key(key: &[u8]) -> [u8; BLOCK_SIZE]
    ensures { result ≡ key_block key.now }
{
    if key.len() > BLOCK_SIZE {
        fill(&Sha256::digest(key))
    } else {
        fill(key)
    }
}

// Fills a block up with zeros.
fn fill(key: &[u8]) -> [u8; BLOCK_SIZE]
    requires { length key.now ≤ BLOCK_SIZE }
    ensures { result ≡ filled key.now }
{
    let mut block = [0; BLOCK_SIZE];
    block[..key.len()].copy_from_slice(key);
    block
}

// The block with each byte changed.
fn pad(block: &[u8; BLOCK_SIZE], pad: u8) -> [u8; BLOCK_SIZE]
    ensures { result ≡ padded pad block.now }
{
    let mut changed = *block;
    change(&mut changed, pad);
    changed
}

fn change(block: &mut [u8], pad: u8)
    ensures { block.new ≡ padded pad block.old }
{
    for byte in block.iter_mut() {
        *byte ^= pad;
    }
}
