ghost use Rattle.std.specs.Prelude.{◌≡◌, nat_eq, not};
ghost use Rattle.std.specs.List.{list_any};

use crate::hmac::{BLOCK_SIZE, block_of_key, hmac_of_parts};
use crate::sizes::PROOF_SIZE;
use std::marker::Model;
use std::net::IpAddr;

/// The fewest bytes of a secret.
pub const LEAST_SECRET: usize = 16;

/// The most bytes of a secret.
pub const MOST_SECRET: usize = 4096;

/// Why there is no key.
#[derive(Clone, Copy, Debug, PartialEq, Eq)]
pub enum SecretFault {
    /// The secret has fewer than 16 bytes, not counting zeros at its end, with which a key has the same proofs: whoever
    /// gave it makes a longer one.
    TooShort,
    /// The secret has more than 4,096 bytes: it is likely another file than was meant.
    TooLong,
    /// The address isn't a loopback address, and no secret was given: whoever gave the address gives a secret too.
    Missing,
}

/// What both sides prove to each other that they have: a secret, as HMAC-SHA-256 takes it, or none. There is no key
/// without a secret for another address than loopback.
#[derive(Clone, Copy)]
pub struct Key {
    block: [u8; BLOCK_SIZE],
}

impl Model for Key {
    ghost use Rattle.std.specs.Prelude.{List, ℕ};

    ghost Value = { List ℕ };

    ghost view = { λ key. key.block };

    ghost inverse = { λ block. record { block = block } };
}

impl Key {
    ghost use Rattle.std.specs.Prelude.{◌≡◌, ◌++◌, [], Some, None, MatchResult};
    ghost use Rattle.wires_greeting.specs.Hmac.{key_block, hmac_by};
    ghost use Rattle.wires_greeting.specs.Secret.{secret_fault, IsLoopback};

    /// The key of a secret.
    pub fn of_secret(secret: &[u8]) -> Result<Key, SecretFault>
        ensures { MatchResult result (λ key. (secret_fault secret.now ≡ None) × (key ≡ key_block secret.now))
            (λ fault. secret_fault secret.now ≡ Some fault) }
    {
        if secret.len() < LEAST_SECRET {
            return Err(SecretFault::TooShort);
        }
        if secret.len() > MOST_SECRET {
            return Err(SecretFault::TooLong);
        }
        if !has_more_than_zeros(&secret[LEAST_SECRET - 1..]) {
            return Err(SecretFault::TooShort);
        }
        Ok(Key {
            block: block_of_key(secret),
        })
    }

    /// The key where no secret was given, for connections to or from this address: the empty key, on loopback alone.
    pub fn without_secret(address: &IpAddr) -> Result<Key, SecretFault>
        ensures { MatchResult result (λ key. IsLoopback address.now × (key ≡ key_block []))
            (λ fault. (¬ IsLoopback address.now) × (fault ≡ SecretFault.Missing)) }
    {
        if !address.is_loopback() {
            return Err(SecretFault::Missing);
        }
        Ok(Key {
            block: block_of_key(b""),
        })
    }

    /// HMAC-SHA-256 of three parts, one behind the other.
    pub(crate) fn hmac(&self, first: &[u8], second: &[u8], third: &[u8]) -> [u8; PROOF_SIZE]
        ensures { result ≡ hmac_by self.now (first.now ++ second.now ++ third.now) }
    {
        hmac_of_parts(&self.block, first, second, third)
    }
}

// Whether one of these bytes isn't zero.
fn has_more_than_zeros(bytes: &[u8]) -> bool
    ensures { result ≡ list_any (λ byte. not (nat_eq byte 0)) bytes.now }
{
    bytes.iter().any(|byte| is_more_than_zero(*byte))
}

fn is_more_than_zero(byte: u8) -> bool
    ensures { result ≡ not (nat_eq byte 0) }
{
    byte != 0
}
