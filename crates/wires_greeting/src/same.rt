//! Comparing proofs.

ghost use Rattle.std.specs.Prelude.{◌≡◌, bytes_eq};

use crate::sizes::PROOF_SIZE;

/// Whether two proofs are the same. All bytes are compared, wherever the first difference is: how long it takes tells
/// nothing of a proof to whoever sends another.
pub fn is_same(proof: &[u8; PROOF_SIZE], other: &[u8; PROOF_SIZE]) -> bool
    ensures { result ≡ bytes_eq proof.now other.now }
{
    let mut difference = 0;
    for (i, byte) in proof.iter().enumerate() {
        difference |= byte ^ other[i];
    }
    difference == 0
}
