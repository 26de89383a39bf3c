ghost use Rattle.std.specs.Prelude.{◌≡◌};
ghost use Rattle.sha2.specs.Sha256.{sha256};

use sha2::{Digest, Sha256};

/// Which files a run is of, by the SHA-256 of each.
#[derive(Clone, Copy, Debug, PartialEq, Eq)]
pub struct FileDigests {
    pub federation: [u8; 32],
    pub inputs: [u8; 32],
}

impl FileDigests {
    /// Of these two files' bytes.
    pub fn new(federation: &[u8], inputs: &[u8]) -> FileDigests
        ensures federation { result.federation ≡ sha256 federation.now }
        ensures inputs { result.inputs ≡ sha256 inputs.now }
    {
        FileDigests {
            federation: Sha256::digest(federation),
            inputs: Sha256::digest(inputs),
        }
    }
}
