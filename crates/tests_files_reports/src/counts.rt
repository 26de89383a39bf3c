//! Files whose digest is right, with counts that they have no bytes for: each is refused as soon as its bytes end, and
//! no room is taken before that.
use crate::worked::{digests, file};
use files_reports::{ContentFault, ReadFault, read_report};
use sha2::{Digest, Sha256};
use std::alloc::{AllocError, Global};

/// What is said: of federate 0 more rows, and of the coordinator more events, than there is memory for; and of federate
/// 0 a row at the first tag with more inputs, and with more outputs.
const TOO_MANY: &[&[u8]] = &[
    &[0, 0, 255, 255, 255, 255, 255, 255, 255, 255],
    &[255, 255, 255, 255, 255, 255, 255, 255, 255, 255],
    &[
        0, 0, 0, 0, 0, 0, 0, 0, 0, 1, 0, 0, 0, 0, 0, 0, 0, 0, 0, 0, 0, 0, 255, 255, 255, 255, 255,
        255, 255, 255,
    ],
    &[
        0, 0, 0, 0, 0, 0, 0, 0, 0, 1, 0, 0, 0, 0, 0, 0, 0, 0, 0, 0, 0, 0, 0, 0, 0, 0, 0, 0, 0, 0,
        255, 255, 255, 255, 255, 255, 255, 255,
    ],
];

// The file of the run in which this is said.
fn sealed(alloc: Global, said: &[u8]) -> Result<Vec<u8>, AllocError> {
    let content = file(alloc, said, b"")?;
    file(alloc, said, &Sha256::digest(content.as_slice()))
}

// Why it isn't read; None where it is.
fn fault_of(alloc: Global, said: &[u8]) -> Option<ReadFault> {
    match sealed(alloc, said) {
        Ok(file) => read_report(alloc, &digests(), &file).err(),
        Err(_) => Some(ReadFault::Memory),
    }
}

// The place of the first that is answered otherwise.
fn first_wrong(alloc: Global) -> Option<usize> {
    let short = Some(ReadFault::Content(ContentFault::Short));
    TOO_MANY
        .iter()
        .position(|said| fault_of(alloc, said) != short)
}

#[test]
fn refuses_a_count_that_is_too_great(rt: HostRuntime) {
    assert_eq!(rt; first_wrong(rt.alloc()), None);
}
