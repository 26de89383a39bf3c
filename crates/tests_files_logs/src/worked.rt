//! A log worked by hand: of a federate that announced, was granted the first tag, and advanced; then the run was
//! finished, and a new connection was to be greeted.
use files_logs::LogHead;
use files_reports::FileDigests;
use std::alloc::{AllocError, Global};

/// What the run is of; there are no recorded inputs.
const FEDERATION: &[u8] = b"stop = \"20 ms\"\n";

/// The SHA-256 of `FEDERATION`, by another program.
const FEDERATION_DIGEST: [u8; 32] = [
    0x43, 0x83, 0x34, 0x9d, 0x71, 0xdc, 0x67, 0xec, 0xce, 0x6a, 0x3f, 0x0f, 0x05, 0xa2, 0x7c, 0xc8,
    0xef, 0xd6, 0x23, 0x27, 0xf2, 0x6e, 0x3c, 0xee, 0x24, 0x54, 0x74, 0x67, 0x22, 0xe0, 0xad, 0xe8,
];

/// The SHA-256 of no bytes.
const INPUTS_DIGEST: [u8; 32] = [
    0xe3, 0xb0, 0xc4, 0x42, 0x98, 0xfc, 0x1c, 0x14, 0x9a, 0xfb, 0xf4, 0xc8, 0x99, 0x6f, 0xb9, 0x24,
    0x27, 0xae, 0x41, 0xe4, 0x64, 0x9b, 0x93, 0x4c, 0xa4, 0x95, 0x99, 0x1b, 0x78, 0x52, 0xb8, 0x55,
];

/// Federate 0 by the rules 1, and the SipHash-1-3 of all before it, by another program, as all sums here.
const OWNER: [u8; 12] = [0, 0, 0, 1, 0x62, 0x84, 0x10, 0x1e, 0x0a, 0xe2, 0xe7, 0xe7];

/// The first block: two events.
pub(crate) const FIRST: [u8; 56] = [
    0, 0, 0, 40, 7, 0x4b, 0xa6, 0xe4, // 40 bytes
    4, // it announced
    1, 0, 0, 0, 0, 0, 0, 0, 0, // a frame from peer 0
    0, 0, 0, 26, 2, 0, 0, 0, 1, 0, 0, 0, 0, 0, 0, 0, 1, // a Data, incarnation 1, number 1
    3, 0, 0, 0, 0, 0, 0, 0, 0, 0, 0, 0, 0, // a TAG of the first tag
    0xf9, 0xb4, 0x1c, 0x7e, 0x5e, 0xe1, 0x36, 0x6a, // its sum
];

/// The second: one event.
pub(crate) const SECOND: [u8; 17] = [
    0, 0, 0, 1, 0xc2, 0xf9, 0xc4, 0xda, // one byte
    5, // it advanced
    0xa0, 0x2d, 0x69, 0x46, 0x59, 0x25, 0x57, 0x39, // its sum
];

/// The third: that the run is finished, and one event.
pub(crate) const THIRD: [u8; 26] = [
    0, 0, 0, 10, 0xf5, 0xdf, 0xfc, 0x36, // ten bytes
    6, // the run is finished
    3, 0, 0, 0, 0, 0, 0, 0, 0, // peer 0 is to be greeted
    0x10, 0xa0, 0xaa, 0xb4, 0x1b, 0xe2, 0xd0, 0x0f, // its sum
];

/// The end: the size 0, and the SHA-256 of all before it, by another program.
pub(crate) const END: [u8; 40] = [
    0, 0, 0, 0, 3, 0x6e, 0xff, 0x92, // no byte
    0x7b, 0x52, 0x69, 0xf2, 0x1f, 0xb4, 0x4e, 0x47, 0x64, 0x5d, 0xa2, 0xd4, 0xf7, 0x96, 0xd8, 0xd5,
    0xc2, 0xac, 0x38, 0xf7, 0xe5, 0xce, 0x55, 0x85, 0x4c, 0x8e, 0x61, 0xd4, 0xb3, 0xa0, 0x10, 0xc6,
];

/// How many bytes of the log there are up to the end of its head, of each block, and of the end.
pub(crate) const HEAD_END: usize = 84;

pub(crate) const FIRST_END: usize = 140;

pub(crate) const SECOND_END: usize = 157;

pub(crate) const THIRD_END: usize = 183;

pub(crate) const WHOLE: usize = 223;

/// The sum behind the head and behind each block.
pub(crate) const SUMS: [u64; 4] = [
    0x6284_101e_0ae2_e7e7,
    0xf9b4_1c7e_5ee1_366a,
    0xa02d_6946_5925_5739,
    0x10a0_aab4_1be2_d00f,
];

/// Of the run.
pub(crate) fn digests() -> FileDigests {
    FileDigests::new(FEDERATION, b"")
}

/// Of the log.
pub(crate) fn head() -> LogHead {
    LogHead {
        files: digests(),
        who: 0,
        rules: 1,
    }
}

/// The log with its end.
pub(crate) fn worked(alloc: Global) -> Result<Vec<u8>, AllocError> {
    let mut bytes = Vec::new(alloc);
    bytes.extend_from_slice(b"fedrep 2")?;
    bytes.extend_from_slice(&FEDERATION_DIGEST)?;
    bytes.extend_from_slice(&INPUTS_DIGEST)?;
    bytes.extend_from_slice(&OWNER)?;
    bytes.extend_from_slice(&FIRST)?;
    bytes.extend_from_slice(&SECOND)?;
    bytes.extend_from_slice(&THIRD)?;
    bytes.extend_from_slice(&END)?;
    Ok(bytes)
}
