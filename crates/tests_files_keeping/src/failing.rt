//! What is answered whichever call of a log's disk fails.
use files_keeping::{KeepFault, KeptLog, MemoryDevice, Part, read_locked, settle};
use std::alloc::Global;

/// What the file holds at first: two whole blocks, each up to its point, and a torn one.
const START: &[u8] = b"ab.c.de";

/// How many bytes the whole ones have.
const WHOLE: usize = 5;

/// The blocks that are kept behind these.
const BLOCKS: &[&[u8]] = &[b"first.", b"s.", b"the third."];

/// All whole blocks in the end.
const ALL: &[u8] = b"ab.c.first.s.the third.";

/// How many calls of the disk succeed, and what is answered last: it is locked and read, three calls settle it, and
/// each block needs two.
const ANSWERS: &[(u64, Result<(), KeepFault>)] = &[
    (0, Err(KeepFault::CannotLock)),
    (1, Err(KeepFault::CannotRead)),
    (2, Err(KeepFault::CannotSyncFolder)),
    (3, Err(KeepFault::CannotCut)),
    (4, Err(KeepFault::CannotSync)),
    (5, Err(KeepFault::FailedBefore)),
    (6, Err(KeepFault::FailedBefore)),
    (8, Err(KeepFault::FailedBefore)),
    (9, Err(KeepFault::CannotAppend)),
    (10, Err(KeepFault::CannotSync)),
    (11, Ok(())),
];

// Opens the log of a device of which so many calls succeed, and keeps the blocks in it, also behind one that failed.
// What is answered last, and whether the disk has all blocks then; none where there is no memory.
fn answered(alloc: Global, calls: u64) -> Option<(Result<(), KeepFault>, bool)> {
    let mut device = MemoryDevice::new(alloc, START).ok()?;
    device.fail_after(calls, Part::Nothing);
    let bytes = match read_locked(alloc, &mut device) {
        Ok(bytes) => bytes,
        Err(why) => return Some((Err(why), false)),
    };
    if bytes.len() < WHOLE {
        return None;
    }
    if let Err(why) = settle(&mut device, WHOLE) {
        return Some((Err(why), false));
    }
    let mut log = KeptLog::new(device, WHOLE);
    let mut answer = Ok(());
    for block in BLOCKS {
        answer = log.keep(*block);
    }
    Some((answer, log.into_device().synced() == ALL))
}

#[test]
fn answers_which_call_failed_and_keeps_all_where_none_does(rt: HostRuntime) {
    for (calls, expected) in ANSWERS {
        assert_eq!(rt;
            answered(rt.alloc(), *calls),
            Some((*expected, expected.is_ok())),
            "{calls}"
        );
    }
}

// Whether a file that another has locked is left as it is.
fn leaves_anothers(alloc: Global) -> Option<bool> {
    let mut device = MemoryDevice::new(alloc, START).ok()?;
    device.take();
    let is_taken = read_locked(alloc, &mut device) == Err(KeepFault::Taken);
    Some(is_taken && device.bytes() == START && device.synced() == START)
}

#[test]
fn leaves_a_file_that_another_has(rt: HostRuntime) {
    assert_eq!(rt; leaves_anothers(rt.alloc()), Some(true));
}
