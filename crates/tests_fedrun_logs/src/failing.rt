//! What a node has done that begins again, whichever call of its disk failed before, and whatever is left then.
ghost use Rattle.std.specs.Prelude.{◌≡◌, false};
ghost use Rattle.files_keeping.specs.Made.{memory_standing};

use crate::life::{EVENTS, Life, head, is_front, live};
use files_keeping::{MemoryDevice, Part};
use files_logs::read_log;
use std::alloc::Global;
use std::sync::Wait;

/// How many calls of the disk a node needs that begins: its file is locked and read, three calls settle it, and two are
/// for its head, for each of six blocks, for the block that tells that the run is finished; it is read again, and two are
/// for the end.
const CALLS: u64 = 24;

/// How much of its bytes an append writes that fails.
const PARTS: [Part; 3] = [Part::Nothing, Part::Half, Part::Whole];

// A node's life with a disk that has these bytes, of which a call fails, the next behind so many; and the disk then.
fn lived<R: Wait>(
    rt: &R,
    alloc: Global,
    bytes: &[u8],
    calls: u64,
    part: Part,
) -> Option<(Life, MemoryDevice)> {
    let mut device = MemoryDevice::new(alloc, bytes).ok()?;
    device.fail_after(calls, part);
    let life = live(rt, alloc, &mut device)?;
    Some((life, device))
}

// Whether a log has all events, is told and has its end.
fn is_whole(alloc: Global, bytes: &[u8]) -> bool {
    let head = head();
    match read_log(alloc, &head.files, Some(head.who), head.rules, bytes) {
        Ok(log) => {
            is_front(&log.journal) && log.journal.len() == EVENTS && log.is_told && log.is_ended
        }
        Err(_) => false,
    }
}

// Whether a node that begins again over what is left has done all that others have seen, and comes to its end.
fn goes_on<R: Wait>(rt: &R, alloc: Global, before: Life, left: &[u8]) -> bool {
    match lived(rt, alloc, left, u64::MAX, Part::Nothing) {
        Some((life, device)) => {
            life.begun >= before.left
                && life.is_ended
                && device.synced() == device.bytes()
                && is_whole(alloc, device.bytes())
        }
        None => false,
    }
}

// Whether that is so of each front of these bytes that has so many of them.
fn all_go_on<R: Wait>(rt: &R, alloc: Global, before: Life, bytes: &[u8], least: usize) -> bool {
    let mut all = true;
    for count in least..=bytes.len() {
        let is_right = match bytes.get(..count) {
            Some(left) => goes_on(rt, alloc, before, left),
            None => false,
        };
        all = all && is_right;
    }
    all
}

// Whether that is so whatever is left of a disk without a log of which a call fails.
fn is_right<R: Wait>(rt: &R, alloc: Global, calls: u64, part: Part) -> bool {
    let Some((life, device)) = lived(rt, alloc, &[], calls, part) else {
        return false;
    };
    let seen = device.bytes();
    let synced = device.synced();
    let least = seen.len().min(synced.len());
    all_go_on(rt, alloc, life, seen, least) && all_go_on(rt, alloc, life, synced, least)
}

// How many calls a node needs that begins, of so many at most.
fn calls_needed<R: Wait>(rt: &R, alloc: Global, most: u64) -> Option<u64> {
    for calls in 0..most {
        let (life, _) = lived(rt, alloc, &[], calls, Part::Nothing)?;
        if life.is_ended {
            return Some(calls);
        }
    }
    None
}

#[test]
fn goes_on_whichever_call_fails(rt: HostRuntime) {
    assert_eq!(rt; calls_needed(&rt, rt.alloc(), 100), Some(CALLS));
    for part in PARTS {
        for calls in 0..=CALLS {
            let is_right = is_right(&rt, rt.alloc(), calls, part);
            assert!(rt; is_right, "{calls} {part:?}");
        }
    }
}
