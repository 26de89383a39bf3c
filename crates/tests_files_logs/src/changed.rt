//! The worked log with each of its bits flipped.
ghost use Rattle.std.specs.Prelude.{◌<◌, ◌≤◌, length};

use crate::outcome::{Outcome, front, outcome_of};
use crate::worked::{FIRST_END, HEAD_END, SECOND_END, THIRD_END, WHOLE, worked};
use files_logs::LogFault;
use std::alloc::Global;

const DAMAGED: Outcome = Outcome::Fault(LogFault::Damaged);

// How many bytes there are before the block, or the end, in which this byte stands.
fn before(place: usize) -> usize
    ensures { result ≤ THIRD_END }
{
    if place < FIRST_END {
        HEAD_END
    } else if place < SECOND_END {
        FIRST_END
    } else if place < THIRD_END {
        SECOND_END
    } else {
        THIRD_END
    }
}

// What a change of the byte at this place does to a log of so many bytes, which ends with a block or with the end. What
// stands last may be a torn tail, but for the digest of an end.
fn after_change(place: usize, length: usize) -> Outcome {
    if place < 8 {
        return Outcome::Fault(LogFault::NoLog);
    }
    if place < HEAD_END {
        return DAMAGED;
    }
    if place >= THIRD_END + 8 {
        return Outcome::Fault(LogFault::CutShort);
    }
    let before = before(place);
    let is_last = match before {
        HEAD_END => length == FIRST_END,
        FIRST_END => length == SECOND_END,
        SECOND_END => length == THIRD_END,
        _ => true,
    };
    if is_last { front(before) } else { DAMAGED }
}

// Whether each bit of the byte at this place, where it is flipped, does that to the log.
fn is_every_change_seen(alloc: Global, bytes: &mut [u8], place: usize) -> bool
    requires { place < length bytes.old }
{
    let own = bytes[place];
    let expected = Some(after_change(place, bytes.len()));
    for bit in [1, 2, 4, 8, 16, 32, 64, 128] {
        bytes[place] = own ^ bit;
        if outcome_of(alloc, bytes) != expected {
            return false;
        }
    }
    bytes[place] = own;
    true
}

// In how many bytes of the log cut at this length, from the first on, each flipped bit is seen.
fn changes_seen(alloc: Global, length: usize) -> Option<usize> {
    let mut log = worked(alloc).ok()?;
    log.truncate(length);
    let bytes = log.as_mut_slice();
    for place in 0..bytes.len() {
        if !is_every_change_seen(alloc, bytes, place) {
            return Some(place);
        }
    }
    Some(bytes.len())
}

#[test]
fn sees_each_flipped_bit(rt: HostRuntime) {
    let seen = [FIRST_END, SECOND_END, THIRD_END, WHOLE].map(|length| changes_seen(
        rt.alloc(),
        length,
    ));
    let all = [
        Some(FIRST_END),
        Some(SECOND_END),
        Some(THIRD_END),
        Some(WHOLE),
    ];
    assert_eq!(rt; seen, all);
}
