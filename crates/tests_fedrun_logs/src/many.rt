//! More events at once than a block says.
ghost use Rattle.std.specs.Prelude.{◌≡◌, false};
ghost use Rattle.files_keeping.specs.Made.{memory_standing};

use crate::lent::Lent;
use crate::life::{head, station};
use desk::{Desk, Share, Shared};
use fedrun_logs::{LogBarrier, begin_log};
use files_keeping::{MemoryDevice, read_locked};
use files_logs::read_log;
use node::Event;
use std::alloc::Global;
use std::sync::Wait;
use wires_hosts::Barrier;

// Keeps so many events at once, and then none. How many the log has then, and how many bytes.
fn kept<R: Wait>(rt: &R, alloc: Global, count: usize) -> Option<(usize, usize)> {
    let mut device = MemoryDevice::new(alloc, &[]).ok()?;
    keep(rt, alloc, &mut device, count)?;
    let head = head();
    let log = read_log(
        alloc,
        &head.files,
        Some(head.who),
        head.rules,
        device.synced(),
    )
    .ok()?;
    Some((log.journal.len(), device.synced().len()))
}

// A node to which so many events come begins a log on this disk, and what they caused may leave.
fn keep<R: Wait>(rt: &R, alloc: Global, device: &mut MemoryDevice, count: usize) -> Option<()>
    requires { (memory_standing device.old).has_failed ≡ false }
{
    let mut lent = Lent::new(device);
    let bytes = read_locked(alloc, &mut lent).ok()?;
    let opened = begin_log(alloc, lent, bytes.as_slice(), &head()).ok()?;
    let shared = Shared::new(Desk::new(alloc, station(alloc).ok()?));
    let mut share = Share::new(alloc);
    for _ in 0..count {
        shared.handle(rt, &mut share, Event::Announce).ok()?;
    }
    let barrier = LogBarrier::new(alloc, &shared, opened.file);
    barrier.reach(rt).ok()?;
    barrier.reach(rt).ok()
}

/// How many events come, and how many bytes the log has then: one an event, 16 a block beside them, and a head.
const COUNTS: [(usize, usize); 4] = [
    (0, 84),
    (10_000, 84 + 10_000 + 16),
    (10_001, 84 + 10_001 + 32),
    (25_000, 84 + 25_000 + 48),
];

#[test]
fn keeps_all_events_in_as_many_blocks_as_they_need(rt: HostRuntime) {
    for (count, bytes) in COUNTS {
        assert_eq!(rt; kept(&rt, rt.alloc(), count), Some((count, bytes)));
    }
}
