//! Two workers who want the file at the same time.
ghost use Rattle.std.specs.Prelude.{◌≡◌, false};
ghost use Rattle.files_keeping.specs.Made.{memory_standing};

use crate::life::{head, station};
use desk::{Desk, Share, Shared};
use fedrun_logs::{LogBarrier, begin_log};
use files_keeping::{Device, KeepFault, MemoryDevice, read_locked};
use files_logs::read_log;
use node::Event;
use std::alloc::Global;
use std::sync::Wait;
use std::sync::atomic::{AtomicBool, Ordering};
use std::thread;
use std::thread::Threads;
use std::time::{Clock, Duration};
use tests_nodes::Counter;
use wires_hosts::Barrier;

/// A disk that takes its time to sync, and tells that it has begun to.
#[derive(Drop)]
struct Slow<'a, R: Clock, D: Device> {
    device: &'a mut D,
    rt: &'a R,
    is_syncing: &'a AtomicBool,
}

impl<R: Clock, D: Device> Device for Slow<'_, R, D> {
    ghost is_known = { D.is_known };

    ghost seen = { λ slow. D.seen slow.device.now };

    ghost synced = { λ slow. D.synced slow.device.now };

    ghost leaves = { λ slow. D.leaves slow.device.now };

    ghost tears = { D.tears };

    ghost moment = { λ slow. D.moment slow.device.now };

    ghost left = { λ slow. D.left slow.device.now };

    ghost standing = { λ slow. D.standing slow.device.now };

    ghost none_is_left = { D.none_is_left };

    ghost now_counts = { λ slow t bytes known le now. D.now_counts slow.device.now t bytes known le now };

    ghost now_alone = { λ slow bytes known since. D.now_alone slow.device.now bytes known since };

    fn has_failed(&self) -> bool {
        self.device.has_failed()
    }

    fn lock(&mut self) -> Result<(), KeepFault> {
        self.device.lock()
    }

    fn read(&mut self, alloc: Global) -> Result<Vec<u8>, KeepFault> {
        self.device.read(alloc)
    }

    fn cut(&mut self, len: usize) -> Result<(), KeepFault> {
        self.device.cut(len)
    }

    fn append(&mut self, bytes: &[u8]) -> Result<(), KeepFault> {
        self.device.append(bytes)
    }

    fn sync(&mut self) -> Result<(), KeepFault> {
        self.is_syncing.store(true, Ordering::SeqCst);
        thread::sleep(self.rt, Duration::from_millis(100));
        self.device.sync()
    }

    fn sync_folder(&mut self) -> Result<(), KeepFault> {
        self.device.sync_folder()
    }
}

// Hands an event in, and asks whether what it caused may leave.
fn reaches<R: Wait, B: Barrier>(
    rt: &R,
    alloc: Global,
    shared: &Shared<Counter>,
    barrier: &B,
) -> bool {
    let mut share = Share::new(alloc);
    shared.handle(rt, &mut share, Event::Announce).is_ok() && barrier.reach(rt).is_ok()
}

// Waits until the disk syncs.
fn await_sync<R: Clock>(rt: &R, is_syncing: &AtomicBool) {
    for _ in 0..5000 {
        if is_syncing.load(Ordering::SeqCst) {
            break;
        }
        thread::sleep(rt, Duration::from_millis(1));
    }
}

// Whether what two events caused may leave, the second of which comes while the disk syncs the first.
fn both_reach<R: Wait + Clock + Threads + Sync>(
    rt: &R,
    alloc: Global,
    device: &mut MemoryDevice,
) -> Option<bool>
    requires { (memory_standing device.old).has_failed ≡ false }
{
    let is_syncing = AtomicBool::new(false);
    let mut slow = Slow {
        device,
        rt,
        is_syncing: &is_syncing,
    };
    let bytes = read_locked(alloc, &mut slow).ok()?;
    let opened = begin_log(alloc, slow, bytes.as_slice(), &head()).ok()?;
    is_syncing.store(false, Ordering::SeqCst);
    let shared = Shared::new(Desk::new(alloc, station(alloc).ok()?));
    let barrier = LogBarrier::new(alloc, &shared, opened.file);
    let (first, second) = thread::join(
        rt,
        || reaches(rt, alloc, &shared, &barrier),
        || {
            await_sync(rt, &is_syncing);
            reaches(rt, alloc, &shared, &barrier)
        },
    );
    Some(first && second)
}

// How many events the log has then.
fn kept<R: Wait + Clock + Threads + Sync>(rt: &R, alloc: Global) -> Option<usize> {
    let mut device = MemoryDevice::new(alloc, &[]).ok()?;
    if !both_reach(rt, alloc, &mut device)? {
        return None;
    }
    let head = head();
    let log = read_log(
        alloc,
        &head.files,
        Some(head.who),
        head.rules,
        device.synced(),
    )
    .ok()?;
    Some(log.journal.len())
}

#[test]
fn keeps_what_comes_while_the_disk_syncs(rt: HostRuntime) {
    assert_eq!(rt; kept(&rt, rt.alloc()), Some(2));
}
