ghost use Rattle.std.specs.Prelude.{◌≡◌, ◌+◌, ◌^◌, ◌-◌, ◌++◌, min, true, false, ℕ, Bool, List, length, IsTrue};
ghost use Rattle.std.specs.Prelude.{IfOk, IfErr, OnOk, OnErr};
ghost use Rattle.node.specs.declared.event.Event.{Event as IsEvent};
ghost use Rattle.files_keeping.specs.Disk.{HasTail, LeavesOnly};
ghost use Rattle.files_logs.specs.declared.log_head.LogHead.{LogHead as IsHeadValue};
ghost use Rattle.files_logs.specs.Blocks.{blocks_bytes, sum_behind};
ghost use Rattle.files_logs.specs.Log.{end_bytes};
ghost use Rattle.files_logs.specs.Reading.{IsWholeLog};
ghost use Rattle.files_logs.specs.Writing.{blocks_for};
ghost use Rattle.fedrun_logs.specs.Files.{GoesOn};
ghost use Rattle.fedrun_logs.specs.Faults.{IsUnkept, IsUnread, IsUnended};

use crate::not_kept::NotKept;
use files_keeping::{Device, KeptLog};
use files_logs::{write_block, write_end};
use files_reports::Memory;
use node_journal::Journal;
use std::alloc::Global;
use std::marker::Model;

/// A node's log in a file: how much of the node's journal it has, and the sum behind that, which the next block needs.
#[derive(Drop)]
pub struct LogFile<D: Device + Drop> {
    log: KeptLog<D>,
    events: usize,
    sum: u64,
}

impl<D: Device + Drop> Model for LogFile<D> {
    ghost use Rattle.fedrun_logs.specs.Files as files;

    ghost Value = { files.LogFile D };

    ghost view = { λ f. record { log = f.log; events = f.events; sum = f.sum } };
}

impl<D: Device + Drop> LogFile<D> {
    /// A log that is kept so far, with this many events and this sum behind them.
    pub fn new(log: KeptLog<D>, events: usize, sum: u64) -> LogFile<D>
        ensures { result ≡ record { log = log; events = events; sum = sum } }
    {
        LogFile { log, events, sum }
    }

    /// How many events it has, the first ones of the node's journal.
    pub fn events(&self) -> usize
        ensures { result ≡ self.now.events }
    {
        self.events
    }

    /// Appends a block that says that these events came next, and if so, that the run is finished. With Ok the disk
    /// keeps it. Whenever the machine stops before, what was kept stands, and behind it at most what is left of this
    /// block.
    pub fn keep(&mut self, alloc: Global, events: &Journal, is_told: bool) -> Result<(), NotKept>
        ensures kept { OnOk result (IsTrue D.is_known → D.synced self.new.log.device
            ≡ D.synced self.old.log.device ++ blocks_bytes self.old.sum (blocks_for events.now is_told)) }
        ensures sum { OnOk result (self.new.sum ≡ sum_behind self.old.sum (blocks_for events.now is_told)) }
        ensures events { OnOk result (self.new.events ≡ min (2 ^ 64 - 1) (self.old.events + length events.now)) }
        ensures goes_on { OnOk result (GoesOn D.is_known D.synced self.old self.new events.now is_told) }
        ensures not_kept { OnErr result (IsTrue D.is_known
            → D.synced self.new.log.device ≡ D.synced self.old.log.device) }
        ensures same { OnErr result ((self.new.sum ≡ self.old.sum) × (self.new.events ≡ self.old.events)) }
        ensures fault { IfErr result (IsUnkept events.now is_told) }
        ensures any_moment { IsTrue D.is_known → (D.standing self.old.log.device).has_failed ≡ false
            → LeavesOnly D.moment D.left self.old.log.device self.new.log.device
            (λ left. HasTail D.tears (D.synced self.old.log.device)
            (blocks_bytes self.old.sum (blocks_for events.now is_told)) left) }
    {
        // For the prover: what the disk has, where nothing is written.
        self.log.invariant();
        let written = write_block(alloc, self.sum, events, is_told)?;
        self.log.keep(written.bytes.as_slice())?;
        self.sum = written.sum;
        self.events = self.events.saturating_add(events.len());
        Ok(())
    }

    /// All bytes that it has.
    pub fn bytes(&mut self, alloc: Global) -> Result<Vec<u8>, NotKept>
        ensures bytes { IfOk result (λ bytes. IsTrue D.is_known → bytes.items ≡ D.synced self.old.log.device) }
        ensures same { IsTrue D.is_known → D.synced self.new.log.device ≡ D.synced self.old.log.device }
        ensures sum { self.new.sum ≡ self.old.sum }
        ensures events { self.new.events ≡ self.old.events }
        ensures fault { IfErr result IsUnread }
    {
        let bytes = self.log.read(alloc)?;
        Ok(bytes)
    }

    /// Puts the end behind all that it has. Returns all bytes then, which the disk keeps. Nothing may be appended behind
    /// it.
    pub fn end(&mut self, alloc: Global) -> Result<Vec<u8>, NotKept>
        ensures bytes { IfOk result (λ bytes. IsTrue D.is_known → bytes.items ≡ D.synced self.new.log.device) }
        ensures kept { OnOk result (IsTrue D.is_known → D.synced self.new.log.device
            ≡ D.synced self.old.log.device ++ end_bytes self.old.sum (D.synced self.old.log.device)) }
        ensures ends { OnOk result (IsTrue D.is_known → (head : IsHeadValue) (journal : List IsEvent) (told : Bool)
            → IsWholeLog head (D.synced self.old.log.device) self.old.sum journal told false
            → IsWholeLog head (D.synced self.new.log.device) self.new.sum journal told true) }
        ensures not_kept { OnErr result (IsTrue D.is_known
            → D.synced self.new.log.device ≡ D.synced self.old.log.device) }
        ensures sum { self.new.sum ≡ self.old.sum }
        ensures events { self.new.events ≡ self.old.events }
        ensures fault { IfErr result IsUnended }
    {
        let mut bytes = self.log.read(alloc)?;
        let end = write_end(alloc, self.sum, bytes.as_slice())?;
        add(&mut bytes, end.as_slice())?;
        self.log.keep(end.as_slice())?;
        Ok(bytes)
    }
}

// Adds bytes behind others.
fn add(bytes: &mut Vec<u8>, more: &[u8]) -> Result<(), Memory>
    ensures { OnOk result (bytes.new.items ≡ bytes.old.items ++ more.now) }
{
    bytes.extend_from_slice(more)?;
    Ok(())
}
