ghost use Rattle.std.specs.Prelude.{◌≡◌, ◌⊎◌, ◌≤◌, [], ◌∷◌, ◌++◌, ℕ, List, true, reverse, length, take, IfOk};
ghost use Rattle.std.specs.Prelude.{OnOk, OnErr, refl};
ghost use Rattle.files_keeping.specs.Memory.{MayLeave, LeftSince, TearsOff, HasAppended, HasSynced};
ghost use Rattle.files_keeping.specs.Memory.{now_is_one, now_is_alone};
ghost use Rattle.files_keeping.specs.declared.call.Call.TheVariants.{Cut};

use crate::call::Call;
use crate::device::Device;
use crate::keep_fault::KeepFault;
use crate::standing::Standing;
use std::alloc::{AllocError, Global};

/// How much of its bytes an append writes that fails.
#[derive(Clone, Copy, Debug, PartialEq, Eq)]
pub enum Part {
    Nothing,
    Half,
    Whole,
}

/// A file in memory, for tests. Where a machine stops, any front may be left of what was appended behind the last sync.
/// One call may be made to fail.
#[derive(Drop)]
pub struct MemoryDevice {
    alloc: Global,
    start: Vec<u8>,
    bytes: Vec<u8>,
    synced: Vec<u8>,
    calls: Vec<Call>,
    standing: Standing,
    until_failure: u64,
    part: Part,
    is_taken: bool,
}

impl MemoryDevice {
    ghost use Rattle.files_keeping.specs.Memory.{fresh};
    ghost use Rattle.files_keeping.specs.Made.{memory_standing};

    /// A file with these bytes, all of them synced. No call fails.
    pub fn new(alloc: Global, bytes: &[u8]) -> Result<MemoryDevice, AllocError>
        ensures fresh { IfOk result (λ device. memory_standing device ≡ fresh) }
    {
        Ok(MemoryDevice {
            alloc,
            start: bytes.to_vec(alloc)?,
            bytes: bytes.to_vec(alloc)?,
            synced: bytes.to_vec(alloc)?,
            calls: Vec::new(alloc),
            standing: Standing {
                is_locked: false,
                is_named: false,
                has_failed: false,
            },
            until_failure: u64::MAX,
            part: Part::Nothing,
            is_taken: false,
        })
    }

    /// That many calls succeed, and the next one fails. If it is an append, it writes this part of its bytes.
    pub fn fail_after(&mut self, calls: u64, part: Part)
        ensures { memory_standing self.new ≡ memory_standing self.old }
    {
        self.until_failure = calls;
        self.part = part;
    }

    /// Another process has locked it.
    pub fn take(&mut self)
        ensures { memory_standing self.new ≡ memory_standing self.old }
    {
        self.is_taken = true;
    }

    /// The bytes that a read gives.
    pub fn bytes(&self) -> &[u8] {
        &self.bytes
    }

    /// The bytes that the last sync found, which succeeded.
    pub fn synced(&self) -> &[u8] {
        &self.synced
    }
}

// Counts a call, and says whether it succeeds.
fn succeeds(until_failure: &mut u64) -> bool {
    if *until_failure == 0 {
        return false;
    }
    *until_failure -= 1;
    true
}

// How many of these bytes are written.
fn written(part: Part, count: usize) -> usize
    ensures { result ≤ count }
{
    match part {
        Part::Nothing => 0,
        Part::Half => count / 2,
        Part::Whole => count,
    }
}

// Cuts the file, and notes it.
fn cut_noted(
    until_failure: &mut u64,
    bytes: &mut Vec<u8>,
    calls: &mut Vec<Call>,
    len: usize,
) -> Result<(), AllocError>
    ensures cut { OnOk result (bytes.new.items ≡ take len bytes.old.items) }
    ensures noted { OnOk result (calls.new.items ≡ calls.old.items ++ Cut len ∷ []) }
    ensures same { OnErr result (calls.new.items ≡ calls.old.items) }
{
    if !succeeds(until_failure) {
        return Err(AllocError);
    }
    calls.push(Call::Cut(len))?;
    bytes.truncate(len);
    Ok(())
}

// Appends these bytes, and notes it.
fn append_noted(
    alloc: Global,
    bytes: &mut Vec<u8>,
    calls: &mut Vec<Call>,
    appended: &[u8],
) -> Result<(), AllocError>
    ensures appended { OnOk result (bytes.new.items ≡ bytes.old.items ++ appended.now) }
    ensures noted { OnOk result (HasAppended appended.now calls.old.items calls.new.items) }
    ensures perhaps { (calls.new.items ≡ calls.old.items)
        ⊎ HasAppended appended.now calls.old.items calls.new.items }
{
    calls.push(Call::Append(appended.to_vec(alloc)?))?;
    bytes.extend_from_slice(appended)?;
    Ok(())
}

// Notes these bytes as synced.
fn sync_noted(
    alloc: Global,
    until_failure: &mut u64,
    bytes: &[u8],
    synced: &mut Vec<u8>,
    calls: &mut Vec<Call>,
) -> Result<(), AllocError>
    ensures synced { OnOk result (synced.new.items ≡ bytes.now) }
    ensures not_synced { OnErr result (synced.new.items ≡ synced.old.items) }
    ensures noted { OnOk result (HasSynced bytes.now calls.old.items calls.new.items) }
    ensures same { OnErr result (calls.new.items ≡ calls.old.items) }
{
    if !succeeds(until_failure) {
        return Err(AllocError);
    }
    let copy = bytes.to_vec(alloc)?;
    let noted = bytes.to_vec(alloc)?;
    calls.push(Call::Sync(noted))?;
    *synced = copy;
    Ok(())
}

// All bytes, where the call succeeds.
fn read_copy(alloc: Global, until_failure: &mut u64, bytes: &[u8]) -> Result<Vec<u8>, AllocError>
    ensures { IfOk result (λ copy. copy.items ≡ bytes.now) }
{
    if !succeeds(until_failure) {
        return Err(AllocError);
    }
    Ok(bytes.to_vec(alloc)?)
}

impl Device for MemoryDevice {
    ghost is_known = { true };

    ghost seen = { λ m. m.bytes.items };

    ghost synced = { λ m. m.synced.items };

    ghost leaves = { λ m. MayLeave m.start.items (reverse m.calls.items) };

    ghost tears = { TearsOff };

    ghost moment = { λ m. length (reverse m.calls.items) };

    ghost left = { λ m. LeftSince m.start.items (reverse m.calls.items) };

    ghost standing = { λ m. m.standing };

    ghost none_is_left = { λ bytes. (bytes, refl) };

    ghost now_counts = { λ m t bytes known le now.
        now_is_one m.start.items (reverse m.calls.items) t bytes le now };

    ghost now_alone = { λ m bytes known since. now_is_alone m.start.items (reverse m.calls.items) bytes since };

    fn has_failed(&self) -> bool {
        self.standing.has_failed
    }

    fn lock(&mut self) -> Result<(), KeepFault> {
        if self.is_taken {
            self.standing.has_failed = true;
            return Err(KeepFault::Taken);
        }
        if !succeeds(&mut self.until_failure) {
            self.standing.has_failed = true;
            return Err(KeepFault::CannotLock);
        }
        self.standing.is_locked = true;
        Ok(())
    }

    fn read(&mut self, alloc: Global) -> Result<Vec<u8>, KeepFault> {
        match read_copy(alloc, &mut self.until_failure, &self.bytes) {
            Ok(bytes) => Ok(bytes),
            Err(_) => {
                self.standing.has_failed = true;
                Err(KeepFault::CannotRead)
            }
        }
    }

    fn cut(&mut self, len: usize) -> Result<(), KeepFault> {
        match cut_noted(
            &mut self.until_failure,
            &mut self.bytes,
            &mut self.calls,
            len,
        ) {
            Ok(()) => Ok(()),
            Err(_) => {
                self.standing.has_failed = true;
                Err(KeepFault::CannotCut)
            }
        }
    }

    fn append(&mut self, bytes: &[u8]) -> Result<(), KeepFault> {
        if !succeeds(&mut self.until_failure) {
            let part = &bytes[..written(self.part, bytes.len())];
            let _ = append_noted(self.alloc, &mut self.bytes, &mut self.calls, part);
            self.standing.has_failed = true;
            return Err(KeepFault::CannotAppend);
        }
        match append_noted(self.alloc, &mut self.bytes, &mut self.calls, bytes) {
            Ok(()) => Ok(()),
            Err(_) => {
                self.standing.has_failed = true;
                Err(KeepFault::CannotAppend)
            }
        }
    }

    fn sync(&mut self) -> Result<(), KeepFault> {
        match sync_noted(
            self.alloc,
            &mut self.until_failure,
            &self.bytes,
            &mut self.synced,
            &mut self.calls,
        ) {
            Ok(()) => Ok(()),
            Err(_) => {
                self.standing.has_failed = true;
                Err(KeepFault::CannotSync)
            }
        }
    }

    fn sync_folder(&mut self) -> Result<(), KeepFault> {
        if succeeds(&mut self.until_failure) {
            self.standing.is_named = true;
            return Ok(());
        }
        self.standing.has_failed = true;
        Err(KeepFault::CannotSyncFolder)
    }
}
