ghost use Rattle.std.specs.Prelude.{List, ℕ};
ghost use Rattle.files_keeping.specs.Disk.{HasTail, LeavesOnly};
ghost use Rattle.files_keeping.specs.Reading.{ReadsAllOrNone, IsReadAs};

use crate::device::Device;

/// Where no part of these bytes is taken for another block, a file that a stop leaves is read as what was kept, or as
/// that with all of them: however it is read.
pub fn all_or_none_is_read<D: Device, S>()
    ensures { (read : List ℕ → S) (kept bytes : List ℕ) (old new : D) → ReadsAllOrNone D.tears read kept bytes
        → LeavesOnly D.moment D.left old new (λ left. HasTail D.tears kept bytes left)
        → LeavesOnly D.moment D.left old new (λ left. IsReadAs read kept bytes left) }
{}
