//! Logs of any form that a disk keeps, block by block.
//!
//! Promise to the layer above: where `keep` answers Ok, the disk keeps all bytes so far: whenever the machine stops
//! from then on, its file begins with them. Whenever it stops within a call, what was kept before stands there, and
//! behind it at most what is left of the bytes of this one call (`HasTail` of `specs/Disk`). After an error nothing
//! more is asked of the disk. Where no part of a block is taken for another one, such a file is read as what was kept,
//! or as that with the whole block: however it is read (`all_or_none_is_read`). What a disk itself promises is in the
//! clauses of `Device`; that the machine's keeps them isn't proved.
//!
//!     MachineDevice::open     the file, which is made where there is none
//!     read_locked --> lock    no other process has it, or will
//!                 --> read    its bytes: whoever knows their form says how many are whole blocks
//!     settle      --> sync_folder, cut, sync    a torn block is gone, also where the machine stops
//!     KeptLog::new
//!     keep        --> append, sync
//!     read        --> read    all that is kept
//!
//! Begin with `specs/Disk`, then `device`, `opening` and `kept_log`. The machine's file is `MachineDevice`, one in
//! memory for tests is `MemoryDevice`.
#![tactic(auto)]

pub mod call;
pub mod device;
pub mod keep_fault;
pub mod kept_log;
pub mod machine;
pub mod memory_device;
pub mod opening;
pub mod reading;
pub mod standing;

pub use call::Call;
pub use device::Device;
pub use keep_fault::KeepFault;
pub use kept_log::{KeptLog, append_synced};
pub use machine::{KeptBy, MachineDevice};
pub use memory_device::{MemoryDevice, Part};
pub use opening::{read_locked, settle};
pub use reading::all_or_none_is_read;
pub use standing::Standing;
