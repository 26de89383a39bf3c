//! Files that are saved whole or not at all, under names that were reserved.
//!
//! Promise to the layer above: where `reserve` succeeds, there is no file of this name, and a temporary one that wasn't
//! there before: whoever else reserves the same name is refused. Where `save` succeeds then, there is a file of this
//! name, with exactly these bytes, and where it fails there is none of ours; no other file changes but the temporary
//! one (`specs/Saved`). So nobody finds half a report under a report's name, also where the machine stops in the midst:
//! a file gets its name once all its bytes are on the disk. What a disk itself promises is in the clauses of `Disk`;
//! that the machine's keeps them isn't proved.
//!
//!     reserve --> Disk::create    a file of the temporary name, without bytes
//!             --> Disk::exists    there is none of the name
//!             --> Disk::remove    the temporary file, where there is
//!     Disk::write                 what the temporary file says meanwhile, if that is wanted
//!     save    --> Disk::write     the temporary file: written, synced
//!             --> Disk::rename    it gets the name, if there is still none of it
//!
//! Begin with `specs/Saved`, then `disk` and `saving`; the machine's disk is `MachineDisk`.
#![tactic(auto)]

pub mod disk;
pub mod machine;
pub mod reserve_fault;
pub mod save_fault;
pub mod saving;

pub use disk::Disk;
pub use machine::MachineDisk;
pub use reserve_fault::ReserveFault;
pub use save_fault::SaveFault;
pub use saving::{reserve, save, temporary_name};
