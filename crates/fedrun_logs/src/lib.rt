//! A node's log on a disk: opened and replayed as the node begins, and kept ahead of all that leaves it.
//!
//! Promise to the layer above: what `LogFile::keep` answers Ok to, the disk keeps, behind all that it kept before: a whole
//! log has these events more then (`GoesOn` of `specs/Files`). Whenever the machine stops before, what was kept stands, and
//! behind it at most what is left of this one block. A node that is replayed hands its log's events in, each once, in their
//! order. So a node that is killed is, begun again, the node that it was, but for steps that nobody has seen
//! (`world_disks`). That its barrier keeps each event before what it caused leaves no contract says, since the desk lies
//! under a lock: the order of its calls does, in `log_barrier`.
//!
//!     LogDisk::open, read_locked    the file of the name, which no other process has, and what it holds
//!     begin_log --> settle_log      what it says; a torn tail is cut off, a file without a head is begun
//!     replay --> Share              a desk without events takes the log's in
//!     LogBarrier::reach, tell       blocks of all events that the file hasn't, and a sync of each, for all who wait
//!     LogFile::end                  the digest behind the last block
//!
//! Begin with `log_file`, then `opening`, `replaying` and `log_barrier`.
#![tactic(auto)]

pub mod log_barrier;
pub mod log_disk;
pub mod log_file;
pub mod not_kept;
pub mod opening;
pub mod replaying;

pub use log_barrier::LogBarrier;
pub use log_disk::{LogDisk, MachineLogs};
pub use log_file::LogFile;
pub use not_kept::NotKept;
pub use opening::{OpenedLog, begin_log, settle_log};
pub use replaying::replay;
