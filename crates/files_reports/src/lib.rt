//! Report files: what one node did in a run, its rows and its journal, as the bytes of a file, and read again.
//!
//! Promise to the layer above: a report is written as its one spelling (`specs/File`), and bytes are read as the report
//! that they spell, of a run of these very files, or as nothing; each fault comes where `specs/File` and
//! `specs/Reading` say, the first from the left. Nothing that stands in a report is believed by that: an audit judges
//! it.
//!
//!     NodeReport --> write_report --> bytes          what a node did, sealed with a digest
//!     bytes --> read_report --> NodeReport           name, digest, files, and then what is said
//!     bytes --> read_coordinator, take_report        for an audit: the coordinator's journal, a federate's report
//!
//! Begin with `specs/Said` and `specs/Spelling`, then `node_report`, `read` and `write`.
#![tactic(auto)]

pub mod appending;
pub mod content_fault;
pub mod file_digests;
pub mod journals;
pub mod laws;
pub mod layout;
pub mod memory;
pub mod node_report;
mod numbers;
pub mod read;
pub mod read_fault;
pub mod report_file_fault;
mod rows;
mod saying;
mod sealing;
pub mod taking;
pub mod write;
pub mod write_fault;
pub mod writing;

pub use content_fault::ContentFault;
pub use file_digests::FileDigests;
pub use memory::Memory;
pub use node_report::NodeReport;
pub use read::read_report;
pub use read_fault::ReadFault;
pub use report_file_fault::ReportFileFault;
pub use taking::{read_coordinator, take_report};
pub use write::write_report;
pub use write_fault::WriteFault;
