//! What a command reads before it begins: files by name, and a federation with its recorded inputs, each in a file of
//! its name.
//!
//! Promise to the layer above: the bytes of a file are all of its bytes, where these are known (`specs/Contents`), and
//! over the limit is answered only of a file that is; what is read is what the files say, and each fault stands in the
//! file that it is answered of (`specs/Loaded`, `specs/Refused`). Begin with the trait `Files` and `read_sources`; the
//! machine's files are `MachineFiles`, and its standard input is the file `-` of them, once.
#![tactic(auto)]

pub mod machine;
pub mod named;
pub mod reading;

pub use machine::{MachineFiles, read_to_end};
pub use named::{FileFault, Files};
pub use reading::{
    SourceBytes, Sources, bytes_of, fault_of, read_federation, read_sources, read_sources_and_bytes,
};
