//! Files in memory.
use fedrun_files::{FileFault, Files};
use std::alloc::Global;

/// Files by their names, each with its bytes.
#[derive(Drop)]
pub struct NamedFiles<'a> {
    alloc: Global,
    files: &'a [(&'a str, &'a [u8])],
}

impl<'a> NamedFiles<'a> {
    pub fn new(alloc: Global, files: &'a [(&'a str, &'a [u8])]) -> NamedFiles<'a> {
        NamedFiles { alloc, files }
    }
}

impl Files for NamedFiles<'_> {
    fn bytes(&mut self, name: &str, most: usize) -> Result<Vec<u8>, FileFault> {
        for (known, bytes) in self.files {
            if *known == name {
                if bytes.len() > most {
                    return Err(FileFault::OverLimit);
                }
                return Vec::from_slice(self.alloc, bytes).map_err(|_| FileFault::Memory);
            }
        }
        Err(FileFault::Unreadable)
    }
}
