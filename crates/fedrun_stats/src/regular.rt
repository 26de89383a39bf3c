use fedrun_files::{FileFault, Files, read_to_end};
use std::{fs, rt};

/// The machine's regular files. Anything else that has a file's name isn't opened and can't be read: who opens a pipe
/// waits until somebody writes into it, and some devices do something as they are opened or read.
#[derive(Drop)]
pub struct RegularFiles<'a, R> {
    rt: &'a R,
}

impl<'a, R> RegularFiles<'a, R> {
    pub fn new(rt: &'a R) -> RegularFiles<'a, R> {
        RegularFiles { rt }
    }
}

impl<R: rt::Files + AllocGlobal> Files for RegularFiles<'_, R> {
    fn bytes(&mut self, name: &str, most: usize) -> Result<Vec<u8>, FileFault> {
        match fs::metadata(self.rt, name) {
            Ok(metadata) if metadata.is_file() => {}
            _ => return Err(FileFault::Unreadable),
        }
        let mut file = fs::open(self.rt, name).map_err(|_| FileFault::Unreadable)?;
        read_to_end(self.rt.alloc(), &mut file, most)
    }
}
