//! No memory for a file's bytes.
use fedrun_files::{FileFault, Files};
use std::net::{Net, TcpListener, TcpStream};
use tests_outcomes::{NamedFiles, outcome_over, shown};
use tests_samples::Machine;

/// A federation of one federate to which nothing happens, and an input file without inputs.
const FILES: &[(&str, &[u8])] = &[
    ("f", b"stop = \"0\"\nfederate = [{ name = \"f\" }]\n"),
    ("i", b""),
];

/// Files, and no memory for the one of this name.
#[derive(Drop)]
struct Unread<'a> {
    files: NamedFiles<'a>,
    name: &'a str,
}

impl Files for Unread<'_> {
    fn bytes(&mut self, name: &str, most: usize) -> Result<Vec<u8>, FileFault> {
        if name == self.name {
            return Err(FileFault::Memory);
        }
        self.files.bytes(name, most)
    }
}

// Whether a lack of memory for one of the files is printed, and nothing else.
fn is_printed<R: Machine + Net<Stream = TcpStream, Listener = TcpListener>>(
    rt: &R,
    place: usize,
) -> bool {
    let Some((name, _)) = FILES.get(place) else {
        return false;
    };
    let mut files = Unread {
        files: NamedFiles::new(rt.alloc(), FILES),
        name: *name,
    };
    let outcome = outcome_over(rt, &["whole", "f", "i", "0"], &mut files);
    shown(&outcome) == Some((1, "", "fedrun: 37 Memory\n"))
}

#[test]
fn prints_37_without_memory_for_a_file(rt: HostRuntime) {
    assert_eq!(rt; [is_printed(&rt, 0), is_printed(&rt, 1)], [true; 2]);
}
