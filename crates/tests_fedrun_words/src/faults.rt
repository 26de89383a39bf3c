//! What is printed of each of the program's faults, and the exit status that goes with it.
use fedrun_words::{Fault, NoSuchCommand, print_line, refuse};
use loadfed::LoadFault;
use std::alloc::Global;

// Faults, the line of each, and its status. Those that a library answered are printed as the library has them.
fn faults() -> [(Fault<'static, NoSuchCommand>, &'static str, u8); 8] {
    [
        (Fault::Usage, "fedrun: usage\n", 2),
        (
            Fault::CannotRead("no.toml"),
            "fedrun: cannot read no.toml\n",
            1,
        ),
        (Fault::Load(LoadFault::NotToml), "fedrun: 30 NotToml\n", 1),
        (Fault::Load(LoadFault::Memory), "fedrun: 37 Memory\n", 1),
        (Fault::CannotWrite, "fedrun: cannot write\n", 3),
        (Fault::Turns(reactor::Memory), "fedrun: 22 Memory\n", 3),
        (Fault::Print(files_text::Memory), "fedrun: 91 Memory\n", 3),
        (Fault::More(NoSuchCommand), "fedrun: usage\n", 2),
    ]
}

// Whether a fault is displayed on this line and printed on it, with this exit status.
fn is_printed(alloc: Global, fault: &Fault<'_, NoSuchCommand>, line: &str, status: u8) -> bool {
    let mut displayed = Vec::new(alloc);
    let mut printed = Vec::new(alloc);
    let answered = refuse(fault, &mut printed);
    print_line(&mut displayed, fault)
        && answered.is_printed
        && answered.status == status
        && displayed.as_slice() == line.as_bytes()
        && printed.as_slice() == line.as_bytes()
}

#[test]
fn prints_each_fault(rt: HostRuntime) {
    for (fault, line, status) in &faults() {
        assert!(rt; is_printed(rt.alloc(), fault, line, *status), "{line}");
    }
}
