//! Files that are saved on the machine's disk.
use crate::saved::{reserved, saved};
use files_saving::{Disk, MachineDisk, ReserveFault, SaveFault};
use std::{fs, rt};

const NAME: &str = "saved_report";

const TEMPORARY: &str = "saved_report.part";

const FOLDER: &str = "saved_folder";

// What a file holds; none where it isn't there.
fn text<R: rt::Files + AllocGlobal>(rt: &R, name: &str) -> Option<String> {
    fs::read_to_string(rt, name).ok()
}

// Whether a file holds this.
fn holds<R: rt::Files + AllocGlobal>(rt: &R, name: &str, expected: &str) -> bool {
    match text(rt, name) {
        Some(text) => text.as_str() == expected,
        None => false,
    }
}

// Whether there are the file and the temporary one.
fn are_there<R: rt::Files>(rt: &R) -> (Result<bool, SaveFault>, Result<bool, SaveFault>) {
    let mut disk = MachineDisk::new(rt);
    (disk.exists(NAME), disk.exists(TEMPORARY))
}

// Whether a file is saved under a name that was reserved, and the name is refused meanwhile and then.
fn saves<R: rt::Files + AllocGlobal>(rt: &R) -> bool {
    let mut disk = MachineDisk::new(rt);
    let was_free = are_there(rt) == (Ok(false), Ok(false));
    let first = reserved(rt.alloc(), &mut disk, NAME);
    let is_reserved = first == Some(Ok(())) && holds(rt, TEMPORARY, "");
    let second = reserved(rt.alloc(), &mut disk, NAME);
    // Whose it is, in more bytes than are saved.
    let noted = disk.write(TEMPORARY, b"somebody's");
    let is_noted = noted == Ok(()) && holds(rt, TEMPORARY, "somebody's");
    let answer = saved(rt.alloc(), &mut disk, NAME, b"bytes");
    let is_saved = answer == Some(Ok(())) && holds(rt, NAME, "bytes");
    let third = reserved(rt.alloc(), &mut disk, NAME);
    let is_alone = are_there(rt) == (Ok(true), Ok(false));
    let is_removed = fs::remove_file(rt, NAME).is_ok();
    was_free
        && is_reserved
        && second == Some(Err(ReserveFault::TemporaryTaken))
        && is_noted
        && is_saved
        && third == Some(Err(ReserveFault::NameTaken))
        && is_alone
        && is_removed
}

// Whether a temporary file that another made stays as it is, also where it is to be written.
fn leaves_another<R: rt::Files + AllocGlobal>(rt: &R) -> bool {
    let is_written = fs::write(rt, TEMPORARY, "another's").is_ok();
    let mut disk = MachineDisk::new(rt);
    let refused = reserved(rt.alloc(), &mut disk, NAME);
    let answer = saved(rt.alloc(), &mut disk, NAME, b"bytes");
    let is_left = holds(rt, TEMPORARY, "another's") && text(rt, NAME).is_none();
    let is_removed = fs::remove_file(rt, TEMPORARY).is_ok();
    is_written
        && refused == Some(Err(ReserveFault::TemporaryTaken))
        && answer == Some(Err(SaveFault::CannotWrite))
        && is_left
        && is_removed
}

// Whether a file that got the name behind its reservation stays as it is, and the temporary one has all bytes.
fn leaves_a_later_one<R: rt::Files + AllocGlobal>(rt: &R) -> bool {
    let mut disk = MachineDisk::new(rt);
    let first = reserved(rt.alloc(), &mut disk, NAME);
    let has_come = fs::write(rt, NAME, "behind").is_ok();
    let answer = saved(rt.alloc(), &mut disk, NAME, b"bytes");
    let are_left = holds(rt, NAME, "behind") && holds(rt, TEMPORARY, "bytes");
    let are_removed = fs::remove_file(rt, TEMPORARY).is_ok() && fs::remove_file(rt, NAME).is_ok();
    first == Some(Ok(()))
        && has_come
        && answer == Some(Err(SaveFault::Exists))
        && are_left
        && are_removed
}

// Whether nothing is written into what got the temporary file's name, and so neither into what a link there names.
fn writes_into_its_own<R: rt::Files + AllocGlobal>(rt: &R) -> bool {
    let mut disk = MachineDisk::new(rt);
    let first = reserved(rt.alloc(), &mut disk, NAME);
    let is_replaced = fs::remove_file(rt, TEMPORARY).is_ok()
        && fs::write(rt, TEMPORARY, "theirs").is_ok();
    let written = disk.write(TEMPORARY, b"bytes");
    let is_left = holds(rt, TEMPORARY, "theirs");
    let is_removed = fs::remove_file(rt, TEMPORARY).is_ok();
    first == Some(Ok(())) && is_replaced && written == Ok(()) && is_left && is_removed
}

// Whether it can't be looked for a file below another file.
fn cannot_look<R: rt::Files + AllocGlobal>(rt: &R) -> bool {
    let is_written = fs::write(rt, NAME, "no folder").is_ok();
    let mut disk = MachineDisk::new(rt);
    let below = disk.exists("saved_report/below");
    let is_removed = fs::remove_file(rt, NAME).is_ok();
    is_written && below == Err(SaveFault::CannotLook) && is_removed
}

// Whether no name is reserved in a folder that isn't there, nor one that a folder has.
fn refuses<R: rt::Files + AllocGlobal>(rt: &R) -> bool {
    let mut disk = MachineDisk::new(rt);
    let nowhere = reserved(rt.alloc(), &mut disk, "no_folder/report");
    let is_made = fs::create_dir(rt, FOLDER).is_ok();
    let of_folder = reserved(rt.alloc(), &mut disk, FOLDER);
    let is_gone = text(rt, "saved_folder.part").is_none();
    let is_removed = fs::remove_dir(rt, FOLDER).is_ok();
    nowhere == Some(Err(ReserveFault::Failed(SaveFault::CannotCreate)))
        && is_made
        && of_folder == Some(Err(ReserveFault::NameTaken))
        && is_gone
        && is_removed
}

#[test]
fn saves_on_the_machines_disk(rt: HostRuntime) {
    assert!(rt; saves(&rt));
    assert!(rt; leaves_another(&rt));
    assert!(rt; leaves_a_later_one(&rt));
    assert!(rt; writes_into_its_own(&rt));
    assert!(rt; refuses(&rt));
    assert!(rt; cannot_look(&rt));
}
