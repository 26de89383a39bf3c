//! A log on the machine's disk.
use files_keeping::{Device, KeepFault, KeptBy, KeptLog, MachineDevice, read_locked, settle};
use std::fs::File;
use std::{fs, rt};

const NAME: &str = "kept_log";

// Whether the file holds this.
fn holds<R: rt::Files + AllocGlobal>(rt: &R, expected: &str) -> bool {
    match fs::read_to_string(rt, NAME) {
        Ok(text) => text.as_str() == expected,
        Err(_) => false,
    }
}

// The log of the file, cut to so many bytes, or why there is none.
fn opened<R: rt::Files<File = File> + AllocGlobal>(
    rt: &R,
    whole: usize,
) -> Result<KeptLog<MachineDevice>, KeepFault> {
    let mut device = MachineDevice::open(rt, NAME, KeptBy::Disk)?;
    read_locked(rt.alloc(), &mut device)?;
    settle(&mut device, whole)?;
    Ok(KeptLog::new(device, whole))
}

// Whether blocks are kept in a file that is made, while nobody else can lock it, and others behind them by whoever
// opens it then, from which a torn one is cut.
fn keeps<R: rt::Files<File = File> + AllocGlobal>(rt: &R) -> bool {
    let Ok(mut log) = opened(rt, 0) else {
        return false;
    };
    let first = log.keep(b"one.");
    let nothing = log.keep(b"");
    let second = log.keep(b"two.");
    let are_kept = first.is_ok() && nothing.is_ok() && second.is_ok() && log.kept() == 8;
    let is_there = holds(rt, "one.two.");
    let is_taken = matches!(opened(rt, 0), Err(KeepFault::Taken));
    drop(log);
    are_kept && is_there && is_taken && goes_on(rt)
}

// Whether a torn block is cut from the file, and another stands in its place then.
fn goes_on<R: rt::Files<File = File> + AllocGlobal>(rt: &R) -> bool {
    let is_torn = fs::write(rt, NAME, "one.two.th").is_ok();
    let Ok(mut log) = opened(rt, 8) else {
        return false;
    };
    let is_cut = holds(rt, "one.two.");
    let third = log.keep(b"three.");
    is_torn && is_cut && third.is_ok() && log.kept() == 14 && holds(rt, "one.two.three.")
}

// Whether a file is read that was there, and again.
fn reads<R: rt::Files<File = File> + AllocGlobal>(rt: &R) -> bool {
    let Ok(mut device) = MachineDevice::open(rt, NAME, KeptBy::Disk) else {
        return false;
    };
    let first = read_locked(rt.alloc(), &mut device);
    let Ok(bytes) = first else {
        return false;
    };
    let Ok(again) = device.read(rt.alloc()) else {
        return false;
    };
    let all: &[u8] = b"one.two.three.";
    bytes.as_slice() == all && again.as_slice() == all
}

// Whether nothing is opened in a folder that isn't there, nor a folder.
fn refuses<R: rt::Files<File = File>>(rt: &R) -> bool {
    let nowhere = matches!(
        MachineDevice::open(rt, "no_folder/log", KeptBy::Disk),
        Err(KeepFault::CannotOpen)
    );
    let folder = matches!(
        MachineDevice::open(rt, ".", KeptBy::Disk),
        Err(KeepFault::CannotOpen)
    );
    nowhere && folder
}

#[test]
fn keeps_on_the_machines_disk(rt: HostRuntime) {
    assert!(rt; keeps(&rt));
    assert!(rt; reads(&rt));
    assert!(rt; fs::remove_file(&rt, NAME).is_ok());
    assert!(rt; refuses(&rt));
}
