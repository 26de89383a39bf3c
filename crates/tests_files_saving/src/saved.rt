//! Files that are saved by their temporary names.
use files_saving::{Disk, ReserveFault, SaveFault, reserve, save, temporary_name};
use std::alloc::Global;

/// What is answered when a name is reserved; none where there is no memory.
pub(crate) fn reserved<D: Disk>(
    alloc: Global,
    disk: &mut D,
    name: &str,
) -> Option<Result<(), ReserveFault>> {
    match temporary_name(alloc, name) {
        Ok(temporary) => Some(reserve(disk, temporary.as_str(), name)),
        Err(_) => None,
    }
}

/// What is answered when a file is saved; none where there is no memory.
pub(crate) fn saved<D: Disk>(
    alloc: Global,
    disk: &mut D,
    name: &str,
    bytes: &[u8],
) -> Option<Result<(), SaveFault>> {
    match temporary_name(alloc, name) {
        Ok(temporary) => Some(save(disk, temporary.as_str(), name, bytes)),
        Err(_) => None,
    }
}
