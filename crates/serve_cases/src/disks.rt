//! What disks in memory hold.
use cases::CasesRefusal;
use std::alloc::Global;
use zbase::Bytes;
use zdisk::{Disk, MemoryDisk};

/// The disk as it goes on behind a stop, with nothing armed on it.
pub fn gone_on(disk: MemoryDisk) -> MemoryDisk {
    let mut disk = if disk.stopped() {
        disk.after_stop()
    } else {
        disk
    };
    disk.disarm();
    disk
}

/// What a disk reads.
pub fn bytes_of(alloc: Global, disk: &mut MemoryDisk) -> Result<Bytes, CasesRefusal> {
    let Ok(len) = disk.len() else {
        return Err(CasesRefusal::Missing);
    };
    let mut bytes = vec![in alloc; 0u8; len as usize]?;
    match disk.read_at(0, &mut bytes) {
        Ok(()) => Ok(Bytes::from_vec(bytes)),
        Err(_) => Err(CasesRefusal::Missing),
    }
}

/// What was brought to the device: what a stop now leaves at the least.
pub fn kept_of(alloc: Global, disk: MemoryDisk) -> Result<Bytes, CasesRefusal> {
    let mut disk = disk;
    disk.arm_stop(1, 0)?;
    match disk.len() {
        Ok(_) => Err(CasesRefusal::Missing),
        Err(_) => bytes_of(alloc, &mut gone_on(disk)),
    }
}
