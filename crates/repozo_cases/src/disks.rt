ghost use Rattle.std.specs.Prelude.{◌≡◌, [], IfOk, Some};
ghost use Rattle.zdisk.specs.Disk.{synced};

use cases::{Case, CasesRefusal};
use std::alloc::Global;
use zbase::Bytes;
use zdisk::{Disk, MemoryDisk};

/// A disk over these bytes. Of its calls that one fails which the case tells for disks of the kind.
pub fn disk_of(
    alloc: Global,
    case: &Case,
    kind: &str,
    bytes: Bytes,
) -> Result<MemoryDisk, CasesRefusal>
    ensures { IfOk result (λ disk. ⟦<MemoryDisk as Disk>⟧.told disk ≡ Some (synced bytes)) }
{
    let mut disk = MemoryDisk::new(alloc, bytes);
    let numbers = case.failing(alloc, kind)?;
    match numbers.first() {
        None | Some(0) => {}
        Some(number) => disk.arm_fail(*number, 0)?,
    }
    Ok(disk)
}

/// An empty disk.
pub fn new_disk(alloc: Global, case: &Case, kind: &str) -> Result<MemoryDisk, CasesRefusal>
    ensures { IfOk result (λ disk. ⟦<MemoryDisk as Disk>⟧.told disk ≡ Some (synced [])) }
{
    disk_of(alloc, case, kind, Bytes::new(alloc))
}

/// The bytes of each piece of the case, in order.
pub fn held(alloc: Global, case: &Case) -> Result<Vec<Bytes>, CasesRefusal> {
    let mut pieces = Vec::new(alloc);
    for part in &case.parts {
        if part.key() == "held" {
            pieces.push(part.bytes.copy()?)?;
        }
    }
    Ok(pieces)
}

/// A disk over each of these pieces.
pub fn disks_of(
    alloc: Global,
    case: &Case,
    pieces: &[Bytes],
) -> Result<Vec<MemoryDisk>, CasesRefusal> {
    let mut disks = Vec::new(alloc);
    for piece in pieces {
        disks.push(disk_of(alloc, case, "piece", piece.copy()?)?)?;
    }
    Ok(disks)
}

/// All that a disk reads.
pub fn bytes_on(alloc: Global, disk: &mut MemoryDisk) -> Result<Bytes, CasesRefusal> {
    disk.disarm();
    let len = disk.len().map_err(|_| CasesRefusal::Missing)?;
    let mut bytes = vec![in alloc; 0; len as usize]?;
    disk.read_at(0, &mut bytes)
        .map_err(|_| CasesRefusal::Missing)?;
    Ok(Bytes::from_vec(bytes))
}
