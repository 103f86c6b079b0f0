ghost use Rattle.std.specs.Prelude.{◌≡◌, ◌++◌, [], IfErr, IfSome, IsErrOf, None, OnErr, OnOk, Some, is_some};
ghost use Rattle.std.specs.Option.{ForSome};
ghost use Rattle.zbase.specs.Faults.{Counts, IsFaultless};
ghost use Rattle.zdisk.specs.Crashes.{Becomes};
ghost use Rattle.zdisk.specs.Disk.{synced};
ghost use Rattle.zio.specs.Shelves.{Lasts, file_at, with_bytes};
ghost use Rattle.backups.specs.BackedUp.{AddsIndex, AreSpent, Puts, Turned};
ghost use Rattle.backups.specs.Calls.{Calls};
ghost use Rattle.backups.specs.Putting.{Fills, IsOfFilling, IsOfNaming};
ghost use Rattle.backups.specs.Restored.{Turns};
ghost use Rattle.backups.specs.Standing.{IsPresent};

use crate::numbering::{NewFile, create_numbered};
use crate::refusal::BackupRefusal;
use std::alloc::Global;
use zdisk::{Disk, append_and_sync};
use zio::{Shelf, ShelfRefusal};

// Puts a text on a new disk, and syncs it.
fn fill_disk<D: Disk>(disk: &mut D, text: &[u8]) -> Result<(), BackupRefusal>
    requires empty { ForSome (D.told disk.old) (λ told. told ≡ synced []) }
    ensures filled { OnOk result (Becomes (D.told disk.old) (D.told disk.new) (λ file. file ++ text.now)) }
    ensures tells { is_some (D.told disk.new) ≡ is_some (D.told disk.old) }
    ensures others { IfErr result IsOfFilling }
    ensures counts { Counts (D.counter disk.old) (D.counter disk.new) (IsErrOf result BackupRefusal.Disk) }
{
    disk.reserve(2, text.len() as u64)?;
    append_and_sync(disk, 0, text).map_err(|_| BackupRefusal::Disk)?;
    Ok(())
}

// Puts a text into a file that was made just now. The disk is given back, whatever it holds.
fn fill_file<F: Shelf>(
    name: &str,
    disk: F::D,
    text: &[u8],
    files: &mut F,
) -> Result<(), BackupRefusal>
    requires empty { ForSome (F.D.told disk) (λ told. told ≡ synced []) }
    requires told { IfSome (F.files files.old) (λ _. F.D.told disk ≡ Some (synced [])) }
    ensures filled { OnOk result (Turns (F.files files.old) (F.files files.new) (λ all now. now ≡ with_bytes name.now text.now all)) }
    ensures lasting { OnOk result (F.lasts files.new name.now × Lasts (F.lasts files.old) (F.lasts files.new)) }
    ensures left { Turns (F.files files.old) (F.files files.new) (Fills name.now) }
    ensures others { IfErr result IsOfFilling }
    ensures calls { Calls (F.sound_disks files.old × IsFaultless (F.D.counter disk)) (F.sound_disks files.new) (F.counter files.old) (F.counter files.new)
        (IsErrOf result BackupRefusal.Disk) }
{
    let mut disk = disk;
    let filled = fill_disk(&mut disk, text);
    let closed = files.close(name, disk);
    filled?;
    Ok(closed?)
}

// Makes an index under a numbered name, and puts it in the place of the one that there is.
fn replace_index<F: Shelf>(
    alloc: Global,
    index: &str,
    text: &[u8],
    files: &mut F,
) -> Result<(), BackupRefusal>
    requires there { IsPresent (F.files files.old) index.now }
    ensures put { OnOk result (Turned (F.files files.old) (F.files files.new) (Puts index.now text.now)) }
    ensures lasting { OnOk result (F.lasts files.new index.now × Lasts (F.lasts files.old) (F.lasts files.new)) }
    ensures left { OnErr result (Turned (F.files files.old) (F.files files.new) (AddsIndex index.now)) }
    ensures spent { IsErrOf result BackupRefusal.NamesSpent
        → Turned (F.files files.old) (F.files files.new) (λ all now. (now ≡ all) × (file_at all index.now ≡ None → ⊥) × AreSpent all index.now) }
    ensures others { IfErr result IsOfNaming }
    ensures calls { Calls (F.sound_disks files.old) (F.sound_disks files.new) (F.counter files.old) (F.counter files.new) (IsErrOf result BackupRefusal.Disk) }
{
    let NewFile { name, disk } = create_numbered(alloc, index, files)?;
    let new = name.as_str();
    fill_file(new, disk, text, files)?;
    match files.replace(new, index) {
        Ok(()) => Ok(()),
        Err(ShelfRefusal::Failed) => Err(BackupRefusal::Disk),
        // The new index was made just now, so it is there.
        Err(ShelfRefusal::Missing) => Err(BackupRefusal::Memory),
        Err(ShelfRefusal::Memory) => Err(BackupRefusal::Memory),
        // A file that is there is what was asked for.
        Err(ShelfRefusal::Exists) => unreachable!(),
    }
}

/// Puts an index with this text under its name: as a new file, or, where there is one, whole in its place. An index that was
/// there stays as it was, or is the new one.
pub(crate) fn put_index<F: Shelf>(
    alloc: Global,
    index: &str,
    text: &[u8],
    files: &mut F,
) -> Result<(), BackupRefusal>
    ensures put { OnOk result (Turned (F.files files.old) (F.files files.new) (Puts index.now text.now)) }
    ensures lasting { OnOk result (F.lasts files.new index.now × Lasts (F.lasts files.old) (F.lasts files.new)) }
    ensures left { OnErr result (Turned (F.files files.old) (F.files files.new) (AddsIndex index.now)) }
    ensures spent { IsErrOf result BackupRefusal.NamesSpent
        → Turned (F.files files.old) (F.files files.new) (λ all now. (now ≡ all) × (file_at all index.now ≡ None → ⊥) × AreSpent all index.now) }
    ensures others { IfErr result IsOfNaming }
    ensures calls { Calls (F.sound_disks files.old) (F.sound_disks files.new) (F.counter files.old) (F.counter files.new) (IsErrOf result BackupRefusal.Disk) }
{
    match files.create(index) {
        Ok(disk) => fill_file(index, disk, text, files),
        Err(ShelfRefusal::Exists) => replace_index(alloc, index, text, files),
        Err(ShelfRefusal::Failed) => Err(BackupRefusal::Disk),
        Err(ShelfRefusal::Memory) => Err(BackupRefusal::Memory),
        // A file that isn't there is what was asked for.
        Err(ShelfRefusal::Missing) => unreachable!(),
    }
}
