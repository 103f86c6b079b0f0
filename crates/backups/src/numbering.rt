ghost use Rattle.std.specs.Prelude.{◌≡◌, ◌++◌, ◌∷◌, [], IfErr, IfOk, IfSome, IsErrOf, OnErr, Some, string_bytes};
ghost use Rattle.std.specs.Option.{ForSome, option_map};
ghost use Rattle.zbase.specs.Faults.{IsFaultless};
ghost use Rattle.zdisk.specs.Disk.{synced};
ghost use Rattle.zio.specs.Shelves.{Lasts};
ghost use Rattle.backups.specs.BackedUp.{AreSpent, IsFirstFree};
ghost use Rattle.backups.specs.Calls.{Calls};
ghost use Rattle.backups.specs.Putting.{IsOfNaming};

use crate::naming::{NAMES, numbered};
use crate::refusal::BackupRefusal;
use std::alloc::Global;
use zdisk::Disk;
use zio::{Shelf, ShelfRefusal};

/// A file that was made: its name, and a disk over it.
pub(crate) struct NewFile<D> {
    pub name: String,
    pub disk: D,
}

/// A new file under the first of the numbered names that has none.
pub(crate) fn create_numbered<F: Shelf>(
    alloc: Global,
    base: &str,
    files: &mut F,
) -> Result<NewFile<F::D>, BackupRefusal>
    ensures free { IfOk result (λ new. IfSome (F.files files.old) (λ all. IsFirstFree all base.now (string_bytes new.name))) }
    ensures made { IfOk result (λ new. F.files files.new ≡ option_map (λ all. all ++ (string_bytes new.name, []) ∷ []) (F.files files.old)) }
    ensures empty { IfOk result (λ new. ForSome (F.D.told new.disk) (λ told. told ≡ synced [])) }
    ensures told { IfOk result (λ new. IfSome (F.files files.old) (λ _. F.D.told new.disk ≡ Some (synced []))) }
    ensures sound { F.sound_disks files.old → IfOk result (λ new. IsFaultless (F.D.counter new.disk)) }
    ensures spent { IsErrOf result BackupRefusal.NamesSpent → IfSome (F.files files.old) (λ all. AreSpent all base.now) }
    ensures others { IfErr result IsOfNaming }
    ensures kept { OnErr result (F.files files.new ≡ F.files files.old) }
    ensures lasting { Lasts (F.lasts files.old) (F.lasts files.new) }
    ensures calls { Calls (F.sound_disks files.old) (F.sound_disks files.new) (F.counter files.old) (F.counter files.new) (IsErrOf result BackupRefusal.Disk) }
{
    'trying: for n in 0..NAMES {
        let name = numbered(alloc, base, n)?;
        match files.create(name.as_str()) {
            Ok(disk) => return Ok(NewFile { name, disk }),
            Err(ShelfRefusal::Exists) => {}
            Err(ShelfRefusal::Failed) => return Err(BackupRefusal::Disk),
            Err(ShelfRefusal::Memory) => return Err(BackupRefusal::Memory),
            // A file that isn't there is what was asked for.
            Err(ShelfRefusal::Missing) => unreachable!(),
        }
    }
    Err(BackupRefusal::NamesSpent)
}
