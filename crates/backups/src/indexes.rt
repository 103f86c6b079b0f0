ghost use Rattle.std.specs.Prelude.{◌≡◌, ℕ, IfOk, IfSome, IsErrOf};
ghost use Rattle.zbase.specs.Faults.{Counts};
ghost use Rattle.zdisk.specs.Disk.{content};
ghost use Rattle.repozo.specs.BadLines.{IsBadAt};
ghost use Rattle.repozo.specs.Index.{AreRows, IsIndex};
ghost use Rattle.backups.specs.Calls.{Calls};
ghost use Rattle.backups.specs.Refusals.{of_index};
ghost use Rattle.backups.specs.Standing.{HasBadIndex, HasIndex, IsMissing};
ghost use Rattle.backups.specs.declared.indexes.Unread.TheVariants as unread;

use repozo::{IndexRefusal, PieceRows, read_index};
use std::alloc::{AllocError, Global};
use zdisk::Disk;
use zio::{Shelf, ShelfRefusal};

/// Why an index was not read.
#[derive(Clone, Copy, Debug, PartialEq, Eq)]
pub(crate) enum Unread {
    /// The shelf has no such file.
    Missing,
    /// The line of the index with this number fits no rule.
    Bad(u64),
    /// The shelf or the disk failed.
    Failed,
    /// Want of memory.
    Memory,
}

impl From<AllocError> for Unread {
    ghost from_gives = { λ _ refusal. refusal ≡ unread.Memory };

    fn from(_: AllocError) -> Unread {
        Unread::Memory
    }
}

impl From<IndexRefusal> for Unread {
    ghost from_gives = { λ index refusal. refusal ≡ of_index index };

    fn from(refusal: IndexRefusal) -> Unread {
        match refusal {
            IndexRefusal::BadIndex(line) => Unread::Bad(line),
            IndexRefusal::Memory => Unread::Memory,
        }
    }
}

// All bytes of a disk, read as an index.
fn read_rows<D: Disk>(alloc: Global, disk: &mut D) -> Result<PieceRows, Unread>
    ensures is { IfOk result (λ rows. IfSome (D.told disk.old) (λ told. IsIndex (content told) rows)) }
    ensures rules { IfOk result AreRows }
    ensures bad { (n : ℕ) → IsErrOf result (Unread.Bad n) → IfSome (D.told disk.old) (λ told. IsBadAt (content told) n) }
    ensures there { IsErrOf result Unread.Missing → ⊥ }
    ensures same { D.told disk.new ≡ D.told disk.old }
    ensures counts { Counts (D.counter disk.old) (D.counter disk.new) (IsErrOf result Unread.Failed) }
{
    let len = disk.len().map_err(|_| Unread::Failed)?;
    let mut bytes = vec![in alloc; 0u8; len as usize]?;
    disk.read_at(0, &mut bytes).map_err(|_| Unread::Failed)?;
    Ok(read_index(alloc, &bytes)?)
}

/// The rows of the index that is the file of that name. It changes no file.
pub(crate) fn index_of<F: Shelf>(
    alloc: Global,
    name: &str,
    files: &mut F,
) -> Result<PieceRows, Unread>
    ensures stands { IfOk result (λ rows. IfSome (F.files files.old) (λ all. HasIndex all name.now rows)) }
    ensures rules { IfOk result AreRows }
    ensures missing { IsErrOf result Unread.Missing → IsMissing (F.files files.old) name.now }
    ensures bad { (n : ℕ) → IsErrOf result (Unread.Bad n) → IfSome (F.files files.old) (λ all. HasBadIndex all name.now n) }
    ensures same { F.files files.new ≡ F.files files.old }
    ensures calls { Calls (F.sound_disks files.old) (F.sound_disks files.new) (F.counter files.old) (F.counter files.new) (IsErrOf result Unread.Failed) }
{
    match files.open(name) {
        Ok(mut disk) => {
            let rows = read_rows(alloc, &mut disk);
            // The file was only read, so the shelf tells of it what it told.
            let _ = files.close(name, disk);
            rows
        }
        Err(ShelfRefusal::Missing) => Err(Unread::Missing),
        Err(ShelfRefusal::Failed) => Err(Unread::Failed),
        Err(ShelfRefusal::Memory) => Err(Unread::Memory),
        // A file that is there is what was asked for.
        Err(ShelfRefusal::Exists) => unreachable!(),
    }
}
