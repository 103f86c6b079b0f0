ghost use Rattle.std.specs.Prelude.{◌≡◌, ◌⊎◌, ◌<◌, ◌≤◌, ℕ, List, IfErr, IfOk, IfSome, IsErrOf, OnErr, length};
ghost use Rattle.zbase.specs.Faults.{IsFaultless, Rose};
ghost use Rattle.zdisk.specs.Disk.{content};
ghost use Rattle.fs_record.specs.declared.damage.Damage.{Damage as Kind};
ghost use Rattle.fs_record.specs.declared.layout.TheConstants.{MAX_LENGTH as most_length};
ghost use Rattle.fs_record.specs.Opening.{Damaged};
ghost use Rattle.repozo.specs.Disks.{Reads};
ghost use Rattle.backups.specs.BackedUp.{AddsPiece, BackedUp, BackupCause, Fits, HasFile, IsUnmade, LastsBoth, LastsNext, LeavesOld, Turned};
ghost use Rattle.backups.specs.Calls.{Calls};
ghost use Rattle.backups.specs.Putting.{FileCause, IsEarly, IsOfDisk, MakesDue, SpendsDue};
ghost use Rattle.backups.specs.Restored.{Turns};

use crate::backed::{Backed, Made};
use crate::making::make_next;
use crate::naming::index_name;
use crate::putting::put_index;
use crate::refusal::BackupRefusal;
use fs_record::MAX_LENGTH;
use repozo::write_index;
use std::alloc::Global;
use zdisk::Disk;
use zio::{Shelf, ShelfRefusal};

// Makes the piece that is due for the file on a disk, whose length is looked at first.
fn make_from<F: Shelf>(
    alloc: Global,
    file: &mut F::D,
    repo: &str,
    index: &str,
    full: bool,
    files: &mut F,
) -> Result<Made, BackupRefusal>
    ensures made { IfOk result (λ made. Turns (F.files files.old) (F.files files.new)
        (λ all now. (bytes : List ℕ) → Reads (F.D.told file.old) bytes → Fits bytes × MakesDue all now repo.now index.now full bytes made)) }
    ensures lasting { IfOk result (LastsNext (F.lasts files.new)) }
    ensures left { OnErr result (Turns (F.files files.old) (F.files files.new) (AddsPiece repo.now)) }
    ensures spent { IsErrOf result BackupRefusal.NamesSpent → (bytes : List ℕ) → Reads (F.D.told file.old) bytes
        → IfSome (F.files files.old) (λ all. Fits bytes × SpendsDue all repo.now index.now full bytes) }
    ensures damaged { (kind : Kind) (place : ℕ) → IsErrOf result (BackupRefusal.Damaged kind place)
        → IfSome (F.D.told file.old) (λ told. Fits (content told) × Damaged (content told) place kind) }
    ensures too_long { (n : ℕ) → IsErrOf result (BackupRefusal.TooLong n) → (most_length < n) × IfSome (F.D.told file.old) (λ told. n ≡ length (content told)) }
    ensures unmade { IfErr result (λ refusal. IsEarly refusal → F.files files.new ≡ F.files files.old) }
    ensures others { IfErr result IsOfDisk }
    ensures same_file { F.D.told file.new ≡ F.D.told file.old }
    ensures calls { Calls (F.sound_disks files.old × IsFaultless (F.D.counter file.old)) (F.sound_disks files.new)
        (F.counter files.old) (F.counter files.new) (IsErrOf result BackupRefusal.Disk) }
{
    let len = file.len().map_err(|_| BackupRefusal::Disk)?;
    if len > MAX_LENGTH {
        return Err(BackupRefusal::TooLong(len));
    }
    make_next(alloc, file, repo, index, full, files)
}

// Makes the piece that is due for the file of that name. The file is only read.
fn make_of<F: Shelf>(
    alloc: Global,
    file: &str,
    repo: &str,
    index: &str,
    full: bool,
    files: &mut F,
) -> Result<Made, BackupRefusal>
    ensures made { IfOk result (λ made. Turns (F.files files.old) (F.files files.new)
        (λ all now. HasFile all file.now (λ bytes. Fits bytes × MakesDue all now repo.now index.now full bytes made))) }
    ensures lasting { IfOk result (LastsNext (F.lasts files.new)) }
    ensures left { OnErr result (Turns (F.files files.old) (F.files files.new) (AddsPiece repo.now)) }
    ensures cause { IfErr result (FileCause file.now repo.now index.now full (F.files files.old)) }
    ensures unmade { IfErr result (λ refusal. IsEarly refusal → F.files files.new ≡ F.files files.old) }
    ensures calls { Calls (F.sound_disks files.old) (F.sound_disks files.new) (F.counter files.old) (F.counter files.new) (IsErrOf result BackupRefusal.Disk) }
{
    match files.open(file) {
        Ok(mut disk) => {
            let made = make_from(alloc, &mut disk, repo, index, full, files);
            // The file was only read, so the shelf tells of it what it told, whether or not there is memory for that.
            let _ = files.close(file, disk);
            made
        }
        Err(ShelfRefusal::Missing) => Err(BackupRefusal::Missing),
        Err(ShelfRefusal::Failed) => Err(BackupRefusal::Disk),
        Err(ShelfRefusal::Memory) => Err(BackupRefusal::Memory),
        // A file that is there is what was asked for.
        Err(ShelfRefusal::Exists) => unreachable!(),
    }
}

/// Backs a file up: what the pieces of the repository lack of it, or all of it, where `full` says so, or where the index or a
/// piece is missing or isn't what it should be.
///
/// A piece is new, under the first number that is free, and is synced before the index names it. An index that was there is
/// replaced whole. So whatever happens, a backup that stood stands, or the new one does.
pub fn back_up<F: Shelf>(
    alloc: Global,
    file: &str,
    repo: &str,
    full: bool,
    files: &mut F,
) -> Result<Backed, BackupRefusal>
    ensures backed { IfOk result (λ done. Turned (F.files files.old) (F.files files.new) (λ all now. BackedUp all now file.now repo.now full done)) }
    ensures lasting { IfOk result (LastsBoth (F.lasts files.new) repo.now) }
    ensures cause { IfErr result (BackupCause file.now repo.now full (F.files files.old) (F.files files.new)
        (Rose (F.counter files.old) (F.counter files.new) ⊎ (F.sound_disks files.old → ⊥))) }
    ensures left { OnErr result (Turned (F.files files.old) (F.files files.new) (LeavesOld file.now repo.now full)) }
    ensures unmade { IfErr result (λ refusal. IsUnmade refusal → F.files files.new ≡ F.files files.old) }
    ensures count { (F.counter files.old).count ≤ (F.counter files.new).count }
{
    let name = index_name(alloc, repo)?;
    let index = name.as_str();
    let made = match make_of(alloc, file, repo, index, full, files) {
        Ok(made) => made,
        Err(refusal) => return Err(refusal),
    };
    match made {
        Made::Nothing => Ok(Backed::Nothing),
        Made::Piece(rows, done) => {
            let text = write_index(alloc, &rows)?;
            match put_index(alloc, index, text.as_slice(), files) {
                Ok(()) => Ok(done),
                Err(unput) => Err(unput),
            }
        }
    }
}
