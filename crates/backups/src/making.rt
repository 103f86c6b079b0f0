ghost use Rattle.std.specs.Prelude.{◌≡◌, ◌++◌, ◌∷◌, ◌-◌, ◌≤◌, [], ℕ, List, IfErr, IfOk, IfSome, IsErrOf, OnErr};
ghost use Rattle.zbase.specs.Faults.{IsFaultless};
ghost use Rattle.zdisk.specs.Disk.{HasRange, content};
ghost use Rattle.fs_record.specs.declared.damage.Damage.{Damage as Kind};
ghost use Rattle.fs_record.specs.Opening.{Damaged};
ghost use Rattle.repozo.specs.Disks.{HasPart, Reads};
ghost use Rattle.backups.specs.BackedUp.{AddsPiece, AreSpent, IsMade, LastsNext};
ghost use Rattle.backups.specs.Calls.{Calls};
ghost use Rattle.backups.specs.Putting.{HasPiece, IsEarly, IsOfMaking, IsOfNaming, MakesDue, SpendsDue};
ghost use Rattle.backups.specs.Restored.{Turns};

use crate::backed::{Backed, Made};
use crate::numbering::{NewFile, create_numbered};
use crate::planned::{Due, due_for, told_as};
use crate::refusal::BackupRefusal;
use repozo::{BackupPlan, PieceRow, PieceRows, copy};
use std::alloc::Global;
use zbase::Text;
use zdisk::Disk;
use zio::Shelf;

// Makes a piece, under the first free name, with what stands in the file from one place up to another.
fn make_piece<F: Shelf>(
    alloc: Global,
    file: &mut F::D,
    repo: &str,
    start: u64,
    end: u64,
    files: &mut F,
) -> Result<PieceRow, BackupRefusal>
    requires order { start ≤ end }
    requires within { HasRange (F.D.told file.old) start (end - start) }
    ensures made { IfOk result (λ row. Turns (F.files files.old) (F.files files.new)
        (λ all now. (bytes : List ℕ) → Reads (F.D.told file.old) bytes → HasPiece all now repo.now start end bytes row)) }
    ensures lasting { IfOk result (λ row. F.lasts files.new row.name) }
    ensures left { Turns (F.files files.old) (F.files files.new) (AddsPiece repo.now) }
    ensures spent { IsErrOf result BackupRefusal.NamesSpent → IfSome (F.files files.old) (λ all. AreSpent all repo.now) }
    ensures unmade { IfErr result (λ refusal. IsEarly refusal → F.files files.new ≡ F.files files.old) }
    ensures others { IfErr result IsOfNaming }
    ensures same_file { F.D.told file.new ≡ F.D.told file.old }
    ensures calls { Calls (F.sound_disks files.old × IsFaultless (F.D.counter file.old)) (F.sound_disks files.new)
        (F.counter files.old) (F.counter files.new) (IsErrOf result BackupRefusal.Disk) }
{
    let NewFile { name, disk } = create_numbered(alloc, repo, files)?;
    let new = name.as_str();
    let mut disk = disk;
    let copied = copy(alloc, file, start, end, &mut disk);
    let closed = files.close(new, disk);
    match copied {
        Ok(md5) => {
            closed?;
            let name = Text::from_str(alloc, new)?;
            Ok(PieceRow {
                name,
                start,
                end,
                md5,
            })
        }
        Err(refusal) => Err(told_as(refusal)),
    }
}

// Makes the piece that is due.
fn make_due<F: Shelf>(
    alloc: Global,
    file: &mut F::D,
    repo: &str,
    due: Due,
    files: &mut F,
) -> Result<Made, BackupRefusal>
    requires within { HasPart (F.D.told file.old) due.plan }
    ensures made { IfOk result (λ made. Turns (F.files files.old) (F.files files.new)
        (λ all now. (bytes : List ℕ) → Reads (F.D.told file.old) bytes → IsMade all now repo.now bytes due.rows due.plan made)) }
    ensures lasting { IfOk result (LastsNext (F.lasts files.new)) }
    ensures left { OnErr result (Turns (F.files files.old) (F.files files.new) (AddsPiece repo.now)) }
    ensures spent { IsErrOf result BackupRefusal.NamesSpent
        → (due.plan ≡ BackupPlan.Nothing → ⊥) × IfSome (F.files files.old) (λ all. AreSpent all repo.now) }
    ensures unmade { IfErr result (λ refusal. IsEarly refusal → F.files files.new ≡ F.files files.old) }
    ensures others { IfErr result IsOfNaming }
    ensures same_file { F.D.told file.new ≡ F.D.told file.old }
    ensures calls { Calls (F.sound_disks files.old × IsFaultless (F.D.counter file.old)) (F.sound_disks files.new)
        (F.counter files.old) (F.counter files.new) (IsErrOf result BackupRefusal.Disk) }
{
    let Due { plan, rows } = due;
    match plan {
        BackupPlan::Nothing => Ok(Made::Nothing),
        BackupPlan::Full(end) => {
            let row = make_piece(alloc, file, repo, 0, end, files)?;
            let done = Backed::Full(row.name.copy()?, end);
            let mut next = PieceRows::new(alloc);
            next.push(row)?;
            Ok(Made::Piece(next, done))
        }
        BackupPlan::More(start, end) => {
            let row = make_piece(alloc, file, repo, start, end, files)?;
            let done = Backed::More(row.name.copy()?, end - start);
            let mut next = rows;
            next.push(row)?;
            Ok(Made::Piece(next, done))
        }
    }
}

/// Makes the piece that is due for the file on a disk, over the pieces that the index of that name has.
pub(crate) fn make_next<F: Shelf>(
    alloc: Global,
    file: &mut F::D,
    repo: &str,
    index: &str,
    full: bool,
    files: &mut F,
) -> Result<Made, BackupRefusal>
    ensures made { IfOk result (λ made. Turns (F.files files.old) (F.files files.new)
        (λ all now. (bytes : List ℕ) → Reads (F.D.told file.old) bytes → MakesDue all now repo.now index.now full bytes made)) }
    ensures lasting { IfOk result (LastsNext (F.lasts files.new)) }
    ensures left { OnErr result (Turns (F.files files.old) (F.files files.new) (AddsPiece repo.now)) }
    ensures spent { IsErrOf result BackupRefusal.NamesSpent → (bytes : List ℕ) → Reads (F.D.told file.old) bytes
        → IfSome (F.files files.old) (λ all. SpendsDue all repo.now index.now full bytes) }
    ensures damaged { (kind : Kind) (place : ℕ) → IsErrOf result (BackupRefusal.Damaged kind place)
        → IfSome (F.D.told file.old) (λ told. Damaged (content told) place kind) }
    ensures unmade { IfErr result (λ refusal. IsEarly refusal → F.files files.new ≡ F.files files.old) }
    ensures others { IfErr result IsOfMaking }
    ensures same_file { F.D.told file.new ≡ F.D.told file.old }
    ensures calls { Calls (F.sound_disks files.old × IsFaultless (F.D.counter file.old)) (F.sound_disks files.new)
        (F.counter files.old) (F.counter files.new) (IsErrOf result BackupRefusal.Disk) }
{
    let due = due_for(alloc, file, index, full, files)?;
    make_due(alloc, file, repo, due, files)
}
