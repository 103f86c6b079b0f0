ghost use Rattle.std.specs.Prelude.{◌≡◌, ◌≤◌, [], ℕ, true, List, IfErr, IfOk, IfSome, IsErrOf, length, map};
ghost use Rattle.zbase.specs.Faults.{Counts, IsFaultless};
ghost use Rattle.zdisk.specs.Disk.{content};
ghost use Rattle.fs_record.specs.declared.damage.Damage.{Damage as Kind};
ghost use Rattle.fs_record.specs.Opening.{Damaged};
ghost use Rattle.repozo.specs.Disks.{HasPart, Reads};
ghost use Rattle.repozo.specs.Index.{AreRows};
ghost use Rattle.repozo.specs.Pieces.{IsDue};
ghost use Rattle.repozo.specs.Refusals.{IsOfPlan};
ghost use Rattle.backups.specs.BackedUp.{IsDueOver};
ghost use Rattle.backups.specs.Calls.{Calls};
ghost use Rattle.backups.specs.Putting.{IsOfPlanning, IsPlanned, IsStanding, IsToldAs};
ghost use Rattle.backups.specs.Standing.{AreOpen};

use crate::indexes::{Unread, index_of};
use crate::pieces::{Unopened, close_pieces, open_pieces};
use crate::refusal::BackupRefusal;
use repozo::{BackupPlan, PieceRows, RepoRefusal, one_bad_line, one_index, plan};
use std::alloc::Global;
use zdisk::Disk;
use zio::Shelf;

/// What is due for a file, and behind which rows.
pub(crate) struct Due {
    pub plan: BackupPlan,
    pub rows: PieceRows,
}

// A refusal of a plan, or of a copy.
pub(crate) fn told_as(refusal: RepoRefusal) -> BackupRefusal
    requires of_backup { IsOfPlan refusal }
    ensures { IsToldAs refusal result }
{
    match refusal {
        RepoRefusal::Damaged(kind, place) => BackupRefusal::Damaged(kind, place),
        RepoRefusal::File | RepoRefusal::Piece => BackupRefusal::Disk,
        RepoRefusal::Memory => BackupRefusal::Memory,
        // No pieces are joined.
        RepoRefusal::BadPiece(_) | RepoRefusal::Out => unreachable!(),
    }
}

// The rows of the index, where there is one.
fn standing_rows<F: Shelf>(
    alloc: Global,
    index: &str,
    files: &mut F,
) -> Result<Option<PieceRows>, BackupRefusal>
    ensures stands { IfOk result (λ rows. IfSome (F.files files.old) (λ all. IsStanding all index.now rows)) }
    ensures rules { IfOk result (λ rows. IfSome rows AreRows) }
    ensures others { IfErr result IsOfPlanning }
    ensures damaged { (kind : Kind) (place : ℕ) → IsErrOf result (BackupRefusal.Damaged kind place) → ⊥ }
    ensures same { F.files files.new ≡ F.files files.old }
    ensures calls { Calls (F.sound_disks files.old) (F.sound_disks files.new) (F.counter files.old) (F.counter files.new) (IsErrOf result BackupRefusal.Disk) }
{
    one_bad_line();
    match index_of(alloc, index, files) {
        Ok(rows) => Ok(Some(rows)),
        Err(Unread::Missing) => Ok(None),
        Err(Unread::Bad(_)) => Ok(None),
        Err(Unread::Failed) => Err(BackupRefusal::Disk),
        Err(Unread::Memory) => Err(BackupRefusal::Memory),
    }
}

// Opens the pieces of these rows, and says what is due over them; nothing is said where one is missing. They stay open.
fn plan_pieces<F: Shelf>(
    alloc: Global,
    file: &mut F::D,
    rows: &PieceRows,
    pieces: &mut Vec<F::D>,
    full: bool,
    files: &mut F,
) -> Result<Option<BackupPlan>, BackupRefusal>
    requires rows { AreRows rows.now }
    requires none { length pieces.old.items ≡ 0 }
    ensures planned { IfOk result (λ plan. (bytes : List ℕ) → Reads (F.D.told file.old) bytes
        → IfSome (F.files files.old) (λ all. IsPlanned all rows.now full bytes plan)) }
    ensures within { IfOk result (λ plan. IfSome plan (HasPart (F.D.told file.old))) }
    ensures damaged { (kind : Kind) (place : ℕ) → IsErrOf result (BackupRefusal.Damaged kind place)
        → IfSome (F.D.told file.old) (λ told. Damaged (content told) place kind) }
    ensures others { IfErr result IsOfPlanning }
    ensures open { IfSome (F.files files.new) (λ all. AreOpen all rows.now (map F.D.told pieces.new.items)) }
    ensures few { length pieces.new.items ≤ length rows.now }
    ensures same_file { F.D.told file.new ≡ F.D.told file.old }
    ensures same { F.files files.new ≡ F.files files.old }
    ensures calls { Calls (F.sound_disks files.old × IsFaultless (F.D.counter file.old)) (F.sound_disks files.new × IsFaultless (F.D.counter file.new))
        (F.counter files.old) (F.counter files.new) (IsErrOf result BackupRefusal.Disk) }
{
    match open_pieces(rows.as_slice(), files, pieces) {
        Ok(true) => {}
        Ok(false) => return Ok(None),
        Err(Unopened::Failed) => return Err(BackupRefusal::Disk),
        Err(Unopened::Memory) => return Err(BackupRefusal::Memory),
    }
    match plan(alloc, file, pieces, rows, full) {
        Ok(plan) => Ok(Some(plan)),
        Err(refusal) => Err(told_as(refusal)),
    }
}

// What is due over the pieces of these rows; nothing is said where one is missing.
fn plan_over<F: Shelf>(
    alloc: Global,
    file: &mut F::D,
    rows: &PieceRows,
    full: bool,
    files: &mut F,
) -> Result<Option<BackupPlan>, BackupRefusal>
    requires rows { AreRows rows.now }
    ensures planned { IfOk result (λ plan. (bytes : List ℕ) → Reads (F.D.told file.old) bytes
        → IfSome (F.files files.old) (λ all. IsPlanned all rows.now full bytes plan)) }
    ensures within { IfOk result (λ plan. IfSome plan (HasPart (F.D.told file.old))) }
    ensures damaged { (kind : Kind) (place : ℕ) → IsErrOf result (BackupRefusal.Damaged kind place)
        → IfSome (F.D.told file.old) (λ told. Damaged (content told) place kind) }
    ensures others { IfErr result IsOfPlanning }
    ensures same_file { F.D.told file.new ≡ F.D.told file.old }
    ensures same { F.files files.new ≡ F.files files.old }
    ensures calls { Calls (F.sound_disks files.old × IsFaultless (F.D.counter file.old)) (F.sound_disks files.new × IsFaultless (F.D.counter file.new))
        (F.counter files.old) (F.counter files.new) (IsErrOf result BackupRefusal.Disk) }
{
    let mut pieces = Vec::new(alloc);
    let planned = plan_pieces(alloc, file, rows, &mut pieces, full, files);
    close_pieces(rows.as_slice(), files, pieces);
    planned
}

// All of the file is due.
fn due_whole<D: Disk>(alloc: Global, file: &mut D) -> Result<Due, BackupRefusal>
    ensures none { IfOk result (λ due. due.rows ≡ []) }
    ensures due { IfOk result (λ due. (bytes : List ℕ) → Reads (D.told file.old) bytes → IsDue true [] [] bytes due.plan) }
    ensures within { IfOk result (λ due. HasPart (D.told file.old) due.plan) }
    ensures damaged { (kind : Kind) (place : ℕ) → IsErrOf result (BackupRefusal.Damaged kind place)
        → IfSome (D.told file.old) (λ told. Damaged (content told) place kind) }
    ensures others { IfErr result IsOfPlanning }
    ensures same { D.told file.new ≡ D.told file.old }
    ensures counts { Counts (D.counter file.old) (D.counter file.new) (IsErrOf result BackupRefusal.Disk) }
{
    let rows = PieceRows::new(alloc);
    let mut pieces = Vec::new(alloc);
    let planned = plan(alloc, file, &mut pieces, &rows, true);
    pieces.destroy_empty();
    match planned {
        Ok(plan) => Ok(Due { plan, rows }),
        Err(refusal) => Err(told_as(refusal)),
    }
}

/// What is due for the file on a disk, over the pieces that the index of that name has, where all of it stands.
pub(crate) fn due_for<F: Shelf>(
    alloc: Global,
    file: &mut F::D,
    index: &str,
    full: bool,
    files: &mut F,
) -> Result<Due, BackupRefusal>
    ensures due { IfOk result (λ due. (bytes : List ℕ) → Reads (F.D.told file.old) bytes
        → IfSome (F.files files.old) (λ all. IsDueOver all index.now full bytes due.rows due.plan)) }
    ensures within { IfOk result (λ due. HasPart (F.D.told file.old) due.plan) }
    ensures damaged { (kind : Kind) (place : ℕ) → IsErrOf result (BackupRefusal.Damaged kind place)
        → IfSome (F.D.told file.old) (λ told. Damaged (content told) place kind) }
    ensures others { IfErr result IsOfPlanning }
    ensures same_file { F.D.told file.new ≡ F.D.told file.old }
    ensures same { F.files files.new ≡ F.files files.old }
    ensures calls { Calls (F.sound_disks files.old × IsFaultless (F.D.counter file.old)) (F.sound_disks files.new × IsFaultless (F.D.counter file.new))
        (F.counter files.old) (F.counter files.new) (IsErrOf result BackupRefusal.Disk) }
{
    one_index();
    let Some(rows) = standing_rows(alloc, index, files)? else {
        return due_whole(alloc, file);
    };
    match plan_over(alloc, file, &rows, full, files)? {
        Some(plan) => Ok(Due { plan, rows }),
        None => due_whole(alloc, file),
    }
}
