ghost use Rattle.std.specs.Prelude.{◌≡◌, ◌⊎◌, ◌≤◌, ◌++◌, ◌∷◌, [], ℕ, List, IfErr, IfOk, IfSome, IsErrOf, OnOk, None, Some, length, map};
ghost use Rattle.std.specs.List.{concat};
ghost use Rattle.zbase.specs.Faults.{Rose};
ghost use Rattle.zio.specs.Shelves.{file_at};
ghost use Rattle.repozo.specs.Disks.{AllRead, AllRight, OneCounts};
ghost use Rattle.repozo.specs.Index.{AreRows, end_of};
ghost use Rattle.repozo.specs.Pieces.{first_bad};
ghost use Rattle.repozo.specs.Refusals.{IsOfJoin};
ghost use Rattle.backups.specs.Calls.{Calls};
ghost use Rattle.backups.specs.Opened.{AreSound};
ghost use Rattle.backups.specs.Refusals.{IsToldOf};
ghost use Rattle.backups.specs.Restored.{IsBefore, IsOfChecking, IsOfJoining, IsOfPutting, Joins, LeavesOne, RestoreCause, Restored, Turns};
ghost use Rattle.backups.specs.Standing.{AreOpen, IsPresent, first_wrong};

use crate::indexes::index_of;
use crate::naming::index_name;
use crate::pieces::{Unopened, close_pieces, open_pieces};
use crate::refusal::RestoreRefusal;
use repozo::{PieceRows, RepoRefusal, check_pieces, put_pieces};
use std::alloc::Global;
use zdisk::Disk;
use zio::{Shelf, ShelfRefusal};

// A refusal of a check of pieces, or of their joining.
fn told_of(refusal: RepoRefusal) -> RestoreRefusal
    requires of_join { IsOfJoin refusal }
    ensures { IsToldOf refusal result }
{
    match refusal {
        RepoRefusal::Piece | RepoRefusal::Out => RestoreRefusal::Disk,
        RepoRefusal::BadPiece(name) => RestoreRefusal::BadPiece(name),
        RepoRefusal::Memory => RestoreRefusal::Memory,
        // No file is asked but pieces, and what they are joined to.
        RepoRefusal::Damaged(_, _) | RepoRefusal::File => unreachable!(),
    }
}

// Checks pieces against their rows, of which there may be more.
fn check_all<D: Disk>(
    alloc: Global,
    pieces: &mut Vec<D>,
    rows: &PieceRows,
) -> Result<(), RestoreRefusal>
    requires rows { AreRows rows.now }
    requires few { length pieces.old.items ≤ length rows.now }
    ensures right { OnOk result (AllRight (map D.told pieces.old.items) rows.now) }
    ensures bad { (name : List ℕ) → IsErrOf result (RestoreRefusal.BadPiece name) → (held : List (List ℕ)) → AllRead (map D.told pieces.old.items) held
        → first_bad rows.now held ≡ Some name }
    ensures others { IfErr result IsOfChecking }
    ensures same { map D.told pieces.new.items ≡ map D.told pieces.old.items }
    ensures counts { OneCounts (map D.counter pieces.old.items) (map D.counter pieces.new.items) (IsErrOf result RestoreRefusal.Disk) }
{
    match check_pieces(alloc, pieces, rows) {
        Ok(()) => Ok(()),
        Err(refusal) => Err(told_of(refusal)),
    }
}

// Puts right pieces into a new file of that name. The disk is given back, whatever it holds.
fn put_file<F: Shelf>(
    alloc: Global,
    rows: &PieceRows,
    pieces: &mut Vec<F::D>,
    out: &str,
    files: &mut F,
) -> Result<u64, RestoreRefusal>
    requires rows { AreRows rows.now }
    requires paired { length pieces.old.items ≡ length rows.now }
    requires right { AllRight (map F.D.told pieces.old.items) rows.now }
    ensures made { IfOk result (λ _. (held : List (List ℕ)) → AllRead (map F.D.told pieces.old.items) held
        → Turns (F.files files.old) (F.files files.new) (λ all now. (file_at all out.now ≡ None) × (now ≡ all ++ (out.now, concat held) ∷ []))) }
    ensures size { IfOk result (λ size. size ≡ end_of rows.now) }
    ensures left { Turns (F.files files.old) (F.files files.new) (LeavesOne out.now) }
    ensures exists { IsErrOf result RestoreRefusal.Exists → IsPresent (F.files files.old) out.now × (F.files files.new ≡ F.files files.old) }
    ensures others { IfErr result IsOfPutting }
    ensures same_pieces { map F.D.told pieces.new.items ≡ map F.D.told pieces.old.items }
    ensures calls { Calls (F.sound_disks files.old × AreSound (map F.D.counter pieces.old.items)) (F.sound_disks files.new)
        (F.counter files.old) (F.counter files.new)
        (IsErrOf result RestoreRefusal.Disk) }
{
    match files.create(out) {
        Ok(mut disk) => {
            let put = put_pieces(alloc, pieces, rows, &mut disk);
            let closed = files.close(out, disk);
            match put {
                Ok(size) => {
                    closed?;
                    Ok(size)
                }
                Err(refusal) => Err(told_of(refusal)),
            }
        }
        Err(ShelfRefusal::Exists) => Err(RestoreRefusal::Exists),
        Err(ShelfRefusal::Failed) => Err(RestoreRefusal::Disk),
        Err(ShelfRefusal::Memory) => Err(RestoreRefusal::Memory),
        // A file that isn't there is what was asked for.
        Err(ShelfRefusal::Missing) => unreachable!(),
    }
}

// Opens the pieces of these rows, checks each against its row, and joins them into a new file of that name. The pieces stay
// open.
fn join_into<F: Shelf>(
    alloc: Global,
    rows: &PieceRows,
    pieces: &mut Vec<F::D>,
    out: &str,
    files: &mut F,
) -> Result<u64, RestoreRefusal>
    requires rows { AreRows rows.now }
    requires none { pieces.old.items ≡ [] }
    ensures joins { IfOk result (λ size. Turns (F.files files.old) (F.files files.new) (λ all now. Joins all now rows.now out.now size)) }
    ensures left { Turns (F.files files.old) (F.files files.new) (LeavesOne out.now) }
    ensures bad { (name : List ℕ) → IsErrOf result (RestoreRefusal.BadPiece name) → IfSome (F.files files.old) (λ all. first_wrong all rows.now ≡ Some name) }
    ensures exists { IsErrOf result RestoreRefusal.Exists
        → IfSome (F.files files.old) (λ all. (first_wrong all rows.now ≡ None) × (file_at all out.now ≡ None → ⊥)) }
    ensures unmade { IfErr result (λ refusal. IsBefore refusal → F.files files.new ≡ F.files files.old) }
    ensures others { IfErr result IsOfJoining }
    ensures open { IfSome (F.files files.new) (λ now. AreOpen now rows.now (map F.D.told pieces.new.items)) }
    ensures few { length pieces.new.items ≤ length rows.now }
    ensures calls { Calls (F.sound_disks files.old) (F.sound_disks files.new) (F.counter files.old) (F.counter files.new) (IsErrOf result RestoreRefusal.Disk) }
{
    let is_whole = match open_pieces(rows.as_slice(), files, pieces) {
        Ok(is_whole) => is_whole,
        Err(Unopened::Failed) => return Err(RestoreRefusal::Disk),
        Err(Unopened::Memory) => return Err(RestoreRefusal::Memory),
    };
    check_all(alloc, pieces, rows)?;
    if !is_whole {
        let row = &rows.as_slice()[pieces.len()];
        return Err(RestoreRefusal::BadPiece(row.name.copy()?));
    }
    put_file(alloc, rows, pieces, out, files)
}

/// Makes the file again, under a new name, that a repository's pieces are a backup of. Its length.
///
/// Nothing is made before each piece was checked, and no file that was there is changed. `BadPiece` names the first row whose
/// piece is missing, or has another length or digest.
pub fn restore<F: Shelf>(
    alloc: Global,
    repo: &str,
    out: &str,
    files: &mut F,
) -> Result<u64, RestoreRefusal>
    ensures restored { IfOk result (λ size. Turns (F.files files.old) (F.files files.new) (λ all now. Restored all now repo.now out.now size)) }
    ensures cause { IfErr result (RestoreCause repo.now out.now (F.files files.old)
        (Rose (F.counter files.old) (F.counter files.new) ⊎ (F.sound_disks files.old → ⊥))) }
    ensures left { Turns (F.files files.old) (F.files files.new) (LeavesOne out.now) }
    ensures unmade { IfErr result (λ refusal. IsBefore refusal → F.files files.new ≡ F.files files.old) }
    ensures count { (F.counter files.old).count ≤ (F.counter files.new).count }
{
    let index = index_name(alloc, repo)?;
    let rows = match index_of(alloc, index.as_str(), files) {
        Ok(rows) => rows,
        Err(refusal) => return Err(RestoreRefusal::from(refusal)),
    };
    let mut pieces = Vec::new(alloc);
    let joined = join_into(alloc, &rows, &mut pieces, out, files);
    close_pieces(rows.as_slice(), files, pieces);
    joined
}
