ghost use Rattle.std.specs.Prelude.{◌≡◌, ◌+◌, ◌*◌, ◌≤◌, ℕ, List, [], None, Some, map, IfErr, IfOk, IsErrOf, OnOk, is_some, length};
ghost use Rattle.std.specs.List.{AllByRecursion, concat};
ghost use Rattle.std.specs.Option.{ForSome};
ghost use Rattle.zbase.specs.Faults.{Counts};
ghost use Rattle.zdisk.specs.Crashes.{Becomes};
ghost use Rattle.zdisk.specs.Disk.{content};
ghost use Rattle.repozo.specs.Disks.{AllRead, AllRight, Grows, OneCounts};
ghost use Rattle.repozo.specs.Index.{AreRows, Chained, HasLine, end_of};
ghost use Rattle.repozo.specs.Pieces.{first_bad};
ghost use Rattle.repozo.specs.Refusals.{IsOfAppend, IsOfJoin, IsOfPut};

use crate::checking::check_pieces;
use crate::index::end_of;
use crate::window::{Side, WINDOW, append_part, new_window};
use crate::{PieceRow, PieceRows, RepoRefusal};
use md5::{Digest, Md5};
use std::alloc::Global;
use zdisk::Disk;

// Puts the bytes of each piece behind what the file holds, which is nothing at first.
fn append_each<D: Disk, O: Disk>(
    pieces: &mut [D],
    rows: &[PieceRow],
    out: &mut O,
    window: &mut [u8],
) -> Result<(), RepoRefusal>
    requires lines { AllByRecursion HasLine rows.now }
    requires chained { Chained 0 rows.now }
    requires paired { length pieces.old ≡ length rows.now }
    requires right { AllRight (map D.told pieces.old) rows.now }
    requires empty { ForSome (O.told out.old) (λ told. content told ≡ []) }
    requires window { length window.old ≡ 65536 }
    requires room { end_of rows.now + 65536 * (length rows.now + 1) ≤ 65536 * O.spare_calls out.old }
    requires space { end_of rows.now ≤ O.spare_bytes out.old }
    ensures joined { OnOk result ((held : List (List ℕ)) → AllRead (map D.told pieces.old) held → Grows (O.told out.old) (O.told out.new) (concat held)) }
    ensures room { OnOk result (1 ≤ O.spare_calls out.new) }
    ensures tells { is_some (O.told out.new) ≡ is_some (O.told out.old) }
    ensures same { map D.told pieces.new ≡ map D.told pieces.old }
    ensures others { IfErr result IsOfAppend }
    ensures piece_counts { OneCounts (map D.counter pieces.old) (map D.counter pieces.new) (IsErrOf result RepoRefusal.Piece) }
    ensures out_counts { Counts (O.counter out.old) (O.counter out.new) (IsErrOf result RepoRefusal.Out) }
{
    let mut unread = Md5::new();
    let mut at = 0;
    'pieces: for i in 0..rows.len() {
        let end = rows[i].end;
        match append_part(&mut pieces[i], 0, end - at, out, at, window, &mut unread) {
            Ok(()) => at = end,
            Err(Side::From) => return Err(RepoRefusal::Piece),
            Err(Side::To) => return Err(RepoRefusal::Out),
        }
    }
    Ok(())
}

/// Joins pieces that are right: puts the bytes of each behind those of the one before it into an empty file, syncs that, and
/// gives its length.
///
/// All memory is taken before the first device call on the file, and none is made after one that failed.
#[tactic(auto, using(crate::proofs::Windows::follows_tells))]
pub fn put_pieces<D: Disk, O: Disk>(
    alloc: Global,
    pieces: &mut Vec<D>,
    rows: &PieceRows,
    out: &mut O,
) -> Result<u64, RepoRefusal>
    requires rows { AreRows rows.now }
    requires paired { length pieces.old.items ≡ length rows.now }
    requires right { AllRight (map D.told pieces.old.items) rows.now }
    requires empty { ForSome (O.told out.old) (λ told. content told ≡ []) }
    ensures joined { OnOk result ((held : List (List ℕ)) → AllRead (map D.told pieces.old.items) held
        → Becomes (O.told out.old) (O.told out.new) (λ _. concat held)) }
    ensures size { IfOk result (λ size. size ≡ end_of rows.now) }
    // Whatever happens, the file tells as before.
    ensures tells { is_some (O.told out.new) ≡ is_some (O.told out.old) }
    ensures same { map D.told pieces.new.items ≡ map D.told pieces.old.items }
    ensures memory { IsErrOf result RepoRefusal.Memory → O.told out.new ≡ O.told out.old }
    ensures others { IfErr result IsOfPut }
    ensures piece_counts { OneCounts (map D.counter pieces.old.items) (map D.counter pieces.new.items) (IsErrOf result RepoRefusal.Piece) }
    ensures out_counts { Counts (O.counter out.old) (O.counter out.new) (IsErrOf result RepoRefusal.Out) }
{
    let rows = rows.as_slice();
    let size = end_of(rows);
    let mut window = new_window(alloc)?;
    out.reserve(size / WINDOW + rows.len() as u64 + 2, size)?;
    append_each(pieces.as_mut_slice(), rows, out, &mut window)?;
    out.sync().map_err(|_| RepoRefusal::Out)?;
    Ok(size)
}

/// Joins the pieces of a backup: checks each of them against its row, and then puts their bytes, one behind the other, into an
/// empty file, syncs that, and gives its length.
///
/// `BadPiece` names the first row whose piece has another length or digest, want of memory and faults aside; nothing was
/// written then. All memory is taken before the first device call on the file, and none is made after one that failed.
pub fn join<D: Disk, O: Disk>(
    alloc: Global,
    pieces: &mut Vec<D>,
    rows: &PieceRows,
    out: &mut O,
) -> Result<u64, RepoRefusal>
    requires rows { AreRows rows.now }
    requires paired { length pieces.old.items ≡ length rows.now }
    requires empty { ForSome (O.told out.old) (λ told. content told ≡ []) }
    ensures right { OnOk result (AllRight (map D.told pieces.old.items) rows.now) }
    ensures joined { OnOk result ((held : List (List ℕ)) → AllRead (map D.told pieces.old.items) held
        → Becomes (O.told out.old) (O.told out.new) (λ _. concat held)) }
    ensures size { IfOk result (λ size. size ≡ end_of rows.now) }
    ensures bad { (name : List ℕ) → IsErrOf result (RepoRefusal.BadPiece name) → (held : List (List ℕ)) → AllRead (map D.told pieces.old.items) held
        → first_bad rows.now held ≡ Some name }
    ensures unwritten { (name : List ℕ) → IsErrOf result (RepoRefusal.BadPiece name) → out.new ≡ out.old }
    ensures memory { IsErrOf result RepoRefusal.Memory → O.told out.new ≡ O.told out.old }
    // Whatever happens, the file tells as before.
    ensures tells { is_some (O.told out.new) ≡ is_some (O.told out.old) }
    ensures same { map D.told pieces.new.items ≡ map D.told pieces.old.items }
    ensures others { IfErr result IsOfJoin }
    ensures piece_counts { OneCounts (map D.counter pieces.old.items) (map D.counter pieces.new.items) (IsErrOf result RepoRefusal.Piece) }
    ensures out_counts { Counts (O.counter out.old) (O.counter out.new) (IsErrOf result RepoRefusal.Out) }
{
    check_pieces(alloc, pieces, rows)?;
    put_pieces(alloc, pieces, rows, out)
}
