ghost use Rattle.std.specs.Prelude.{◌≡◌, ◌≤◌, ℕ, List, None, Some, map, IfErr, IfOk, IfSome, IsErr, IsErrOf, OnOk, length};
ghost use Rattle.std.specs.List.{AllByRecursion};
ghost use Rattle.zbase.specs.Faults.{Counts};
ghost use Rattle.zdisk.specs.Disk.{HasRange, bytes_at};
ghost use Rattle.md5.specs.Md5.{md5};
ghost use Rattle.repozo.specs.Disks.{AllRead, AllRight, OneCounts, Reads};
ghost use Rattle.repozo.specs.Index.{AreRows, HasLine};
ghost use Rattle.repozo.specs.Pieces.{first_bad, is_right};
ghost use Rattle.repozo.specs.Refusals.{IsOfCheck};

use crate::window::new_window;
use crate::{PieceRow, PieceRows, RepoRefusal};
use md5::{Digest, Md5};
use std::alloc::Global;
use zbase::Failed;
use zdisk::Disk;

// The digest of so many bytes from the start of a disk's file on.
fn digest_of<D: Disk>(piece: &mut D, size: u64, window: &mut [u8]) -> Result<[u8; 16], Failed>
    requires within { HasRange (D.told piece.old) 0 size }
    requires window { 1 ≤ length window.old }
    ensures digest { IfOk result (λ digest. IfSome (D.told piece.old) (λ told. digest ≡ md5 (bytes_at told 0 size))) }
    ensures same { D.told piece.new ≡ D.told piece.old }
    ensures counts { Counts (D.counter piece.old) (D.counter piece.new) (IsErr result) }
{
    let mut hasher = Md5::new();
    let mut done = 0;
    'reading: while done < size {
        let count = (size - done).min(window.len() as u64);
        let next = &mut window[..count as usize];
        piece.read_at(done, next)?;
        hasher.update(&*next);
        done += count;
    }
    Ok(hasher.finalize())
}

// Whether a piece has the length and the digest of its row.
fn is_right<D: Disk>(piece: &mut D, row: &PieceRow, window: &mut [u8]) -> Result<bool, Failed>
    requires order { row.now.start ≤ row.now.end }
    requires window { 1 ≤ length window.old }
    ensures is { IfOk result (λ is. (bytes : List ℕ) → Reads (D.told piece.old) bytes → is ≡ is_right row.now bytes) }
    ensures same { D.told piece.new ≡ D.told piece.old }
    ensures counts { Counts (D.counter piece.old) (D.counter piece.new) (IsErr result) }
{
    let size = row.end - row.start;
    if piece.len()? != size {
        return Ok(false);
    }
    let digest = digest_of(piece, size, window)?;
    Ok(digest == row.md5)
}

// Checks each of the pieces against its row.
fn check_each<D: Disk>(
    pieces: &mut [D],
    rows: &[PieceRow],
    window: &mut [u8],
) -> Result<(), RepoRefusal>
    requires rows { AllByRecursion HasLine rows.now }
    requires few { length pieces.old ≤ length rows.now }
    requires window { 1 ≤ length window.old }
    ensures right { OnOk result (AllRight (map D.told pieces.old) rows.now) }
    ensures bad { (name : List ℕ) → IsErrOf result (RepoRefusal.BadPiece name) → (held : List (List ℕ)) → AllRead (map D.told pieces.old) held
        → first_bad rows.now held ≡ Some name }
    ensures same { map D.told pieces.new ≡ map D.told pieces.old }
    ensures counts { OneCounts (map D.counter pieces.old) (map D.counter pieces.new) (IsErrOf result RepoRefusal.Piece) }
    ensures others { IfErr result IsOfCheck }
{
    'pieces: for i in 0..pieces.len() {
        match is_right(&mut pieces[i], &rows[i], window) {
            Ok(true) => {}
            Ok(false) => return Err(RepoRefusal::BadPiece(rows[i].name.copy()?)),
            Err(_) => return Err(RepoRefusal::Piece),
        }
    }
    Ok(())
}

/// Checks pieces against the first rows of an index, as many as there are pieces.
///
/// It reads every byte of every piece up to the first that has another length or digest than its row says.
pub fn check_pieces<D: Disk>(
    alloc: Global,
    pieces: &mut Vec<D>,
    rows: &PieceRows,
) -> Result<(), RepoRefusal>
    requires rows { AreRows rows.now }
    requires few { length pieces.old.items ≤ length rows.now }
    ensures right { OnOk result (AllRight (map D.told pieces.old.items) rows.now) }
    ensures bad { (name : List ℕ) → IsErrOf result (RepoRefusal.BadPiece name) → (held : List (List ℕ)) → AllRead (map D.told pieces.old.items) held
        → first_bad rows.now held ≡ Some name }
    ensures same { map D.told pieces.new.items ≡ map D.told pieces.old.items }
    ensures counts { OneCounts (map D.counter pieces.old.items) (map D.counter pieces.new.items) (IsErrOf result RepoRefusal.Piece) }
    ensures others { IfErr result IsOfCheck }
{
    let mut window = new_window(alloc)?;
    check_each(pieces.as_mut_slice(), rows.as_slice(), &mut window)
}
