ghost use Rattle.std.specs.Prelude.{◌≡◌, ◌+◌, ◌≤◌, ◌<◌, ◌^◌, ℕ, Bool, List, map, IfErr, IfOk, IfSome, IsErrOf, OnOk, bytes_eq, length};
ghost use Rattle.std.specs.List.{AllByRecursion};
ghost use Rattle.std.specs.Option.{ForSome};
ghost use Rattle.zbase.specs.Faults.{Counts};
ghost use Rattle.zdisk.specs.Disk.{HasRange, bytes_at, content};
ghost use Rattle.fs_record.specs.declared.damage.Damage.{Damage as Kind};
ghost use Rattle.fs_record.specs.Opening.{Damaged};
ghost use Rattle.repozo.specs.Disks.{AllRead, HasPart, OneCounts, Reads};
ghost use Rattle.repozo.specs.Index.{AreRows, Chained, HasLine};
ghost use Rattle.repozo.specs.Pieces.{IsDue, are_current, due, is_part, part};
ghost use Rattle.repozo.specs.Refusals.{IsOfCopy, IsOfPlan};

use crate::index::{MAX_PIECES, end_of};
use crate::window::{WINDOW, new_window};
use crate::{PieceRow, PieceRows, RepoRefusal};
use fs_scan::scan;
use std::alloc::Global;
use zdisk::Disk;

/// What a backup is to do.
#[derive(Clone, Copy, Debug, PartialEq, Eq)]
pub enum BackupPlan {
    /// The pieces hold all of the file.
    Nothing,
    /// A first piece is to hold so many bytes from the file's start on, and the old pieces are let go.
    Full(u64),
    /// A further piece is to hold what stands in the file from the one place up to the other.
    More(u64, u64),
}

// Whether the windows are what the file and the piece hold at these places.
fn same_window<D: Disk>(
    file: &mut D,
    start: u64,
    piece: &mut D,
    at: u64,
    one: &mut [u8],
    other: &mut [u8],
) -> Result<bool, RepoRefusal>
    requires file { HasRange (D.told file.old) start (length one.old) }
    requires piece { HasRange (D.told piece.old) at (length one.old) }
    requires sizes { length one.old ≡ length other.old }
    ensures is { IfOk result (λ is. (bytes held : List ℕ) → Reads (D.told file.old) bytes → Reads (D.told piece.old) held
        → is ≡ bytes_eq (part start (length one.old) bytes) (part at (length one.old) held)) }
    ensures same { D.told file.new ≡ D.told file.old }
    ensures same_piece { D.told piece.new ≡ D.told piece.old }
    ensures others { IfErr result IsOfCopy }
    ensures file_counts { Counts (D.counter file.old) (D.counter file.new) (IsErrOf result RepoRefusal.File) }
    ensures piece_counts { Counts (D.counter piece.old) (D.counter piece.new) (IsErrOf result RepoRefusal.Piece) }
{
    file.read_at(start, one).map_err(|_| RepoRefusal::File)?;
    piece.read_at(at, other).map_err(|_| RepoRefusal::Piece)?;
    Ok(*one == *other)
}

// Whether so many bytes of the file from a place on are those of the piece from its start on.
fn same_part<D: Disk>(
    file: &mut D,
    start: u64,
    piece: &mut D,
    size: u64,
    one: &mut [u8],
    other: &mut [u8],
) -> Result<bool, RepoRefusal>
    requires file { HasRange (D.told file.old) start size }
    requires piece { HasRange (D.told piece.old) 0 size }
    requires reach { start + size < 2 ^ 64 }
    requires one { length one.old ≡ 65536 }
    requires other { length other.old ≡ 65536 }
    ensures is { IfOk result (λ is. (bytes held : List ℕ) → Reads (D.told file.old) bytes → Reads (D.told piece.old) held
        → is ≡ bytes_eq (part start size bytes) (part 0 size held)) }
    ensures same { D.told file.new ≡ D.told file.old }
    ensures same_piece { D.told piece.new ≡ D.told piece.old }
    ensures others { IfErr result IsOfCopy }
    ensures file_counts { Counts (D.counter file.old) (D.counter file.new) (IsErrOf result RepoRefusal.File) }
    ensures piece_counts { Counts (D.counter piece.old) (D.counter piece.new) (IsErrOf result RepoRefusal.Piece) }
{
    let mut done = 0;
    'comparing: while done < size {
        let count = (size - done).min(WINDOW);
        let n = count as usize;
        if !same_window(
            file,
            start + done,
            piece,
            done,
            &mut one[..n],
            &mut other[..n],
        )? {
            return Ok(false);
        }
        done += count;
    }
    Ok(true)
}

// Whether a piece has the length of its row, and the file its bytes there.
fn is_current<D: Disk>(
    file: &mut D,
    len: u64,
    piece: &mut D,
    row: &PieceRow,
    one: &mut [u8],
    other: &mut [u8],
) -> Result<bool, RepoRefusal>
    requires len { ForSome (D.told file.old) (λ told. length (content told) ≡ len) }
    requires line { HasLine row.now }
    requires one { length one.old ≡ 65536 }
    requires other { length other.old ≡ 65536 }
    ensures is { IfOk result (λ is. (bytes held : List ℕ) → Reads (D.told file.old) bytes → Reads (D.told piece.old) held → is ≡ is_part row.now bytes held) }
    ensures same { D.told file.new ≡ D.told file.old }
    ensures same_piece { D.told piece.new ≡ D.told piece.old }
    ensures others { IfErr result IsOfCopy }
    ensures file_counts { Counts (D.counter file.old) (D.counter file.new) (IsErrOf result RepoRefusal.File) }
    ensures piece_counts { Counts (D.counter piece.old) (D.counter piece.new) (IsErrOf result RepoRefusal.Piece) }
{
    let size = row.end - row.start;
    let has = piece.len().map_err(|_| RepoRefusal::Piece)?;
    if has != size {
        return Ok(false);
    }
    if len < row.end {
        return Ok(false);
    }
    same_part(file, row.start, piece, size, one, other)
}

// Whether each piece has the length of its row, and the file its bytes there.
fn each_is_current<D: Disk>(
    file: &mut D,
    len: u64,
    pieces: &mut [D],
    rows: &[PieceRow],
    one: &mut [u8],
    other: &mut [u8],
) -> Result<bool, RepoRefusal>
    requires len { ForSome (D.told file.old) (λ told. length (content told) ≡ len) }
    requires lines { AllByRecursion HasLine rows.now }
    requires chained { Chained 0 rows.now }
    requires paired { length pieces.old ≡ length rows.now }
    requires one { length one.old ≡ 65536 }
    requires other { length other.old ≡ 65536 }
    ensures is { IfOk result (λ is. (bytes : List ℕ) (held : List (List ℕ)) → Reads (D.told file.old) bytes → AllRead (map D.told pieces.old) held
        → is ≡ are_current rows.now held bytes) }
    ensures same { D.told file.new ≡ D.told file.old }
    ensures same_pieces { map D.told pieces.new ≡ map D.told pieces.old }
    ensures others { IfErr result IsOfCopy }
    ensures file_counts { Counts (D.counter file.old) (D.counter file.new) (IsErrOf result RepoRefusal.File) }
    ensures piece_counts { OneCounts (map D.counter pieces.old) (map D.counter pieces.new) (IsErrOf result RepoRefusal.Piece) }
{
    'pieces: for i in 0..rows.len() {
        if !is_current(file, len, &mut pieces[i], &rows[i], one, other)? {
            return Ok(false);
        }
    }
    Ok(true)
}

// Whether the pieces hold the file's front.
fn hold_front<D: Disk>(
    alloc: Global,
    file: &mut D,
    pieces: &mut Vec<D>,
    rows: &PieceRows,
) -> Result<bool, RepoRefusal>
    requires rows { AreRows rows.now }
    requires paired { length pieces.old.items ≡ length rows.now }
    ensures is { IfOk result (λ is. (bytes : List ℕ) (held : List (List ℕ)) → Reads (D.told file.old) bytes
        → AllRead (map D.told pieces.old.items) held → is ≡ are_current rows.now held bytes) }
    ensures same { D.told file.new ≡ D.told file.old }
    ensures same_pieces { map D.told pieces.new.items ≡ map D.told pieces.old.items }
    ensures others { IfErr result IsOfCopy }
    ensures file_counts { Counts (D.counter file.old) (D.counter file.new) (IsErrOf result RepoRefusal.File) }
    ensures piece_counts { OneCounts (map D.counter pieces.old.items) (map D.counter pieces.new.items) (IsErrOf result RepoRefusal.Piece) }
{
    let mut one = new_window(alloc)?;
    let mut other = new_window(alloc)?;
    let len = file.len().map_err(|_| RepoRefusal::File)?;
    each_is_current(
        file,
        len,
        pieces.as_mut_slice(),
        rows.as_slice(),
        &mut one,
        &mut other,
    )
}

// What is due behind pieces that hold the file's front, or don't, where the file ends at a place.
fn due(current: bool, rows: &[PieceRow], end: u64) -> BackupPlan
    ensures { result ≡ due current rows.now end }
{
    let held = end_of(rows);
    if current && held == end {
        BackupPlan::Nothing
    } else if current && held < end && rows.len() < MAX_PIECES {
        BackupPlan::More(held, end)
    } else {
        BackupPlan::Full(end)
    }
}

/// What a backup of the file is to do, over the pieces that its index names, or all of it, where `full` says so.
///
/// It compares bytes, not digests: each piece is read once, and so is what of the file it holds.
pub fn plan<D: Disk>(
    alloc: Global,
    file: &mut D,
    pieces: &mut Vec<D>,
    rows: &PieceRows,
    full: bool,
) -> Result<BackupPlan, RepoRefusal>
    requires rows { AreRows rows.now }
    requires paired { length pieces.old.items ≡ length rows.now }
    ensures due { IfOk result (λ plan. (bytes : List ℕ) (held : List (List ℕ)) → Reads (D.told file.old) bytes
        → AllRead (map D.told pieces.old.items) held → IsDue full rows.now held bytes plan) }
    // What is to be copied stands in the file.
    ensures within { IfOk result (HasPart (D.told file.old)) }
    ensures damaged { (kind : Kind) (place : ℕ) → IsErrOf result (RepoRefusal.Damaged kind place)
        → IfSome (D.told file.old) (λ told. Damaged (content told) place kind) }
    ensures same { D.told file.new ≡ D.told file.old }
    ensures same_pieces { map D.told pieces.new.items ≡ map D.told pieces.old.items }
    ensures others { IfErr result IsOfPlan }
    ensures file_counts { Counts (D.counter file.old) (D.counter file.new) (IsErrOf result RepoRefusal.File) }
    ensures piece_counts { OneCounts (map D.counter pieces.old.items) (map D.counter pieces.new.items) (IsErrOf result RepoRefusal.Piece) }
{
    let end = scan(alloc, file)?.end;
    if full || rows.is_empty() {
        return Ok(BackupPlan::Full(end));
    }
    let current = hold_front(alloc, file, pieces, rows)?;
    Ok(due(current, rows.as_slice(), end))
}
