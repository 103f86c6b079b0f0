ghost use Rattle.std.specs.Prelude.{◌≡◌, ◌-◌, ◌≤◌, [], IfErr, IfOk, IsErrOf, is_some};
ghost use Rattle.std.specs.Option.{ForSome};
ghost use Rattle.zbase.specs.Faults.{Counts};
ghost use Rattle.zdisk.specs.Crashes.{IsSynced};
ghost use Rattle.zdisk.specs.Disk.{HasRange, content};
ghost use Rattle.repozo.specs.Disks.{Copied};
ghost use Rattle.repozo.specs.Refusals.{IsOfCopy};

use crate::RepoRefusal;
use crate::window::{Side, WINDOW, append_part, new_window};
use md5::{Digest, Md5};
use std::alloc::Global;
use zdisk::Disk;

/// Copies what stands in a file from one place up to another into an empty piece, syncs the piece, and gives the digest.
///
/// All memory is taken before the first device call on the piece, and none is made after one that failed.
#[tactic(auto, using(crate::proofs::Windows::follows_tells))]
pub fn copy<D: Disk, P: Disk>(
    alloc: Global,
    file: &mut D,
    start: u64,
    end: u64,
    piece: &mut P,
) -> Result<[u8; 16], RepoRefusal>
    requires order { start ≤ end }
    requires within { HasRange (D.told file.old) start (end - start) }
    requires empty { ForSome (P.told piece.old) (λ told. content told ≡ []) }
    ensures copied { IfOk result (Copied (D.told file.old) start (end - start) (P.told piece.old) (P.told piece.new)) }
    // Whatever happens, the piece tells as before.
    ensures tells { is_some (P.told piece.new) ≡ is_some (P.told piece.old) }
    ensures same { D.told file.new ≡ D.told file.old }
    ensures memory { IsErrOf result RepoRefusal.Memory → P.told piece.new ≡ P.told piece.old }
    ensures others { IfErr result IsOfCopy }
    ensures file_counts { Counts (D.counter file.old) (D.counter file.new) (IsErrOf result RepoRefusal.File) }
    ensures piece_counts { Counts (P.counter piece.old) (P.counter piece.new) (IsErrOf result RepoRefusal.Piece) }
{
    let size = end - start;
    let mut window = new_window(alloc)?;
    piece.reserve(size / WINDOW + 2, size)?;
    let mut hasher = Md5::new();
    match append_part(file, start, size, piece, 0, &mut window, &mut hasher) {
        Ok(()) => {}
        Err(Side::From) => return Err(RepoRefusal::File),
        Err(Side::To) => return Err(RepoRefusal::Piece),
    }
    piece.sync().map_err(|_| RepoRefusal::Piece)?;
    Ok(hasher.finalize())
}
