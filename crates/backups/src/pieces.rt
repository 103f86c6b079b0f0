ghost use Rattle.std.specs.Prelude.{◌≡◌, [], ◌<◌, ◌≤◌, IfOk, IfSome, IsErrOf, IsFalse, IsTrue, length, map};
ghost use Rattle.repozo.specs.Index.{AreRows};
ghost use Rattle.backups.specs.Calls.{Calls};
ghost use Rattle.backups.specs.Opened.{AreSound, IsMissingAt};
ghost use Rattle.backups.specs.Standing.{AreOpen};

use repozo::PieceRow;
use zdisk::Disk;
use zio::{Shelf, ShelfRefusal};

/// Why pieces were not opened.
#[derive(Clone, Copy, Debug, PartialEq, Eq)]
pub(crate) enum Unopened {
    /// The shelf failed.
    Failed,
    /// Want of memory.
    Memory,
}

/// Opens the pieces of these rows, up to the first that is missing. Whether all are there.
pub(crate) fn open_pieces<F: Shelf>(
    rows: &[PieceRow],
    files: &mut F,
    pieces: &mut Vec<F::D>,
) -> Result<bool, Unopened>
    requires none { pieces.old.items ≡ [] }
    ensures open { IfSome (F.files files.old) (λ all. AreOpen all rows.now (map F.D.told pieces.new.items)) }
    ensures few { length pieces.new.items ≤ length rows.now }
    ensures whole { IfOk result (λ whole. IsTrue whole → length pieces.new.items ≡ length rows.now) }
    ensures missing { IfOk result (λ whole. IsFalse whole → (length pieces.new.items < length rows.now)
        × IfSome (F.files files.old) (λ all. IsMissingAt all rows.now (length pieces.new.items))) }
    ensures sound { F.sound_disks files.old → AreSound (map F.D.counter pieces.new.items) }
    ensures same { F.files files.new ≡ F.files files.old }
    ensures calls { Calls (F.sound_disks files.old) (F.sound_disks files.new) (F.counter files.old) (F.counter files.new) (IsErrOf result Unopened.Failed) }
{
    'opening: for i in 0..rows.len() {
        let name = rows[i].name.as_str();
        match files.open(name) {
            Ok(disk) => {
                if let Err(full) = pieces.push(disk) {
                    let _ = files.close(name, full.value);
                    return Err(Unopened::Memory);
                }
            }
            Err(ShelfRefusal::Missing) => return Ok(false),
            Err(ShelfRefusal::Failed) => return Err(Unopened::Failed),
            Err(ShelfRefusal::Memory) => return Err(Unopened::Memory),
            // A file that is there is what was asked for.
            Err(ShelfRefusal::Exists) => unreachable!(),
        }
    }
    Ok(true)
}

/// Gives pieces back that were only read.
pub(crate) fn close_pieces<F: Shelf>(rows: &[PieceRow], files: &mut F, pieces: Vec<F::D>)
    requires open { IfSome (F.files files.old) (λ all. AreOpen all rows.now (map F.D.told pieces.items)) }
    requires few { length pieces.items ≤ length rows.now }
    ensures same { F.files files.new ≡ F.files files.old }
    ensures sound { F.sound_disks files.old → F.sound_disks files.new }
    ensures uncounted { F.counter files.new ≡ F.counter files.old }
{
    let mut pieces = pieces;
    'closing: while let Some(disk) = pieces.pop() {
        let name = rows[pieces.len()].name.as_str();
        // The piece was only read, so the shelf tells of it what it told, whether or not there is memory for that.
        let _ = files.close(name, disk);
    }
    pieces.destroy_empty();
}
