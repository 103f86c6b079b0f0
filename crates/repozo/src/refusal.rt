ghost use Rattle.std.specs.Prelude.{◌≡◌};
ghost use Rattle.repozo.specs.Refusals.{of_scan};
ghost use Rattle.repozo.specs.declared.refusal.RepoRefusal.TheVariants as refusals;

use fs_record::Damage;
use fs_scan::ScanRefusal;
use std::alloc::AllocError;
use zbase::{Memory, Text};

/// Why a backup isn't made, or isn't joined.
#[derive(Debug, Drop)]
pub enum RepoRefusal {
    /// The file has this damage, in the transaction at that place.
    Damaged(Damage, u64),
    /// The disk of the file failed.
    File,
    /// The disk of a piece failed.
    Piece,
    /// The disk of the file that the pieces are joined to failed.
    Out,
    /// The piece of this name has another length or digest than its row says.
    BadPiece(Text),
    /// Want of memory.
    Memory,
}

impl From<Memory> for RepoRefusal {
    ghost from_gives = { λ _ refusal. refusal ≡ refusals.Memory };

    fn from(_: Memory) -> RepoRefusal {
        RepoRefusal::Memory
    }
}

impl From<AllocError> for RepoRefusal {
    ghost from_gives = { λ _ refusal. refusal ≡ refusals.Memory };

    fn from(_: AllocError) -> RepoRefusal {
        RepoRefusal::Memory
    }
}

impl From<ScanRefusal> for RepoRefusal {
    ghost from_gives = { λ scan refusal. refusal ≡ of_scan scan };

    fn from(refusal: ScanRefusal) -> RepoRefusal {
        match refusal {
            ScanRefusal::Damaged(kind, place) => RepoRefusal::Damaged(kind, place),
            ScanRefusal::Disk => RepoRefusal::File,
            ScanRefusal::Memory => RepoRefusal::Memory,
        }
    }
}
