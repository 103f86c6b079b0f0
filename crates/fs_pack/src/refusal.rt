ghost use Rattle.std.specs.Prelude.{◌≡◌};
ghost use Rattle.fs_pack.specs.Refusals.{of_put, of_scan};
ghost use Rattle.fs_pack.specs.declared.refusal.PutRefusal.TheVariants as puts;
ghost use Rattle.fs_pack.specs.declared.refusal.PackRefusal.TheVariants as refusals;

use fs_record::Damage;
use fs_scan::ScanRefusal;
use zbase::{Failed, Memory, Oid};

/// Why a file isn't packed.
#[derive(Clone, Copy, Debug, PartialEq, Eq)]
pub enum PackRefusal {
    /// The file has this damage, in the transaction at that place.
    Damaged(Damage, u64),
    /// The disk of the file failed.
    From,
    /// The disk of the packed file failed.
    To,
    /// The least object that is kept and is no object's bytes at the pack or later.
    Unreadable(Oid),
    /// The packed file would pass the limit: its size in bytes, or `2^64 - 1` where that is more.
    Full { need: u64, limit: u64 },
    /// Want of memory.
    Memory,
}

impl From<Memory> for PackRefusal {
    ghost from_gives = { λ _ refusal. refusal ≡ refusals.Memory };

    fn from(_: Memory) -> PackRefusal {
        PackRefusal::Memory
    }
}

impl From<ScanRefusal> for PackRefusal {
    ghost from_gives = { λ scan refusal. refusal ≡ of_scan scan };

    fn from(refusal: ScanRefusal) -> PackRefusal {
        match refusal {
            ScanRefusal::Damaged(kind, place) => PackRefusal::Damaged(kind, place),
            ScanRefusal::Disk => PackRefusal::From,
            ScanRefusal::Memory => PackRefusal::Memory,
        }
    }
}

/// Why something isn't written.
#[derive(Clone, Copy)]
pub(crate) enum PutRefusal {
    /// The disk failed.
    Failed,
    /// Want of memory.
    Memory,
}

impl From<Failed> for PutRefusal {
    ghost from_gives = { λ _ refusal. refusal ≡ puts.Failed };

    fn from(_: Failed) -> PutRefusal {
        PutRefusal::Failed
    }
}

impl From<Memory> for PutRefusal {
    ghost from_gives = { λ _ refusal. refusal ≡ puts.Memory };

    fn from(_: Memory) -> PutRefusal {
        PutRefusal::Memory
    }
}

impl From<PutRefusal> for PackRefusal {
    ghost from_gives = { λ put refusal. refusal ≡ of_put put };

    fn from(refusal: PutRefusal) -> PackRefusal {
        match refusal {
            PutRefusal::Failed => PackRefusal::To,
            PutRefusal::Memory => PackRefusal::Memory,
        }
    }
}
