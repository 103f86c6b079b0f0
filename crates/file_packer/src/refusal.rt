ghost use Rattle.std.specs.Prelude.{◌≡◌};
ghost use Rattle.file_packer.specs.Refusals.{of_pack};
ghost use Rattle.file_packer.specs.declared.refusal.FilePackRefusal.TheVariants as refusals;

use fs_pack::PackRefusal;
use fs_record::Damage;
use zbase::{Memory, Oid};

/// Why the file of a shelf isn't packed.
#[derive(Clone, Copy, Debug, PartialEq, Eq)]
pub enum FilePackRefusal {
    /// The shelf has no such file.
    Missing,
    /// The file has so many bytes, which no file may have.
    TooLong(u64),
    /// The file has this damage, in the transaction at that place.
    Damaged(Damage, u64),
    /// The least object that is kept and whose bytes at the pack or later are no object's.
    Unreadable(Oid),
    /// The packed file would pass the limit: its size in bytes, or `2^64 - 1` where that is more.
    Full { need: u64, limit: u64 },
    /// The shelf has a file already under the name of the packed one.
    Exists,
    /// The shelf or a disk failed.
    Disk,
    /// Want of memory.
    Memory,
}

impl From<Memory> for FilePackRefusal {
    ghost from_gives = { λ _ refusal. refusal ≡ refusals.Memory };

    fn from(_: Memory) -> FilePackRefusal {
        FilePackRefusal::Memory
    }
}

impl From<PackRefusal> for FilePackRefusal {
    ghost from_gives = { λ pack refusal. refusal ≡ of_pack pack };

    fn from(refusal: PackRefusal) -> FilePackRefusal {
        match refusal {
            PackRefusal::Damaged(kind, place) => FilePackRefusal::Damaged(kind, place),
            PackRefusal::From | PackRefusal::To => FilePackRefusal::Disk,
            PackRefusal::Unreadable(oid) => FilePackRefusal::Unreadable(oid),
            PackRefusal::Full { need, limit } => FilePackRefusal::Full { need, limit },
            PackRefusal::Memory => FilePackRefusal::Memory,
        }
    }
}
