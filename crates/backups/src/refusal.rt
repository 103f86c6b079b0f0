ghost use Rattle.std.specs.Prelude.{◌≡◌};
ghost use Rattle.backups.specs.Refusals.{of_unread};
ghost use Rattle.backups.specs.declared.refusal.BackupRefusal.TheVariants as backup;
ghost use Rattle.backups.specs.declared.refusal.RestoreRefusal.TheVariants as restore;

use crate::indexes::Unread;
use fs_record::Damage;
use zbase::{Memory, Text};

/// Why a file isn't made again.
#[derive(Debug, Drop)]
pub enum RestoreRefusal {
    /// The shelf has no index of that repository.
    Missing,
    /// The line of the index with this number fits no rule.
    BadIndex(u64),
    /// The piece of this name isn't there, or has another length or digest than its row says.
    BadPiece(Text),
    /// The shelf has the file already that is to be made.
    Exists,
    /// The shelf or a disk failed.
    Disk,
    /// Want of memory.
    Memory,
}

impl From<Memory> for RestoreRefusal {
    ghost from_gives = { λ _ refusal. refusal ≡ restore.Memory };

    fn from(_: Memory) -> RestoreRefusal {
        RestoreRefusal::Memory
    }
}

impl From<Unread> for RestoreRefusal {
    ghost from_gives = { λ unread refusal. refusal ≡ of_unread unread };

    fn from(refusal: Unread) -> RestoreRefusal {
        match refusal {
            Unread::Missing => RestoreRefusal::Missing,
            Unread::Bad(line) => RestoreRefusal::BadIndex(line),
            Unread::Failed => RestoreRefusal::Disk,
            Unread::Memory => RestoreRefusal::Memory,
        }
    }
}

/// Why a file isn't backed up.
#[derive(Clone, Copy, Debug, PartialEq, Eq)]
pub enum BackupRefusal {
    /// The shelf has no such file.
    Missing,
    /// The file has so many bytes, which no file may have.
    TooLong(u64),
    /// The file has this damage, in the transaction at that place.
    Damaged(Damage, u64),
    /// The shelf has all names already that a new piece, or a new index, may have.
    NamesSpent,
    /// The shelf or a disk failed.
    Disk,
    /// Want of memory.
    Memory,
}

impl From<Memory> for BackupRefusal {
    ghost from_gives = { λ _ refusal. refusal ≡ backup.Memory };

    fn from(_: Memory) -> BackupRefusal {
        BackupRefusal::Memory
    }
}
