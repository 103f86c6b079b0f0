ghost use Rattle.std.specs.Prelude.{◌≡◌};
ghost use Rattle.zope.specs.BackupCauses.{of_backup};
ghost use Rattle.zope.specs.CheckCauses.{of_scan};
ghost use Rattle.zope.specs.DumpCauses.{of_dump};
ghost use Rattle.zope.specs.MakeCauses.{of_make};
ghost use Rattle.zope.specs.PackCauses.{of_pack};
ghost use Rattle.zope.specs.ReplayCauses.{of_file, of_input, of_run, of_schedule};
ghost use Rattle.zope.specs.RestoreCauses.{of_restore};
ghost use Rattle.zope.specs.ServeCauses.{of_served};
ghost use Rattle.zope.specs.declared.refusal.FileRefusal.TheVariants.{Memory as FileMemory};
ghost use Rattle.zope.specs.declared.refusal.InputRefusal.TheVariants.{Memory as InputMemory};
ghost use Rattle.zope.specs.declared.refusal.Refusal.TheVariants.{Memory as RefusedMemory};

use backups::{BackupRefusal, RestoreRefusal};
use file_packer::FilePackRefusal;
use file_server::FileRefusal as ServedRefusal;
use fs_record::Damage;
use fs_scan::ScanRefusal;
use new_site::MakeRefusal;
use replay::{DumpRefusal, RunRefusal};
use schedule::ScheduleRefusal;
use std::alloc::{AllocError, AllocFailed};
use zbase::{Memory, Oid, Text};

/// Why a command did not end well.
#[derive(Debug, Drop)]
pub enum Refusal {
    /// The words are none of the program's.
    Usage,
    /// The name or the password of a new site's manager breaks its rule.
    NotLegible,
    /// The file has this damage, in the transaction at that place.
    Damaged(Damage, u64),
    /// The line of the schedule with this number is bad, or can't be run.
    BadLine(u64),
    /// The shelf or a disk failed.
    Disk,
    /// The source failed, or the hub failed to listen or to accept a connection.
    Input,
    /// The sink failed.
    Output,
    /// Want of memory.
    Memory,
    /// The shelf has no such file.
    Missing,
    /// The shelf has such a file already.
    Exists,
    /// The schedule has more than 67,108,864 bytes.
    InputTooLarge,
    /// The file has so many bytes, which are too many for a replay.
    FileTooLarge(u64),
    /// The file has so many bytes, which no file may have.
    TooLong(u64),
    /// The least object that a pack keeps and whose bytes are no object's.
    Unreadable(Oid),
    /// The shelf has a file already under the name of the packed one.
    PackExists,
    /// The packed file would have so many bytes, more than the limit.
    Full { need: u64, limit: u64 },
    /// The shelf has no index of that repository.
    MissingIndex,
    /// The line of the index with this number fits no rule.
    BadIndex(u64),
    /// The piece of this name isn't there, or has another length or digest than its row says.
    BadPiece(Text),
    /// The shelf has all names already that a new piece, or a new index, may have.
    NamesSpent,
}

/// Why the input was not read.
#[derive(Clone, Copy, Debug, PartialEq, Eq)]
pub enum InputRefusal {
    /// It has more bytes than a schedule may have.
    TooLarge,
    /// The source failed.
    Failed,
    /// Want of memory.
    Memory,
}

/// Why a file was not read.
#[derive(Clone, Copy, Debug, PartialEq, Eq)]
pub enum FileRefusal {
    /// The shelf has no such file.
    Missing,
    /// It has so many bytes.
    TooLarge(u64),
    /// The shelf or the disk failed.
    Disk,
    /// Want of memory.
    Memory,
}

impl From<AllocError> for InputRefusal {
    ghost from_gives = { λ _ e. e ≡ InputMemory };

    fn from(_: AllocError) -> InputRefusal {
        InputRefusal::Memory
    }
}

impl From<Memory> for FileRefusal {
    ghost from_gives = { λ _ e. e ≡ FileMemory };

    fn from(_: Memory) -> FileRefusal {
        FileRefusal::Memory
    }
}

impl From<AllocError> for FileRefusal {
    ghost from_gives = { λ _ e. e ≡ FileMemory };

    fn from(_: AllocError) -> FileRefusal {
        FileRefusal::Memory
    }
}

impl<T: Drop> From<AllocFailed<T>> for FileRefusal {
    ghost from_gives = { λ _ e. e ≡ FileMemory };

    fn from(_: AllocFailed<T>) -> FileRefusal {
        FileRefusal::Memory
    }
}

impl From<Memory> for Refusal {
    ghost from_gives = { λ _ e. e ≡ RefusedMemory };

    fn from(_: Memory) -> Refusal {
        Refusal::Memory
    }
}

impl From<InputRefusal> for Refusal {
    ghost from_gives = { λ refusal e. e ≡ of_input refusal };

    fn from(refusal: InputRefusal) -> Refusal {
        match refusal {
            InputRefusal::TooLarge => Refusal::InputTooLarge,
            InputRefusal::Failed => Refusal::Input,
            InputRefusal::Memory => Refusal::Memory,
        }
    }
}

impl From<ScheduleRefusal> for Refusal {
    ghost from_gives = { λ refusal e. e ≡ of_schedule refusal };

    fn from(refusal: ScheduleRefusal) -> Refusal {
        match refusal {
            ScheduleRefusal::BadLine(line) => Refusal::BadLine(line),
            ScheduleRefusal::Memory => Refusal::Memory,
        }
    }
}

impl From<FileRefusal> for Refusal {
    ghost from_gives = { λ refusal e. e ≡ of_file refusal };

    fn from(refusal: FileRefusal) -> Refusal {
        match refusal {
            FileRefusal::Missing => Refusal::Missing,
            FileRefusal::TooLarge(size) => Refusal::FileTooLarge(size),
            FileRefusal::Disk => Refusal::Disk,
            FileRefusal::Memory => Refusal::Memory,
        }
    }
}

impl From<RunRefusal> for Refusal {
    ghost from_gives = { λ refusal e. e ≡ of_run refusal };

    fn from(refusal: RunRefusal) -> Refusal {
        match refusal {
            RunRefusal::Damaged(kind, place) => Refusal::Damaged(kind, place),
            RunRefusal::BadLine(line) => Refusal::BadLine(line),
            RunRefusal::Output => Refusal::Output,
            RunRefusal::Memory => Refusal::Memory,
        }
    }
}

impl From<ServedRefusal> for Refusal {
    ghost from_gives = { λ refusal e. e ≡ of_served refusal };

    fn from(refusal: ServedRefusal) -> Refusal {
        match refusal {
            ServedRefusal::Missing => Refusal::Missing,
            ServedRefusal::Exists => Refusal::Exists,
            ServedRefusal::TooLong(size) => Refusal::TooLong(size),
            ServedRefusal::Damaged(kind, place) => Refusal::Damaged(kind, place),
            ServedRefusal::Disk => Refusal::Disk,
            ServedRefusal::Hub => Refusal::Input,
            ServedRefusal::Memory => Refusal::Memory,
        }
    }
}

impl From<ScanRefusal> for Refusal {
    ghost from_gives = { λ refusal e. e ≡ of_scan refusal };

    fn from(refusal: ScanRefusal) -> Refusal {
        match refusal {
            ScanRefusal::Damaged(kind, place) => Refusal::Damaged(kind, place),
            ScanRefusal::Disk => Refusal::Disk,
            ScanRefusal::Memory => Refusal::Memory,
        }
    }
}

impl From<MakeRefusal> for Refusal {
    ghost from_gives = { λ refusal e. e ≡ of_make refusal };

    fn from(refusal: MakeRefusal) -> Refusal {
        match refusal {
            MakeRefusal::Disk => Refusal::Disk,
            MakeRefusal::Memory => Refusal::Memory,
        }
    }
}

impl From<DumpRefusal> for Refusal {
    ghost from_gives = { λ refusal e. e ≡ of_dump refusal };

    fn from(refusal: DumpRefusal) -> Refusal {
        match refusal {
            DumpRefusal::Damaged(kind, place) => Refusal::Damaged(kind, place),
            DumpRefusal::Disk => Refusal::Disk,
            DumpRefusal::Output => Refusal::Output,
            DumpRefusal::Memory => Refusal::Memory,
        }
    }
}

impl From<BackupRefusal> for Refusal {
    ghost from_gives = { λ refusal e. e ≡ of_backup refusal };

    fn from(refusal: BackupRefusal) -> Refusal {
        match refusal {
            BackupRefusal::Missing => Refusal::Missing,
            BackupRefusal::TooLong(size) => Refusal::TooLong(size),
            BackupRefusal::Damaged(kind, place) => Refusal::Damaged(kind, place),
            BackupRefusal::NamesSpent => Refusal::NamesSpent,
            BackupRefusal::Disk => Refusal::Disk,
            BackupRefusal::Memory => Refusal::Memory,
        }
    }
}

impl From<RestoreRefusal> for Refusal {
    ghost from_gives = { λ refusal e. e ≡ of_restore refusal };

    fn from(refusal: RestoreRefusal) -> Refusal {
        match refusal {
            RestoreRefusal::Missing => Refusal::MissingIndex,
            RestoreRefusal::BadIndex(line) => Refusal::BadIndex(line),
            RestoreRefusal::BadPiece(name) => Refusal::BadPiece(name),
            RestoreRefusal::Exists => Refusal::Exists,
            RestoreRefusal::Disk => Refusal::Disk,
            RestoreRefusal::Memory => Refusal::Memory,
        }
    }
}

impl From<FilePackRefusal> for Refusal {
    ghost from_gives = { λ refusal e. e ≡ of_pack refusal };

    fn from(refusal: FilePackRefusal) -> Refusal {
        match refusal {
            FilePackRefusal::Missing => Refusal::Missing,
            FilePackRefusal::TooLong(size) => Refusal::TooLong(size),
            FilePackRefusal::Damaged(kind, place) => Refusal::Damaged(kind, place),
            FilePackRefusal::Unreadable(oid) => Refusal::Unreadable(oid),
            FilePackRefusal::Full { need, limit } => Refusal::Full { need, limit },
            FilePackRefusal::Exists => Refusal::PackExists,
            FilePackRefusal::Disk => Refusal::Disk,
            FilePackRefusal::Memory => Refusal::Memory,
        }
    }
}
