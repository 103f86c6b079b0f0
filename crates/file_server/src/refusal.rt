ghost use Rattle.std.specs.Prelude.{◌≡◌};
ghost use Rattle.file_server.specs.declared.refusal.FileRefusal.TheVariants.{Memory as FileMemory};
ghost use Rattle.file_server.specs.Refusals.{of_open, of_serve, of_shelf};

use fs_record::Damage;
use fs_store::OpenRefusal;
use zbase::Memory;
use zio::ShelfRefusal;
use zserve::ServeRefusal;

/// Why a site wasn't served by its plan.
#[derive(Clone, Copy, Debug, PartialEq, Eq)]
pub enum FileRefusal {
    /// The shelf has no such file.
    Missing,
    /// The shelf has a file already under the name of the tape.
    Exists,
    /// The file has so many bytes, which no file may have.
    TooLong(u64),
    /// The file has this damage, in the transaction at that place.
    Damaged(Damage, u64),
    /// The shelf failed, or the disk of the file or of the tape, outside a step.
    Disk,
    /// The hub failed to listen, or to accept a connection.
    Hub,
    /// Want of memory outside a step.
    Memory,
}

impl From<OpenRefusal> for FileRefusal {
    ghost from_gives = { λ refusal e. e ≡ of_open refusal };

    fn from(refusal: OpenRefusal) -> FileRefusal {
        match refusal {
            OpenRefusal::Damaged(kind, place) => FileRefusal::Damaged(kind, place),
            OpenRefusal::Disk => FileRefusal::Disk,
            OpenRefusal::TooLong(size) => FileRefusal::TooLong(size),
            OpenRefusal::Memory => FileRefusal::Memory,
        }
    }
}

impl From<ServeRefusal> for FileRefusal {
    ghost from_gives = { λ refusal e. e ≡ of_serve refusal };

    fn from(refusal: ServeRefusal) -> FileRefusal {
        match refusal {
            ServeRefusal::Hub => FileRefusal::Hub,
            ServeRefusal::Tape => FileRefusal::Disk,
            ServeRefusal::Memory => FileRefusal::Memory,
        }
    }
}

impl From<ShelfRefusal> for FileRefusal {
    ghost from_gives = { λ refusal e. e ≡ of_shelf refusal };

    fn from(refusal: ShelfRefusal) -> FileRefusal {
        match refusal {
            ShelfRefusal::Missing => FileRefusal::Missing,
            ShelfRefusal::Exists => FileRefusal::Exists,
            ShelfRefusal::Failed => FileRefusal::Disk,
            ShelfRefusal::Memory => FileRefusal::Memory,
        }
    }
}

impl From<Memory> for FileRefusal {
    ghost from_gives = { λ _ e. e ≡ FileMemory };

    fn from(_: Memory) -> FileRefusal {
        FileRefusal::Memory
    }
}
