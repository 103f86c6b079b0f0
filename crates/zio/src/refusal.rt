ghost use Rattle.std.specs.Prelude.{◌≡◌};

use zbase::{Failed, Memory};

/// Why a call of a sink or of a hub did not succeed.
#[derive(Clone, Copy, Debug, PartialEq, Eq)]
pub enum OutsideRefusal {
    /// The object's count of faults rose in this call.
    Failed,
    /// Want of memory; the object is as it was.
    Memory,
}

impl From<Failed> for OutsideRefusal {
    ghost use Rattle.zio.specs.declared.refusal.OutsideRefusal.TheVariants.{Failed};

    ghost from_gives = { λ _ refusal. refusal ≡ Failed };

    fn from(_: Failed) -> OutsideRefusal {
        OutsideRefusal::Failed
    }
}

impl From<Memory> for OutsideRefusal {
    ghost use Rattle.zio.specs.declared.refusal.OutsideRefusal.TheVariants.{Memory};

    ghost from_gives = { λ _ refusal. refusal ≡ Memory };

    fn from(_: Memory) -> OutsideRefusal {
        OutsideRefusal::Memory
    }
}

/// Why a call of a shelf did not succeed.
#[derive(Clone, Copy, Debug, PartialEq, Eq)]
pub enum ShelfRefusal {
    /// The shelf has no file of that name.
    Missing,
    /// The shelf has a file of that name already.
    Exists,
    /// The shelf's count of faults rose in this call.
    Failed,
    /// Want of memory; the shelf is as it was.
    Memory,
}

impl From<Failed> for ShelfRefusal {
    ghost use Rattle.zio.specs.declared.refusal.ShelfRefusal.TheVariants.{Failed};

    ghost from_gives = { λ _ refusal. refusal ≡ Failed };

    fn from(_: Failed) -> ShelfRefusal {
        ShelfRefusal::Failed
    }
}

impl From<Memory> for ShelfRefusal {
    ghost use Rattle.zio.specs.declared.refusal.ShelfRefusal.TheVariants.{Memory};

    ghost from_gives = { λ _ refusal. refusal ≡ Memory };

    fn from(_: Memory) -> ShelfRefusal {
        ShelfRefusal::Memory
    }
}
