use acquisition::AqRefusal;
use std::alloc::AllocError;
use zbase::{Memory, Oid};

/// Why a name has no value.
#[derive(Clone, Copy, Debug, PartialEq, Eq)]
pub enum NameRefusal {
    /// Want of memory.
    Memory,
    /// The first object that is needed and isn't known.
    Need(Oid),
    /// The first object that is needed and is absent, or is no record.
    Broken(Oid),
    /// The object, and the number of the permission that isn't granted on it.
    Unauthorized(Oid, u8),
    /// An object has no root within 64 containers.
    TooDeep,
}

impl From<Memory> for NameRefusal {
    ghost use Rattle.std.specs.Prelude.{◌≡◌};
    ghost use Rattle.namespace.specs.declared.refusal.NameRefusal.TheVariants as refusal;

    ghost from_gives = { λ _ e. e ≡ refusal.Memory };

    fn from(_: Memory) -> NameRefusal {
        NameRefusal::Memory
    }
}

impl From<AllocError> for NameRefusal {
    ghost use Rattle.std.specs.Prelude.{◌≡◌};
    ghost use Rattle.namespace.specs.declared.refusal.NameRefusal.TheVariants as refusal;

    ghost from_gives = { λ _ e. e ≡ refusal.Memory };

    fn from(_: AllocError) -> NameRefusal {
        NameRefusal::Memory
    }
}

impl From<AqRefusal> for NameRefusal {
    ghost use Rattle.std.specs.Prelude.{◌≡◌};
    ghost use Rattle.namespace.specs.Told as told;

    ghost from_gives = { λ a e. e ≡ told.of_acquisition a };

    fn from(refusal: AqRefusal) -> NameRefusal {
        match refusal {
            AqRefusal::Memory => NameRefusal::Memory,
            AqRefusal::Need(oid) => NameRefusal::Need(oid),
            AqRefusal::Broken(oid) => NameRefusal::Broken(oid),
            AqRefusal::TooDeep => NameRefusal::TooDeep,
        }
    }
}
