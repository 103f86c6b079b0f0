use acquisition::AqRefusal;
use dtml_lex::DtmlRefusal;
use namespace::NameRefusal;
use zbase::{Memory, Oid, Text};

/// What a page had too much of.
#[derive(Clone, Copy, Debug, PartialEq, Eq)]
pub enum Limit {
    /// Tags that were evaluated.
    Tags,
    /// Renderings inside one another.
    Renders,
    /// Bytes of text that were made.
    Output,
}

/// Why there is no page.
#[derive(Debug, Drop)]
pub enum RenderRefusal {
    /// Want of memory.
    Memory,
    /// The first object that is needed and isn't known.
    Need(Oid),
    /// The first object that is needed and is absent, or is no record.
    Broken(Oid),
    /// The object, and the number of the permission that isn't granted on it.
    Unauthorized(Oid, u8),
    /// An object has no root within 64 containers.
    TooDeep,
    /// A name that has no value.
    NoName(Text),
    /// The place of a tag that can't take a value.
    BadValue(u32),
    /// What there was too much of.
    Runaway(Limit),
    /// The object whose source can't be read, and why.
    BadSource(Oid, DtmlRefusal),
}

impl From<Memory> for RenderRefusal {
    ghost use Rattle.std.specs.Prelude.{◌≡◌};
    ghost use Rattle.dtml_values.specs.declared.refusal.RenderRefusal.TheVariants as refusal;

    ghost from_gives = { λ _ e. e ≡ refusal.Memory };

    fn from(_: Memory) -> RenderRefusal {
        RenderRefusal::Memory
    }
}

impl From<NameRefusal> for RenderRefusal {
    ghost use Rattle.std.specs.Prelude.{◌≡◌};
    ghost use Rattle.dtml_values.specs.Told as told;

    ghost from_gives = { λ a e. e ≡ told.of_name a };

    fn from(refusal: NameRefusal) -> RenderRefusal {
        match refusal {
            NameRefusal::Memory => RenderRefusal::Memory,
            NameRefusal::Need(oid) => RenderRefusal::Need(oid),
            NameRefusal::Broken(oid) => RenderRefusal::Broken(oid),
            NameRefusal::Unauthorized(oid, permission) => {
                RenderRefusal::Unauthorized(oid, permission)
            }
            NameRefusal::TooDeep => RenderRefusal::TooDeep,
        }
    }
}

impl From<AqRefusal> for RenderRefusal {
    ghost use Rattle.std.specs.Prelude.{◌≡◌};
    ghost use Rattle.namespace.specs.Told as lower;
    ghost use Rattle.dtml_values.specs.Told as told;

    ghost from_gives = { λ a e. e ≡ told.of_name (lower.of_acquisition a) };

    fn from(refusal: AqRefusal) -> RenderRefusal {
        match refusal {
            AqRefusal::Memory => RenderRefusal::Memory,
            AqRefusal::Need(oid) => RenderRefusal::Need(oid),
            AqRefusal::Broken(oid) => RenderRefusal::Broken(oid),
            AqRefusal::TooDeep => RenderRefusal::TooDeep,
        }
    }
}
