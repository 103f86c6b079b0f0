use acquisition::AqRefusal;
use dtml_values::RenderRefusal;
use manage::ManageRefusal;
use traverse::TravRefusal;
use zbase::{Memory, Oid, Text};

/// Why a whole message has no answer but a refusal, or none yet.
#[derive(Debug, Drop)]
pub enum SiteRefusal {
    /// Want of memory.
    Memory,
    /// A field isn't the number that it should be, by its name.
    NotANumber(Text),
    /// The credentials can't be read.
    BadCredentials,
    /// Its path leads nowhere.
    Path(TravRefusal),
    /// No user, or no verdict, can be found.
    User(AqRefusal),
    /// The object, and the number of the permission that its user isn't granted there.
    Denied(Oid, u8),
    /// There is no page.
    Page(RenderRefusal),
    /// The call changes nothing.
    Call(ManageRefusal),
}

impl From<Memory> for SiteRefusal {
    ghost use Rattle.std.specs.Prelude.{◌≡◌};
    ghost use Rattle.publisher.specs.declared.refusal.SiteRefusal.TheVariants as refusal;

    ghost from_gives = { λ _ e. e ≡ refusal.Memory };

    fn from(_: Memory) -> SiteRefusal {
        SiteRefusal::Memory
    }
}

impl From<TravRefusal> for SiteRefusal {
    ghost use Rattle.std.specs.Prelude.{◌≡◌};
    ghost use Rattle.publisher.specs.declared.refusal.SiteRefusal.TheVariants as refusal;

    ghost from_gives = { λ cause e. e ≡ refusal.Path cause };

    fn from(cause: TravRefusal) -> SiteRefusal {
        SiteRefusal::Path(cause)
    }
}

impl From<AqRefusal> for SiteRefusal {
    ghost use Rattle.std.specs.Prelude.{◌≡◌};
    ghost use Rattle.publisher.specs.declared.refusal.SiteRefusal.TheVariants as refusal;

    ghost from_gives = { λ cause e. e ≡ refusal.User cause };

    fn from(cause: AqRefusal) -> SiteRefusal {
        SiteRefusal::User(cause)
    }
}

impl From<RenderRefusal> for SiteRefusal {
    ghost use Rattle.std.specs.Prelude.{◌≡◌};
    ghost use Rattle.publisher.specs.declared.refusal.SiteRefusal.TheVariants as refusal;

    ghost from_gives = { λ cause e. e ≡ refusal.Page cause };

    fn from(cause: RenderRefusal) -> SiteRefusal {
        SiteRefusal::Page(cause)
    }
}

impl From<ManageRefusal> for SiteRefusal {
    ghost use Rattle.std.specs.Prelude.{◌≡◌};
    ghost use Rattle.publisher.specs.declared.refusal.SiteRefusal.TheVariants as refusal;

    ghost from_gives = { λ cause e. e ≡ refusal.Call cause };

    fn from(cause: ManageRefusal) -> SiteRefusal {
        SiteRefusal::Call(cause)
    }
}
