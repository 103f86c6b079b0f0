ghost use Rattle.std.specs.Prelude.{◌≡◌};
ghost use Rattle.form_fields.specs.declared.field.FieldRefusal.TheVariants as refusals;

use std::alloc::{AllocError, AllocFailed};
use zbase::{Items, Memory, Text};

/// One value of a field.
#[derive(Debug, Drop)]
pub enum Scalar {
    /// A text, as it came.
    Text(Text),
    /// A whole number of 64 bits, which the name asked for by `:int`.
    Int(i64),
}

/// Values of a field.
pub type Scalars = Items<Scalar>;

/// What a field holds: one value, or a list in the order of the request.
#[derive(Debug, Drop)]
pub enum FieldValue {
    /// The value of a name that stands once.
    One(Scalar),
    /// The values of a name that stands several times, or asked for a list by `:list`.
    List(Scalars),
}

/// A field of a form, or a cookie.
#[derive(Debug, Drop)]
pub struct Field {
    /// The name, without suffixes where it is a form's.
    pub name: Text,
    /// Its value, or values.
    pub value: FieldValue,
}

/// Fields, in the order in which their names come first.
pub type Fields = Items<Field>;

/// Why the fields of a request aren't read.
#[derive(Debug, Drop)]
pub enum FieldRefusal {
    /// The first value under `:int` that isn't a whole number of 64 bits, by its name without suffixes.
    NotANumber(Text),
    /// Want of memory.
    Memory,
}

impl From<Memory> for FieldRefusal {
    ghost from_gives = { λ _ refusal. refusal ≡ refusals.Memory };

    fn from(_: Memory) -> FieldRefusal {
        FieldRefusal::Memory
    }
}

impl From<AllocError> for FieldRefusal {
    ghost from_gives = { λ _ refusal. refusal ≡ refusals.Memory };

    fn from(_: AllocError) -> FieldRefusal {
        FieldRefusal::Memory
    }
}

impl<T: Drop> From<AllocFailed<T>> for FieldRefusal {
    ghost from_gives = { λ _ refusal. refusal ≡ refusals.Memory };

    fn from(_: AllocFailed<T>) -> FieldRefusal {
        FieldRefusal::Memory
    }
}
