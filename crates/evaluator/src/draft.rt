use zbase::{Bytes, Items, Oid, Text, Tid};

/// An object that a change names: one that is there, or the new one of this number.
///
/// The new objects of a change are numbered from 0 without a gap.
#[derive(Clone, Copy, Debug, PartialEq, Eq)]
pub enum Name {
    Old(Oid),
    New(u32),
}

/// Eight bytes of a written value that are to hold the id of a new object, which is known only at the vote.
#[derive(Clone, Copy, Debug, PartialEq, Eq)]
pub struct Hole {
    /// The place of the first of the eight bytes, counted from the value's start.
    pub at: u32,
    /// The number of the new object.
    pub new: u32,
}

/// The holes of a value.
pub type Holes = Items<Hole>;

/// What a change does to one object.
#[derive(Debug, Drop)]
pub enum Entry {
    /// Its value becomes these bytes, with the holes filled.
    Write {
        name: Name,
        bytes: Bytes,
        holes: Holes,
    },
    /// Its value becomes the one that it had in that transaction, none for 0.
    Restore {
        oid: Oid,
        to: Tid,
    },
}

/// What a change does, an entry for each object.
pub type Entries = Items<Entry>;

/// A change before it has a transaction id.
#[derive(Debug, Drop)]
pub struct Draft {
    /// The user's name, empty for Anonymous.
    pub user: Text,
    pub description: Text,
    pub entries: Entries,
}
