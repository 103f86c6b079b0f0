ghost use Rattle.std.specs.Prelude.{ℕ};

use std::marker::Model;

/// The id of an object, a number of 64 bits. The root folder has the id 0.
///
/// ZODB Programming Guide: every persistent object has an `_p_oid` of eight bytes.
#[derive(Clone, Copy, Debug, PartialEq, Eq, PartialOrd, Ord, Hash)]
pub struct Oid(pub u64);

impl Model for Oid {
    ghost Value = { ℕ };

    ghost view = { λ oid. oid.0 };

    ghost inverse = { λ n. record { 0 = n } };
}

/// The id of a transaction, a number of 64 bits. Ids rise from transaction to transaction; 0 stands for none.
///
/// FileStorage format notes: a transaction's id is a time stamp of eight bytes, made greater than the one
/// before where the clock stands still.
#[derive(Clone, Copy, Debug, PartialEq, Eq, PartialOrd, Ord, Hash)]
pub struct Tid(pub u64);

impl Model for Tid {
    ghost Value = { ℕ };

    ghost view = { λ tid. tid.0 };

    ghost inverse = { λ n. record { 0 = n } };
}

/// Where a data record of an object stands in a file, counted in bytes from the file's start.
#[derive(Clone, Copy, Debug, PartialEq, Eq)]
pub struct Row {
    pub oid: Oid,
    pub place: u64,
}

/// A read conflict: an object whose serial moved while a request was at work.
///
/// ZODB Programming Guide, `readCurrent` and `ReadConflictError`. The fields are plain numbers: the object's
/// id, the serial that the request saw and the one that its vote found.
#[derive(Clone, Copy, Debug, PartialEq, Eq)]
pub struct Clash {
    pub oid: u64,
    pub seen: u64,
    pub found: u64,
}
