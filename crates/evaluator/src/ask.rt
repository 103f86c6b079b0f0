use zbase::{Oid, Tid};

/// What an evaluation may ask of a history.
#[derive(Clone, Copy, Debug, PartialEq, Eq)]
pub enum Ask {
    /// The value of an object, and the serial that goes with it.
    Object(Oid),
    /// What a transaction did, if there is one with this id.
    Transaction(Tid),
    /// Who did what: a row for each transaction.
    Log,
}
