use evaluator::Entries;
use zbase::{Text, Tid};
use zobject::Part2;

/// What a call changes.
#[derive(Debug, Drop)]
pub struct Change {
    /// An entry for each object that it writes.
    pub entries: Entries,
}

/// What a call comes to by the object that it is called on and by its form.
#[derive(Debug, Drop)]
pub enum Called {
    /// It makes this change.
    Writes(Change),
    /// It undoes the transaction of this id, if the history has one that can be undone.
    Undoes(Tid),
    /// It shows the newest transactions.
    Lists,
}

/// What has a source.
#[derive(Clone, Copy, Debug, PartialEq, Eq)]
pub(crate) enum Page {
    /// A method.
    Method,
    /// A document.
    Document,
}

/// A child that a folder is to have more.
#[derive(Debug, Drop)]
pub(crate) struct NewChild {
    /// Its id, under which the folder lists it.
    pub id: Text,
    /// Its title.
    pub title: Text,
    /// What only its kind has.
    pub part: Part2,
}
