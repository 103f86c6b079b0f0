use zbase::{Items, Oid, Oids, Text, Texts};

/// A key of an index, with the objects that have it among their values.
///
/// Zope Book, "Searching and Categorizing Content": an index maps values to the objects that have them.
#[derive(Debug, Drop)]
pub struct Posting {
    /// The value.
    pub key: Text,
    /// The objects that have it, at least one, rising.
    pub oids: Oids,
}

/// The keys of an index, by rising bytes.
pub type Postings = Items<Posting>;

/// How many values an object may have in an index.
///
/// Zope Book, "Searching and Categorizing Content": field indexes and keyword indexes.
#[derive(Clone, Copy, Debug, PartialEq, Eq)]
pub enum IndexKind {
    /// One value.
    Field,
    /// Each item of a list.
    Keyword,
}

/// What the document of an index says.
#[derive(Debug, Drop)]
pub struct Index {
    /// How many values an object may have.
    pub kind: IndexKind,
    /// Its keys.
    pub postings: Postings,
}

/// The indexes of a catalog, in the order of its children.
pub type Indexes = Items<Index>;

/// An object that is catalogued, with its values when it was.
#[derive(Debug, Drop)]
pub struct Entry {
    /// The object.
    pub oid: Oid,
    /// Its values for each index, by rising bytes and each once.
    pub values: Items<Texts>,
}

/// What is catalogued, by rising ids.
pub type Entries = Items<Entry>;

/// What the documents of a catalog say.
#[derive(Debug, Drop)]
pub struct Contents {
    /// What is catalogued.
    pub entries: Entries,
    /// The indexes.
    pub indexes: Indexes,
}

/// An index that a search names, by its place among the indexes, with the values of which a hit has one.
#[derive(Debug, Drop)]
pub struct Sought {
    /// The place of the index, from 0 on.
    pub index: usize,
    /// The values that are given.
    pub given: Texts,
}
