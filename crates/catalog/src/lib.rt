//! Catalogs: folders that list objects by their values.
//!
//! A catalog has a document of entries, one for each object that it lists, with the object's values when it was
//! catalogued, and a document for each index, with the objects that have each value. Zope Book, "Searching and
//! Categorizing Content".
//!
//! `specs/Spelling` has the texts of the documents, `specs/Reading` how one is read, `specs/Forms` what may stand in them,
//! `specs/Agreeing` when they agree and what calls make of them, and `specs/Hits` what a search finds.
#![tactic(auto)]

mod agreeing;
mod changing;
mod document;
mod laws;
mod reading;
mod searching;
mod spelling;

pub use agreeing::first_differing;
pub use changing::{add_index, catalog_entry, new_contents, uncatalog_entry};
pub use document::{
    Contents, Entries, Entry, Index, IndexKind, Indexes, Posting, Postings, Sought,
};
pub use laws::{calls_keep_agreement, inverses_are_one, searches_find_hits, texts_are_read};
pub use reading::{read_entries, read_index};
pub use searching::find;
pub use spelling::{write_entries, write_index};
