ghost use Rattle.std.specs.Prelude.{◌≡◌, MatchOption, length};
ghost use Rattle.std.specs.List.{list_all};
ghost use Rattle.zobject.specs.Rules.{Rise, comes_before};
ghost use Rattle.catalog.specs.Agreeing.{Agrees, AreIndexes};
ghost use Rattle.catalog.specs.Differing as differing;
ghost use Rattle.catalog.specs.Differing.{IsFirstDiffering};
ghost use Rattle.catalog.specs.Forms.{AreEntries, ArePostings};
ghost use Rattle.catalog.specs.Placing as placing;
ghost use Rattle.catalog.specs.Postings as spec;

use crate::document::{Contents, Entry, Posting};
use crate::searching::{is_among, oids_under};
use zbase::{Oid, Text};

// ---- one object and one key

fn has_text(text: &Text, texts: &[Text]) -> bool
    requires { Rise comes_before texts.now }
    ensures { result ≡ placing.has_text text.now texts.now }
{
    texts
        .binary_search_by(|other| other.as_str().cmp(text.as_str()))
        .is_ok()
}

// The values of an entry for an index.
fn values_for(at: usize, entry: &Entry) -> &[Text]
    ensures { result.now ≡ spec.values_for at entry.now }
{
    match entry.values.as_slice().get(at) {
        Some(values) => values.as_slice(),
        None => &[],
    }
}

fn is_valued(columns: usize, at: usize, key: &Text, oid: Oid, entries: &[Entry]) -> bool
    requires { AreEntries columns entries.now }
    ensures { result ≡ spec.is_valued at key.now oid entries.now }
{
    match entries.binary_search_by(|entry| entry.oid.0.cmp(&oid.0)) {
        Ok(found) => has_text(key, values_for(at, &entries[found])),
        Err(_) => false,
    }
}

fn is_posted(key: &Text, oid: Oid, postings: &[Posting]) -> bool
    requires { ArePostings postings.now }
    ensures { result ≡ spec.is_posted key.now oid postings.now }
{
    is_among(oid, oids_under(postings, key))
}

// ---- an index and its column

// Whether each object that stands under the key has it among its values.
fn is_posting_valued(columns: usize, at: usize, entries: &[Entry], posting: &Posting) -> bool
    requires { AreEntries columns entries.now }
    ensures { result ≡ differing.is_posting_valued at entries.now posting.now }
{
    let oids = posting.oids.as_slice();
    oids.iter()
        .all(|oid| is_valued(columns, at, &posting.key, *oid, entries))
}

// Whether the object stands under each of its values.
fn is_entry_posted(at: usize, postings: &[Posting], entry: &Entry) -> bool
    requires { ArePostings postings.now }
    ensures { result ≡ differing.is_entry_posted at postings.now entry.now }
{
    values_for(at, entry)
        .iter()
        .all(|key| is_posted(key, entry.oid, postings))
}

fn each_is_valued(columns: usize, at: usize, entries: &[Entry], postings: &[Posting]) -> bool
    requires { AreEntries columns entries.now }
    ensures { result ≡ list_all (differing.is_posting_valued at entries.now) postings.now }
{
    postings
        .iter()
        .all(|posting| is_posting_valued(columns, at, entries, posting))
}

fn each_is_posted(at: usize, entries: &[Entry], postings: &[Posting]) -> bool
    requires { ArePostings postings.now }
    ensures { result ≡ list_all (differing.is_entry_posted at postings.now) entries.now }
{
    entries
        .iter()
        .all(|entry| is_entry_posted(at, postings, entry))
}

// Whether the index is the inverse of its column.
fn is_inverse(columns: usize, at: usize, entries: &[Entry], postings: &[Posting]) -> bool
    requires entries { AreEntries columns entries.now }
    requires postings { ArePostings postings.now }
    ensures { result ≡ differing.is_inverse at entries.now postings.now }
{
    each_is_valued(columns, at, entries, postings) && each_is_posted(at, entries, postings)
}

/// The number of the first index that isn't the inverse of its column of the entries; none exactly where the documents
/// agree. Takes no memory.
///
/// Zope Book, "Searching and Categorizing Content": an index has, for each value, the objects that have it.
pub fn first_differing(contents: &Contents) -> Option<usize>
    requires entries { AreEntries (length contents.now.indexes) contents.now.entries }
    requires indexes { AreIndexes contents.now.indexes }
    ensures { MatchOption result (Agrees contents.now) (λ at. IsFirstDiffering at contents.now) }
{
    let entries = contents.entries.as_slice();
    let indexes = contents.indexes.as_slice();
    for at in 0..indexes.len() {
        let postings = indexes[at].postings.as_slice();
        if !is_inverse(indexes.len(), at, entries, postings) {
            return Some(at);
        }
    }
    None
}
