ghost use Rattle.std.specs.Prelude.{◌≡◌, ◌++◌, ◌∷◌, [], Bool, drop, get_or, if◌then◌else◌, length, map, not, nat_eq, nat_lt, IfOk, OnOk};
ghost use Rattle.std.specs.List.{filter, AllByRecursion};
ghost use Rattle.catalog.specs.declared.document.Entry.{Entry as AnEntry};
ghost use Rattle.catalog.specs.Agreeing.{Agrees, AreIndexes, catalogued, nothing, uncatalogued, unindexed, with_index};
ghost use Rattle.catalog.specs.Forms.{ArePostings, AreValues};
ghost use Rattle.catalog.specs.Merging.{before_key, from_key, merged, own, past_key, reindexed_by, single};
ghost use Rattle.catalog.specs.Placing as placing;
ghost use Rattle.catalog.specs.Postings as spec;

use crate::document::{Contents, Entries, Entry, Index, IndexKind, Indexes, Posting, Postings};
use crate::reading::text_before;
use std::alloc::Global;
use zbase::{Memory, Oid, Oids, Text, Texts};

// ---- ids

// Adds an id to those before another, or to those behind it.
fn part_oid(before: &mut Oids, behind: &mut Oids, item: Oid, oid: Oid) -> Result<(), Memory>
    ensures before { OnOk result (before.new ≡ before.old ++ (if nat_lt item oid then item ∷ [] else [])) }
    ensures behind { OnOk result (behind.new ≡ behind.old ++ (if nat_lt oid item then item ∷ [] else [])) }
{
    if item.0 < oid.0 {
        return before.push(item);
    }
    if oid.0 < item.0 {
        return behind.push(item);
    }
    Ok(())
}

// The ids with that one too, in its place.
fn with_oid(alloc: Global, oid: Oid, oids: &[Oid]) -> Result<Oids, Memory>
    ensures { IfOk result (λ all. all ≡ placing.with_oid oid oids.now) }
{
    let mut before = Oids::new(alloc);
    let mut behind = Oids::new(alloc);
    for item in oids {
        part_oid(&mut before, &mut behind, *item, oid)?;
    }
    before.push(oid)?;
    for later in behind.as_slice() {
        before.push(*later)?;
    }
    Ok(before)
}

fn push_other(all: &mut Oids, item: Oid, oid: Oid) -> Result<(), Memory>
    ensures { OnOk result (all.new ≡ all.old ++ (if not (nat_eq oid item) then item ∷ [] else [])) }
{
    if oid.0 != item.0 {
        return all.push(item);
    }
    Ok(())
}

fn without_oid(alloc: Global, oid: Oid, oids: &[Oid]) -> Result<Oids, Memory>
    ensures { IfOk result (λ all. all ≡ placing.without_oid oid oids.now) }
{
    let mut all = Oids::new(alloc);
    for item in oids {
        push_other(&mut all, *item, oid)?;
    }
    Ok(all)
}

// ---- entries

// Adds an entry to those before an id, or to those behind it.
fn part_entry(
    before: &mut Entries,
    behind: &mut Entries,
    item: Entry,
    oid: Oid,
) -> Result<(), Memory>
    ensures before { OnOk result (before.new ≡ before.old ++ (if nat_lt item.oid oid then item ∷ [] else [])) }
    ensures behind { OnOk result (behind.new ≡ behind.old ++ (if nat_lt oid item.oid then item ∷ [] else [])) }
{
    if item.oid.0 < oid.0 {
        return before.push(item);
    }
    if oid.0 < item.oid.0 {
        return behind.push(item);
    }
    Ok(())
}

// The entries before an id, and those behind it.
fn parted(alloc: Global, oid: Oid, entries: Entries) -> Result<(Entries, Entries), Memory>
    ensures before { IfOk result (λ two. two.0 ≡ filter (λ (e : AnEntry). nat_lt e.oid oid) entries) }
    ensures behind { IfOk result (λ two. two.1 ≡ filter (λ (e : AnEntry). nat_lt oid e.oid) entries) }
{
    let mut before = Entries::new(alloc);
    let mut behind = Entries::new(alloc);
    for item in entries.into_vec() {
        part_entry(&mut before, &mut behind, item, oid)?;
    }
    Ok((before, behind))
}

// The entries with that one in place of the one of its object.
fn with_entry(alloc: Global, entry: Entry, entries: Entries) -> Result<Entries, Memory>
    ensures { IfOk result (λ all. all ≡ spec.with_entry entry entries) }
{
    let (mut all, behind) = parted(alloc, entry.oid, entries)?;
    all.push(entry)?;
    for later in behind.into_vec() {
        all.push(later)?;
    }
    Ok(all)
}

fn push_other_entry(all: &mut Entries, item: Entry, oid: Oid) -> Result<(), Memory>
    ensures { OnOk result (all.new ≡ all.old ++ (if not (nat_eq oid item.oid) then item ∷ [] else [])) }
{
    if oid.0 != item.oid.0 {
        return all.push(item);
    }
    Ok(())
}

fn without_entry(alloc: Global, oid: Oid, entries: Entries) -> Result<Entries, Memory>
    ensures { IfOk result (λ all. all ≡ spec.without_entry oid entries) }
{
    let mut all = Entries::new(alloc);
    for item in entries.into_vec() {
        push_other_entry(&mut all, item, oid)?;
    }
    Ok(all)
}

// The entry with one column more, in which it has no values.
fn wider(alloc: Global, entry: Entry) -> Result<Entry, Memory>
    ensures { IfOk result (λ more. more ≡ record entry { values = entry.values ++ [] ∷ [] }) }
{
    let Entry { oid, mut values } = entry;
    values.push(Texts::new(alloc))?;
    Ok(Entry { oid, values })
}

fn widened(alloc: Global, entries: Entries) -> Result<Entries, Memory>
    ensures { IfOk result (λ all. all ≡ spec.widened entries) }
{
    let mut all = Entries::new(alloc);
    for item in entries.into_vec() {
        all.push(wider(alloc, item)?)?;
    }
    Ok(all)
}

// ---- the keys of an index

// Adds a key without an object that it has, where it has another one.
fn push_without(alloc: Global, all: &mut Postings, oid: Oid, posting: Posting) -> Result<(), Memory>
    ensures { OnOk result (all.new ≡ all.old ++ spec.unposted oid (posting ∷ [])) }
{
    let oids = without_oid(alloc, oid, posting.oids.as_slice())?;
    if oids.is_empty() {
        return Ok(());
    }
    all.push(Posting {
        key: posting.key,
        oids,
    })
}

// The object under no key; keys without objects are dropped.
#[tactic(auto, using(crate::proofs::Steps::unposted_more))]
fn unposted(alloc: Global, oid: Oid, postings: Postings) -> Result<Postings, Memory>
    ensures { IfOk result (λ all. all ≡ spec.unposted oid postings) }
{
    let mut all = Postings::new(alloc);
    for posting in postings.into_vec() {
        push_without(alloc, &mut all, oid, posting)?;
    }
    Ok(all)
}

// Adds a key that has one object.
fn push_single(alloc: Global, all: &mut Postings, oid: Oid, key: &Text) -> Result<(), Memory>
    ensures { OnOk result (all.new ≡ all.old ++ single oid key.now ∷ []) }
{
    let mut oids = Oids::new(alloc);
    oids.push(oid)?;
    all.push(Posting {
        key: key.copy()?,
        oids,
    })
}

// Adds keys that have one object.
fn push_singles(alloc: Global, all: &mut Postings, oid: Oid, keys: &[Text]) -> Result<(), Memory>
    ensures { OnOk result (all.new ≡ all.old ++ map (single oid) keys.now) }
{
    for key in keys {
        push_single(alloc, all, oid, key)?;
    }
    Ok(())
}

// Adds the keys that come before this one; those from there on are left.
fn push_before<'a>(
    alloc: Global,
    all: &mut Postings,
    oid: Oid,
    keys: &'a [Text],
    key: &Text,
) -> Result<&'a [Text], Memory>
    ensures all { OnOk result (all.new ≡ all.old ++ map (single oid) (before_key key.now keys.now)) }
    ensures rest { IfOk result (λ rest. rest.now ≡ from_key key.now keys.now) }
{
    let mut rest = keys;
    while let [first, others @ ..] = rest {
        if !text_before(first, key) {
            return Ok(rest);
        }
        push_single(alloc, all, oid, first)?;
        rest = others;
    }
    Ok(rest)
}

// Adds a key, with the object too where the first of the keys is the same; those behind it are left.
#[tactic(auto, using(crate::proofs::Steps::is_same, crate::proofs::Steps::is_other))]
fn push_own<'a>(
    alloc: Global,
    all: &mut Postings,
    oid: Oid,
    keys: &'a [Text],
    posting: Posting,
) -> Result<&'a [Text], Memory>
    ensures all { OnOk result (all.new ≡ all.old ++ own oid keys.now posting ∷ []) }
    ensures rest { IfOk result (λ rest. rest.now ≡ past_key posting.key keys.now) }
{
    let [first, others @ ..] = keys else {
        all.push(posting)?;
        return Ok(keys);
    };
    if first.as_bytes() != posting.key.as_bytes() {
        all.push(posting)?;
        return Ok(keys);
    }
    let oids = with_oid(alloc, oid, posting.oids.as_slice())?;
    all.push(Posting {
        key: posting.key,
        oids,
    })?;
    Ok(others)
}

// The keys of an index with these too, in one pass over both.
fn merge(alloc: Global, oid: Oid, keys: &[Text], postings: Postings) -> Result<Postings, Memory>
    ensures { IfOk result (λ all. all ≡ merged oid keys.now postings) }
{
    let mut all = Postings::new(alloc);
    let mut rest = keys;
    for posting in postings.into_vec() {
        rest = push_before(alloc, &mut all, oid, rest, &posting.key)?;
        rest = push_own(alloc, &mut all, oid, rest, posting)?;
    }
    push_singles(alloc, &mut all, oid, rest)?;
    Ok(all)
}

// The object under these keys alone.
fn reposted(alloc: Global, oid: Oid, keys: &[Text], postings: Postings) -> Result<Postings, Memory>
    requires keys { AreValues keys.now }
    requires postings { ArePostings postings }
    ensures { IfOk result (λ all. all ≡ spec.reposted oid keys.now postings) }
{
    let _id = oid.0;
    let others = unposted(alloc, oid, postings)?;
    merge(alloc, oid, keys, others)
}

// ---- the indexes

// The first column, none of it where there is none, and those behind it.
fn next_column(columns: &[Texts]) -> (&[Text], &[Texts])
    ensures first { result.0.now ≡ get_or columns.now 0 [] }
    ensures rest { result.1.now ≡ drop 1 columns.now }
{
    match columns {
        [first, others @ ..] => (first.as_slice(), others),
        [] => (&[], columns),
    }
}

fn reindex(alloc: Global, oid: Oid, columns: &[Texts], indexes: Indexes) -> Result<Indexes, Memory>
    requires columns { AllByRecursion AreValues columns.now }
    requires indexes { AreIndexes indexes }
    ensures { IfOk result (λ all. all ≡ reindexed_by oid columns.now indexes) }
{
    let mut all = Indexes::new(alloc);
    let mut rest = columns;
    for index in indexes.into_vec() {
        let (keys, others) = next_column(rest);
        let postings = reposted(alloc, oid, keys, index.postings)?;
        all.push(Index {
            kind: index.kind,
            postings,
        })?;
        rest = others;
    }
    Ok(all)
}

fn unindex(alloc: Global, oid: Oid, indexes: Indexes) -> Result<Indexes, Memory>
    ensures { IfOk result (λ all. all ≡ unindexed oid indexes) }
{
    let mut all = Indexes::new(alloc);
    for index in indexes.into_vec() {
        let postings = unposted(alloc, oid, index.postings)?;
        all.push(Index {
            kind: index.kind,
            postings,
        })?;
    }
    Ok(all)
}

// ---- the calls

/// What the documents of a new catalog say.
pub fn new_contents(alloc: Global) -> Contents
    ensures { result ≡ nothing }
{
    Contents {
        entries: Entries::new(alloc),
        indexes: Indexes::new(alloc),
    }
}

// With one index more.
fn indexed(alloc: Global, kind: IndexKind, contents: Contents) -> Result<Contents, Memory>
    ensures { IfOk result (λ new. new ≡ with_index kind contents) }
{
    let entries = widened(alloc, contents.entries)?;
    let mut indexes = contents.indexes;
    indexes.push(Index {
        kind,
        postings: Postings::new(alloc),
    })?;
    Ok(Contents { entries, indexes })
}

// With the values of this entry.
#[tactic(auto, using(crate::proofs::Merged::all_columns))]
fn entered(alloc: Global, entry: Entry, contents: Contents) -> Result<Contents, Memory>
    requires values { AllByRecursion AreValues entry.values }
    requires indexes { AreIndexes contents.indexes }
    ensures { IfOk result (λ new. new ≡ catalogued entry contents) }
{
    let indexes = reindex(alloc, entry.oid, entry.values.as_slice(), contents.indexes)?;
    let entries = with_entry(alloc, entry, contents.entries)?;
    Ok(Contents { entries, indexes })
}

// Without an object.
fn removed(alloc: Global, oid: Oid, contents: Contents) -> Result<Contents, Memory>
    ensures { IfOk result (λ new. new ≡ uncatalogued oid contents) }
{
    let indexes = unindex(alloc, oid, contents.indexes)?;
    let entries = without_entry(alloc, oid, contents.entries)?;
    Ok(Contents { entries, indexes })
}

/// A catalog with one index more, the last one, in which no object has values. Where its documents agree, they do then.
///
/// The one error is want of memory. Zope Book, "Searching and Categorizing Content": adding an index.
pub fn add_index(alloc: Global, kind: IndexKind, contents: Contents) -> Result<Contents, Memory>
    ensures new { IfOk result (λ new. new ≡ with_index kind contents) }
    ensures form { AreIndexes contents.indexes → IfOk result (λ new. AreIndexes new.indexes) }
    ensures agreement { Agrees contents → IfOk result Agrees }
{
    indexed(alloc, kind, contents)
}

/// A catalog with an object's values as they are in this entry: in the entries, and in each index in place of those that
/// it had there. Where its documents agree and the entry has a column for each index, they agree then.
///
/// The one error is want of memory. Zope Book, "Searching and Categorizing Content": cataloguing an object again.
pub fn catalog_entry(alloc: Global, entry: Entry, contents: Contents) -> Result<Contents, Memory>
    requires values { AllByRecursion AreValues entry.values }
    requires indexes { AreIndexes contents.indexes }
    ensures new { IfOk result (λ new. new ≡ catalogued entry contents) }
    ensures form { IfOk result (λ new. AreIndexes new.indexes) }
    ensures agreement { Agrees contents → length entry.values ≡ length contents.indexes → IfOk result Agrees }
{
    let _id = entry.oid.0;
    entered(alloc, entry, contents)
}

/// A catalog without an object. Where its documents agree, they do then.
///
/// The one error is want of memory. Zope Book, "Searching and Categorizing Content": an object that is uncatalogued.
pub fn uncatalog_entry(alloc: Global, oid: Oid, contents: Contents) -> Result<Contents, Memory>
    ensures new { IfOk result (λ new. new ≡ uncatalogued oid contents) }
    ensures form { AreIndexes contents.indexes → IfOk result (λ new. AreIndexes new.indexes) }
    ensures agreement { Agrees contents → IfOk result Agrees }
{
    removed(alloc, oid, contents)
}
