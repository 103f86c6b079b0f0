ghost use Rattle.std.specs.Prelude.{◌≡◌, ◌<◌, ◌++◌, ◌∷◌, [], Bool, flat_map, if◌then◌else◌, length, nat_lt, IfOk, OnOk};
ghost use Rattle.std.specs.List.{filter, AllByRecursion};
ghost use Rattle.zobject.specs.Rules.{Rise};
ghost use Rattle.catalog.specs.declared.document.Sought.{Sought as ASought};
ghost use Rattle.catalog.specs.Agreeing.{Agrees, AreIndexes};
ghost use Rattle.catalog.specs.Hits as spec;
ghost use Rattle.catalog.specs.Merging.{is_next, once};
ghost use Rattle.catalog.specs.Placing as placing;
ghost use Rattle.catalog.specs.Postings.{key_before, oids_under as spec_under};

use crate::document::{Contents, Index, Posting, Sought};
use std::alloc::Global;
use zbase::{Memory, Oid, Oids, Text};

// ---- one key

// The objects under a key. Takes no memory.
pub(crate) fn oids_under<'a>(postings: &'a [Posting], key: &Text) -> &'a [Oid]
    requires { Rise key_before postings.now }
    ensures { result.now ≡ spec_under key.now postings.now }
{
    match postings.binary_search_by(|posting| posting.key.as_str().cmp(key.as_str())) {
        Ok(at) => postings[at].oids.as_slice(),
        Err(_) => &[],
    }
}

// ---- one index

fn push_ids(ids: &mut Vec<u64>, oids: &[Oid]) -> Result<(), Memory>
    ensures { OnOk result (ids.new.items ≡ ids.old.items ++ oids.now) }
{
    for oid in oids {
        ids.push(oid.0)?;
    }
    Ok(())
}

// The objects under each of the keys.
fn gather(alloc: Global, keys: &[Text], postings: &[Posting]) -> Result<Vec<u64>, Memory>
    requires { Rise key_before postings.now }
    ensures { IfOk result (λ ids. ids.items ≡ flat_map (λ key. spec_under key postings.now) keys.now) }
{
    let mut ids = Vec::new(alloc);
    for key in keys {
        push_ids(&mut ids, oids_under(postings, key))?;
    }
    Ok(ids)
}

// Adds an id that isn't the next one too.
fn push_last(all: &mut Oids, id: u64, others: &[u64]) -> Result<(), Memory>
    ensures { OnOk result (all.new ≡ all.old ++ (if is_next id others.now then [] else id ∷ [])) }
{
    match others {
        [next, ..] if *next == id => Ok(()),
        _ => all.push(Oid(id)),
    }
}

#[tactic(auto, using(crate::proofs::Searched::once_more))]
fn distinct(alloc: Global, ids: &[u64]) -> Result<Oids, Memory>
    ensures { IfOk result (λ all. all ≡ once ids.now) }
{
    let mut all = Oids::new(alloc);
    let mut rest = ids;
    while let [first, others @ ..] = rest {
        push_last(&mut all, *first, others)?;
        rest = others;
    }
    Ok(all)
}

// The objects under one of the keys.
fn ids_under(alloc: Global, keys: &[Text], postings: &[Posting]) -> Result<Oids, Memory>
    requires { Rise key_before postings.now }
    ensures { IfOk result (λ oids. oids ≡ spec.ids_under keys.now postings.now) }
{
    let mut ids = gather(alloc, keys, postings)?;
    ids.sort_unstable();
    distinct(alloc, ids.as_slice())
}

#[tactic(auto, using(crate::proofs::Searched::postings_at, crate::proofs::Searched::postings_past))]
fn postings_of(indexes: &[Index], at: usize) -> &[Posting]
    ensures { result.now ≡ spec.postings_of at indexes.now }
{
    match indexes.get(at) {
        Some(index) => index.postings.as_slice(),
        None => &[],
    }
}

#[tactic(auto, using(crate::proofs::Searched::postings_rise))]
fn found_by(alloc: Global, indexes: &[Index], sought: &Sought) -> Result<Oids, Memory>
    requires { AreIndexes indexes.now }
    ensures { IfOk result (λ oids. oids ≡ spec.found_by indexes.now sought.now) }
{
    let postings = postings_of(indexes, sought.index);
    ids_under(alloc, sought.given.as_slice(), postings)
}

// ---- several

pub(crate) fn is_among(oid: Oid, oids: &[Oid]) -> bool
    requires { Rise nat_lt oids.now }
    ensures { result ≡ placing.is_among oid oids.now }
{
    oids.binary_search_by(|other| other.0.cmp(&oid.0)).is_ok()
}

fn push_among(all: &mut Oids, oid: Oid, oids: &[Oid]) -> Result<(), Memory>
    requires { Rise nat_lt oids.now }
    ensures { OnOk result (all.new ≡ all.old ++ (if placing.is_among oid oids.now then oid ∷ [] else [])) }
{
    if is_among(oid, oids) {
        return all.push(oid);
    }
    Ok(())
}

// Those that stand among others too.
fn those_among(alloc: Global, found: &[Oid], others: &[Oid]) -> Result<Oids, Memory>
    requires { Rise nat_lt others.now }
    ensures { IfOk result (λ all. all ≡ filter (λ o. placing.is_among o others.now) found.now) }
{
    let mut all = Oids::new(alloc);
    for oid in found {
        push_among(&mut all, *oid, others)?;
    }
    Ok(all)
}

// By the indexes alone.
#[tactic(auto, using(crate::proofs::Searched::found_rise))]
fn found_by_all(
    alloc: Global,
    indexes: &[Index],
    first: &Sought,
    further: &[Sought],
) -> Result<Oids, Memory>
    requires { AreIndexes indexes.now }
    ensures { IfOk result (λ oids. oids ≡ spec.found_by_all indexes.now first.now further.now) }
{
    let mut found = found_by(alloc, indexes, first)?;
    for sought in further {
        let others = found_by(alloc, indexes, sought)?;
        found = those_among(alloc, found.as_slice(), others.as_slice())?;
    }
    Ok(found)
}

/// The objects that have one of the given values in each index that is named, by rising ids. No entry is looked at. Where
/// the documents agree, they are the hits: what a filter of the entries would find.
///
/// The one error is want of memory. Zope Book, "Searching and Categorizing Content": searching.
pub fn find(
    alloc: Global,
    contents: &Contents,
    first: &Sought,
    further: &[Sought],
) -> Result<Oids, Memory>
    requires { AreIndexes contents.now.indexes }
    ensures found { IfOk result (λ oids. oids ≡ spec.found_by_all contents.now.indexes first.now further.now) }
    ensures hits { Agrees contents.now → first.now.index < length contents.now.indexes → AllByRecursion (λ (s : ASought). s.index < length contents.now.indexes) further.now
        → IfOk result (λ oids. oids ≡ spec.hits (first.now ∷ further.now) contents.now.entries) }
{
    found_by_all(alloc, contents.indexes.as_slice(), first, further)
}
