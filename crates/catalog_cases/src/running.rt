ghost use Rattle.std.specs.Prelude.{IfOk};
ghost use Rattle.catalog.specs.Agreeing.{AreIndexes};

use crate::documents::{BadDocument, add_bad, add_documents, contents_of};
use crate::finding::add_found;
use cases::{Case, CasesRefusal, Part, Runner, add_line, add_number};
use catalog::{
    Contents, IndexKind, add_index, catalog_entry, first_differing, read_entries, uncatalog_entry,
    write_entries,
};
use std::alloc::Global;
use zbase::Oid;

/// A catalog whose documents a case has: `entries` the text of one, each `index` that of another, in their order. Without
/// `entries` the catalog is new.
///
/// - `add KIND` adds an index, `field` or `keyword`;
/// - `enter` has the line of an entry, which is catalogued;
/// - `remove OID` removes the entry of an object.
///
/// These are done in their order. Then `document` comes with the text of the entries, and once more for each index; or
/// `bad entries`, or `bad index N` with the number of indexes before it, of the first document that isn't of the form.
///
/// - `find INDEX VALUE ..` searches the catalog that came of it: the index of that number, from 0 on, for one of these
///   values; a further index stands behind `and`. `found OID ..` comes of each.
/// - `verify` tells whether the documents that came of it agree: `agrees`, or `differs_at INDEX` with the number of the first
///   index that isn't the inverse of its column.
#[derive(Drop)]
pub struct CatalogRuns;

fn kind_of(part: &Part) -> Result<IndexKind, CasesRefusal> {
    match part.word(1) {
        Some("field") => Ok(IndexKind::Field),
        Some("keyword") => Ok(IndexKind::Keyword),
        _ => Err(CasesRefusal::BadPart(part.line)),
    }
}

// Catalogues the entry whose line the part has.
#[tactic(auto, using(crate::proofs::Lists::last_values))]
fn entered(alloc: Global, part: &Part, contents: Contents) -> Result<Contents, CasesRefusal>
    requires { AreIndexes contents.indexes }
    ensures { IfOk result (λ new. AreIndexes new.indexes) }
{
    let columns = contents.indexes.len();
    let Some(entries) = read_entries(alloc, columns, part.bytes.as_slice())? else {
        return Err(CasesRefusal::BadPart(part.line));
    };
    let Some(entry) = entries.into_vec().pop() else {
        return Err(CasesRefusal::BadPart(part.line));
    };
    Ok(catalog_entry(alloc, entry, contents)?)
}

// The catalog behind a call.
fn called(alloc: Global, part: &Part, contents: Contents) -> Result<Contents, CasesRefusal>
    requires { AreIndexes contents.indexes }
    ensures { IfOk result (λ new. AreIndexes new.indexes) }
{
    match part.key() {
        "add" => Ok(add_index(alloc, kind_of(part)?, contents)?),
        "enter" => entered(alloc, part, contents),
        "remove" => Ok(uncatalog_entry(alloc, Oid(part.id(1)?), contents)?),
        _ => Ok(contents),
    }
}

// The catalog behind all calls of the case.
fn all_called(alloc: Global, case: &Case, contents: Contents) -> Result<Contents, CasesRefusal>
    requires { AreIndexes contents.indexes }
    ensures { IfOk result (λ new. AreIndexes new.indexes) }
{
    let mut now = contents;
    for part in &case.parts {
        now = called(alloc, part, now)?;
    }
    Ok(now)
}

// Adds whether the documents of a catalog agree, as one who reads them tells.
fn add_verdict(alloc: Global, contents: Contents, parts: &mut Vec<Part>) -> Result<(), CasesRefusal>
    requires { AreIndexes contents.indexes }
{
    let Contents { entries, indexes } = contents;
    let text = write_entries(alloc, &entries)?;
    let Some(entries) = read_entries(alloc, indexes.len(), text.as_slice())? else {
        return add_bad(alloc, &BadDocument::Entries, parts);
    };
    match first_differing(&Contents { entries, indexes }) {
        Some(at) => add_number(alloc, parts, "differs_at", at as u64),
        None => add_line(alloc, parts, "agrees"),
    }
}

// Adds the documents of a catalog, what the searches of the case find, and whether the documents agree.
fn add_all(
    alloc: Global,
    case: &Case,
    contents: Contents,
    parts: &mut Vec<Part>,
) -> Result<(), CasesRefusal>
    requires { AreIndexes contents.indexes }
{
    add_documents(alloc, &contents, parts)?;
    for part in &case.parts {
        if part.key() == "find" {
            add_found(alloc, part, &contents, parts)?;
        }
    }
    if case.part("verify").is_some() {
        return add_verdict(alloc, contents, parts);
    }
    Ok(())
}

impl Runner for CatalogRuns {
    fn knows(&self, key: &str) -> bool {
        key == "entries"
            || key == "index"
            || key == "add"
            || key == "enter"
            || key == "remove"
            || key == "find"
            || key == "verify"
    }

    fn run(&self, alloc: Global, case: &Case) -> Result<Vec<Part>, CasesRefusal> {
        let mut parts = Vec::new(alloc);
        match contents_of(alloc, case)? {
            Ok(contents) => {
                let now = all_called(alloc, case, contents)?;
                add_all(alloc, case, now, &mut parts)?;
            }
            Err(bad) => add_bad(alloc, &bad, &mut parts)?,
        }
        Ok(parts)
    }
}
