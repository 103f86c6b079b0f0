ghost use Rattle.std.specs.Prelude.{IfOk};
ghost use Rattle.catalog.specs.Agreeing.{AreIndexes};

use cases::{Case, CasesRefusal, Part, add_bytes, add_line};
use catalog::{
    Contents, Indexes, new_contents, read_entries, read_index, write_entries, write_index,
};
use std::alloc::Global;
use zbase::{Bytes, Memory};

/// A document that isn't of the form.
#[derive(Debug, Drop)]
pub enum BadDocument {
    /// That of the entries.
    Entries,
    /// That of the index which has so many before it.
    Index(u64),
}

// The bytes of each part of that key.
fn bytes_of(alloc: Global, case: &Case, key: &str) -> Result<Vec<Bytes>, CasesRefusal> {
    let mut found = Vec::new(alloc);
    for part in &case.parts {
        if part.key() == key {
            found.push(part.bytes.copy()?)?;
        }
    }
    Ok(found)
}

// What the texts of indexes say, or how many stand before the first that is none.
#[tactic(auto, using(crate::proofs::Lists::indexes_more))]
fn indexes_of(alloc: Global, texts: &[Bytes]) -> Result<Result<Indexes, u64>, Memory>
    ensures { IfOk result (λ read. IfOk read AreIndexes) }
{
    let mut indexes = Indexes::new(alloc);
    for text in texts {
        let Some(index) = read_index(alloc, text.as_slice())? else {
            return Ok(Err(indexes.len() as u64));
        };
        indexes.push(index)?;
    }
    Ok(Ok(indexes))
}

// What the documents of a catalog say.
fn read_all(
    alloc: Global,
    entries: &[u8],
    texts: &[Bytes],
) -> Result<Result<Contents, BadDocument>, Memory>
    ensures { IfOk result (λ read. IfOk read (λ contents. AreIndexes contents.indexes)) }
{
    let Some(entries) = read_entries(alloc, texts.len(), entries)? else {
        return Ok(Err(BadDocument::Entries));
    };
    match indexes_of(alloc, texts)? {
        Ok(indexes) => Ok(Ok(Contents { entries, indexes })),
        Err(before) => Ok(Err(BadDocument::Index(before))),
    }
}

/// What the documents of a case's catalog say: a new one where the case has no entries.
pub fn contents_of(
    alloc: Global,
    case: &Case,
) -> Result<Result<Contents, BadDocument>, CasesRefusal>
    ensures { IfOk result (λ read. IfOk read (λ contents. AreIndexes contents.indexes)) }
{
    let texts = bytes_of(alloc, case, "index")?;
    match case.part("entries") {
        Some(part) => Ok(read_all(alloc, part.bytes.as_slice(), texts.as_slice())?),
        None => Ok(Ok(new_contents(alloc))),
    }
}

/// Adds the documents of a catalog: the entries, and each index.
pub fn add_documents(
    alloc: Global,
    contents: &Contents,
    parts: &mut Vec<Part>,
) -> Result<(), CasesRefusal> {
    let text = write_entries(alloc, &contents.entries)?;
    add_bytes(alloc, parts, "document", text)?;
    for index in contents.indexes.as_slice() {
        let text = write_index(alloc, index)?;
        add_bytes(alloc, parts, "document", text)?;
    }
    Ok(())
}

/// Adds which document isn't of the form.
pub fn add_bad(
    alloc: Global,
    bad: &BadDocument,
    parts: &mut Vec<Part>,
) -> Result<(), CasesRefusal> {
    match bad {
        BadDocument::Entries => add_line(alloc, parts, "bad entries"),
        BadDocument::Index(before) => {
            let before = *before;
            add_line(
                alloc,
                parts,
                format!(in alloc; "bad index {before}")?.as_str(),
            )
        }
    }
}
