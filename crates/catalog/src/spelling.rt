ghost use Rattle.std.specs.Prelude.{◌≡◌, ◌++◌, ◌∷◌, [], IfOk, OnOk, map, flat_map};
ghost use Rattle.zbase.specs.Hex.{hex_bytes, hex16_text};
ghost use Rattle.catalog.specs.Spelling.{column_text, entries_text, entry_text, index_text, joined_by, kind_text, posting_text, value_text};

use crate::document::{Entries, Entry, Index, IndexKind, Posting};
use std::alloc::Global;
use zbase::{Bytes, Memory, Oid, Oids, Text, Texts, hex_digits, hex16};

// Adds two digits for each byte.
fn put_digits(out: &mut Bytes, bytes: &[u8]) -> Result<(), Memory>
    ensures { OnOk result (out.new ≡ out.old ++ hex_bytes bytes.now) }
{
    for byte in bytes {
        out.append(hex_digits(*byte).as_slice())?;
    }
    Ok(())
}

fn put_value(out: &mut Bytes, value: &Text) -> Result<(), Memory>
    ensures { OnOk result (out.new ≡ out.old ++ value_text value.now) }
{
    if value.is_empty() {
        return out.append(b".");
    }
    put_digits(out, value.as_bytes())
}

// Adds the values of an object for an index.
fn put_column(out: &mut Bytes, values: &Texts) -> Result<(), Memory>
    ensures { OnOk result (out.new ≡ out.old ++ column_text values.now) }
{
    let Some((first, others)) = values.as_slice().split_first() else {
        return out.append(b"-");
    };
    put_value(out, first)?;
    for value in others {
        out.append(b",")?;
        put_value(out, value)?;
    }
    Ok(())
}

fn put_entry(out: &mut Bytes, entry: &Entry) -> Result<(), Memory>
    ensures { OnOk result (out.new ≡ out.old ++ entry_text entry.now) }
{
    out.append(hex16(entry.oid.0).as_slice())?;
    for values in entry.values.as_slice() {
        out.append(b" ")?;
        put_column(out, values)?;
    }
    out.append(b"\n")
}

/// The text of the document of entries.
///
/// The one error is want of memory.
#[tactic(auto, unfolding(crate::specs::Spelling::entries_text))]
pub fn write_entries(alloc: Global, entries: &Entries) -> Result<Bytes, Memory>
    ensures { IfOk result (λ text. text ≡ entries_text entries.now) }
{
    let mut out = Bytes::new(alloc);
    for entry in entries.as_slice() {
        put_entry(&mut out, entry)?;
    }
    Ok(out)
}

// Adds ids, each but the first behind a comma.
fn put_oids(out: &mut Bytes, oids: &Oids) -> Result<(), Memory>
    ensures { OnOk result (out.new ≡ out.old ++ joined_by 44 (map hex16_text oids.now)) }
{
    let Some((first, others)) = oids.as_slice().split_first() else {
        return Ok(());
    };
    out.append(hex16(first.0).as_slice())?;
    for oid in others {
        out.append(b",")?;
        out.append(hex16(oid.0).as_slice())?;
    }
    Ok(())
}

fn put_posting(out: &mut Bytes, posting: &Posting) -> Result<(), Memory>
    ensures { OnOk result (out.new ≡ out.old ++ posting_text posting.now) }
{
    put_value(out, &posting.key)?;
    out.append(b" ")?;
    put_oids(out, &posting.oids)?;
    out.append(b"\n")
}

fn kind_bytes(kind: IndexKind) -> &'static [u8]
    ensures { result.now ≡ kind_text kind }
{
    match kind {
        IndexKind::Field => b"field",
        IndexKind::Keyword => b"keyword",
    }
}

/// The text of the document of an index.
///
/// The one error is want of memory.
#[tactic(auto, unfolding(crate::specs::Spelling::index_text))]
pub fn write_index(alloc: Global, index: &Index) -> Result<Bytes, Memory>
    ensures { IfOk result (λ text. text ≡ index_text index.now) }
{
    let mut out = Bytes::from_slice(alloc, kind_bytes(index.kind))?;
    out.append(b"\n")?;
    for posting in index.postings.as_slice() {
        put_posting(&mut out, posting)?;
    }
    Ok(out)
}
