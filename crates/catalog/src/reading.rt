ghost use Rattle.std.specs.Prelude.{◌≡◌, IfOk, IfSome, map, nat_lt};
ghost use Rattle.catalog.specs.Forms.{AreEntries, ArePostings};
ghost use Rattle.catalog.specs.Reading as spec;
ghost use Rattle.std.specs.List.{list_all};
ghost use Rattle.zobject.specs.Rules.{comes_before};
ghost use Rattle.catalog.specs.Postings.{key_before, oid_before};

use crate::document::{Entries, Entry, Index, IndexKind, Posting, Postings};
use crate::spelling::{write_entries, write_index};
use std::alloc::{AllocError, Global};
use zbase::{Bytes, Items, Memory, Oid, Oids, Text, Texts};

// ---- numbers and bytes of digits

// Below 16, of any byte.
fn digit_of(byte: u8) -> u8
    ensures { result ≡ spec.digit_of byte }
{
    let digit = if byte < 58 {
        byte.saturating_sub(48)
    } else {
        byte.saturating_sub(87)
    };
    digit % 16
}

// Of the last sixteen digits.
fn number_of(digits: &[u8]) -> u64
    ensures { result ≡ spec.number_of digits.now }
{
    let mut number: u64 = 0;
    for digit in digits {
        number = number % (1 << 60) * 16 + digit_of(*digit) as u64;
    }
    number
}

// A byte for each two digits.
fn bytes_of(alloc: Global, digits: &[u8]) -> Result<Bytes, Memory>
    ensures { IfOk result (λ bytes. bytes ≡ spec.bytes_of digits.now) }
{
    let mut bytes = Bytes::new(alloc);
    let mut rest = digits;
    while let [high, low, others @ ..] = rest {
        bytes.push(digit_of(*high) * 16 + digit_of(*low))?;
        rest = others;
    }
    Ok(bytes)
}

// ---- texts and lists of them

// The bytes as a text; none of them where they aren't UTF-8.
#[tactic(auto, using(crate::proofs::Utf8::utf8_yes, crate::proofs::Utf8::utf8_no))]
fn text_of(alloc: Global, bytes: &[u8]) -> Result<Text, Memory>
    ensures { IfOk result (λ text. text ≡ spec.text_of bytes.now) }
{
    match str::from_utf8(bytes) {
        Ok(text) => Text::from_str(alloc, text),
        Err(_) => Ok(Text::new(alloc)),
    }
}

fn value_in(alloc: Global, text: &[u8]) -> Result<Text, Memory>
    ensures { IfOk result (λ value. value ≡ spec.value_in text.now) }
{
    if text == b".".as_slice() {
        return Ok(Text::new(alloc));
    }
    text_of(alloc, bytes_of(alloc, text)?.as_slice())
}

// What stands between the separators.
fn parts<'a>(alloc: Global, separator: u8, text: &'a [u8]) -> Result<Vec<&'a [u8]>, AllocError>
    ensures { IfOk result (λ found. map (λ part. part.now) found.items ≡ spec.parts separator text.now) }
{
    text.split(|byte| *byte == separator).collect(alloc)
}

fn column_in(alloc: Global, text: &[u8]) -> Result<Texts, Memory>
    ensures { IfOk result (λ values. values ≡ spec.column_in text.now) }
{
    let mut values = Texts::new(alloc);
    if text == b"-".as_slice() {
        return Ok(values);
    }
    let found = parts(alloc, b',', text)?;
    for part in found.as_slice() {
        values.push(value_in(alloc, *part)?)?;
    }
    Ok(values)
}

// What stands before each LF, where the text ends with one.
fn lines_in<'a>(alloc: Global, text: &'a [u8]) -> Result<Vec<&'a [u8]>, AllocError>
    ensures { IfOk result (λ lines. map (λ line. line.now) lines.items ≡ spec.lines_in text.now) }
{
    if text.is_empty() {
        return Ok(Vec::new(alloc));
    }
    parts(alloc, b'\n', &text[..text.len() - 1])
}

// ---- entries and indexes

// Of the fields of a line.
fn entry_from(alloc: Global, fields: &[&[u8]]) -> Result<Entry, Memory>
    ensures { IfOk result (λ entry. entry ≡ spec.entry_from (map (λ field. field.now) fields.now)) }
{
    let mut values = Items::new(alloc);
    let Some((oid, columns)) = fields.split_first() else {
        return Ok(Entry {
            oid: Oid(0),
            values,
        });
    };
    for column in columns {
        values.push(column_in(alloc, *column)?)?;
    }
    Ok(Entry {
        oid: Oid(number_of(*oid)),
        values,
    })
}

fn entries_in(alloc: Global, text: &[u8]) -> Result<Entries, Memory>
    ensures { IfOk result (λ entries. entries ≡ spec.entries_in text.now) }
{
    let mut entries = Entries::new(alloc);
    let lines = lines_in(alloc, text)?;
    for line in lines.as_slice() {
        let fields = parts(alloc, b' ', *line)?;
        entries.push(entry_from(alloc, fields.as_slice())?)?;
    }
    Ok(entries)
}

fn oids_in(alloc: Global, text: &[u8]) -> Result<Oids, Memory>
    ensures { IfOk result (λ oids. oids ≡ map spec.number_of (spec.parts 44 text.now)) }
{
    let mut oids = Oids::new(alloc);
    let found = parts(alloc, b',', text)?;
    for part in found.as_slice() {
        oids.push(Oid(number_of(*part)))?;
    }
    Ok(oids)
}

// Of the fields of a line.
fn posting_from(alloc: Global, fields: &[&[u8]]) -> Result<Posting, Memory>
    ensures { IfOk result (λ posting. posting ≡ spec.posting_from (map (λ field. field.now) fields.now)) }
{
    match fields {
        [] => Ok(Posting {
            key: Text::new(alloc),
            oids: Oids::new(alloc),
        }),
        [key] => Ok(Posting {
            key: value_in(alloc, *key)?,
            oids: Oids::new(alloc),
        }),
        [key, oids, ..] => Ok(Posting {
            key: value_in(alloc, *key)?,
            oids: oids_in(alloc, *oids)?,
        }),
    }
}

fn kind_in(text: &[u8]) -> IndexKind
    ensures { result ≡ spec.kind_in text.now }
{
    if text == b"field".as_slice() {
        IndexKind::Field
    } else {
        IndexKind::Keyword
    }
}

// Of its lines.
fn index_from(alloc: Global, lines: &[&[u8]]) -> Result<Index, Memory>
    ensures { IfOk result (λ index. index ≡ spec.index_from (map (λ line. line.now) lines.now)) }
{
    let mut postings = Postings::new(alloc);
    let Some((kind, keys)) = lines.split_first() else {
        return Ok(Index {
            kind: IndexKind::Keyword,
            postings,
        });
    };
    for key in keys {
        let fields = parts(alloc, b' ', *key)?;
        postings.push(posting_from(alloc, fields.as_slice())?)?;
    }
    Ok(Index {
        kind: kind_in(*kind),
        postings,
    })
}

fn index_in(alloc: Global, text: &[u8]) -> Result<Index, Memory>
    ensures { IfOk result (λ index. index ≡ spec.index_in text.now) }
{
    index_from(alloc, lines_in(alloc, text)?.as_slice())
}

// ---- of the form

// Whether each of the items but the first comes behind the one before it.
fn oids_rise(oids: &[Oid]) -> bool
    ensures { result ≡ spec.rises nat_lt oids.now }
{
    oids.is_sorted_by(|a, b| a.0 < b.0)
}

pub(crate) fn text_before(a: &Text, b: &Text) -> bool
    ensures { result ≡ comes_before a.now b.now }
{
    a.as_str() < b.as_str()
}

fn texts_rise(texts: &[Text]) -> bool
    ensures { result ≡ spec.rises comes_before texts.now }
{
    texts.is_sorted_by(|a, b| text_before(a, b))
}

fn entries_rise(entries: &[Entry]) -> bool
    ensures { result ≡ spec.rises oid_before entries.now }
{
    entries.is_sorted_by(|a, b| a.oid.0 < b.oid.0)
}

fn key_before(a: &Posting, b: &Posting) -> bool
    ensures { result ≡ key_before a.now b.now }
{
    text_before(&a.key, &b.key)
}

fn postings_rise(postings: &[Posting]) -> bool
    ensures { result ≡ spec.rises key_before postings.now }
{
    postings.is_sorted_by(|a, b| key_before(a, b))
}

fn columns_rise(columns: &[Texts]) -> bool
    ensures { result ≡ list_all (spec.rises comes_before) columns.now }
{
    columns.iter().all(|texts| texts_rise(texts.as_slice()))
}

fn is_entry(columns: usize, entry: &Entry) -> bool
    ensures { result ≡ spec.is_entry columns entry.now }
{
    entry.values.len() == columns && columns_rise(entry.values.as_slice())
}

fn each_is_entry(columns: usize, entries: &[Entry]) -> bool
    ensures { result ≡ list_all (spec.is_entry columns) entries.now }
{
    entries.iter().all(|entry| is_entry(columns, entry))
}

fn are_entries(columns: usize, entries: &[Entry]) -> bool
    ensures { result ≡ spec.are_entries columns entries.now }
{
    each_is_entry(columns, entries) && entries_rise(entries)
}

fn is_posting(posting: &Posting) -> bool
    ensures { result ≡ spec.is_posting posting.now }
{
    !posting.oids.is_empty() && oids_rise(posting.oids.as_slice())
}

fn each_is_posting(postings: &[Posting]) -> bool
    ensures { result ≡ list_all spec.is_posting postings.now }
{
    postings.iter().all(|posting| is_posting(posting))
}

fn are_postings(postings: &[Posting]) -> bool
    ensures { result ≡ spec.are_postings postings.now }
{
    each_is_posting(postings) && postings_rise(postings)
}

// ---- read

// The entries where they are of the form and are spelled by the text.
#[tactic(auto, unfolding(crate::specs::Reading::entries_read))]
fn entries_told(alloc: Global, columns: usize, text: &[u8]) -> Result<Option<Entries>, Memory>
    ensures { IfOk result (λ entries. entries ≡ spec.entries_read columns text.now) }
{
    let entries = entries_in(alloc, text)?;
    let again = write_entries(alloc, &entries)?;
    if are_entries(columns, entries.as_slice()) && again.as_slice() == text {
        return Ok(Some(entries));
    }
    Ok(None)
}

// The index where it is of the form and is spelled by the text.
#[tactic(auto, unfolding(crate::specs::Reading::index_read))]
fn index_told(alloc: Global, text: &[u8]) -> Result<Option<Index>, Memory>
    ensures { IfOk result (λ index. index ≡ spec.index_read text.now) }
{
    let index = index_in(alloc, text)?;
    let again = write_index(alloc, &index)?;
    if are_postings(index.postings.as_slice()) && again.as_slice() == text {
        return Ok(Some(index));
    }
    Ok(None)
}

/// The entries, with one column per index, that a text spells; none where it spells none.
///
/// The one error is want of memory.
pub fn read_entries(alloc: Global, columns: usize, text: &[u8]) -> Result<Option<Entries>, Memory>
    ensures read { IfOk result (λ entries. entries ≡ spec.entries_read columns text.now) }
    ensures form { IfOk result (λ entries. IfSome entries (AreEntries columns)) }
{
    entries_told(alloc, columns, text)
}

/// The index that a text spells; none where it spells none.
///
/// The one error is want of memory.
pub fn read_index(alloc: Global, text: &[u8]) -> Result<Option<Index>, Memory>
    ensures read { IfOk result (λ index. index ≡ spec.index_read text.now) }
    ensures form { IfOk result (λ index. IfSome index (λ index. ArePostings index.postings)) }
{
    index_told(alloc, text)
}
