use crate::words::{text_from, texts_from};
use cases::{CasesRefusal, Part};
use std::alloc::Global;
use zbase::{Items, Text, Texts};

/// The lines of a part, each as words.
pub(crate) fn rows_of(alloc: Global, part: &Part) -> Result<Vec<Part>, CasesRefusal> {
    let Ok(text) = str::from_utf8(part.bytes.as_slice()) else {
        return Err(CasesRefusal::BadPart(part.line));
    };
    let mut rows = Vec::new(alloc);
    for line in text.split('\n') {
        let row = Part::new(alloc, part.line, line)?;
        if !row.words.is_empty() {
            rows.push(row)?;
        }
    }
    Ok(rows)
}

/// Whether a row of that key is an object's own.
pub(crate) fn is_object(key: &str) -> bool {
    [
        "folder",
        "method",
        "document",
        "users",
        "absent",
        "unreadable",
    ]
    .contains(&key)
}

/// Whether a row of that key tells more of an object that has a row of its own.
pub(crate) fn tells_more(key: &str) -> bool {
    [
        "id", "title", "property", "alone", "acquired", "local", "proxy",
    ]
    .contains(&key)
}

/// Whether a row says this of that object.
pub(crate) fn says(row: &Part, key: &str, oid: u64) -> Result<bool, CasesRefusal> {
    Ok(row.key() == key && row.number(1)? == oid)
}

/// The text that a row of that key gives the object; empty where there is none.
pub(crate) fn said_text(
    alloc: Global,
    rows: &[Part],
    key: &str,
    oid: u64,
) -> Result<Text, CasesRefusal> {
    for row in rows {
        if says(row, key, oid)? {
            return text_from(alloc, row, 2);
        }
    }
    Ok(Text::new(alloc))
}

/// The texts that a row of that key gives the object; none where there is no such row.
pub(crate) fn said_texts(
    alloc: Global,
    rows: &[Part],
    key: &str,
    oid: u64,
) -> Result<Texts, CasesRefusal> {
    for row in rows {
        if says(row, key, oid)? {
            return texts_from(alloc, row, 2);
        }
    }
    Ok(Items::new(alloc))
}
