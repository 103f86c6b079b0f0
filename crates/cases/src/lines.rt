use crate::{CasesRefusal, Part};
use std::alloc::Global;
use zbase::Bytes;

/// Adds a word to a line, a blank before it.
pub fn put_word(line: &mut String, word: &str) -> Result<(), CasesRefusal> {
    line.push_str(" ")?;
    line.push_str(word)?;
    Ok(())
}

/// Adds a number to a line, in decimal, a blank before it.
pub fn put_number(alloc: Global, line: &mut String, number: u64) -> Result<(), CasesRefusal> {
    let text = format!(in alloc; " {number}")?;
    line.push_str(text.as_str())?;
    Ok(())
}

/// Adds a word and a number to a line, a blank before each.
pub fn put_numbered(
    alloc: Global,
    line: &mut String,
    word: &str,
    number: u64,
) -> Result<(), CasesRefusal> {
    put_word(line, word)?;
    put_number(alloc, line, number)
}

/// Adds a part of these words to what came.
pub fn add_line(alloc: Global, parts: &mut Vec<Part>, line: &str) -> Result<(), CasesRefusal> {
    parts.push(Part::new(alloc, 0, line)?)?;
    Ok(())
}

/// Adds a part of that key and a number to what came.
pub fn add_number(
    alloc: Global,
    parts: &mut Vec<Part>,
    key: &str,
    number: u64,
) -> Result<(), CasesRefusal> {
    let mut line = String::from_str(alloc, key)?;
    put_number(alloc, &mut line, number)?;
    add_line(alloc, parts, line.as_str())
}

/// Adds a part of that key and these bytes to what came.
pub fn add_bytes(
    alloc: Global,
    parts: &mut Vec<Part>,
    key: &str,
    bytes: Bytes,
) -> Result<(), CasesRefusal> {
    parts.push(Part::with(alloc, key, bytes)?)?;
    Ok(())
}
