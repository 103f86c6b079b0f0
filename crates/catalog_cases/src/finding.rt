ghost use Rattle.catalog.specs.Agreeing.{AreIndexes};

use cases::{CasesRefusal, Part, add_line, put_word};
use catalog::{Contents, Sought, find};
use std::alloc::Global;
use zbase::{Oids, Text, Texts, hex16};

// The number of an index.
fn index_of(part: &Part, word: &str) -> Result<usize, CasesRefusal> {
    match word.parse::<usize>() {
        Ok(index) => Ok(index),
        Err(_) => Err(CasesRefusal::BadPart(part.line)),
    }
}

// The indexes that the part names, each with its values.
fn sought_in(alloc: Global, part: &Part) -> Result<Vec<Sought>, CasesRefusal> {
    let mut all: Vec<Sought> = Vec::new(alloc);
    let mut is_index = true;
    for word in part.words.iter().skip(1) {
        if is_index {
            all.push(Sought {
                index: index_of(part, word.as_str())?,
                given: Texts::new(alloc),
            })?;
            is_index = false;
        } else if word.as_str() == "and" {
            is_index = true;
        } else if let Some(last) = all.last_mut() {
            let text = if word.as_str() == "\"\"" {
                ""
            } else {
                word.as_str()
            };
            last.given.push(Text::from_str(alloc, text)?)?;
        }
    }
    Ok(all)
}

fn line_of(alloc: Global, oids: &Oids) -> Result<String, CasesRefusal> {
    let mut line = String::from_str(alloc, "found")?;
    for oid in oids.as_slice() {
        match str::from_utf8(hex16(oid.0).as_slice()) {
            Ok(digits) => put_word(&mut line, digits)?,
            Err(_) => {}
        }
    }
    Ok(line)
}

/// Adds what a search finds in a catalog.
pub fn add_found(
    alloc: Global,
    part: &Part,
    contents: &Contents,
    parts: &mut Vec<Part>,
) -> Result<(), CasesRefusal>
    requires { AreIndexes contents.now.indexes }
{
    let sought = sought_in(alloc, part)?;
    let Some((first, further)) = sought.as_slice().split_first() else {
        return Err(CasesRefusal::BadPart(part.line));
    };
    let oids = find(alloc, contents, first, further)?;
    add_line(alloc, parts, line_of(alloc, &oids)?.as_str())
}
