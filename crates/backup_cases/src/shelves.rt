use cases::{CasesRefusal, Part};
use std::alloc::Global;
use zbase::{Bytes, FaultPlan, Text};
use zio::{MemoryFile, MemoryShelf};

// The number behind a word of a step.
fn number_behind(part: &Part, word: &str) -> Result<Option<u64>, CasesRefusal> {
    'words: for i in 0..part.words.len() {
        if part.words[i].as_str() == word {
            return Ok(Some(part.number(i.saturating_add(1))?));
        }
    }
    Ok(None)
}

/// Copies of these files, of each disk over which the call with this number is to fail.
pub fn copies_of(
    alloc: Global,
    files: &[MemoryFile],
    failing: Option<u64>,
) -> Result<Vec<MemoryFile>, CasesRefusal> {
    let mut copies = Vec::new(alloc);
    for file in files {
        copies.push(MemoryFile {
            name: file.name.copy()?,
            bytes: file.bytes.copy()?,
            failing,
        })?;
    }
    Ok(copies)
}

/// A shelf of these files, on which the calls fail that the words of a step tell.
pub fn shelf_of(
    alloc: Global,
    files: &[MemoryFile],
    step: &Part,
) -> Result<MemoryShelf, CasesRefusal> {
    let copies = copies_of(alloc, files, number_behind(step, "disk")?)?;
    let mut numbers = Vec::new(alloc);
    if let Some(number) = number_behind(step, "opening")? {
        numbers.push(number)?;
    }
    let shelf = MemoryShelf::new(alloc, copies, FaultPlan::new(numbers));
    match number_behind(step, "new")? {
        Some(number) => Ok(shelf.with_failing_new(number)),
        None => Ok(shelf),
    }
}

/// The files without the one of that name.
pub fn without(
    alloc: Global,
    files: Vec<MemoryFile>,
    name: &str,
) -> Result<Vec<MemoryFile>, CasesRefusal> {
    let mut others = Vec::new(alloc);
    for file in files {
        if file.name.as_str() != name {
            others.push(file)?;
        }
    }
    Ok(others)
}

/// The files, of which the one of that name has these bytes now.
pub fn with(
    alloc: Global,
    files: Vec<MemoryFile>,
    name: &str,
    bytes: Bytes,
) -> Result<Vec<MemoryFile>, CasesRefusal> {
    let mut files = without(alloc, files, name)?;
    files.push(MemoryFile {
        name: Text::from_str(alloc, name)?,
        bytes,
        failing: None,
    })?;
    Ok(files)
}

/// Empty files more, under numbered names: the numbers from the one on and below the other, with four digits.
pub fn with_taken(
    alloc: Global,
    files: Vec<MemoryFile>,
    part: &Part,
) -> Result<Vec<MemoryFile>, CasesRefusal> {
    let mut files = files;
    let base = part.word(1).unwrap_or("");
    for n in part.number(2)?..part.number(3)? {
        let name = format!(in alloc; "{base}.{n:04}")?;
        files.push(MemoryFile {
            name: Text::from_str(alloc, name.as_str())?,
            bytes: Bytes::new(alloc),
            failing: None,
        })?;
    }
    Ok(files)
}
