use crate::shelves::{copies_of, shelf_of, with, with_taken, without};
use crate::telling::{backup_words, restore_words};
use backups::{back_up, restore};
use cases::{Case, CasesRefusal, Part, Runner, add_bytes, add_line, add_number};
use std::alloc::Global;
use zio::{MemoryFile, MemoryShelf};

/// Backups in the files of a shelf, step by step: `put NAME` gives a file these bytes, whether or not it is there, `gone NAME`
/// takes it away, and `taken BASE FROM TO` makes empty files under numbered names; `backup FILE REPO`, with `full` behind it
/// where all of the file is asked for, and `restore REPO OUT`. Behind each of these two may stand calls of that step that are to
/// fail: `opening NUMBER` of the shelf, `disk NUMBER` of each disk over a file that is there, `new NUMBER` over a new one.
///
/// Of each of the two comes `did` with what came, or `refused` with why, and then the `count` of the files; of `look NAME` comes
/// `left NAME` with the bytes of that file, or `lacks NAME`.
#[derive(Drop)]
pub struct Backups;

// Tells what a call came to, and how many files there are then. The files.
fn tell(
    alloc: Global,
    words: &str,
    shelf: &MemoryShelf,
    parts: &mut Vec<Part>,
) -> Result<Vec<MemoryFile>, CasesRefusal> {
    add_line(alloc, parts, words)?;
    add_number(alloc, parts, "count", shelf.files().len() as u64)?;
    copies_of(alloc, shelf.files(), None)
}

// Tells the bytes of the file of that name.
fn show(
    alloc: Global,
    files: &[MemoryFile],
    name: &str,
    parts: &mut Vec<Part>,
) -> Result<(), CasesRefusal> {
    for file in files {
        if file.name.as_str() == name {
            let key = format!(in alloc; "left {name}")?;
            return add_bytes(alloc, parts, key.as_str(), file.bytes.copy()?);
        }
    }
    let lacks = format!(in alloc; "lacks {name}")?;
    add_line(alloc, parts, lacks.as_str())
}

// Makes one step, over these files. The files behind it.
fn step(
    alloc: Global,
    files: Vec<MemoryFile>,
    part: &Part,
    parts: &mut Vec<Part>,
) -> Result<Vec<MemoryFile>, CasesRefusal> {
    let one = part.word(1).unwrap_or("");
    let other = part.word(2).unwrap_or("");
    match part.key() {
        "put" => with(alloc, files, one, part.bytes.copy()?),
        "gone" => without(alloc, files, one),
        "taken" => with_taken(alloc, files, part),
        "backup" => {
            let mut shelf = shelf_of(alloc, files.as_slice(), part)?;
            let full = part.word(3) == Some("full");
            let done = back_up(alloc, one, other, full, &mut shelf);
            let words = backup_words(alloc, done)?;
            tell(alloc, words.as_str(), &shelf, parts)
        }
        "restore" => {
            let mut shelf = shelf_of(alloc, files.as_slice(), part)?;
            let done = restore(alloc, one, other, &mut shelf);
            let words = restore_words(alloc, done)?;
            tell(alloc, words.as_str(), &shelf, parts)
        }
        "look" => {
            show(alloc, files.as_slice(), one, parts)?;
            Ok(files)
        }
        _ => Ok(files),
    }
}

impl Runner for Backups {
    fn knows(&self, key: &str) -> bool {
        matches!(
            key,
            "put" | "gone" | "taken" | "backup" | "restore" | "look"
        )
    }

    fn run(&self, alloc: Global, case: &Case) -> Result<Vec<Part>, CasesRefusal> {
        let mut parts = Vec::new(alloc);
        let mut files = Vec::new(alloc);
        for part in &case.parts {
            files = step(alloc, files, part, &mut parts)?;
        }
        Ok(parts)
    }
}
