use cases::{CasesRefusal, Part, add_bytes, add_line};
use repozo::{BackupPlan, RepoRefusal};
use std::alloc::Global;
use zbase::{Bytes, hex_digits};

/// Why a call was refused: `damaged KIND PLACE`, which disk failed (`file`, `piece` or `out`), or `bad NAME`.
pub fn refusal_words(alloc: Global, refusal: &RepoRefusal) -> Result<String, CasesRefusal> {
    match refusal {
        RepoRefusal::Damaged(kind, place) => {
            let kind = kind.number();
            Ok(format!(in alloc; "damaged {kind} {place}")?)
        }
        RepoRefusal::File => Ok(String::from_str(alloc, "file")?),
        RepoRefusal::Piece => Ok(String::from_str(alloc, "piece")?),
        RepoRefusal::Out => Ok(String::from_str(alloc, "out")?),
        RepoRefusal::BadPiece(name) => Ok(format!(in alloc; "bad {}", name.as_str())?),
        RepoRefusal::Memory => Err(CasesRefusal::Memory),
    }
}

/// What is due: `nothing`, `full END` or `more START END`.
pub fn plan_words(alloc: Global, plan: BackupPlan) -> Result<String, CasesRefusal> {
    match plan {
        BackupPlan::Nothing => Ok(String::from_str(alloc, "nothing")?),
        BackupPlan::Full(end) => Ok(format!(in alloc; "full {end}")?),
        BackupPlan::More(start, end) => Ok(format!(in alloc; "more {start} {end}")?),
    }
}

/// Adds a part of this key and these words.
pub fn add_words(
    alloc: Global,
    parts: &mut Vec<Part>,
    key: &str,
    words: &str,
) -> Result<(), CasesRefusal> {
    let line = format!(in alloc; "{key} {words}")?;
    add_line(alloc, parts, line.as_str())
}

/// Adds the digits of a digest.
pub fn add_digest(
    alloc: Global,
    parts: &mut Vec<Part>,
    md5: &[u8; 16],
) -> Result<(), CasesRefusal> {
    let mut digits = Bytes::new(alloc);
    for byte in md5 {
        digits.append(&hex_digits(*byte))?;
    }
    add_words(
        alloc,
        parts,
        "digest",
        str::from_utf8(digits.as_slice()).unwrap_or(""),
    )
}

/// Adds what a join gave: the length that it told, and the bytes; or why it was refused, and what stands in the file then.
pub fn add_joined(
    alloc: Global,
    parts: &mut Vec<Part>,
    joined: Result<u64, RepoRefusal>,
    out: Bytes,
) -> Result<(), CasesRefusal> {
    let words = match joined {
        Ok(size) => format!(in alloc; "{size}")?,
        Err(refusal) => refusal_words(alloc, &refusal)?,
    };
    add_words(alloc, parts, "joined", words.as_str())?;
    add_bytes(alloc, parts, "out", out)
}
