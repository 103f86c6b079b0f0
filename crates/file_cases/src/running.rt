use crate::telling::{
    check_words, head_words, put_rows, put_step, put_value, refusal_words, scan_words,
};
use cases::{Case, CasesRefusal, Part, Runner, add_bytes, add_line, add_number, put_word};
use fs_record::DataHead;
use fs_scan::{Checked, ScanRefusal, Scanned, Walk, check, follow_from, read_head, scan};
use std::alloc::Global;
use zbase::{Bytes, Value};
use zdisk::{Disk, MemoryDisk};

/// Files: `file` is one, and `failing disk NUMBER` a call of its disk that is to fail; each of these is read from a disk
/// of its own. A file that has damage gives `damaged KIND PLACE` in place of the words, and a call that failed `fault`.
///
/// - `scan end N torn N greatest HEX last HEX packed HEX transactions N`, `rows` with a line `HEX PLACE` for each object's
///   last record, and `scan_calls N`;
/// - `check transactions N objects N last HEX end N torn N`, and `check_calls N`;
/// - `walk` with the lines `transaction PLACE HEX STATUS USER DESCRIPTION EXTENSION` and `record HEX VALUE` up to `end` or
///   the damage; behind `fault` it goes on; `walk_calls N`;
/// - where `at PLACE` is given, `head HEX HEX PREVIOUS START VERSION LENGTH` with the fields of the data record there or
///   `none`, `value` with what it means, and `at_calls N`.
#[derive(Drop)]
pub struct FileRuns;

// More steps than any walk over a case's file has.
const STEPS: usize = 1000;

// The disk of the case, before any call.
fn disk_of(alloc: Global, case: &Case) -> Result<MemoryDisk, CasesRefusal> {
    let mut disk = MemoryDisk::new(alloc, case.bytes(alloc, "file")?);
    let mut before = 0;
    for number in &case.failing(alloc, "disk")? {
        let calls = number.saturating_sub(before);
        if calls == 0 {
            return Err(CasesRefusal::Missing);
        }
        disk.arm_fail(calls, 0)?;
        before = *number;
    }
    Ok(disk)
}

// Adds a part of this key and these words.
fn add_words(
    alloc: Global,
    parts: &mut Vec<Part>,
    key: &str,
    words: &str,
) -> Result<(), CasesRefusal> {
    let mut line = String::from_str(alloc, key)?;
    put_word(&mut line, words)?;
    add_line(alloc, parts, line.as_str())
}

// Adds what a scan says.
fn put_scan(
    alloc: Global,
    parts: &mut Vec<Part>,
    key: &str,
    found: &Result<Scanned, ScanRefusal>,
) -> Result<(), CasesRefusal> {
    let words = match found {
        Ok(scanned) => scan_words(alloc, scanned)?,
        Err(refusal) => refusal_words(alloc, *refusal)?,
    };
    add_words(alloc, parts, key, words.as_str())
}

// Adds where the last records stand, if a scan found that.
fn put_places(
    alloc: Global,
    parts: &mut Vec<Part>,
    found: &Result<Scanned, ScanRefusal>,
) -> Result<(), CasesRefusal> {
    let Ok(scanned) = found else {
        return Ok(());
    };
    let mut rows = Bytes::new(alloc);
    put_rows(alloc, &mut rows, scanned.newest.rows()?.as_slice())?;
    add_bytes(alloc, parts, "rows", rows)
}

// What a scan of the case's disk says, and how many calls it made.
fn scanned(
    alloc: Global,
    case: &Case,
) -> Result<(Result<Scanned, ScanRefusal>, u64), CasesRefusal> {
    let mut disk = disk_of(alloc, case)?;
    let found = scan(alloc, &mut disk);
    Ok((found, disk.calls()))
}

// Scans the file.
fn run_scan(alloc: Global, case: &Case, parts: &mut Vec<Part>) -> Result<(), CasesRefusal> {
    let (found, calls) = scanned(alloc, case)?;
    put_scan(alloc, parts, "scan", &found)?;
    put_places(alloc, parts, &found)?;
    add_number(alloc, parts, "scan_calls", calls)
}

// What a check of the case's disk says, and how many calls it made.
fn checked(
    alloc: Global,
    case: &Case,
) -> Result<(Result<Checked, ScanRefusal>, u64), CasesRefusal> {
    let mut disk = disk_of(alloc, case)?;
    let found = check(alloc, &mut disk);
    Ok((found, disk.calls()))
}

// Checks the file.
fn run_check(alloc: Global, case: &Case, parts: &mut Vec<Part>) -> Result<(), CasesRefusal> {
    let (found, calls) = checked(alloc, case)?;
    let words = match found {
        Ok(checked) => check_words(alloc, &checked)?,
        Err(refusal) => refusal_words(alloc, refusal)?,
    };
    add_words(alloc, parts, "check", words.as_str())?;
    add_number(alloc, parts, "check_calls", calls)
}

// The lines of a walk over the disk's file.
fn walked<D: Disk>(alloc: Global, disk: &mut D) -> Result<Bytes, CasesRefusal> {
    let mut walk = Walk::new(alloc);
    let mut out = Bytes::new(alloc);
    for _ in 0..STEPS {
        if !put_step(alloc, &mut out, walk.next(disk))? {
            return Ok(out);
        }
    }
    Err(CasesRefusal::Missing)
}

// Walks over the file.
fn run_walk(alloc: Global, case: &Case, parts: &mut Vec<Part>) -> Result<(), CasesRefusal> {
    let mut disk = disk_of(alloc, case)?;
    let lines = walked(alloc, &mut disk)?;
    add_bytes(alloc, parts, "walk", lines)?;
    add_number(alloc, parts, "walk_calls", disk.calls())
}

// The head and the meaning of the data record at a place.
fn read_at<D: Disk>(
    alloc: Global,
    disk: &mut D,
    at: u64,
) -> Result<Option<(DataHead, Value)>, ScanRefusal> {
    let len = disk.len()?;
    let Some(head) = read_head(disk, len, at)? else {
        return Ok(None);
    };
    let value = follow_from(alloc, disk, len, at, &head)?;
    Ok(Some((head, value)))
}

// Adds what stands at a place.
fn put_found(
    alloc: Global,
    parts: &mut Vec<Part>,
    found: Result<Option<(DataHead, Value)>, ScanRefusal>,
) -> Result<(), CasesRefusal> {
    let mut value = Bytes::new(alloc);
    let words = match found {
        Ok(Some((head, meant))) => {
            put_value(&mut value, &meant)?;
            head_words(alloc, &head)?
        }
        Ok(None) => String::from_str(alloc, "none")?,
        Err(refusal) => refusal_words(alloc, refusal)?,
    };
    add_words(alloc, parts, "head", words.as_str())?;
    let value = str::from_utf8(value.as_slice()).unwrap_or("");
    add_words(alloc, parts, "value", value)
}

// Reads the data record at the place of the case, if it has one.
fn run_at(alloc: Global, case: &Case, parts: &mut Vec<Part>) -> Result<(), CasesRefusal> {
    if case.part("at").is_none() {
        return Ok(());
    }
    let mut disk = disk_of(alloc, case)?;
    let found = read_at(alloc, &mut disk, case.number("at", 0)?);
    put_found(alloc, parts, found)?;
    add_number(alloc, parts, "at_calls", disk.calls())
}

impl Runner for FileRuns {
    fn knows(&self, key: &str) -> bool {
        key == "file" || key == "failing" || key == "at"
    }

    fn run(&self, alloc: Global, case: &Case) -> Result<Vec<Part>, CasesRefusal> {
        let mut parts = Vec::new(alloc);
        run_scan(alloc, case, &mut parts)?;
        run_check(alloc, case, &mut parts)?;
        run_walk(alloc, case, &mut parts)?;
        run_at(alloc, case, &mut parts)?;
        Ok(parts)
    }
}
