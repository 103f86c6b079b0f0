//! The scan, the walk and a plain reader agree, on files that are made here and then changed byte by byte.

use crate::naive::{Answer, Passed, Said, history, read_file};
use fs_record::Damage;
use fs_scan::{Checked, ScanRefusal, Scanned, Walk, Whole, check, scan};
use std::alloc::Global;
use std::mem;
use std::test::*;
use zbase::{Bytes, Memory};
use zdisk::{Disk, MemoryDisk};

/// What a record has: data of this length, or a back pointer to the record of its object that is so many back among
/// those of earlier transactions, 0 for a back pointer to none.
#[derive(Clone, Copy)]
enum Has {
    Data(u8),
    Back(u8),
}

use Has::{Back, Data};

/// A transaction's status, and its records' objects and bodies.
type Made = (u8, &'static [(u64, Has)]);

/// Files without damage.
const FILES: [&[Made]; 11] = [
    &[],
    &[(b' ', &[])],
    &[(b' ', &[(0, Data(3))])],
    &[
        (b'p', &[(0, Data(3)), (1, Data(1))]),
        (b' ', &[(1, Data(2))]),
    ],
    &[(b'u', &[(9, Data(2))]), (b' ', &[(3, Data(1))])],
    &[(b' ', &[(3, Data(1))]), (b'u', &[(3, Back(1))])],
    // a chain of back pointers, and one to none
    &[
        (b' ', &[(5, Data(2))]),
        (b' ', &[(5, Back(1))]),
        (b' ', &[(5, Back(1)), (6, Back(0))]),
        (b' ', &[(5, Back(3))]),
    ],
    // two records of an object in one transaction, and a back pointer to the first
    &[
        (b' ', &[(5, Data(2)), (5, Data(1))]),
        (b' ', &[(5, Back(2)), (5, Back(1))]),
    ],
    &[
        (b'p', &[(7, Data(1))]),
        (b'u', &[]),
        (b'p', &[]),
        (b' ', &[(7, Data(1)), (2, Data(1))]),
    ],
    // a back pointer and data behind an undone transaction
    &[
        (b' ', &[(1, Data(3)), (2, Data(2))]),
        (b'u', &[(7, Data(1))]),
        (b' ', &[(1, Back(1)), (2, Data(4))]),
    ],
    // the first id and the last one there is, and ids that have no row in common
    &[
        (
            b' ',
            &[
                (u64::MAX, Data(1)),
                (131_072, Data(2)),
                (0, Data(1)),
                (65_536, Data(1)),
            ],
        ),
        (b' ', &[(u64::MAX, Back(1)), (65_536, Back(0))]),
    ],
];

fn number(out: &mut Bytes, number: u64) -> Result<(), Memory> {
    out.append(&number.to_be_bytes())
}

// The place of the object's record that is so many back, 0 for none.
fn back_by(rows: &[(u64, u64)], oid: u64, count: u8) -> u64 {
    let mut left = count;
    for row in rows.iter().rev() {
        if row.0 == oid {
            if left == 1 {
                return row.1;
            }
            left = left.saturating_sub(1);
        }
    }
    0
}

fn put_record(
    out: &mut Bytes,
    rows: &[(u64, u64)],
    tid: u64,
    start: u64,
    record: &(u64, Has),
) -> Result<(), Memory> {
    let (oid, has) = *record;
    number(out, oid)?;
    number(out, tid)?;
    number(out, back_by(rows, oid, 1))?;
    number(out, start)?;
    out.append(&[0, 0])?;
    match has {
        Data(len) => {
            number(out, u64::from(len))?;
            for _ in 0..len {
                out.push(b'd')?;
            }
            Ok(())
        }
        Back(count) => {
            number(out, 0)?;
            number(out, back_by(rows, oid, count))
        }
    }
}

// The transaction behind the file. Of an undone one the id isn't compared, and its records don't count.
fn put_transaction(
    alloc: Global,
    out: &mut Bytes,
    rows: &mut Vec<(u64, u64)>,
    tid: u64,
    made: &Made,
) -> Result<(), Memory> {
    let start = out.len() as u64;
    let mut records = Bytes::new(alloc);
    let mut places = Vec::new(alloc);
    for record in made.1 {
        let place = start
            .saturating_add(23)
            .saturating_add(records.len() as u64);
        put_record(&mut records, rows.as_slice(), tid, start, record)?;
        places.push((record.0, place))?;
    }
    let length = 23u64.saturating_add(records.len() as u64);
    number(out, tid)?;
    number(out, length)?;
    out.append(&[made.0, 0, 0, 0, 0, 0, 0])?;
    out.append(records.as_slice())?;
    number(out, length)?;
    if made.0 != b'u' {
        for row in places.as_slice() {
            rows.push(*row)?;
        }
    }
    Ok(())
}

fn file_of(alloc: Global, transactions: &[Made]) -> Result<Vec<u8>, Memory> {
    let mut out = Bytes::from_slice(alloc, b"FS21")?;
    let mut rows = Vec::new(alloc);
    let mut tid = 0u64;
    for made in transactions {
        tid = tid.saturating_add(256);
        let said = if made.0 == b'u' { 1 } else { tid };
        put_transaction(alloc, &mut out, &mut rows, said, made)?;
    }
    Ok(out.into_vec())
}

fn said(alloc: Global, scanned: &Scanned, checked: &Checked) -> Result<Said, Memory> {
    let mut newest = Vec::new(alloc);
    for row in scanned.newest.rows()?.as_slice() {
        newest.push((row.oid.0, row.place))?;
    }
    Ok(Said {
        end: scanned.end,
        torn: scanned.torn,
        greatest: scanned.greatest.map(|oid| oid.0),
        last: scanned.last.0,
        floor: scanned.floor.0,
        count: scanned.count,
        objects: checked.objects,
        newest,
    })
}

// What a scan and a check say of the bytes; an error where these two differ.
fn scanned(alloc: Global, bytes: &[u8]) -> Result<Answer, Fail> {
    let mut disk = MemoryDisk::new(alloc, Bytes::from_slice(alloc, bytes)?);
    match (scan(alloc, &mut disk), check(alloc, &mut disk)) {
        (Ok(scanned), Ok(checked)) => {
            let of_scan = (scanned.count, scanned.last, scanned.end, scanned.torn);
            let of_check = (
                checked.transactions,
                checked.last,
                checked.end,
                checked.torn,
            );
            if of_scan != of_check {
                return Err("the scan and the check have other numbers".into());
            }
            Ok(Ok(said(alloc, &scanned, &checked)?))
        }
        (Err(ScanRefusal::Damaged(kind, place)), Err(refusal)) => {
            if refusal != ScanRefusal::Damaged(kind, place) {
                return Err("the scan and the check name other damage".into());
            }
            Ok(Err((kind, place)))
        }
        _ => Err("one of the two is refused".into()),
    }
}

fn passed_by(alloc: Global, whole: &Whole) -> Result<Passed, Memory> {
    let mut values = Vec::new(alloc);
    for written in whole.values.as_slice() {
        let value = match &written.value {
            Some(data) => Some(data.copy()?.into_vec()),
            None => None,
        };
        values.push((written.oid.0, value))?;
    }
    Ok(Passed {
        place: whole.place,
        status: u64::from(whole.status),
        tid: whole.tid.0,
        values,
    })
}

// The transactions that a walk over the disk answers in at most so many steps, or the damage to which it comes.
fn walked<D: Disk>(
    alloc: Global,
    disk: &mut D,
    most: usize,
) -> Result<Result<Vec<Passed>, (Damage, u64)>, Fail> {
    let mut walk = Walk::new(alloc);
    let mut all = Vec::new(alloc);
    for _ in 0..=most {
        match walk.next(disk) {
            Ok(Some(whole)) => all.push(passed_by(alloc, &whole)?)?,
            Ok(None) => return Ok(Ok(all)),
            Err(ScanRefusal::Damaged(kind, place)) => return Ok(Err((kind, place))),
            Err(_) => return Err("the walk is refused".into()),
        }
    }
    Err("the walk doesn't end".into())
}

// What the scan, the walk and the plain reader say of the bytes; an error where they differ.
fn agreed(alloc: Global, bytes: &[u8]) -> Result<Answer, Fail> {
    let read = read_file(alloc, bytes)?;
    if scanned(alloc, bytes)? != read {
        return Err("the scan and the plain reader differ".into());
    }
    let told = match &read {
        Ok(_) => Ok(history(alloc, bytes)?),
        Err((kind, place)) => Err((*kind, *place)),
    };
    let mut disk = MemoryDisk::new(alloc, Bytes::from_slice(alloc, bytes)?);
    if walked(alloc, &mut disk, bytes.len())? != told {
        return Err("the walk and the plain reader differ".into());
    }
    Ok(read)
}

// Sets a byte, and gives the one that stood there.
fn set(bytes: &mut [u8], place: usize, byte: u8) -> u8 {
    match bytes.get_mut(place) {
        Some(old) => mem::replace(old, byte),
        None => 0,
    }
}

// Counts of what files open to: whole, torn, and each kind of damage in the order of its declaration.
fn counted(counts: &mut [u64; 10], answer: &Answer) {
    let index = match answer {
        Ok(said) if said.torn == 0 => 0,
        Ok(_) => 1,
        Err((kind, _)) => 2 + *kind as usize,
    };
    counts[index] = counts[index].saturating_add(1);
}

// Whether the file opens to its end, and each beginning of it to what was written whole, but for a cut in the magic.
fn is_whole_however_cut(alloc: Global, file: &[u8]) -> Result<bool, Fail> {
    let end = agreed(alloc, file)?.map(|said| (said.end, said.torn));
    let mut all = end == Ok((file.len() as u64, 0));
    for len in 0..file.len() {
        let answer = agreed(alloc, &file[..len])?;
        all = all && answer.is_err() == (len < 4);
    }
    Ok(all)
}

#[test]
fn they_agree_on_made_files_however_they_are_cut(rt: HostRuntime) -> Result<(), Fail> {
    for (index, made) in FILES.iter().enumerate() {
        let file = file_of(rt.alloc(), made)?;
        assert!(rt;
            is_whole_however_cut(rt.alloc(), file.as_slice())?,
            "file {index}"
        );
    }
    Ok(())
}

// Counts what the file opens to with each of its bytes changed in some ways.
fn count_changed(alloc: Global, counts: &mut [u64; 10], file: &mut [u8]) -> Result<(), Fail> {
    for place in 0..file.len() {
        let old = file[place];
        for byte in [old.wrapping_add(1), old ^ 128, b'u', b'p', 0] {
            set(file, place, byte);
            counted(counts, &agreed(alloc, file)?);
        }
        set(file, place, old);
    }
    Ok(())
}

#[test]
fn they_agree_on_made_files_with_any_byte_changed(rt: HostRuntime) -> Result<(), Fail> {
    let mut counts = [0; 10];
    for made in FILES {
        let mut file = file_of(rt.alloc(), made)?;
        count_changed(rt.alloc(), &mut counts, file.as_mut_slice())?;
    }
    assert!(rt; counts.iter().all(|count| *count > 20));
    Ok(())
}
