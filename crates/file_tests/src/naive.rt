//! A plain, slow reader of storage files, that follows the written rules alone and shares nothing with the scan.
//!
//! FileStorage format notes.

use fs_record::Damage;
use std::alloc::{AllocError, Global};

/// What a file that opens has; object ids, transaction ids and places are plain numbers.
#[derive(Debug, Drop, PartialEq, Eq)]
pub struct Said {
    pub end: u64,
    pub torn: u64,
    pub greatest: Option<u64>,
    pub last: u64,
    pub floor: u64,
    pub count: u64,
    /// The number of objects that have a value.
    pub objects: u64,
    /// Each object's id and the place of its last data record, by rising id.
    pub newest: Vec<(u64, u64)>,
}

/// A file's damage and the place that is given with it, or what it has.
pub type Answer = Result<Said, (Damage, u64)>;

#[derive(Clone, Copy)]
struct Record {
    place: u64,
    oid: u64,
    tid: u64,
    previous: u64,
    start: u64,
    version: u64,
    length: u64,
    back: u64,
}

#[derive(Drop)]
struct Transaction {
    start: u64,
    tid: u64,
    length: u64,
    status: u64,
    tail: u64,
    /// Its data records; none where its parts don't end where they must.
    records: Option<Vec<Record>>,
}

// The number of so many bytes at a place, high byte first.
fn number(bytes: &[u8], place: u64, width: usize) -> u64 {
    let mut found = 0u64;
    for byte in bytes.iter().skip(place as usize).take(width) {
        found = found.wrapping_mul(256).wrapping_add(u64::from(*byte));
    }
    found
}

fn record_at(bytes: &[u8], place: u64) -> Record {
    let field = |offset: u64, width: usize| number(bytes, place.saturating_add(offset), width);
    Record {
        place,
        oid: field(0, 8),
        tid: field(8, 8),
        previous: field(16, 8),
        start: field(24, 8),
        version: field(32, 2),
        length: field(34, 8),
        back: field(42, 8),
    }
}

// The data records from a place on that end exactly at another.
fn records_between(
    alloc: Global,
    bytes: &[u8],
    from: u64,
    end: u64,
) -> Result<Option<Vec<Record>>, AllocError> {
    let mut records = Vec::new(alloc);
    let mut place = from;
    for _ in from..end {
        if place >= end {
            break;
        }
        let record = record_at(bytes, place);
        let behind = if record.length == 0 { 8 } else { record.length };
        place = place.saturating_add(42).saturating_add(behind);
        records.push(record)?;
    }
    Ok((place == end).then_some(records))
}

fn transaction_at(alloc: Global, bytes: &[u8], start: u64) -> Result<Transaction, AllocError> {
    let field = |offset: u64, width: usize| number(bytes, start.saturating_add(offset), width);
    let status = field(16, 1);
    let length = field(8, 8);
    let texts = field(17, 2)
        .saturating_add(field(19, 2))
        .saturating_add(field(21, 2));
    let from = start.saturating_add(23).saturating_add(texts);
    let end = start.saturating_add(length);
    let records = if from > end {
        None
    } else if status == u64::from(b'u') {
        Some(Vec::new(alloc))
    } else {
        records_between(alloc, bytes, from, end)?
    };
    Ok(Transaction {
        start,
        tid: field(0, 8),
        length,
        status,
        tail: field(length, 8),
        records,
    })
}

// The place of the object's last data record, 0 for none.
fn previous_of(earlier: &[(u64, u64)], oid: u64) -> u64 {
    let mut place = 0;
    for row in earlier {
        if row.0 == oid {
            place = row.1;
        }
    }
    place
}

fn has_bad_previous(records: &[Record], earlier: &[(u64, u64)]) -> bool {
    for record in records {
        if record.previous != previous_of(earlier, record.oid) {
            return true;
        }
    }
    false
}

fn has_bad_back(records: &[Record], earlier: &[(u64, u64)]) -> bool {
    for record in records {
        let is_back = record.length == 0 && record.back != 0;
        if is_back && !earlier.contains(&(record.oid, record.back)) {
            return true;
        }
    }
    false
}

// Whether the transaction has damage of a kind, where it has none of the kinds before it.
fn has(transaction: &Transaction, kind: Damage, earlier: &[(u64, u64)], last: u64) -> bool {
    let records = match &transaction.records {
        Some(records) => records.as_slice(),
        None => return kind == Damage::BadLength,
    };
    let is_undone = transaction.status == u64::from(b'u');
    match kind {
        Damage::BadMagic | Damage::BadLength => false,
        Damage::BadTail => transaction.tail != transaction.length,
        _ if is_undone => false,
        Damage::BadTid => {
            transaction.tid <= last
                || records.iter().any(|r| r.tid != transaction.tid || r.start != transaction.start)
        }
        Damage::BadPrev => has_bad_previous(records, earlier),
        Damage::BadBack => has_bad_back(records, earlier),
        Damage::BadStatus => {
            transaction.status != u64::from(b' ') && transaction.status != u64::from(b'p')
        }
        Damage::BadVersion => records.iter().any(|r| r.version != 0),
    }
}

fn first_damage(transaction: &Transaction, earlier: &[(u64, u64)], last: u64) -> Option<Damage> {
    for kind in [
        Damage::BadLength,
        Damage::BadTid,
        Damage::BadPrev,
        Damage::BadBack,
        Damage::BadStatus,
        Damage::BadTail,
        Damage::BadVersion,
    ] {
        if has(transaction, kind, earlier, last) {
            return Some(kind);
        }
    }
    None
}

// Whether nothing or a torn rest stands at the place.
fn ends_at(bytes: &[u8], place: u64) -> bool {
    let rest = (bytes.len() as u64).saturating_sub(place);
    if rest < 23 {
        return true;
    }
    let status = number(bytes, place.saturating_add(16), 1);
    let length = number(bytes, place.saturating_add(8), 8);
    status == 0 || status == u64::from(b'c') || length.saturating_add(8) > rest
}

// Each object's last data record, by rising id.
fn newest_of(alloc: Global, earlier: &[(u64, u64)]) -> Result<Vec<(u64, u64)>, AllocError> {
    let mut newest = Vec::new(alloc);
    for row in earlier {
        if previous_of(earlier, row.0) == row.1 {
            newest.push(*row)?;
        }
    }
    newest.sort()?;
    Ok(newest)
}

// Takes a transaction's records. The places of those that mean a value, by themselves or by the one to which they
// point back, are kept too.
fn take(
    said: &mut Said,
    earlier: &mut Vec<(u64, u64)>,
    meaning: &mut Vec<u64>,
    t: &Transaction,
) -> Result<(), AllocError> {
    said.end = said.end.saturating_add(t.length).saturating_add(8);
    if t.status == u64::from(b'u') {
        return Ok(());
    }
    said.last = t.tid;
    said.count = said.count.saturating_add(1);
    if t.status == u64::from(b'p') {
        said.floor = t.tid;
    }
    if let Some(records) = &t.records {
        for record in records {
            earlier.push((record.oid, record.place))?;
            if record.length != 0 || meaning.contains(&record.back) {
                meaning.push(record.place)?;
            }
            said.greatest = Some(record.oid.max(said.greatest.unwrap_or(0)));
        }
    }
    Ok(())
}

/// What a file has, or its damage, read by the written rules one after another.
pub fn read_file(alloc: Global, bytes: &[u8]) -> Result<Answer, AllocError> {
    if number(bytes, 0, 4) != 0x4653_3231 {
        return Ok(Err((Damage::BadMagic, 0)));
    }
    let mut said = Said {
        end: 4,
        torn: 0,
        greatest: None,
        last: 0,
        floor: 0,
        count: 0,
        objects: 0,
        newest: Vec::new(alloc),
    };
    let mut earlier = Vec::new(alloc);
    let mut meaning = Vec::new(alloc);
    for _ in bytes {
        if ends_at(bytes, said.end) {
            break;
        }
        let transaction = transaction_at(alloc, bytes, said.end)?;
        if let Some(kind) = first_damage(&transaction, &earlier, said.last) {
            return Ok(Err((kind, said.end)));
        }
        take(&mut said, &mut earlier, &mut meaning, &transaction)?;
    }
    said.torn = (bytes.len() as u64).saturating_sub(said.end);
    said.newest = newest_of(alloc, &earlier)?;
    for row in &said.newest {
        if meaning.contains(&row.1) {
            said.objects = said.objects.saturating_add(1);
        }
    }
    Ok(Ok(said))
}

/// A transaction that counts, with what each of its records means, in the file's order.
#[derive(Debug, Drop, PartialEq, Eq)]
pub struct Passed {
    pub place: u64,
    pub status: u64,
    pub tid: u64,
    pub values: Vec<(u64, Option<Vec<u8>>)>,
}

// What a record means: its data, or what the record means to which it points back.
fn meaning_of(alloc: Global, bytes: &[u8], record: &Record) -> Result<Option<Vec<u8>>, AllocError> {
    let mut at = *record;
    for _ in bytes {
        if at.length != 0 {
            let mut data = Vec::new(alloc);
            let from = at.place.saturating_add(42);
            for byte in bytes.iter().skip(from as usize).take(at.length as usize) {
                data.push(*byte)?;
            }
            return Ok(Some(data));
        }
        if at.back == 0 {
            break;
        }
        at = record_at(bytes, at.back);
    }
    Ok(None)
}

fn with_meanings(alloc: Global, bytes: &[u8], t: &Transaction) -> Result<Passed, AllocError> {
    let mut values = Vec::new(alloc);
    if let Some(records) = &t.records {
        for record in records {
            values.push((record.oid, meaning_of(alloc, bytes, record)?))?;
        }
    }
    Ok(Passed {
        place: t.start,
        status: t.status,
        tid: t.tid,
        values,
    })
}

/// The transactions of a file that opens, from the oldest to the newest.
pub fn history(alloc: Global, bytes: &[u8]) -> Result<Vec<Passed>, AllocError> {
    let mut all = Vec::new(alloc);
    let mut place = 4u64;
    for _ in bytes {
        if ends_at(bytes, place) {
            break;
        }
        let transaction = transaction_at(alloc, bytes, place)?;
        if transaction.status != u64::from(b'u') {
            all.push(with_meanings(alloc, bytes, &transaction)?)?;
        }
        place = place.saturating_add(transaction.length).saturating_add(8);
    }
    Ok(all)
}
