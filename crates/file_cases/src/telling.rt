use cases::CasesRefusal;
use fs_record::DataHead;
use fs_scan::{Checked, OidValue, ScanRefusal, Scanned, Whole};
use std::alloc::Global;
use zbase::{Bytes, Memory, Oid, Row, Value, hex_digits};

/// Why a file isn't read: `damaged KIND PLACE` or `fault`.
pub fn refusal_words(alloc: Global, refusal: ScanRefusal) -> Result<String, CasesRefusal> {
    match refusal {
        ScanRefusal::Damaged(kind, place) => {
            let kind = kind.number();
            Ok(format!(in alloc; "damaged {kind} {place}")?)
        }
        ScanRefusal::Disk => Ok(String::from_str(alloc, "fault")?),
        ScanRefusal::Memory => Err(CasesRefusal::Memory),
    }
}

// The id, or `none`.
fn id_or_none(alloc: Global, oid: Option<Oid>) -> Result<String, CasesRefusal> {
    match oid {
        Some(Oid(oid)) => Ok(format!(in alloc; "{oid:016x}")?),
        None => Ok(String::from_str(alloc, "none")?),
    }
}

/// What a scan found: `end N torn N greatest HEX last HEX packed HEX transactions N`, where the third may be `none`.
pub fn scan_words(alloc: Global, scanned: &Scanned) -> Result<String, CasesRefusal> {
    let greatest = id_or_none(alloc, scanned.greatest)?;
    let (end, torn, count) = (scanned.end, scanned.torn, scanned.count);
    let (last, packed) = (scanned.last.0, scanned.floor.0);
    Ok(format!(in alloc;
        "end {end} torn {torn} greatest {greatest} last {last:016x} packed {packed:016x} transactions {count}"
    )?)
}

/// What a check found: `transactions N objects N last HEX end N torn N`.
pub fn check_words(alloc: Global, checked: &Checked) -> Result<String, CasesRefusal> {
    let (transactions, objects) = (checked.transactions, checked.objects);
    let (last, end, torn) = (checked.last.0, checked.end, checked.torn);
    Ok(format!(in alloc;
        "transactions {transactions} objects {objects} last {last:016x} end {end} torn {torn}"
    )?)
}

/// The fields of a data record's head: `HEX HEX PREVIOUS START VERSION LENGTH`.
pub fn head_words(alloc: Global, head: &DataHead) -> Result<String, CasesRefusal> {
    let (oid, tid, version) = (head.oid.0, head.tid.0, head.version);
    let (prev, start, length) = (head.prev, head.start, head.length);
    Ok(format!(in alloc; "{oid:016x} {tid:016x} {prev} {start} {version} {length}")?)
}

// Adds a blank and the digits of the bytes; `-` stands for no byte.
fn put_digits(out: &mut Bytes, bytes: &[u8]) -> Result<(), Memory> {
    if bytes.is_empty() {
        return out.append(b" -");
    }
    out.append(b" ")?;
    for byte in bytes {
        out.append(&hex_digits(*byte))?;
    }
    Ok(())
}

/// Adds a blank and the digits of the value, or `none`.
pub fn put_value(out: &mut Bytes, value: &Value) -> Result<(), Memory> {
    match value {
        Some(bytes) => put_digits(out, bytes.as_slice()),
        None => out.append(b" none"),
    }
}

/// Adds a line for each row: `HEX PLACE`.
pub fn put_rows(alloc: Global, out: &mut Bytes, rows: &[Row]) -> Result<(), CasesRefusal> {
    for row in rows {
        let (oid, place) = (row.oid.0, row.place);
        let line = format!(in alloc; "{oid:016x} {place}\n")?;
        out.append(line.as_bytes())?;
    }
    Ok(())
}

// Adds a line for each value.
fn put_values(alloc: Global, out: &mut Bytes, values: &[OidValue]) -> Result<(), CasesRefusal> {
    for value in values {
        let oid = value.oid.0;
        let words = format!(in alloc; "record {oid:016x}")?;
        out.append(words.as_bytes())?;
        put_value(out, &value.value)?;
        out.append(b"\n")?;
    }
    Ok(())
}

// Adds the lines of a transaction.
fn put_whole(alloc: Global, out: &mut Bytes, whole: &Whole) -> Result<(), CasesRefusal> {
    let (place, tid, status) = (whole.place, whole.tid.0, whole.status);
    let words = format!(in alloc; "transaction {place} {tid:016x} {status:02x}")?;
    out.append(words.as_bytes())?;
    put_digits(out, whole.texts.user.as_slice())?;
    put_digits(out, whole.texts.description.as_slice())?;
    put_digits(out, whole.texts.extension.as_slice())?;
    out.append(b"\n")?;
    put_values(alloc, out, whole.values.as_slice())
}

/// Adds the lines of a step of a walk; whether it goes on behind that.
pub fn put_step(
    alloc: Global,
    out: &mut Bytes,
    step: Result<Option<Whole>, ScanRefusal>,
) -> Result<bool, CasesRefusal> {
    match step {
        Ok(Some(whole)) => {
            put_whole(alloc, out, &whole)?;
            Ok(true)
        }
        Ok(None) => {
            out.append(b"end\n")?;
            Ok(false)
        }
        Err(refusal) => {
            out.append(refusal_words(alloc, refusal)?.as_bytes())?;
            out.append(b"\n")?;
            Ok(refusal == ScanRefusal::Disk)
        }
    }
}
