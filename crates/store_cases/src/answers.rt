//! Answers of a store as lines: words, and numbers behind them.
use evaluator::{LogRows, Parts};
use fs_store::{FinishRefusal, LoadRefusal, Loaded, OpenRefusal, Spent, VoteRefusal};
use zbase::{Bytes, Clash, Memory, Value};

/// Adds a blank and the number.
fn put_number(out: &mut Bytes, number: u64) -> Result<(), Memory> {
    let digits = format!(in out.alloc(); " {number}")?;
    out.append(digits.as_bytes())
}

/// Adds a line of words and of numbers behind them.
pub(crate) fn put_line(out: &mut Bytes, words: &str, numbers: &[u64]) -> Result<(), Memory> {
    out.append(words.as_bytes())?;
    for number in numbers {
        put_number(out, *number)?;
    }
    out.append(b"\n")
}

// Adds a blank and the bytes between quotation marks.
fn put_bytes(out: &mut Bytes, bytes: &[u8]) -> Result<(), Memory> {
    out.append(b" \"")?;
    out.append(bytes)?;
    out.append(b"\"")
}

// Adds a blank and the value, `none` for none.
fn put_value(out: &mut Bytes, value: &Value) -> Result<(), Memory> {
    match value {
        Some(bytes) => put_bytes(out, bytes.as_slice()),
        None => out.append(b" none"),
    }
}

/// `loaded VALUE SERIAL PLACE`.
pub(crate) fn put_loaded(out: &mut Bytes, loaded: &Loaded) -> Result<(), Memory> {
    out.append(b"loaded")?;
    put_value(out, &loaded.value)?;
    put_line(out, "", &[loaded.serial.0, loaded.place])
}

/// `parts N`, and then of each `part OID AFTER BEFORE SERIAL`.
pub(crate) fn put_parts(out: &mut Bytes, parts: &Parts) -> Result<(), Memory> {
    put_line(out, "parts", &[parts.len() as u64])?;
    for part in parts.as_slice() {
        out.append(b"part")?;
        put_number(out, part.oid.0)?;
        put_value(out, &part.after)?;
        put_value(out, &part.before)?;
        put_line(out, "", &[part.before_serial.0])?;
    }
    Ok(())
}

/// `rows N`, and then of each `row TID USER DESCRIPTION`.
pub(crate) fn put_rows(out: &mut Bytes, rows: &LogRows) -> Result<(), Memory> {
    put_line(out, "rows", &[rows.len() as u64])?;
    for row in rows.as_slice() {
        out.append(b"row")?;
        put_number(out, row.tid.0)?;
        put_bytes(out, row.user.as_slice())?;
        put_bytes(out, row.description.as_slice())?;
        out.append(b"\n")?;
    }
    Ok(())
}

/// `unread CAUSE`.
pub(crate) fn put_load_refusal(out: &mut Bytes, refusal: LoadRefusal) -> Result<(), Memory> {
    match refusal {
        LoadRefusal::Disk => put_line(out, "unread disk", &[]),
        LoadRefusal::Memory => put_line(out, "unread memory", &[]),
    }
}

/// `not opened CAUSE`.
pub(crate) fn put_open_refusal(out: &mut Bytes, refusal: OpenRefusal) -> Result<(), Memory> {
    match refusal {
        OpenRefusal::Damaged(kind, place) => {
            put_line(
                out,
                "not opened damaged",
                &[u64::from(kind.number()), place],
            )
        }
        OpenRefusal::Disk => put_line(out, "not opened disk", &[]),
        OpenRefusal::TooLong(len) => put_line(out, "not opened long", &[len]),
        OpenRefusal::Memory => put_line(out, "not opened memory", &[]),
    }
}

/// `refused CAUSE`.
pub(crate) fn put_vote_refusal(out: &mut Bytes, refusal: VoteRefusal) -> Result<(), Memory> {
    match refusal {
        VoteRefusal::Busy(holder) => put_line(out, "refused busy", &[u64::from(holder)]),
        VoteRefusal::Conflict(clash) => {
            let Clash { oid, seen, found } = clash;
            put_line(out, "refused conflict", &[oid, seen, found])
        }
        VoteRefusal::Spent(Spent::Tids) => put_line(out, "refused tids", &[]),
        VoteRefusal::Spent(Spent::Oids { greatest, new }) => {
            put_line(out, "refused oids", &[greatest, u64::from(new)])
        }
        VoteRefusal::Spent(Spent::Full { need, limit }) => {
            put_line(out, "refused full", &[need, limit])
        }
        VoteRefusal::Disk => put_line(out, "refused disk", &[]),
        VoteRefusal::Memory => put_line(out, "refused memory", &[]),
    }
}

/// `unknown TID`.
pub(crate) fn put_finish_refusal(out: &mut Bytes, refusal: FinishRefusal) -> Result<(), Memory> {
    let FinishRefusal::Unknown(tid) = refusal;
    put_line(out, "unknown", &[tid.0])
}
