use crate::items::{numbers_of, short};
use cases::{Case, CasesRefusal, Part};
use evaluator::Ask;
use schedule::Line;
use std::alloc::Global;
use zbase::{Clash, Oid, Text, Tid};

// The line of this kind that begins with a worker.
fn worker_line(kind: &str, worker: u32, others: &[u64]) -> Option<Line> {
    let line = match (kind, others) {
        ("begin", [tid]) => Line::Begin(worker, Tid(*tid)),
        ("fetch-object", [oid]) => Line::Fetch(worker, Ask::Object(Oid(*oid))),
        ("fetch-transaction", [tid]) => Line::Fetch(worker, Ask::Transaction(Tid(*tid))),
        ("fetch-log", []) => Line::Fetch(worker, Ask::Log),
        ("computed", []) => Line::Computed(worker),
        ("busy", [holder]) => Line::Busy(worker, short(*holder)),
        ("vote", [tid]) => Line::Vote(worker, Tid(*tid)),
        ("idle", []) => Line::Idle(worker),
        ("spent-tids", []) => Line::SpentTids(worker),
        ("spent-oids", [greatest, new]) => Line::SpentOids(worker, Oid(*greatest), short(*new)),
        ("spent-full", [need, limit]) => Line::SpentFull(worker, *need, *limit),
        ("diskfault", []) => Line::DiskFault(worker),
        ("memory", []) => Line::Memory(worker),
        ("unknown", [tid]) => Line::Unknown(worker, Tid(*tid)),
        ("denied", [oid, permission]) => Line::Denied(
            worker,
            Oid(*oid),
            u8::try_from(*permission).unwrap_or(u8::MAX),
        ),
        ("lost", []) => Line::Lost(worker),
        _ => return None,
    };
    Some(line)
}

// The conflict of these numbers.
fn clash(oid: u64, seen: u64, found: u64) -> Clash {
    Clash { oid, seen, found }
}

// The line of this kind with the conflicts of a worker.
fn conflict_line(kind: &str, worker: u32, others: &[u64]) -> Option<Line> {
    match (kind, others) {
        ("conflict", [a, b, c]) => Some(Line::Conflict(worker, clash(*a, *b, *c))),
        ("givenup", [a, b, c, d, e, f, g, h, i, j, k, l]) => {
            let clashes = [
                clash(*a, *b, *c),
                clash(*d, *e, *f),
                clash(*g, *h, *i),
                clash(*j, *k, *l),
            ];
            Some(Line::GivenUp(worker, clashes))
        }
        _ => None,
    }
}

// The line of this kind that has no worker.
fn plain_line(kind: &str, numbers: &[u64]) -> Option<Line> {
    let line = match (kind, numbers) {
        ("head", []) => Line::Head,
        ("opened", [tid, count]) => Line::Opened(Tid(*tid), *count),
        ("stop", []) => Line::Stop,
        ("openfault", []) => Line::OpenFault,
        ("restart", [tid, count]) => Line::Restart(Tid(*tid), *count),
        ("history", [count]) => Line::History(*count),
        ("floor", [tid]) => Line::Floor(Tid(*tid)),
        ("record-none", [oid]) => Line::RecordRow(Oid(*oid), None),
        ("packed", [floor, count]) => Line::Packed(Tid(*floor), *count),
        ("pack-busy", []) => Line::PackBusy,
        ("pack-unreadable", [oid]) => Line::PackUnreadable(Oid(*oid)),
        ("pack-full", [need, limit]) => Line::PackFull(*need, *limit),
        ("pack-memory", []) => Line::PackMemory,
        ("packfault", []) => Line::PackFault,
        ("end", []) => Line::End,
        _ => return None,
    };
    Some(line)
}

// The part's bytes as a text.
fn text_of(alloc: Global, part: &Part) -> Result<Text, CasesRefusal> {
    match str::from_utf8(part.bytes.as_slice()) {
        Ok(text) => Ok(Text::from_str(alloc, text)?),
        Err(_) => Err(CasesRefusal::BadPart(part.line)),
    }
}

// The line of this kind that has the part's bytes.
fn line_with_bytes(
    alloc: Global,
    part: &Part,
    kind: &str,
    numbers: &[u64],
) -> Result<Line, CasesRefusal> {
    let line = match (kind, numbers) {
        ("reply-read", [worker, tid]) => {
            Line::ReplyRead(short(*worker), Tid(*tid), part.bytes.copy()?)
        }
        ("reply-commit", [worker, tid]) => {
            Line::ReplyCommit(short(*worker), Tid(*tid), part.bytes.copy()?)
        }
        ("reply-none", [worker]) => Line::ReplyNone(short(*worker), part.bytes.copy()?),
        ("shown", [worker, oid]) => Line::Shown(short(*worker), Oid(*oid), text_of(alloc, part)?),
        ("record", [oid]) => Line::RecordRow(Oid(*oid), Some(part.bytes.copy()?)),
        _ => return Err(CasesRefusal::BadPart(part.line)),
    };
    Ok(line)
}

// A transaction with the texts of the case.
fn transaction(alloc: Global, case: &Case, tid: u64, count: u64) -> Result<Line, CasesRefusal> {
    let user = case.bytes(alloc, "user")?;
    let description = case.bytes(alloc, "description")?;
    let extension = case.bytes(alloc, "extension")?;
    Ok(Line::Transaction(Tid(tid), user, description, extension, count))
}

/// The line of a report that a part says.
pub fn line_of(alloc: Global, case: &Case, part: &Part) -> Result<Line, CasesRefusal> {
    let kind = part.word(1).unwrap_or("");
    let numbers = numbers_of(alloc, part)?;
    let numbers = numbers.as_slice();
    if let ("transaction", [tid, count]) = (kind, numbers) {
        return transaction(alloc, case, *tid, *count);
    }
    if let Some(line) = plain_line(kind, numbers) {
        return Ok(line);
    }
    if let [worker, others @ ..] = numbers {
        if let Some(line) = worker_line(kind, short(*worker), others) {
            return Ok(line);
        }
        if let Some(line) = conflict_line(kind, short(*worker), others) {
            return Ok(line);
        }
    }
    line_with_bytes(alloc, part, kind, numbers)
}
