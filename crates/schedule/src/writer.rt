ghost use Rattle.std.specs.Prelude.{◌≡◌, ◌++◌, ◌∷◌, [], length, flat_map, codes, decimal, IfOk, OnOk, OnErr};
ghost use Rattle.zbase.specs.Hex.{hex16_text};
ghost use Rattle.schedule.specs.Fields.{field_text};
ghost use Rattle.schedule.specs.Lines.{ask_fields, clash_fields, line_text, mark_fields, text_field, value_field};
ghost use Rattle.schedule.specs.Rows.{block, row};

use crate::Line;
use crate::row::{Field, put_block, put_row};
use evaluator::{Ask, permission_name};
use std::alloc::Global;
use zbase::{Bytes, Clash, Memory, Oid, Tid, Value};

fn text_of(bytes: &Bytes) -> Field<'_>
    ensures { field_text result ≡ text_field bytes.now }
{
    match bytes.as_slice() {
        [] => Field::Word(b"-"),
        some => Field::Digits(some),
    }
}

fn value_of(value: &Value) -> Field<'_>
    ensures { field_text result ≡ value_field value.now }
{
    match value {
        None => Field::Word(b"none"),
        Some(bytes) => Field::Digits(bytes.as_slice()),
    }
}

fn number(n: u32) -> Field<'static>
    ensures { result ≡ Field.Number n }
{
    Field::Number(n as u64)
}

fn put_fetch(worker: u32, ask: &Ask, out: &mut Bytes) -> Result<(), Memory>
    ensures { OnOk result (out.new ≡ out.old ++ row (codes "fetch") (decimal worker ∷ ask_fields ask.now)) }
{
    match ask {
        Ask::Object(oid) => put_row(
            out,
            b"fetch",
            &[number(worker), Field::Word(b"object"), Field::Id(oid.0)],
        ),
        Ask::Transaction(tid) => put_row(
            out,
            b"fetch",
            &[
                number(worker),
                Field::Word(b"transaction"),
                Field::Id(tid.0),
            ],
        ),
        Ask::Log => put_row(out, b"fetch", &[number(worker), Field::Word(b"log")]),
    }
}

fn put_given_up(worker: u32, clashes: &[Clash; 4], out: &mut Bytes) -> Result<(), Memory>
    ensures { OnOk result (out.new ≡ out.old ++ row (codes "givenup") (decimal worker ∷ flat_map clash_fields clashes.now)) }
{
    let [first, second, third, fourth] = *clashes;
    put_row(
        out,
        b"givenup",
        &[
            number(worker),
            Field::Id(first.oid),
            Field::Id(first.seen),
            Field::Id(first.found),
            Field::Id(second.oid),
            Field::Id(second.seen),
            Field::Id(second.found),
            Field::Id(third.oid),
            Field::Id(third.seen),
            Field::Id(third.found),
            Field::Id(fourth.oid),
            Field::Id(fourth.seen),
            Field::Id(fourth.found),
        ],
    )
}

// A reply's row with its bytes; the mark's transaction stands behind its word.
fn put_reply(
    worker: u32,
    word: &[u8],
    tid: Option<Tid>,
    bytes: &Bytes,
    out: &mut Bytes,
) -> Result<(), Memory>
    ensures { OnOk result (out.new ≡ out.old ++ block
        (row (codes "reply") (decimal worker ∷ mark_fields word.now tid ++ decimal (length bytes.now) ∷ [])) bytes.now) }
{
    let bytes = bytes.as_slice();
    let length = Field::Number(bytes.len() as u64);
    match tid {
        Some(tid) => put_row(
            out,
            b"reply",
            &[number(worker), Field::Word(word), Field::Id(tid.0), length],
        )?,
        None => put_row(out, b"reply", &[number(worker), Field::Word(word), length])?,
    }
    put_block(out, bytes)
}

fn put_transaction<'a>(
    tid: Tid,
    user: &'a Bytes,
    description: &'a Bytes,
    extension: &'a Bytes,
    n: u64,
    out: &mut Bytes,
) -> Result<(), Memory>
    ensures { OnOk result (out.new ≡ out.old ++ row (codes "transaction")
        (hex16_text tid ∷ text_field user.now ∷ text_field description.now ∷ text_field extension.now ∷ decimal n ∷ [])) }
{
    put_row(
        out,
        b"transaction",
        &[
            Field::Id(tid.0),
            text_of(user),
            text_of(description),
            text_of(extension),
            Field::Number(n),
        ],
    )
}

fn put_record(oid: Oid, value: &Value, out: &mut Bytes) -> Result<(), Memory>
    ensures { OnOk result (out.new ≡ out.old ++ row (codes "record") (hex16_text oid ∷ value_field value.now ∷ [])) }
{
    put_row(out, b"record", &[Field::Id(oid.0), value_of(value)])
}

#[tactic(auto, unfolding(crate::specs::Lines::line_text))]
fn put_line(line: &Line, out: &mut Bytes) -> Result<(), Memory>
    ensures { OnOk result (out.new ≡ out.old ++ line_text line.now) }
{
    match line {
        Line::Head => put_row(out, b"zope", &[Field::Word(b"report"), Field::Word(b"1")]),
        Line::Opened(tid, n) => put_row(out, b"open", &[Field::Id(tid.0), Field::Number(*n)]),
        Line::Begin(w, tid) => put_row(out, b"begin", &[number(*w), Field::Id(tid.0)]),
        Line::Fetch(w, ask) => put_fetch(*w, ask, out),
        Line::Computed(w) => put_row(out, b"computed", &[number(*w)]),
        Line::Busy(w, holder) => put_row(out, b"busy", &[number(*w), number(*holder)]),
        Line::Vote(w, tid) => put_row(out, b"vote", &[number(*w), Field::Id(tid.0)]),
        Line::Conflict(w, clash) => put_row(
            out,
            b"conflict",
            &[
                number(*w),
                Field::Id(clash.oid),
                Field::Id(clash.seen),
                Field::Id(clash.found),
            ],
        ),
        Line::GivenUp(w, clashes) => put_given_up(*w, clashes, out),
        Line::Idle(w) => put_row(out, b"idle", &[number(*w)]),
        Line::SpentTids(w) => put_row(out, b"spent", &[number(*w), Field::Word(b"tids")]),
        Line::SpentOids(w, greatest, new) => put_row(
            out,
            b"spent",
            &[
                number(*w),
                Field::Word(b"oids"),
                Field::Id(greatest.0),
                number(*new),
            ],
        ),
        Line::SpentFull(w, need, limit) => put_row(
            out,
            b"spent",
            &[
                number(*w),
                Field::Word(b"full"),
                Field::Number(*need),
                Field::Number(*limit),
            ],
        ),
        Line::DiskFault(w) => put_row(out, b"diskfault", &[number(*w)]),
        Line::Memory(w) => put_row(out, b"memory", &[number(*w)]),
        Line::Unknown(w, tid) => put_row(out, b"unknown", &[number(*w), Field::Id(tid.0)]),
        Line::ReplyRead(w, tid, bytes) => put_reply(*w, b"read", Some(*tid), bytes, out),
        Line::ReplyCommit(w, tid, bytes) => put_reply(*w, b"commit", Some(*tid), bytes, out),
        Line::ReplyNone(w, bytes) => put_reply(*w, b"none", None, bytes, out),
        Line::Shown(w, oid, role) => put_row(
            out,
            b"shown",
            &[number(*w), Field::Id(oid.0), Field::Word(role.as_bytes())],
        ),
        Line::Denied(w, oid, permission) => put_row(
            out,
            b"denied",
            &[
                number(*w),
                Field::Id(oid.0),
                Field::Word(permission_name(*permission).as_bytes()),
            ],
        ),
        Line::Stop => put_row(out, b"stop", &[]),
        Line::Lost(w) => put_row(out, b"lost", &[number(*w)]),
        Line::OpenFault => put_row(out, b"openfault", &[]),
        Line::Restart(tid, n) => put_row(out, b"restart", &[Field::Id(tid.0), Field::Number(*n)]),
        Line::History(n) => put_row(out, b"history", &[Field::Number(*n)]),
        Line::Floor(tid) => put_row(out, b"floor", &[Field::Id(tid.0)]),
        Line::Transaction(tid, user, description, extension, n) => {
            put_transaction(*tid, user, description, extension, *n, out)
        }
        Line::RecordRow(oid, value) => put_record(*oid, value, out),
        Line::Packed(floor, n) => {
            put_row(out, b"packed", &[Field::Id(floor.0), Field::Number(*n)])
        }
        Line::PackBusy => put_row(out, b"pack", &[Field::Word(b"busy")]),
        Line::PackUnreadable(oid) => {
            put_row(
                out,
                b"pack",
                &[Field::Word(b"unreadable"), Field::Id(oid.0)],
            )
        }
        Line::PackFull(need, limit) => put_row(
            out,
            b"pack",
            &[
                Field::Word(b"full"),
                Field::Number(*need),
                Field::Number(*limit),
            ],
        ),
        Line::PackMemory => put_row(out, b"pack", &[Field::Word(b"memory")]),
        Line::PackFault => put_row(out, b"packfault", &[]),
        Line::End => put_row(out, b"end", &[]),
    }
}

/// One line of a report.
pub fn line_bytes(alloc: Global, line: &Line) -> Result<Bytes, Memory>
    ensures { IfOk result (λ text. text ≡ line_text line.now) }
{
    // room for a line of a word, a worker and two ids, so that it needn't grow
    let mut text = Bytes::from_vec(Vec::with_capacity(alloc, 64)?);
    put_line(line, &mut text)?;
    Ok(text)
}

/// Writes one line of a report at the end. For want of memory the bytes stay as they were.
pub fn write_line(line: &Line, out: &mut Bytes) -> Result<(), Memory>
    ensures ok { OnOk result (out.new ≡ out.old ++ line_text line.now) }
    ensures err { OnErr result (out.new ≡ out.old) }
{
    let text = line_bytes(out.alloc(), line)?;
    out.append(text.as_slice())
}

/// The line `transaction TID USER DESCRIPTION EXTENSION N` of a report. None of the texts is copied before.
#[tactic(auto, unfolding(crate::specs::Lines::line_text))]
pub fn transaction_bytes(
    alloc: Global,
    tid: Tid,
    user: &Bytes,
    description: &Bytes,
    extension: &Bytes,
    n: u64,
) -> Result<Bytes, Memory>
    ensures { IfOk result (λ text. text ≡ line_text (Line.Transaction tid user.now description.now extension.now n)) }
{
    // room for the line of a transaction without texts
    let mut text = Bytes::from_vec(Vec::with_capacity(alloc, 64)?);
    put_transaction(tid, user, description, extension, n, &mut text)?;
    Ok(text)
}

// The number of bytes of a value.
fn size_of(value: &Value) -> usize {
    match value {
        None => 0,
        Some(bytes) => bytes.len(),
    }
}

/// The line `record OID VALUE` of a report. The value isn't copied before.
#[tactic(auto, unfolding(crate::specs::Lines::line_text))]
pub fn record_bytes(alloc: Global, oid: Oid, value: &Value) -> Result<Bytes, Memory>
    ensures { IfOk result (λ text. text ≡ line_text (Line.RecordRow oid value.now)) }
{
    // room for the word, the id and `none`, or two digits a byte
    let room = size_of(value).saturating_mul(2).saturating_add(32);
    let mut text = Bytes::from_vec(Vec::with_capacity(alloc, room)?);
    put_record(oid, value, &mut text)?;
    Ok(text)
}
