ghost use Rattle.zknown.specs.Seen.{objects};
ghost use Rattle.manage.specs.Changing.{KeepRules};

use crate::telling::put_refusal;
use acquisition::Wrapped;
use cases::{CasesRefusal, Part, add_bytes, add_line, put_number, put_numbered};
use evaluator::{Entry, Name};
use form_fields::{Fields, fields};
use http_in::{Message, Reader, Verb};
use manage::{Call, Called, ManageRefusal, call_name, call_named, change, permission_at};
use std::alloc::Global;
use zbase::{Bytes, Oid};
use zknown::Known;

/// Adds which call a name is.
pub(crate) fn put_name(
    alloc: Global,
    part: &Part,
    parts: &mut Vec<Part>,
) -> Result<(), CasesRefusal> {
    let name = match call_named(part.word(1).unwrap_or("")) {
        Some(call) => call_name(call),
        None => "none",
    };
    add_line(alloc, parts, format!(in alloc; "call {name}")?.as_str())
}

// The call that a word of the part names.
fn call_of(part: &Part) -> Result<Call, CasesRefusal> {
    match call_named(part.word(1).unwrap_or("")) {
        Some(call) => Ok(call),
        None => Err(CasesRefusal::BadPart(part.line)),
    }
}

// The object of that id, reached from the root.
fn wrapper_of(
    alloc: Global,
    known: &Known,
    part: &Part,
    oid: Oid,
) -> Result<Wrapped, CasesRefusal> {
    let root = Wrapped::root(alloc)?;
    if oid.0 == 0 {
        return Ok(root);
    }
    match root.reach(known, oid) {
        Ok(wrapper) => Ok(wrapper),
        Err(_) => Err(CasesRefusal::BadPart(part.line)),
    }
}

fn verb_of(part: &Part) -> Result<Verb, CasesRefusal> {
    match part.word(2).unwrap_or("") {
        "GET" => Ok(Verb::Get),
        "HEAD" => Ok(Verb::Head),
        "POST" => Ok(Verb::Post),
        _ => Err(CasesRefusal::BadPart(part.line)),
    }
}

/// Adds what a call needs on an object.
pub(crate) fn put_need(
    alloc: Global,
    known: &Known,
    part: &Part,
    parts: &mut Vec<Part>,
) -> Result<(), CasesRefusal> {
    let call = call_of(part)?;
    let verb = verb_of(part)?;
    let on = wrapper_of(alloc, known, part, Oid(part.number(3)?))?;
    let mut line = String::from_str(alloc, "permission")?;
    match permission_at(known, call, verb, &on) {
        Ok(number) => put_number(alloc, &mut line, u64::from(number))?,
        Err(refusal) => put_refusal(alloc, &mut line, refusal)?,
    }
    add_line(alloc, parts, line.as_str())
}

// The message that posts a form.
fn message_of(alloc: Global, form: &[u8]) -> Result<Bytes, CasesRefusal> {
    let length = form.len();
    let head = format!(in alloc; "POST / HTTP/1.0\r\nContent-Length: {length}\r\n\r\n")?;
    let mut message = Bytes::from_slice(alloc, head.as_bytes())?;
    message.append(form)?;
    Ok(message)
}

// The fields of the form below a part.
fn fields_of(alloc: Global, part: &Part) -> Result<Fields, CasesRefusal> {
    let mut reader = Reader::new(alloc);
    reader.feed(message_of(alloc, part.bytes.as_slice())?.as_slice())?;
    let Some(Message::Whole(request)) = reader.next()? else {
        return Err(CasesRefusal::BadPart(part.line));
    };
    match fields(alloc, &request) {
        Ok(fields) => Ok(fields),
        Err(_) => Err(CasesRefusal::BadPart(part.line)),
    }
}

// A line of a word and a number.
fn line_of(alloc: Global, word: &str, number: u64) -> Result<String, CasesRefusal> {
    let mut line = String::from_str(alloc, word)?;
    put_number(alloc, &mut line, number)?;
    Ok(line)
}

// What an entry does, in words.
fn words_of(alloc: Global, entry: &Entry) -> Result<String, CasesRefusal> {
    match entry {
        Entry::Write {
            name: Name::Old(oid),
            holes,
            ..
        } => {
            let mut line = line_of(alloc, "written", oid.0)?;
            for hole in holes.as_slice() {
                put_numbered(alloc, &mut line, "hole", u64::from(hole.at))?;
                put_number(alloc, &mut line, u64::from(hole.new))?;
            }
            Ok(line)
        }
        Entry::Write {
            name: Name::New(number),
            ..
        } => line_of(alloc, "made", u64::from(*number)),
        Entry::Restore { oid, .. } => line_of(alloc, "restored", oid.0),
    }
}

// Adds what an entry does, with the record that it writes.
fn put_entry(alloc: Global, entry: &Entry, parts: &mut Vec<Part>) -> Result<(), CasesRefusal> {
    let line = words_of(alloc, entry)?;
    match entry {
        Entry::Write { bytes, .. } => add_bytes(alloc, parts, line.as_str(), bytes.copy()?),
        Entry::Restore { .. } => add_line(alloc, parts, line.as_str()),
    }
}

fn put_entries(
    alloc: Global,
    entries: &[Entry],
    parts: &mut Vec<Part>,
) -> Result<(), CasesRefusal> {
    for entry in entries {
        put_entry(alloc, entry, parts)?;
    }
    Ok(())
}

fn put_called(alloc: Global, called: &Called, parts: &mut Vec<Part>) -> Result<(), CasesRefusal> {
    match called {
        Called::Writes(change) => put_entries(alloc, change.entries.as_slice(), parts),
        Called::Undoes(tid) => {
            let line = line_of(alloc, "undoes", tid.0)?;
            add_line(alloc, parts, line.as_str())
        }
        Called::Lists => add_line(alloc, parts, "lists"),
    }
}

fn put_refused(
    alloc: Global,
    refusal: ManageRefusal,
    parts: &mut Vec<Part>,
) -> Result<(), CasesRefusal> {
    let mut line = String::from_str(alloc, "refused")?;
    put_refusal(alloc, &mut line, refusal)?;
    add_line(alloc, parts, line.as_str())
}

fn put_answer(
    alloc: Global,
    answer: Result<Called, ManageRefusal>,
    parts: &mut Vec<Part>,
) -> Result<(), CasesRefusal> {
    match answer {
        Ok(called) => put_called(alloc, &called, parts),
        Err(refusal) => put_refused(alloc, refusal, parts),
    }
}

/// Adds what a call comes to by the form below.
pub(crate) fn put_change(
    alloc: Global,
    known: &Known,
    part: &Part,
    parts: &mut Vec<Part>,
) -> Result<(), CasesRefusal>
    requires { KeepRules (objects known.now) }
{
    let call = call_of(part)?;
    let on = wrapper_of(alloc, known, part, Oid(part.number(2)?))?;
    let fields = fields_of(alloc, part)?;
    put_answer(alloc, change(alloc, call, &on, known, &fields), parts)
}
