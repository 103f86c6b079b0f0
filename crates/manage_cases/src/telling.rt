use cases::{CasesRefusal, put_number, put_numbered, put_word};
use dtml_lex::DtmlRefusal;
use evaluator::Ask;
use manage::{ManageRefusal, call_name, field_name};
use std::alloc::Global;

// The number of a refusal's kind, and its place.
fn kind_and_place(refusal: DtmlRefusal) -> Result<(u64, u64), CasesRefusal> {
    match refusal {
        DtmlRefusal::BadTag(at) => Ok((1, at as u64)),
        DtmlRefusal::Unclosed(at) => Ok((2, at as u64)),
        DtmlRefusal::Stray(at) => Ok((3, at as u64)),
        DtmlRefusal::BadAttribute(at) => Ok((4, at as u64)),
        DtmlRefusal::BadExpression(at) => Ok((5, at as u64)),
        DtmlRefusal::TooLarge(at) => Ok((6, at as u64)),
        DtmlRefusal::TooDeep(at) => Ok((7, at as u64)),
        DtmlRefusal::Memory => Err(CasesRefusal::Memory),
    }
}

// Adds two words, a blank before each.
fn put_words(line: &mut String, word: &str, other: &str) -> Result<(), CasesRefusal> {
    put_word(line, word)?;
    put_word(line, other)
}

// Adds a word and a text, which may be empty, a blank before each.
fn put_text(line: &mut String, word: &str, text: &str) -> Result<(), CasesRefusal> {
    put_words(line, word, if text.is_empty() { "\"\"" } else { text })
}

fn put_source(alloc: Global, line: &mut String, refusal: DtmlRefusal) -> Result<(), CasesRefusal> {
    let (kind, place) = kind_and_place(refusal)?;
    put_numbered(alloc, line, "bad-source", kind)?;
    put_number(alloc, line, place)
}

fn put_ask(alloc: Global, line: &mut String, ask: Ask) -> Result<(), CasesRefusal> {
    match ask {
        Ask::Object(oid) => put_numbered(alloc, line, "need", oid.0),
        _ => put_words(line, "need", "another"),
    }
}

/// Adds why a call is refused, behind a blank.
pub(crate) fn put_refusal(
    alloc: Global,
    line: &mut String,
    refusal: ManageRefusal,
) -> Result<(), CasesRefusal> {
    match refusal {
        ManageRefusal::Memory => Err(CasesRefusal::Memory),
        ManageRefusal::Need(ask) => put_ask(alloc, line, ask),
        ManageRefusal::Broken(oid) => put_numbered(alloc, line, "broken", oid.0),
        ManageRefusal::NotFound(call) => put_words(line, "not-found", call_name(call)),
        ManageRefusal::Missing(field) => put_words(line, "missing", field_name(field)),
        ManageRefusal::BadField(field) => put_words(line, "bad-field", field_name(field)),
        ManageRefusal::TooLong(field) => put_words(line, "too-long", field_name(field)),
        ManageRefusal::NoSuchId(id) => put_text(line, "no-such-id", id.as_str()),
        ManageRefusal::Taken(name) => put_text(line, "taken", name.as_str()),
        ManageRefusal::TooMany => put_word(line, "too-many"),
        ManageRefusal::BadSource(refusal) => put_source(alloc, line, refusal),
        ManageRefusal::TooDeep => put_word(line, "too-deep"),
        ManageRefusal::NoSuchTransaction(tid) => put_numbered(
            alloc,
            line,
            "no-such-transaction",
            tid.0,
        ),
        ManageRefusal::UndoChanged(oid) => put_numbered(alloc, line, "changed", oid.0),
    }
}
