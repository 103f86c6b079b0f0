//! Drafts out of the words of a vote.
ghost use Rattle.std.specs.Prelude.{◌≡◌, ◌<◌, ◌≤◌, ◌∷◌, [], length, IfOk};
ghost use Rattle.evaluator.specs.Change.{longest_text};
ghost use Rattle.evaluator.specs.declared.draft.Entry.{Entry};
ghost use Rattle.fs_store.specs.Stores.{IsDraft};

use crate::script::word_behind;
use cases::{CasesRefusal, Part};
use evaluator::{Draft, Entries, Entry, Hole, Holes, Name};
use std::alloc::Global;
use zbase::{Bytes, Oid, Text, Tid};

// The text behind this word, which may have at most 65,535 bytes.
fn text_behind(alloc: Global, step: &Part, key: &str) -> Result<Text, CasesRefusal>
    ensures { IfOk result (λ text. length text ≤ longest_text) }
{
    let text = Text::from_str(alloc, word_behind(step, key))?;
    if text.len() > usize::from(u16::MAX) {
        return Err(CasesRefusal::BadPart(step.line));
    }
    Ok(text)
}

// A draft of that one entry, of the user behind `by` and with the description behind `about`.
fn draft_with(alloc: Global, step: &Part, entry: Entry) -> Result<Draft, CasesRefusal>
    ensures entries { IfOk result (λ draft. draft.entries ≡ entry ∷ []) }
    ensures user { IfOk result (λ draft. length draft.user ≤ longest_text) }
    ensures description { IfOk result (λ draft. length draft.description ≤ longest_text) }
{
    let mut entries = Entries::new(alloc);
    entries.push(entry)?;
    Ok(Draft {
        user: text_behind(alloc, step, "by")?,
        description: text_behind(alloc, step, "about")?,
        entries,
    })
}

// A value: the bytes of a word, of which `@` stands for the digits of the stamp.
fn value_of(alloc: Global, word: &str, stamp: u64) -> Result<Bytes, CasesRefusal> {
    if word == "@" {
        let digits = format!(in alloc; "{stamp}")?;
        return Ok(Bytes::from_slice(alloc, digits.as_bytes())?);
    }
    Ok(Bytes::from_slice(alloc, word.as_bytes())?)
}

// The object gets this value.
fn change(alloc: Global, step: &Part, oid: u64, bytes: Bytes) -> Result<Draft, CasesRefusal>
    requires { 0 < length bytes }
    ensures { IfOk result (λ draft. IsDraft draft) }
{
    let name = Name::Old(Oid(oid));
    let holes = Holes::new(alloc);
    let draft = draft_with(alloc, step, Entry::Write { name, bytes, holes })?;
    Ok(draft)
}

// The object gets the value that it had in a transaction.
fn restore(alloc: Global, step: &Part, oid: u64, to: u64) -> Result<Draft, CasesRefusal>
    ensures { IfOk result (λ draft. IsDraft draft) }
{
    let entry = Entry::Restore {
        oid: Oid(oid),
        to: Tid(to),
    };
    let draft = draft_with(alloc, step, entry)?;
    Ok(draft)
}

// A new object, whose value has its own id behind the first byte.
fn new_object(alloc: Global, step: &Part, bytes: Bytes) -> Result<Draft, CasesRefusal>
    requires { 9 ≤ length bytes }
    ensures { IfOk result (λ draft. IsDraft draft) }
{
    let name = Name::New(0);
    let mut holes = Holes::new(alloc);
    holes.push(Hole { at: 1, new: 0 })?;
    let draft = draft_with(alloc, step, Entry::Write { name, bytes, holes })?;
    Ok(draft)
}

/// What a vote with that stamp does: `write OID VALUE`, `restore OID TID` or `new VALUE`, from the word of number 3 on.
pub(crate) fn draft_of(alloc: Global, step: &Part, stamp: u64) -> Result<Draft, CasesRefusal>
    ensures { IfOk result (λ draft. IsDraft draft) }
{
    let bad = CasesRefusal::BadPart(step.line);
    match step.word(3).unwrap_or("") {
        "write" => {
            let bytes = value_of(alloc, step.word(5).unwrap_or(""), stamp)?;
            if bytes.is_empty() {
                return Err(bad);
            }
            change(alloc, step, step.number(4)?, bytes)
        }
        "restore" => restore(alloc, step, step.number(4)?, step.number(5)?),
        "new" => {
            let bytes = value_of(alloc, step.word(4).unwrap_or(""), stamp)?;
            if bytes.len() < 9 {
                return Err(bad);
            }
            new_object(alloc, step, bytes)
        }
        _ => Err(bad),
    }
}
