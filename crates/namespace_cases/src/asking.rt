use crate::showing::{put_refusal, put_value};
use case_sites::texts_from;
use case_stacks::{push_layer, wrapper_of};
use cases::{CasesRefusal, Part, put_number, put_word};
use namespace::{NameRefusal, Stack, Val};
use permissions::Who;
use std::alloc::Global;
use zbase::{Oid, Text};
use zknown::Known;

// In whose place verdicts are taken from here on: someone with these roles, or nobody's where there is none.
fn acting_of(alloc: Global, part: &Part) -> Result<Option<Who>, CasesRefusal> {
    let roles = texts_from(alloc, part, 1)?;
    if roles.is_empty() {
        return Ok(None);
    }
    Ok(Some(Who::Known {
        name: Text::new(alloc),
        roles,
        home: Oid(0),
    }))
}

/// Changes the stack as a part says.
pub(crate) fn change(
    alloc: Global,
    known: &Known,
    stack: &mut Stack<'_>,
    part: &Part,
) -> Result<(), CasesRefusal> {
    match part.key() {
        "act" => {
            let _former = stack.act(acting_of(alloc, part)?);
        }
        "pop" => {
            if stack.depth() > 0 {
                stack.pop();
            }
        }
        _ => push_layer(alloc, known, stack, part)?,
    }
    Ok(())
}

fn put_found(
    alloc: Global,
    line: &mut String,
    found: Result<Option<Val>, NameRefusal>,
) -> Result<(), CasesRefusal> {
    match found {
        Ok(value) => put_value(alloc, line, value.as_ref()),
        Err(refusal) => put_refusal(alloc, line, refusal),
    }
}

fn put_shown(alloc: Global, line: &mut String, stack: &Stack<'_>) -> Result<(), CasesRefusal> {
    for shown in stack.shown().as_slice() {
        put_number(alloc, line, shown.oid.0)?;
        put_word(line, shown.role.as_str())?;
    }
    Ok(())
}

fn put_looked(
    alloc: Global,
    known: &Known,
    stack: &mut Stack<'_>,
    part: &Part,
    line: &mut String,
) -> Result<(), CasesRefusal> {
    let object = wrapper_of(alloc, known, part, 2)?;
    let found = stack.look(&object, part.word(1).unwrap_or(""));
    put_found(alloc, line, found)
}

fn put_opened(
    alloc: Global,
    stack: &mut Stack<'_>,
    part: &Part,
    line: &mut String,
) -> Result<(), CasesRefusal> {
    match stack.open(Oid(part.number(1)?)) {
        Ok(object) => put_word(line, object.title.as_str()),
        Err(refusal) => put_refusal(alloc, line, refusal),
    }
}

fn put_viewed(
    alloc: Global,
    stack: &mut Stack<'_>,
    part: &Part,
    line: &mut String,
) -> Result<(), CasesRefusal> {
    match stack.view(Oid(part.number(1)?)) {
        Ok(()) => put_word(line, "yes"),
        Err(refusal) => put_refusal(alloc, line, refusal),
    }
}

fn put_offered(
    alloc: Global,
    stack: &mut Stack<'_>,
    part: &Part,
    line: &mut String,
) -> Result<(), CasesRefusal> {
    match stack.offer(Oid(part.number(1)?)) {
        Ok(true) => put_word(line, "yes"),
        Ok(false) => put_word(line, "no"),
        Err(refusal) => put_refusal(alloc, line, refusal),
    }
}

/// The line that comes of a question; empty where the part is none.
pub(crate) fn answer(
    alloc: Global,
    known: &Known,
    stack: &mut Stack<'_>,
    part: &Part,
) -> Result<String, CasesRefusal> {
    let mut line = String::new(alloc);
    match part.key() {
        "find" => {
            line.push_str("found")?;
            let found = stack.find(part.word(1).unwrap_or(""));
            put_found(alloc, &mut line, found)?;
        }
        "look" => {
            line.push_str("looked")?;
            put_looked(alloc, known, stack, part, &mut line)?;
        }
        "open" => {
            line.push_str("opened")?;
            put_opened(alloc, stack, part, &mut line)?;
        }
        "view" => {
            line.push_str("viewed")?;
            put_viewed(alloc, stack, part, &mut line)?;
        }
        "offer" => {
            line.push_str("offered")?;
            put_offered(alloc, stack, part, &mut line)?;
        }
        "shown" => {
            line.push_str("listed")?;
            put_shown(alloc, &mut line, stack)?;
        }
        _ => {}
    }
    Ok(line)
}
