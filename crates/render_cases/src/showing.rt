use cases::{CasesRefusal, put_number, put_numbered, put_word};
use dtml_lex::DtmlRefusal;
use dtml_render::{Budget, Limit, RenderRefusal};
use namespace::Stack;
use std::alloc::Global;

fn limit_word(limit: Limit) -> &'static str {
    match limit {
        Limit::Tags => "tags",
        Limit::Renders => "renders",
        Limit::Output => "output",
    }
}

// Adds why a source is no template.
fn put_source(alloc: Global, line: &mut String, refusal: DtmlRefusal) -> Result<(), CasesRefusal> {
    match refusal {
        DtmlRefusal::Memory => Err(CasesRefusal::Memory),
        DtmlRefusal::BadTag(at) => put_numbered(alloc, line, "bad-tag", at as u64),
        DtmlRefusal::Unclosed(at) => put_numbered(alloc, line, "unclosed", at as u64),
        DtmlRefusal::Stray(at) => put_numbered(alloc, line, "stray", at as u64),
        DtmlRefusal::BadAttribute(at) => put_numbered(alloc, line, "bad-attribute", at as u64),
        DtmlRefusal::BadExpression(at) => put_numbered(alloc, line, "bad-expression", at as u64),
        DtmlRefusal::TooLarge(at) => put_numbered(alloc, line, "too-large", at as u64),
        DtmlRefusal::TooDeep(at) => put_numbered(alloc, line, "too-deep", at as u64),
    }
}

/// Why there is no page.
pub(crate) fn refused(alloc: Global, refusal: RenderRefusal) -> Result<String, CasesRefusal> {
    let mut line = String::from_str(alloc, "refused")?;
    match refusal {
        RenderRefusal::Memory => return Err(CasesRefusal::Memory),
        RenderRefusal::Need(oid) => put_numbered(alloc, &mut line, "need", oid.0)?,
        RenderRefusal::Broken(oid) => put_numbered(alloc, &mut line, "broken", oid.0)?,
        RenderRefusal::Unauthorized(oid, permission) => {
            put_numbered(alloc, &mut line, "unauthorized", oid.0)?;
            put_number(alloc, &mut line, u64::from(permission))?;
        }
        RenderRefusal::TooDeep => put_word(&mut line, "deep")?,
        RenderRefusal::NoName(name) => {
            put_word(&mut line, "no-name")?;
            put_word(&mut line, name.as_str())?;
        }
        RenderRefusal::BadValue(at) => {
            put_numbered(alloc, &mut line, "bad-value", u64::from(at))?;
        }
        RenderRefusal::Runaway(limit) => {
            put_word(&mut line, "runaway")?;
            put_word(&mut line, limit_word(limit))?;
        }
        RenderRefusal::BadSource(oid, refusal) => {
            put_numbered(alloc, &mut line, "bad-source", oid.0)?;
            put_source(alloc, &mut line, refusal)?;
        }
    }
    Ok(line)
}

/// The objects that were shown, each with its role.
pub(crate) fn listed(alloc: Global, stack: &Stack<'_>) -> Result<String, CasesRefusal> {
    let mut line = String::from_str(alloc, "listed")?;
    for shown in stack.shown().as_slice() {
        put_number(alloc, &mut line, shown.oid.0)?;
        put_word(&mut line, shown.role.as_str())?;
    }
    Ok(line)
}

/// What is left of the budget.
pub(crate) fn left(alloc: Global, budget: &Budget) -> Result<String, CasesRefusal> {
    let mut line = String::from_str(alloc, "left")?;
    put_number(alloc, &mut line, u64::from(budget.tags))?;
    put_number(alloc, &mut line, u64::from(budget.renders))?;
    put_number(alloc, &mut line, u64::from(budget.output))?;
    Ok(line)
}
