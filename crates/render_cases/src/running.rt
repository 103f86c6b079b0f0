use crate::asking::{budget_of, page, text_of};
use crate::showing::{left, listed, refused};
use crate::stopping::put_stopping;
use case_sites::known_of;
use case_stacks::{push_layers, stack_of};
use cases::{Case, CasesRefusal, Part, Runner, add_bytes, add_line, add_number};
use dtml_render::{Budget, RenderRefusal};
use namespace::Stack;
use std::alloc::Global;
use zbase::{Bytes, Oid, Text};

/// Pages over a small site.
///
/// `site` is what is known of it, and `source ID` the source of an object, as `case_sites` says; the stack is that of
/// `user`, `client` and `message`, with the layers of each `push` and `names`, as `case_stacks` says. `budget TAGS RENDERS OUTPUT` is what may be spent (without it, what a published object may).
///
/// `first ID ..` says which of the objects are known at first: each other one becomes known once the template stops for it,
/// which then goes on where it stopped; `asked` has these in their order, before all other answers.
///
/// `page ID` renders that object as it is published, `template` a template that stands in no object. Of each comes
/// `text` with the text, or `refused` with why there is none: `need ID`, `broken ID`, `unauthorized ID PERMISSION`,
/// `deep`, `no-name NAME`, `bad-value PLACE`, `runaway tags`, `.. renders`, `.. output`, or `bad-source ID` with the
/// refusal of the source; then `listed` with the objects that were shown so far, each with its role, `left` with what is
/// left of the budget, and `layers` with the number of the stack's layers.
#[derive(Drop)]
pub struct RenderCases;

impl Runner for RenderCases {
    fn knows(&self, key: &str) -> bool {
        is_given(key) || is_question(key)
    }

    fn run(&self, alloc: Global, case: &Case) -> Result<Vec<Part>, CasesRefusal> {
        let mut parts = Vec::new(alloc);
        match case.part("first") {
            Some(first) => put_stopping(alloc, case, first, &mut parts)?,
            None => put_whole(alloc, case, &mut parts)?,
        }
        Ok(parts)
    }
}

// What comes of a case whose site is known from the start.
fn put_whole(alloc: Global, case: &Case, parts: &mut Vec<Part>) -> Result<(), CasesRefusal> {
    let mut budget = budget_of(case)?;
    let known = known_of(alloc, case)?;
    let mut stack = stack_of(alloc, &known, case)?;
    push_layers(alloc, &known, &mut stack, case)?;
    put_answers(alloc, case, &mut stack, &mut budget, parts)
}

// What comes of a case's questions, in their order.
fn put_answers(
    alloc: Global,
    case: &Case,
    stack: &mut Stack<'_>,
    budget: &mut Budget,
    parts: &mut Vec<Part>,
) -> Result<(), CasesRefusal> {
    for part in &case.parts {
        if is_question(part.key()) {
            let page = rendered(alloc, part, stack, budget)?;
            put_answer(alloc, parts, page)?;
            put_state(alloc, parts, stack, budget)?;
        }
    }
    Ok(())
}

/// The page, or the template, that a question is.
pub(crate) fn rendered(
    alloc: Global,
    part: &Part,
    stack: &mut Stack<'_>,
    budget: &mut Budget,
) -> Result<Result<Text, RenderRefusal>, CasesRefusal> {
    if part.key() == "page" {
        return Ok(page(alloc, Oid(part.number(1)?), stack, budget));
    }
    text_of(alloc, part, stack, budget)
}

/// The text, or why there is none.
pub(crate) fn put_answer(
    alloc: Global,
    parts: &mut Vec<Part>,
    page: Result<Text, RenderRefusal>,
) -> Result<(), CasesRefusal> {
    match page {
        Ok(text) => {
            let bytes = Bytes::from_slice(alloc, text.as_bytes())?;
            add_bytes(alloc, parts, "text", bytes)
        }
        Err(refusal) => add_line(alloc, parts, refused(alloc, refusal)?.as_str()),
    }
}

/// What stands after it.
pub(crate) fn put_state(
    alloc: Global,
    parts: &mut Vec<Part>,
    stack: &Stack<'_>,
    budget: &Budget,
) -> Result<(), CasesRefusal> {
    add_line(alloc, parts, listed(alloc, stack)?.as_str())?;
    add_line(alloc, parts, left(alloc, budget)?.as_str())?;
    add_number(alloc, parts, "layers", stack.depth() as u64)
}

fn is_given(key: &str) -> bool {
    matches!(
        key,
        "site" | "source" | "user" | "client" | "message" | "push" | "names" | "budget" | "first"
    )
}

/// Whether a key is that of a page.
pub(crate) fn is_question(key: &str) -> bool {
    matches!(key, "page" | "template")
}
