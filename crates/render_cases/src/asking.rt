use case_sites::bytes_text;
use cases::{Case, CasesRefusal, Part};
use dtml_lex::DtmlRefusal;
use dtml_parse::{Tree, parse};
use dtml_render::{Budget, RenderRefusal, render};
use namespace::Stack;
use permissions::acting;
use std::alloc::Global;
use zbase::{Oid, Text};
use zobject::Part2;

fn count(part: &Part, word: usize) -> Result<u32, CasesRefusal> {
    match u32::try_from(part.number(word)?) {
        Ok(count) => Ok(count),
        Err(_) => Err(CasesRefusal::BadPart(part.line)),
    }
}

/// The budget of the case: of a published object where it says nothing.
pub(crate) fn budget_of(case: &Case) -> Result<Budget, CasesRefusal> {
    match case.part("budget") {
        Some(part) => Ok(Budget {
            tags: count(part, 1)?,
            renders: count(part, 2)?,
            output: count(part, 3)?,
        }),
        None => Ok(Budget {
            tags: 10_000,
            renders: 31,
            output: 1_048_576,
        }),
    }
}

/// The template of a text.
pub(crate) fn template_of(alloc: Global, oid: Oid, source: &str) -> Result<Tree, RenderRefusal> {
    match parse(alloc, source) {
        Ok(tree) => Ok(tree),
        Err(DtmlRefusal::Memory) => Err(RenderRefusal::Memory),
        Err(refusal) => Err(RenderRefusal::BadSource(oid, refusal)),
    }
}

/// The page of a published object: it is viewed, and its source is rendered for its proxy roles.
pub(crate) fn page(
    alloc: Global,
    oid: Oid,
    stack: &mut Stack<'_>,
    budget: &mut Budget,
) -> Result<Text, RenderRefusal> {
    let object = stack.open(oid)?;
    let source = match &object.part {
        Part2::Method { source, .. } | Part2::Document { source, .. } => source.as_str(),
        Part2::Folder(_) | Part2::UserFolder(_) => "",
    };
    let tree = template_of(alloc, oid, source)?;
    let other = acting(alloc, object)?;
    let former = stack.act(other);
    let result = render(alloc, &tree, stack, budget);
    let _other = stack.act(former);
    result
}

/// The text of a template that stands in no object.
pub(crate) fn text_of(
    alloc: Global,
    part: &Part,
    stack: &mut Stack<'_>,
    budget: &mut Budget,
) -> Result<Result<Text, RenderRefusal>, CasesRefusal> {
    let source = bytes_text(alloc, part)?;
    match template_of(alloc, Oid(0), source.as_str()) {
        Ok(tree) => Ok(render(alloc, &tree, stack, budget)),
        Err(refusal) => Ok(Err(refusal)),
    }
}
