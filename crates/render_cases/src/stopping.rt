ghost use Rattle.std.specs.Prelude.{◌≡◌, true, IfOk};
ghost use Rattle.dtml_values.specs.declared.refusal.RenderRefusal.TheVariants as refusals;
ghost use Rattle.render_cases.specs.Stopping.{Stands};

use crate::asking::{budget_of, template_of};
use crate::running::{is_question, put_answer, put_state, rendered};
use case_sites::{bytes_text, known_of_these};
use case_stacks::{push_layers, stack_of};
use cases::{Case, CasesRefusal, Part, add_line, put_number};
use dtml_render::{Page, RenderRefusal, Source, Templates};
use namespace::Resting;
use std::alloc::Global;
use zbase::Oid;
use zknown::Known;

// How many objects a case's pages may ask for.
const MOST_ASKS: usize = 100;

// The object that a refusal wants.
fn wanted(refusal: &RenderRefusal) -> Option<u64> {
    match refusal {
        RenderRefusal::Need(oid) => Some(oid.0),
        _ => None,
    }
}

// The object for which the first page of a case stops, where these are known.
fn next_need(alloc: Global, case: &Case, oids: &[Oid]) -> Result<Option<u64>, CasesRefusal> {
    let mut budget = budget_of(case)?;
    let known = known_of_these(alloc, case, oids)?;
    let mut stack = stack_of(alloc, &known, case)?;
    push_layers(alloc, &known, &mut stack, case)?;
    for part in &case.parts {
        if is_question(part.key()) {
            let page = rendered(alloc, part, &mut stack, &mut budget)?;
            let need = match &page {
                Ok(_) => None,
                Err(refusal) => wanted(refusal),
            };
            if need.is_some() {
                return Ok(need);
            }
        }
    }
    Ok(None)
}

fn known_at_first(alloc: Global, first: &Part) -> Result<Vec<Oid>, CasesRefusal> {
    let mut oids = Vec::new(alloc);
    for word in 1..first.words.len() {
        oids.push(Oid(first.number(word)?))?;
    }
    Ok(oids)
}

// The objects that are known at first, as a part of a case says, and then each one for which its pages stop, until they
// stop no more or for an object that is among them. Each page is rendered anew with each of them.
fn known_in_turn(alloc: Global, case: &Case, first: &Part) -> Result<Vec<Oid>, CasesRefusal> {
    let mut oids = known_at_first(alloc, first)?;
    for _ in 0..MOST_ASKS {
        match next_need(alloc, case, oids.as_slice())? {
            Some(oid) if !oids.iter().any(|one| one.0 == oid) => oids.push(Oid(oid))?,
            _ => return Ok(oids),
        }
    }
    Err(CasesRefusal::BadPart(first.line))
}

// The objects for which pages stopped: all that became known behind the first.
fn asked(alloc: Global, first: &Part, oids: &[Oid]) -> Result<String, CasesRefusal> {
    let mut line = String::from_str(alloc, "asked")?;
    for oid in oids.iter().skip(first.words.len().saturating_sub(1)) {
        put_number(alloc, &mut line, oid.0)?;
    }
    Ok(line)
}

// The template of a case begins, over what is known at first.
fn page_begun(
    alloc: Global,
    case: &Case,
    known: &Known,
) -> Result<(Page<'static>, Resting), CasesRefusal>
    ensures { IfOk result (λ begun. Stands begun.0 begun.1) }
{
    let Some(part) = case.part("template") else {
        return Err(CasesRefusal::BadPart(0));
    };
    let mut stack = stack_of(alloc, known, case)?;
    push_layers(alloc, known, &mut stack, case)?;
    let source = bytes_text(alloc, part)?;
    let Ok(tree) = template_of(alloc, Oid(0), source.as_str()) else {
        return Err(CasesRefusal::BadPart(part.line));
    };
    let page = Page::new(alloc, Source::read(alloc, tree)?, &stack, budget_of(case)?)?;
    Ok((page, stack.rest()))
}

// Whether a refusal is for want of this object.
fn wants(refusal: &RenderRefusal, oid: Oid) -> bool
    ensures { result ≡ true → refusal.now ≡ refusals.Need oid }
{
    match refusal {
        RenderRefusal::Need(need) => need.0 == oid.0,
        _ => false,
    }
}

// The page goes on over what is known, and stops for an object.
fn stopped_for(
    alloc: Global,
    oid: Oid,
    page: &mut Page<'static>,
    resting: Resting,
    known: &Known,
) -> Result<Resting, CasesRefusal>
    requires { Stands page.old resting }
    ensures { IfOk result (λ rested. Stands page.new rested) }
{
    let mut stack = resting.on(known);
    let mut templates = Templates::new(alloc);
    let Err(refusal) = page.go_on(&mut templates, &mut stack) else {
        return Err(CasesRefusal::BadPart(0));
    };
    let stopped = wants(&refusal, oid);
    if !stopped {
        return Err(CasesRefusal::BadPart(0));
    }
    Ok(stack.rest())
}

/// What comes of the template of a case whose objects become known one at a time: it goes on at each stop.
pub(crate) fn put_stopping(
    alloc: Global,
    case: &Case,
    first: &Part,
    parts: &mut Vec<Part>,
) -> Result<(), CasesRefusal> {
    let oids = known_in_turn(alloc, case, first)?;
    add_line(alloc, parts, asked(alloc, first, oids.as_slice())?.as_str())?;
    let mut so_far = known_at_first(alloc, first)?;
    let known = known_of_these(alloc, case, so_far.as_slice())?;
    let (mut page, mut resting) = page_begun(alloc, case, &known)?;
    'stops: for oid in oids.iter().skip(so_far.len()) {
        let known = known_of_these(alloc, case, so_far.as_slice())?;
        resting = stopped_for(alloc, *oid, &mut page, resting, &known)?;
        so_far.push(*oid)?;
    }
    let known = known_of_these(alloc, case, so_far.as_slice())?;
    let mut stack = resting.on(&known);
    let mut templates = Templates::new(alloc);
    let answer = page.go_on(&mut templates, &mut stack);
    put_answer(alloc, parts, answer)?;
    put_state(alloc, parts, &stack, &page.budget())
}
