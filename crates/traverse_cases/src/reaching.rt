use acquisition::{AqRefusal, Wrapped, containers};
use case_sites::{put_objects, put_refusal, reached};
use cases::{CasesRefusal, Part, put_word};
use std::alloc::Global;
use traverse::{Target, TravRefusal, publish};
use zbase::{Items, Oid, Text, Texts};
use zknown::Known;

/// What holds the object of the part.
pub(crate) fn put_containers(
    alloc: Global,
    known: &Known,
    part: &Part,
    line: &mut String,
) -> Result<(), CasesRefusal> {
    line.push_str("containers")?;
    let oid = Oid(part.number(1)?);
    match containers(alloc, known, oid) {
        Ok(path) => put_objects(alloc, line, path.as_slice()),
        Err(refusal) => put_refusal(alloc, line, refusal),
    }
}

/// The wrapper of the objects of the part.
pub(crate) fn put_order(
    alloc: Global,
    known: &Known,
    part: &Part,
    line: &mut String,
) -> Result<(), CasesRefusal> {
    line.push_str("order")?;
    match reached(alloc, known, part, 1)? {
        Ok(wrapper) => put_objects(alloc, line, wrapper.order()),
        Err(refusal) => put_refusal(alloc, line, refusal),
    }
}

// What is found, or that nothing is.
fn put_find(
    alloc: Global,
    line: &mut String,
    found: Result<Option<Wrapped>, AqRefusal>,
) -> Result<(), CasesRefusal> {
    match found {
        Ok(Some(wrapper)) => put_objects(alloc, line, wrapper.order()),
        Ok(None) => put_word(line, "none"),
        Err(refusal) => put_refusal(alloc, line, refusal),
    }
}

/// What the wrapper of the objects of the part finds under its name.
pub(crate) fn put_found(
    alloc: Global,
    known: &Known,
    part: &Part,
    line: &mut String,
) -> Result<(), CasesRefusal> {
    line.push_str("found")?;
    let name = part.word(1).unwrap_or("");
    match reached(alloc, known, part, 2)? {
        Ok(wrapper) => put_find(alloc, line, wrapper.find(known, name)),
        Err(refusal) => put_refusal(alloc, line, refusal),
    }
}

// The segments of a path.
fn segments_of(alloc: Global, path: &str) -> Result<Texts, CasesRefusal> {
    let mut segments = Items::new(alloc);
    for segment in path.split('/') {
        if !segment.is_empty() {
            segments.push(Text::from_str(alloc, segment)?)?;
        }
    }
    Ok(segments)
}

/// What the path of the part leads to.
pub(crate) fn put_leads(
    alloc: Global,
    known: &Known,
    part: &Part,
    line: &mut String,
) -> Result<(), CasesRefusal> {
    line.push_str("leads")?;
    let segments = segments_of(alloc, part.word(1).unwrap_or(""))?;
    match publish(alloc, known, segments.as_slice()) {
        Ok(target) => put_target(alloc, line, target),
        Err(refusal) => put_nowhere(alloc, line, refusal),
    }
}

fn put_target(alloc: Global, line: &mut String, target: Target) -> Result<(), CasesRefusal> {
    match target {
        Target::Page { object, client } => put_page(alloc, line, object.order(), client.order()),
        Target::Call { name, on } => {
            put_word(line, "call")?;
            put_word(line, name.as_str())?;
            put_objects(alloc, line, on.order())
        }
    }
}

fn put_page(
    alloc: Global,
    line: &mut String,
    object: &[Oid],
    client: &[Oid],
) -> Result<(), CasesRefusal> {
    put_word(line, "page")?;
    put_objects(alloc, line, object)?;
    put_word(line, "client")?;
    put_objects(alloc, line, client)
}

fn put_nowhere(alloc: Global, line: &mut String, refusal: TravRefusal) -> Result<(), CasesRefusal> {
    match refusal {
        TravRefusal::NotFound(segment) => {
            put_word(line, "missing")?;
            put_word(line, segment.as_str())
        }
        TravRefusal::Need(oid) => put_refusal(alloc, line, AqRefusal::Need(oid)),
        TravRefusal::Broken(oid) => put_refusal(alloc, line, AqRefusal::Broken(oid)),
        TravRefusal::TooDeep => put_refusal(alloc, line, AqRefusal::TooDeep),
        TravRefusal::Memory => Err(CasesRefusal::Memory),
    }
}
