use crate::objects::object_of;
use crate::rows::{is_object, rows_of, tells_more};
use cases::{Case, CasesRefusal, Part};
use std::alloc::Global;
use zbase::Oid;
use zknown::Known;
use zobject::{CodecRefusal, Object};

/// What is known of the objects of a case's site.
pub fn known_of(alloc: Global, case: &Case) -> Result<Known, CasesRefusal> {
    known_among(alloc, case, None)
}

/// What is known where only these objects of a case's site are.
pub fn known_of_these(alloc: Global, case: &Case, oids: &[Oid]) -> Result<Known, CasesRefusal> {
    known_among(alloc, case, Some(oids))
}

// What is known of the objects of a case's site: of these alone, where they are said.
fn known_among(alloc: Global, case: &Case, among: Option<&[Oid]>) -> Result<Known, CasesRefusal> {
    let mut known = Known::new(alloc);
    for part in &case.parts {
        if part.key() == "site" {
            add_site(alloc, &mut known, case, part, among)?;
        }
    }
    Ok(known)
}

// Adds the objects of a part, each with what other rows say of it.
fn add_site(
    alloc: Global,
    known: &mut Known,
    case: &Case,
    part: &Part,
    among: Option<&[Oid]>,
) -> Result<(), CasesRefusal> {
    let rows = rows_of(alloc, part)?;
    for row in &rows {
        if is_object(row.key()) {
            let oid = Oid(row.number(1)?);
            if is_wanted(among, oid) {
                known.add(oid, fact_of(alloc, case, row, rows.as_slice())?)?;
            }
        } else if !tells_more(row.key()) {
            return Err(CasesRefusal::BadPart(row.line));
        }
    }
    Ok(())
}

fn is_wanted(among: Option<&[Oid]>, oid: Oid) -> bool {
    match among {
        Some(oids) => oids.iter().any(|one| one.0 == oid.0),
        None => true,
    }
}

// What the object's fact came to.
fn fact_of(
    alloc: Global,
    case: &Case,
    row: &Part,
    rows: &[Part],
) -> Result<Option<Result<Object, CodecRefusal>>, CasesRefusal> {
    match row.key() {
        "absent" => Ok(None),
        "unreadable" => Ok(Some(Err(CodecRefusal::BadRecord(0)))),
        _ => Ok(Some(Ok(object_of(alloc, case, row, rows)?))),
    }
}
