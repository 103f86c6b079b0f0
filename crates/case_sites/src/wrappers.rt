use crate::words::oid_in;
use acquisition::{AqRefusal, Wrapped};
use cases::{CasesRefusal, Part, put_number, put_numbered, put_word};
use std::alloc::Global;
use zbase::Oid;
use zknown::Known;

/// The wrapper of the objects that the words from that one on name, each reached through the one before it, from the root
/// on, or why there is none.
pub fn reached(
    alloc: Global,
    known: &Known,
    part: &Part,
    from: usize,
) -> Result<Result<Wrapped, AqRefusal>, CasesRefusal> {
    let mut wrapper = Wrapped::root(alloc)?;
    for word in part.words.iter().skip(from) {
        match wrapper.reach(known, oid_in(part, word.as_str())?) {
            Ok(next) => wrapper = next,
            Err(refusal) => return Ok(Err(refusal)),
        }
    }
    Ok(Ok(wrapper))
}

/// Adds the ids of objects to a line, a blank before each.
pub fn put_objects(alloc: Global, line: &mut String, oids: &[Oid]) -> Result<(), CasesRefusal> {
    for oid in oids {
        put_number(alloc, line, oid.0)?;
    }
    Ok(())
}

/// Adds why there are no objects: `need ID`, `broken ID` or `deep`, a blank before it.
pub fn put_refusal(
    alloc: Global,
    line: &mut String,
    refusal: AqRefusal,
) -> Result<(), CasesRefusal> {
    match refusal {
        AqRefusal::Need(oid) => put_numbered(alloc, line, "need", oid.0),
        AqRefusal::Broken(oid) => put_numbered(alloc, line, "broken", oid.0),
        AqRefusal::TooDeep => put_word(line, "deep"),
        AqRefusal::Memory => Err(CasesRefusal::Memory),
    }
}
