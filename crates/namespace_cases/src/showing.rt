use cases::{CasesRefusal, put_number, put_numbered, put_word};
use namespace::{NameRefusal, Single, Val};
use std::alloc::Global;

fn put_single(alloc: Global, line: &mut String, single: &Single) -> Result<(), CasesRefusal> {
    match single {
        Single::Text(text) => {
            put_word(line, "text")?;
            put_word(line, text.as_str())
        }
        Single::Int(number) => {
            let text = format!(in alloc; " int {number}")?;
            line.push_str(text.as_str())?;
            Ok(())
        }
        Single::Obj(object) => {
            put_word(line, "object")?;
            for oid in object.order() {
                put_number(alloc, line, oid.0)?;
            }
            Ok(())
        }
    }
}

/// Adds a value, or that there is none.
pub(crate) fn put_value(
    alloc: Global,
    line: &mut String,
    value: Option<&Val>,
) -> Result<(), CasesRefusal> {
    match value {
        None => put_word(line, "none"),
        Some(Val::Single(single)) => put_single(alloc, line, single),
        Some(Val::Seq(all)) => {
            put_word(line, "seq")?;
            for single in all.as_slice() {
                put_word(line, "|")?;
                put_single(alloc, line, single)?;
            }
            Ok(())
        }
    }
}

/// Adds why there is no value.
pub(crate) fn put_refusal(
    alloc: Global,
    line: &mut String,
    refusal: NameRefusal,
) -> Result<(), CasesRefusal> {
    match refusal {
        NameRefusal::Memory => Err(CasesRefusal::Memory),
        NameRefusal::Need(oid) => put_numbered(alloc, line, "need", oid.0),
        NameRefusal::Broken(oid) => put_numbered(alloc, line, "broken", oid.0),
        NameRefusal::Unauthorized(oid, permission) => {
            put_numbered(alloc, line, "unauthorized", oid.0)?;
            put_number(alloc, line, u64::from(permission))
        }
        NameRefusal::TooDeep => put_word(line, "deep"),
    }
}
