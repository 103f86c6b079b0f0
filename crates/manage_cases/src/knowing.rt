ghost use Rattle.std.specs.Prelude.{◌≡◌, IfOk, OnOk, Some, Ok};
ghost use Rattle.zobject.specs.declared.object.Object.{Object as Whole};
ghost use Rattle.zobject.specs.Rules.{IsObject};
ghost use Rattle.zknown.specs.Seen.{objects};
ghost use Rattle.manage.specs.Changing.{KeepRules};

use cases::{Case, CasesRefusal, Part};
use std::alloc::Global;
use zbase::{Memory, Oid};
use zcodec::{decode, records_are_exact};
use zknown::Known;
use zobject::{CodecRefusal, Object};

// The object of a record.
fn object_of(alloc: Global, bytes: &[u8]) -> Result<Object, CodecRefusal>
    ensures { IfOk result (λ o. IsObject o) }
{
    records_are_exact();
    let object = decode(alloc, bytes)?;
    Ok(object)
}

// What the object's fact came to.
fn fact_of(alloc: Global, part: &Part) -> Result<Option<Result<Object, CodecRefusal>>, CasesRefusal>
    ensures { IfOk result (λ fact. (o : Whole) → fact ≡ Some (Ok o) → IsObject o) }
{
    match part.key() {
        "absent" => Ok(None),
        "unreadable" => Ok(Some(Err(CodecRefusal::BadRecord(0)))),
        _ => match object_of(alloc, part.bytes.as_slice()) {
            Ok(object) => Ok(Some(Ok(object))),
            Err(_) => Err(CasesRefusal::BadPart(part.line)),
        },
    }
}

fn add(
    known: &mut Known,
    oid: Oid,
    fact: Option<Result<Object, CodecRefusal>>,
) -> Result<(), Memory>
    requires known { KeepRules (objects known.old) }
    requires fact { (o : Whole) → fact ≡ Some (Ok o) → IsObject o }
    ensures { OnOk result (KeepRules (objects known.new)) }
{
    known.add(oid, fact)?;
    Ok(())
}

fn add_part(alloc: Global, known: &mut Known, part: &Part) -> Result<(), CasesRefusal>
    requires { KeepRules (objects known.old) }
    ensures { OnOk result (KeepRules (objects known.new)) }
{
    let oid = Oid(part.number(1)?);
    let fact = fact_of(alloc, part)?;
    add(known, oid, fact)?;
    Ok(())
}

fn none_known(alloc: Global) -> Known
    ensures { KeepRules (objects result) }
{
    Known::new(alloc)
}

fn is_known(key: &str) -> bool {
    key == "object" || key == "absent" || key == "unreadable"
}

/// What is known of the objects of a case's site.
pub(crate) fn known_of(alloc: Global, case: &Case) -> Result<Known, CasesRefusal>
    ensures { IfOk result (λ known. KeepRules (objects known)) }
{
    let mut known = none_known(alloc);
    for part in &case.parts {
        if is_known(part.key()) {
            add_part(alloc, &mut known, part)?;
        }
    }
    Ok(known)
}
