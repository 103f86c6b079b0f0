ghost use Rattle.std.specs.Prelude.{◌≡◌};
ghost use Rattle.zbase.specs.Query.{run, Answers};
ghost use Rattle.zobject.specs.Rules.{kind_of};
ghost use Rattle.zobject.specs.Shapes.{form_of, shape_of};
ghost use Rattle.zknown.specs.Seen.{objects, shapes};
ghost use Rattle.acquisition.specs.Acquiring.{first};
ghost use Rattle.evaluator.specs.Questions.{as_ask};
ghost use Rattle.manage.specs.Calling as calling;
ghost use Rattle.manage.specs.Table.{permission_for};

use crate::call::Call;
use crate::refusal::ManageRefusal;
use crate::table::permission_for;
use acquisition::Wrapped;
use evaluator::Ask;
use http_in::Verb;
use zbase::Oid;
use zknown::{Got, Known};
use zobject::{Kind, Object, Part2};

/// The object, where it is here. Takes no memory.
#[tactic(auto, unfolding(zknown::specs::Seen::last_added))]
pub(crate) fn here(known: &Known, oid: Oid) -> Result<&Object, ManageRefusal>
    ensures shape { Answers calling.told (λ o. shape_of o.now) result (as_ask (run (shapes known.now) (calling.here oid))) }
    ensures whole { Answers calling.told (λ o. o.now) result (as_ask (run (objects known.now) (calling.here oid))) }
{
    match known.get(oid) {
        Got::Here(object) => Ok(object),
        Got::Absent | Got::Unreadable => Err(ManageRefusal::Broken(oid)),
        Got::Unknown => Err(ManageRefusal::Need(Ask::Object(oid))),
    }
}

/// The kind of an object, by what only its kind has.
pub(crate) fn kind_of(part: &Part2) -> Kind
    ensures shape { result ≡ calling.kind_of (form_of part.now) }
    ensures whole { result ≡ kind_of part.now }
{
    match part {
        Part2::Folder(_) => Kind::Folder,
        Part2::Method { .. } => Kind::Method,
        Part2::Document { .. } => Kind::Document,
        Part2::UserFolder(_) => Kind::UserFolder,
    }
}

fn if_lawful(known: &Known, call: Call, permission: Option<u8>) -> Result<u8, ManageRefusal>
    ensures { Answers calling.told (λ n. n) result (as_ask (run (shapes known.now) (calling.if_lawful call permission))) }
{
    match permission {
        None => Err(ManageRefusal::NotFound(call)),
        Some(permission) => Ok(permission),
    }
}

fn lawful(
    known: &Known,
    call: Call,
    verb: Verb,
    oid: Oid,
    part: &Part2,
) -> Result<u8, ManageRefusal>
    ensures { Answers calling.told (λ n. n) result
        (as_ask (run (shapes known.now) (calling.if_lawful call (permission_for call verb oid (calling.kind_of (form_of part.now)))))) }
{
    let permission = permission_for(call, verb, oid, kind_of(part));
    if_lawful(known, call, permission)
}

#[tactic(auto, using(crate::proofs::Steps::passes), unfolding(crate::specs::Calling::permission_at, zobject::specs::Shapes::shape_of))]
fn permission_on(known: &Known, call: Call, verb: Verb, oid: Oid) -> Result<u8, ManageRefusal>
    ensures { Answers calling.told (λ n. n) result (as_ask (run (shapes known.now) (calling.permission_at call verb oid))) }
{
    let object = here(known, oid)?;
    lawful(known, call, verb, oid, &object.part)
}

/// The permission that a call needs, by its number, on the object that a path leads to.
///
/// `NotFound` comes where it is no call there, or not by that method, before a user is looked for. Takes no memory.
pub fn permission_at(
    known: &Known,
    call: Call,
    verb: Verb,
    on: &Wrapped,
) -> Result<u8, ManageRefusal>
    ensures { Answers calling.told (λ n. n) result (as_ask (run (shapes known.now) (calling.permission_at call verb (first on.now)))) }
{
    permission_on(known, call, verb, on.oid())
}
