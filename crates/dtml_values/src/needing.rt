ghost use Rattle.std.specs.Prelude.{◌≡◌, ℕ, List, Option};
ghost use Rattle.evaluator.specs.declared.reply.Shown.{Shown};
ghost use Rattle.zobject.specs.declared.object.Object.{Object};
ghost use Rattle.zknown.specs.Seen.{Seen, objects};
ghost use Rattle.namespace.specs.Looks.{looked};
ghost use Rattle.namespace.specs.Told.{Begins, Shows};
ghost use Rattle.dtml_values.specs.Values as values;
ghost use Rattle.dtml_values.specs.Expressions as expressions;
ghost use Rattle.dtml_values.specs.Told.{told};

use crate::refusal::RenderRefusal;
use acquisition::Wrapped;
use namespace::{Single, Singles, Stack, Val};
use std::alloc::Global;
use zbase::{Items, Text};

/// The value of a name, which must have one.
pub fn defined(name: &Text, found: Option<Val>) -> Result<Val, RenderRefusal>
    ensures { (k : ℕ → Option (Seen Object)) (shown : List Shown) → Shows told (λ v. v) shown result (looked k shown (values.defined name.now found)) }
{
    match found {
        Some(value) => Ok(value),
        None => Err(RenderRefusal::NoName(name.copy()?)),
    }
}

/// The values of a sequence; the empty text is an empty one. Any other value is a bad one of the tag.
pub fn sequence(alloc: Global, at: u32, value: Val) -> Result<Singles, RenderRefusal>
    ensures { (k : ℕ → Option (Seen Object)) (shown : List Shown) → Shows told (λ xs. xs) shown result (looked k shown (values.sequence at value)) }
{
    match value {
        Val::Seq(items) => Ok(items),
        Val::Single(Single::Text(text)) => {
            if text.is_empty() {
                Ok(Items::new(alloc))
            } else {
                Err(RenderRefusal::BadValue(at))
            }
        }
        Val::Single(Single::Int(_)) | Val::Single(Single::Obj(_)) => {
            Err(RenderRefusal::BadValue(at))
        }
    }
}

/// The object that a value is. Any other value is a bad one of the tag.
pub fn object_in(at: u32, value: Val) -> Result<Wrapped, RenderRefusal>
    ensures { (k : ℕ → Option (Seen Object)) (shown : List Shown) → Shows told (λ w. w) shown result (looked k shown (values.object_in at value)) }
{
    match value {
        Val::Single(Single::Obj(object)) => Ok(object),
        Val::Single(Single::Text(_)) | Val::Single(Single::Int(_)) | Val::Seq(_) => {
            Err(RenderRefusal::BadValue(at))
        }
    }
}

/// The value of a name in the stack, which must have one.
pub(crate) fn value_of_name(name: &Text, stack: &mut Stack<'_>) -> Result<Val, RenderRefusal>
    ensures is { Shows told (λ v. v) stack.new.shown result
        (looked (objects stack.old.known) stack.old.shown (expressions.value_of_name stack.old.scope name.now)) }
    ensures known { stack.new.known ≡ stack.old.known }
    ensures scope { stack.new.scope ≡ stack.old.scope }
    ensures shown { Begins stack.old.shown stack.new.shown }
{
    let found = stack.find(name.as_str())?;
    defined(name, found)
}

// The value of a name in an object, which must have one.
fn member_of(object: &Wrapped, name: &Text, stack: &mut Stack<'_>) -> Result<Val, RenderRefusal>
    ensures is { Shows told (λ v. v) stack.new.shown result
        (looked (objects stack.old.known) stack.old.shown (expressions.member_of stack.old.scope name.now object.now)) }
    ensures known { stack.new.known ≡ stack.old.known }
    ensures scope { stack.new.scope ≡ stack.old.scope }
    ensures shown { Begins stack.old.shown stack.new.shown }
{
    let found = stack.look(object, name.as_str())?;
    defined(name, found)
}

/// The value of a name in the object that a value is.
pub(crate) fn member(
    at: u32,
    value: Val,
    name: &Text,
    stack: &mut Stack<'_>,
) -> Result<Val, RenderRefusal>
    ensures is { Shows told (λ v. v) stack.new.shown result
        (looked (objects stack.old.known) stack.old.shown (expressions.member stack.old.scope at value name.now)) }
    ensures known { stack.new.known ≡ stack.old.known }
    ensures scope { stack.new.scope ≡ stack.old.scope }
    ensures shown { Begins stack.old.shown stack.new.shown }
{
    let object = object_in(at, value)?;
    member_of(&object, name, stack)
}
