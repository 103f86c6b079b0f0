ghost use Rattle.std.specs.Prelude.{◌≡◌, option_map};
ghost use Rattle.dtml_values.specs.Values as values;
ghost use Rattle.dtml_values.specs.Expressions as expressions;

use namespace::{Single, Val};

/// Whether a value is true: a text or sequence that isn't empty, a number that isn't 0, and every object.
pub(crate) fn is_true(value: &Val) -> bool
    ensures { result ≡ values.is_true value.now }
{
    match value {
        Val::Single(Single::Text(text)) => !text.is_empty(),
        Val::Single(Single::Int(number)) => *number != 0,
        Val::Single(Single::Obj(_)) => true,
        Val::Seq(items) => !items.is_empty(),
    }
}

/// Whether there is a value and it is true.
///
/// Zope Book, appendix "DTML Reference", `if`.
pub fn is_met(value: &Option<Val>) -> bool
    ensures { result ≡ values.is_met value.now }
{
    match value {
        None => false,
        Some(value) => is_true(value),
    }
}

/// Whether an operand decides an `or`, which a true one does, or else an `and`.
pub(crate) fn is_decided(decides: bool, value: &Val) -> bool
    ensures { result ≡ expressions.is_decided decides value.now }
{
    if decides {
        is_true(value)
    } else {
        !is_true(value)
    }
}

/// A number as a value.
pub(crate) fn number(number: i64) -> Val
    ensures { result ≡ values.number number }
{
    Val::Single(Single::Int(number))
}

/// The number 1 where something holds, and else 0.
pub(crate) fn flag(holds: bool) -> Val
    ensures { result ≡ values.flag holds }
{
    if holds { number(1) } else { number(0) }
}
