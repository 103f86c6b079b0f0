ghost use Rattle.std.specs.Prelude.{◌≡◌, ℕ, List, Option};
ghost use Rattle.evaluator.specs.declared.reply.Shown.{Shown};
ghost use Rattle.zobject.specs.declared.object.Object.{Object};
ghost use Rattle.zknown.specs.Seen.{Seen};
ghost use Rattle.namespace.specs.Looks.{looked};
ghost use Rattle.namespace.specs.Told.{Shows};
ghost use Rattle.dtml_values.specs.Values as values;
ghost use Rattle.dtml_values.specs.Told.{told};

use crate::refusal::RenderRefusal;
use crate::truth::flag;
use dtml_expr::Order;
use namespace::{Single, Val};
use zbase::Text;

// Whether the order holds of a value that is less than another or is the same.
fn by_order(order: Order, less: bool, same: bool) -> bool
    ensures { result ≡ values.by_order order less same }
{
    match order {
        Order::Eq => same,
        Order::Ne => !same,
        Order::Lt => less,
        Order::Gt => !(less || same),
        Order::Le => less || same,
        Order::Ge => !less,
    }
}

fn compare_numbers(order: Order, left: i64, right: i64) -> Val
    ensures { result ≡ values.numbers_compared order left right }
{
    flag(by_order(order, left < right, left == right))
}

// By their bytes.
fn compare_texts(order: Order, left: &Text, right: &Text) -> Val
    ensures { result ≡ values.texts_compared order left.now right.now }
{
    let less = left.as_str() < right.as_str();
    let same = left.as_str() == right.as_str();
    flag(by_order(order, less, same))
}

// A text and a number, which are never the same.
fn of_two_kinds(at: u32, order: Order) -> Result<Val, RenderRefusal>
    ensures { (k : ℕ → Option (Seen Object)) (shown : List Shown) → Shows told (λ v. v) shown result (looked k shown (values.of_two_kinds at order)) }
{
    match order {
        Order::Eq => Ok(flag(false)),
        Order::Ne => Ok(flag(true)),
        Order::Lt | Order::Gt | Order::Le | Order::Ge => Err(RenderRefusal::BadValue(at)),
    }
}

/// How two values compare: 1 or 0. Objects and sequences don't.
pub(crate) fn compare(at: u32, order: Order, left: &Val, right: &Val) -> Result<Val, RenderRefusal>
    ensures { (k : ℕ → Option (Seen Object)) (shown : List Shown)
        → Shows told (λ v. v) shown result (looked k shown (values.compared at order left.now right.now)) }
{
    match (left, right) {
        (Val::Single(Single::Text(left)), Val::Single(Single::Text(right))) => {
            Ok(compare_texts(order, left, right))
        }
        (Val::Single(Single::Int(left)), Val::Single(Single::Int(right))) => {
            Ok(compare_numbers(order, *left, *right))
        }
        (Val::Single(Single::Text(_)), Val::Single(Single::Int(_))) => of_two_kinds(at, order),
        (Val::Single(Single::Int(_)), Val::Single(Single::Text(_))) => of_two_kinds(at, order),
        _ => Err(RenderRefusal::BadValue(at)),
    }
}
