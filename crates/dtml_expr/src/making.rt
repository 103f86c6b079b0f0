ghost use Rattle.std.specs.Prelude.{◌≡◌, option_map};
ghost use Rattle.dtml_expr.specs.Trees as trees;
ghost use Rattle.dtml_expr.specs.Grammar.{joined};
ghost use Rattle.dtml_expr.specs.Reading as reading;
ghost use Rattle.dtml_expr.specs.Views.{view, list_view};

use crate::front::Sign;
use crate::unread::Unread;
use crate::{Expr, Exprs, Order};
use std::alloc::Global;
use zbase::Text;

/// A number without a sign.
pub(crate) fn positive(value: u64) -> Option<Expr>
    ensures { option_map view result ≡ reading.positive value }
{
    match i64::try_from(value) {
        Ok(number) => Some(Expr::Number(number)),
        Err(_) => None,
    }
}

/// A number behind `-`.
pub(crate) fn negative(value: u64) -> Option<Expr>
    ensures { option_map view result ≡ reading.negative value }
{
    match 0i64.checked_sub_unsigned(value) {
        Some(number) => Some(Expr::Number(number)),
        None => None,
    }
}

/// The only operand, or all of them joined by `or`.
pub(crate) fn one_or(mut operands: Vec<Expr>) -> Expr
    ensures { view result ≡ joined trees.Or (list_view operands.items) }
{
    if operands.len() > 1 {
        return Expr::Or(Exprs { items: operands });
    }
    match operands.pop() {
        Some(only) => only,
        None => Expr::Or(Exprs { items: operands }),
    }
}

/// The only operand, or all of them joined by `and`.
pub(crate) fn one_and(mut operands: Vec<Expr>) -> Expr
    ensures { view result ≡ joined trees.And (list_view operands.items) }
{
    if operands.len() > 1 {
        return Expr::And(Exprs { items: operands });
    }
    match operands.pop() {
        Some(only) => only,
        None => Expr::And(Exprs { items: operands }),
    }
}

/// One more product in a sum.
pub(crate) fn signed(alloc: Global, sum: Expr, sign: Sign, product: Expr) -> Result<Expr, Unread>
    ensures { reading.Makes result (reading.sign_join sign (view sum) (view product)) }
{
    let sum = Box::new(alloc, sum)?;
    let product = Box::new(alloc, product)?;
    match sign {
        Sign::Plus => Ok(Expr::Add(sum, product)),
        Sign::Minus => Ok(Expr::Sub(sum, product)),
    }
}

/// One more item in a product.
pub(crate) fn times(alloc: Global, product: Expr, item: Expr) -> Result<Expr, Unread>
    ensures { reading.Makes result (trees.Mul (view product) (view item)) }
{
    let product = Box::new(alloc, product)?;
    let item = Box::new(alloc, item)?;
    Ok(Expr::Mul(product, item))
}

/// Two sums that are compared.
pub(crate) fn compare(alloc: Global, left: Expr, order: Order, right: Expr) -> Result<Expr, Unread>
    ensures { reading.Makes result (trees.Compare (view left) order (view right)) }
{
    let left = Box::new(alloc, left)?;
    let right = Box::new(alloc, right)?;
    Ok(Expr::Compare(left, order, right))
}

/// The value of a name in an item.
pub(crate) fn dotted(alloc: Global, item: Expr, name: &str) -> Result<Expr, Unread>
    ensures { reading.Makes result (trees.Dot (view item) name.now) }
{
    let name = Text::from_str(alloc, name)?;
    Ok(Expr::Dot(Box::new(alloc, item)?, name))
}
