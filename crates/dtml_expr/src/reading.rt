ghost use Rattle.std.specs.Prelude.{◌≡◌, ◌≤◌, length, IfOk, IfErr};
ghost use Rattle.dtml_expr.specs.Grammar.{IsExpr};
ghost use Rattle.dtml_expr.specs.Refusals.{Refuses};
ghost use Rattle.dtml_expr.specs.Reading as reading;
ghost use Rattle.dtml_expr.specs.Reading.{Gives, Reads};
ghost use Rattle.dtml_expr.specs.Views.{view, token_views};

use crate::Expr;
use crate::front::{
    behind_and, behind_close, behind_dot, behind_not, behind_or, behind_star, name_at, order_at,
    sign_at,
};
use crate::making::{compare, dotted, negative, one_and, one_or, positive, signed, times};
use crate::token::{Token, tokens_of};
use crate::unread::Unread;
use dtml_lex::DtmlRefusal;
use std::alloc::Global;
use zbase::Text;

/// How many levels of brackets and `not` may be open at a place.
const LEVELS: u32 = 64;

/// Operands joined by `or`, and what follows them.
#[cycle(reading)]
fn or_of<'t, 'a>(
    alloc: Global,
    levels: u32,
    tokens: &'t [Token<'a>],
) -> Result<(Expr, &'t [Token<'a>]), Unread>
    ensures is { Reads (λ fuel. reading.or_at (reading.not_at fuel levels) fuel) result (token_views tokens.now) }
    ensures within { IfOk result (λ x. length (token_views x.1.now) ≤ length (token_views tokens.now)) }
{
    let (first, mut rest) = and_of(alloc, levels, tokens)?;
    let mut operands = Vec::new(alloc);
    operands.push(first)?;
    'operands: while let Some(after) = behind_or(rest) {
        let (operand, behind) = and_of(alloc, levels, after)?;
        operands.push(operand)?;
        rest = behind;
    }
    Ok((one_or(operands), rest))
}

/// Operands joined by `and`, and what follows them.
#[cycle(reading)]
fn and_of<'t, 'a>(
    alloc: Global,
    levels: u32,
    tokens: &'t [Token<'a>],
) -> Result<(Expr, &'t [Token<'a>]), Unread>
    ensures is { Reads (λ fuel. reading.and_at (reading.not_at fuel levels) fuel) result (token_views tokens.now) }
    ensures within { IfOk result (λ x. length (token_views x.1.now) ≤ length (token_views tokens.now)) }
{
    let (first, mut rest) = not_of(alloc, levels, tokens)?;
    let mut operands = Vec::new(alloc);
    operands.push(first)?;
    'operands: while let Some(after) = behind_and(rest) {
        let (operand, behind) = not_of(alloc, levels, after)?;
        operands.push(operand)?;
        rest = behind;
    }
    Ok((one_and(operands), rest))
}

/// A comparison, or the opposite of an operand, and what follows it.
#[cycle(reading)]
fn not_of<'t, 'a>(
    alloc: Global,
    levels: u32,
    tokens: &'t [Token<'a>],
) -> Result<(Expr, &'t [Token<'a>]), Unread>
    ensures is { Reads (λ fuel. reading.not_at fuel levels) result (token_views tokens.now) }
    ensures within { IfOk result (λ x. length (token_views x.1.now) ≤ length (token_views tokens.now)) }
{
    let Some(after) = behind_not(tokens) else {
        return comparison_of(alloc, levels, tokens);
    };
    if levels == 0 {
        return Err(Unread::Refused);
    }
    let (operand, rest) = not_of(alloc, levels - 1, after)?;
    Ok((Expr::Not(Box::new(alloc, operand)?), rest))
}

/// A sum, or two that are compared, and what follows.
#[cycle(reading)]
fn comparison_of<'t, 'a>(
    alloc: Global,
    levels: u32,
    tokens: &'t [Token<'a>],
) -> Result<(Expr, &'t [Token<'a>]), Unread>
    ensures is { Reads (λ fuel. reading.comparison_at (reading.inner_at fuel levels) fuel) result (token_views tokens.now) }
    ensures within { IfOk result (λ x. length (token_views x.1.now) ≤ length (token_views tokens.now)) }
{
    let (left, rest) = sum_of(alloc, levels, tokens)?;
    let Some((order, after)) = order_at(rest) else {
        return Ok((left, rest));
    };
    let (right, rest) = sum_of(alloc, levels, after)?;
    Ok((compare(alloc, left, order, right)?, rest))
}

/// Products with `+` and `-` between, and what follows them.
#[cycle(reading)]
fn sum_of<'t, 'a>(
    alloc: Global,
    levels: u32,
    tokens: &'t [Token<'a>],
) -> Result<(Expr, &'t [Token<'a>]), Unread>
    ensures is { Reads (λ fuel. reading.sum_at (reading.inner_at fuel levels) fuel) result (token_views tokens.now) }
    ensures within { IfOk result (λ x. length (token_views x.1.now) ≤ length (token_views tokens.now)) }
{
    let (mut sum, mut rest) = product_of(alloc, levels, tokens)?;
    'products: while let Some((sign, after)) = sign_at(rest) {
        let (product, behind) = product_of(alloc, levels, after)?;
        sum = signed(alloc, sum, sign, product)?;
        rest = behind;
    }
    Ok((sum, rest))
}

/// Items with `*` between, and what follows them.
#[cycle(reading)]
fn product_of<'t, 'a>(
    alloc: Global,
    levels: u32,
    tokens: &'t [Token<'a>],
) -> Result<(Expr, &'t [Token<'a>]), Unread>
    ensures is { Reads (λ fuel. reading.product_at (reading.inner_at fuel levels) fuel) result (token_views tokens.now) }
    ensures within { IfOk result (λ x. length (token_views x.1.now) ≤ length (token_views tokens.now)) }
{
    let (mut product, mut rest) = item_of(alloc, levels, tokens)?;
    'items: while let Some(after) = behind_star(rest) {
        let (item, behind) = item_of(alloc, levels, after)?;
        product = times(alloc, product, item)?;
        rest = behind;
    }
    Ok((product, rest))
}

/// An item with the names behind its dots, and what follows it.
#[cycle(reading)]
fn item_of<'t, 'a>(
    alloc: Global,
    levels: u32,
    tokens: &'t [Token<'a>],
) -> Result<(Expr, &'t [Token<'a>]), Unread>
    ensures is { Reads (λ fuel. reading.item_at (reading.inner_at fuel levels)) result (token_views tokens.now) }
    ensures within { IfOk result (λ x. length (token_views x.1.now) ≤ length (token_views tokens.now)) }
{
    let (mut item, mut rest) = head_of(alloc, levels, tokens)?;
    'dots: while let Some(after) = behind_dot(rest) {
        let (name, behind) = name_at(after)?;
        item = dotted(alloc, item, name)?;
        rest = behind;
    }
    Ok((item, rest))
}

/// A number, a text, a name or an expression in brackets, and what follows it.
#[cycle(reading)]
#[tactic(auto, unfolding(crate::specs::Reading::head_at))]
fn head_of<'t, 'a>(
    alloc: Global,
    levels: u32,
    tokens: &'t [Token<'a>],
) -> Result<(Expr, &'t [Token<'a>]), Unread>
    ensures is { Reads (λ fuel. reading.head_at (reading.inner_at fuel levels)) result (token_views tokens.now) }
    ensures within { IfOk result (λ x. length (token_views x.1.now) ≤ length (token_views tokens.now)) }
{
    let Some((first, rest)) = tokens.split_first() else {
        return Err(Unread::Refused);
    };
    match *first {
        Token::Number(value) => Ok((positive(value).ok_or(Unread::Refused)?, rest)),
        Token::Minus => negative_at(rest),
        Token::Quoted(text) => Ok((Expr::Quoted(Text::from_str(alloc, text)?), rest)),
        Token::Name(name) => Ok((Expr::Name(Text::from_str(alloc, name)?), rest)),
        Token::Open => bracketed(alloc, levels, rest),
        _ => Err(Unread::Refused),
    }
}

/// The number behind a `-`, and what follows it.
fn negative_at<'t, 'a>(tokens: &'t [Token<'a>]) -> Result<(Expr, &'t [Token<'a>]), Unread>
    ensures is { Gives (λ x. (view x.0, token_views x.1.now)) result (reading.negative_at (token_views tokens.now)) }
    ensures within { IfOk result (λ x. length (token_views x.1.now) ≤ length (token_views tokens.now)) }
{
    let Some((Token::Number(value), rest)) = tokens.split_first() else {
        return Err(Unread::Refused);
    };
    Ok((negative(*value).ok_or(Unread::Refused)?, rest))
}

/// The expression behind an opening bracket, and what follows its closing bracket.
#[cycle(reading)]
fn bracketed<'t, 'a>(
    alloc: Global,
    levels: u32,
    tokens: &'t [Token<'a>],
) -> Result<(Expr, &'t [Token<'a>]), Unread>
    ensures is { Reads (λ fuel. reading.bracketed_at (reading.inner_at fuel levels)) result (token_views tokens.now) }
    ensures within { IfOk result (λ x. length (token_views x.1.now) ≤ length (token_views tokens.now)) }
{
    if levels == 0 {
        return Err(Unread::Refused);
    }
    let (inner, rest) = or_of(alloc, levels - 1, tokens)?;
    match behind_close(rest) {
        Some(behind) => Ok((inner, behind)),
        None => Err(Unread::Refused),
    }
}

/// The expression that all of a text is.
fn expr_of(alloc: Global, source: &str) -> Result<Expr, Unread>
    ensures { reading.Parses result source.now }
{
    let tokens = tokens_of(alloc, source)?;
    let (expr, rest) = or_of(alloc, LEVELS, tokens.as_slice())?;
    if rest.is_empty() {
        Ok(expr)
    } else {
        Err(Unread::Refused)
    }
}

/// The expression that all of `source` is. `at` is the place of the tag that it stands in, a number of bytes from
/// the start of the template's source; a refusal hands it through. It is `BadExpression(at)` exactly where no rule
/// fits the text, where more than 64 levels of brackets and `not` are open at a place, or where a number doesn't fit
/// 64 bits with its sign. Want of memory leaves nothing behind.
pub fn parse_expr(alloc: Global, source: &str, at: usize) -> Result<Expr, DtmlRefusal>
    ensures found { IfOk result (λ expr. IsExpr source.now (view expr)) }
    ensures refused { IfErr result (Refuses source.now at) }
{
    match expr_of(alloc, source) {
        Ok(expr) => Ok(expr),
        Err(Unread::Memory) => Err(DtmlRefusal::Memory),
        Err(Unread::Refused) => Err(DtmlRefusal::BadExpression(at)),
    }
}
