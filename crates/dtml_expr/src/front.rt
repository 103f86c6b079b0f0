ghost use Rattle.std.specs.Prelude.{◌≡◌, ◌∷◌, option_map, MatchOption};
ghost use Rattle.dtml_expr.specs.Tokens as spec;
ghost use Rattle.dtml_expr.specs.Grammar.{times, adds, ands, ors};
ghost use Rattle.dtml_expr.specs.Reading as reading;
ghost use Rattle.dtml_expr.specs.Reading.{Gives};
ghost use Rattle.dtml_expr.specs.Views.{token_views};

use crate::Order;
use crate::token::Token;
use crate::unread::Unread;

/// `+` or `-`.
#[derive(Clone, Copy, Debug, PartialEq, Eq)]
pub(crate) enum Sign {
    Plus,
    Minus,
}

/// What follows a `*` at the front.
pub(crate) fn behind_star<'t, 'a>(tokens: &'t [Token<'a>]) -> Option<&'t [Token<'a>]>
    ensures { MatchOption result (reading.Stops times (token_views tokens.now)) (λ rest. token_views tokens.now ≡ spec.Star ∷ token_views rest.now) }
{
    match tokens.split_first() {
        Some((Token::Star, rest)) => Some(rest),
        _ => None,
    }
}

/// What follows an `and` at the front.
pub(crate) fn behind_and<'t, 'a>(tokens: &'t [Token<'a>]) -> Option<&'t [Token<'a>]>
    ensures { MatchOption result (reading.Stops ands (token_views tokens.now)) (λ rest. token_views tokens.now ≡ spec.And ∷ token_views rest.now) }
{
    match tokens.split_first() {
        Some((Token::And, rest)) => Some(rest),
        _ => None,
    }
}

/// What follows an `or` at the front.
pub(crate) fn behind_or<'t, 'a>(tokens: &'t [Token<'a>]) -> Option<&'t [Token<'a>]>
    ensures { MatchOption result (reading.Stops ors (token_views tokens.now)) (λ rest. token_views tokens.now ≡ spec.Or ∷ token_views rest.now) }
{
    match tokens.split_first() {
        Some((Token::Or, rest)) => Some(rest),
        _ => None,
    }
}

/// What follows a `not` at the front.
pub(crate) fn behind_not<'t, 'a>(tokens: &'t [Token<'a>]) -> Option<&'t [Token<'a>]>
    ensures { option_map (λ rest. token_views rest.now) result ≡ reading.behind_not (token_views tokens.now) }
{
    match tokens.split_first() {
        Some((Token::Not, rest)) => Some(rest),
        _ => None,
    }
}

/// The sign at the front, and what follows it.
pub(crate) fn sign_at<'t, 'a>(tokens: &'t [Token<'a>]) -> Option<(Sign, &'t [Token<'a>])>
    ensures { MatchOption result (reading.Stops adds (token_views tokens.now)) (λ x. token_views tokens.now ≡ reading.sign_token x.0 ∷ token_views x.1.now) }
{
    match tokens.split_first() {
        Some((Token::Plus, rest)) => Some((Sign::Plus, rest)),
        Some((Token::Minus, rest)) => Some((Sign::Minus, rest)),
        _ => None,
    }
}

/// The order at the front, and what follows it.
pub(crate) fn order_at<'t, 'a>(tokens: &'t [Token<'a>]) -> Option<(Order, &'t [Token<'a>])>
    ensures { option_map (λ x. (x.0, token_views x.1.now)) result ≡ reading.order_at (token_views tokens.now) }
{
    match tokens.split_first() {
        Some((Token::Compared(order), rest)) => Some((*order, rest)),
        _ => None,
    }
}

/// What follows a `.` at the front.
pub(crate) fn behind_dot<'t, 'a>(tokens: &'t [Token<'a>]) -> Option<&'t [Token<'a>]>
    ensures { option_map (λ rest. token_views rest.now) result ≡ reading.behind_dot (token_views tokens.now) }
{
    match tokens.split_first() {
        Some((Token::Dot, rest)) => Some(rest),
        _ => None,
    }
}

/// What follows a `)` at the front.
pub(crate) fn behind_close<'t, 'a>(tokens: &'t [Token<'a>]) -> Option<&'t [Token<'a>]>
    ensures { option_map (λ rest. token_views rest.now) result ≡ reading.behind_close (token_views tokens.now) }
{
    match tokens.split_first() {
        Some((Token::Close, rest)) => Some(rest),
        _ => None,
    }
}

/// The name at the front, and what follows it.
pub(crate) fn name_at<'t, 'a>(tokens: &'t [Token<'a>]) -> Result<(&'a str, &'t [Token<'a>]), Unread>
    ensures { Gives (λ x. (x.0.now, token_views x.1.now)) result (reading.name_at (token_views tokens.now)) }
{
    match tokens.split_first() {
        Some((Token::Name(name), rest)) => Ok((*name, rest)),
        _ => Err(Unread::Refused),
    }
}
