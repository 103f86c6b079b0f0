//! The expressions of DTML, this project's profile of Zope's Document Template Markup Language (Zope Book,
//! "Advanced DTML" and "DTML Reference"): a small language of its own stands where Zope has Python's expressions.
//!
//! `specs/Grammar` says which expressions there are, as a relation by cases on the tokens that `specs/Tokens` finds
//! in a text. What the rules leave open is settled so:
//!
//! - Letters and digits are ASCII; a byte that isn't is refused outside of quotes.
//! - The longest token is taken: `<=` is one token, `a1` is one name, `1a` is a number and a name, which fits no rule.
//! - White space may stand between any two tokens and need not, so `1or 2` and `- 5` and `a . b` are expressions.
//! - A number may begin with zeros. `a -1` is a difference, since a number with `-` is an item and items don't stand
//!   side by side; `a - -1` has both.
//! - What follows a `.` is a name, which `or`, `and` and `not` aren't. Words have small letters: `Or` is a name.
//! - A level of brackets or `not` is counted where it is open: `not a and not b` has one level at either place.
//!
//! `specs/Trees` has expressions as data, `specs/Views` how contracts see an `Expr` as such, and `specs/Refusals`
//! what else is answered. `specs/Reading` is how the code gets there, and at its end the same as one function of the text
//! (`expression_at`), which agrees with the grammar (`reader_agrees`). `specs/ViewLaws` has what `or` and `and` are seen as.
#![tactic(auto)]

mod expr;
mod front;
mod laws;
mod making;
mod reading;
mod token;
mod unread;

pub use expr::{Expr, Exprs, Order};
pub use laws::{one_expression, reader_agrees};
pub use reading::parse_expr;
