ghost use Rattle.std.specs.Prelude.{◌≡◌, ◌<◌, Some, option_map, OnSome};
ghost use Rattle.std.specs.List.{prefix_len};
ghost use Rattle.std.specs.Char.{is_ascii_digit};
ghost use Rattle.dtml_expr.specs.Tokens as spec;
ghost use Rattle.dtml_expr.specs.Reading.{Lexes};
ghost use Rattle.dtml_expr.specs.Views.{token_view, token_views};

use crate::Order;
use crate::unread::Unread;
use std::alloc::Global;

/// A token.
#[derive(Clone, Copy, Debug)]
pub(crate) enum Token<'a> {
    /// The value of digits, at most `2 ^ 63`.
    Number(u64),
    /// A text, without its quotes.
    Quoted(&'a str),
    /// A letter, and then letters, digits and `_`. It isn't `or`, `and` or `not`.
    Name(&'a str),
    Or,
    And,
    Not,
    Compared(Order),
    Plus,
    Minus,
    Star,
    Dot,
    Open,
    Close,
}

/// The greatest value of digits that fits 64 bits: with a minus before it, it is the least number.
const MOST: u64 = 1 << 63;

/// Whether a byte is white space.
fn is_blank(byte: u8) -> bool
    ensures { result ≡ spec.is_blank byte }
{
    matches!(byte, 9 | 10 | 13 | 32)
}

fn is_name_byte(byte: u8) -> bool
    ensures { result ≡ spec.is_name_byte byte }
{
    byte.is_ascii_alphabetic() || byte.is_ascii_digit() || byte == b'_'
}

/// How many digits stand at the front.
fn digits_len(bytes: &[u8]) -> usize
    ensures { result ≡ prefix_len is_ascii_digit bytes.now }
{
    bytes
        .iter()
        .take_while(|byte| byte.is_ascii_digit())
        .count()
}

/// How many bytes of a name stand at the front.
fn name_len(bytes: &[u8]) -> usize
    ensures { result ≡ prefix_len spec.is_name_byte bytes.now }
{
    bytes.iter().take_while(|byte| is_name_byte(**byte)).count()
}

/// The token that a word is.
fn word(word: &str) -> Token<'_>
    ensures { token_view result ≡ spec.word word.now }
{
    if word == "or" {
        Token::Or
    } else if word == "and" {
        Token::And
    } else if word == "not" {
        Token::Not
    } else {
        Token::Name(word)
    }
}

/// The sign that a byte is with `=` behind it.
fn with_equals<'a>(byte: u8) -> Option<Token<'a>>
    ensures is { option_map token_view result ≡ spec.with_equals byte }
    ensures ascii { OnSome result (byte < 128) }
{
    match byte {
        b'=' => Some(Token::Compared(Order::Eq)),
        b'!' => Some(Token::Compared(Order::Ne)),
        b'<' => Some(Token::Compared(Order::Le)),
        b'>' => Some(Token::Compared(Order::Ge)),
        _ => None,
    }
}

/// The sign that a byte is alone.
fn alone<'a>(byte: u8) -> Option<Token<'a>>
    ensures is { option_map token_view result ≡ spec.alone byte }
    ensures ascii { OnSome result (byte < 128) }
{
    match byte {
        b'<' => Some(Token::Compared(Order::Lt)),
        b'>' => Some(Token::Compared(Order::Gt)),
        b'+' => Some(Token::Plus),
        b'-' => Some(Token::Minus),
        b'*' => Some(Token::Star),
        b'.' => Some(Token::Dot),
        b'(' => Some(Token::Open),
        b')' => Some(Token::Close),
        _ => None,
    }
}

/// The sign at the front, the longer one where two fit, and what follows it.
fn sign_at(text: &str) -> Option<(Token<'_>, &str)>
    ensures { option_map (λ x. (token_view x.0, x.1.now)) result ≡ spec.sign_at text.now }
{
    let bytes = text.as_bytes();
    if bytes.len() >= 2 && bytes[1] == b'=' {
        if let Some(token) = with_equals(bytes[0]) {
            return Some((token, text.split_at(2).1));
        }
    }
    if bytes.is_empty() {
        return None;
    }
    let token = alone(bytes[0])?;
    Some((token, text.split_at(1).1))
}

/// The number at the front, and what follows its digits.
fn number_at(text: &str) -> Option<(Token<'_>, &str)>
    requires { 0 < prefix_len is_ascii_digit text.now }
    ensures { option_map (λ x. (token_view x.0, x.1.now)) result ≡ spec.number_at text.now }
{
    let (digits, rest) = text.split_at(digits_len(text.as_bytes()));
    let value: u64 = digits.parse().ok()?;
    if value > MOST {
        return None;
    }
    Some((Token::Number(value), rest))
}

/// The word at the front, and what follows it.
fn word_at(text: &str) -> (Token<'_>, &str)
    ensures { spec.word_at text.now ≡ Some (token_view result.0, result.1.now) }
{
    let (front, rest) = text.split_at(name_len(text.as_bytes()));
    (word(front), rest)
}

/// The text behind a quote, and what follows the next quote.
fn quoted_at(text: &str) -> Option<(Token<'_>, &str)>
    ensures { option_map (λ x. (token_view x.0, x.1.now)) result ≡ spec.quoted_at text.now }
{
    let (quoted, rest) = text.split_once('\'')?;
    Some((Token::Quoted(quoted), rest))
}

/// The token at the front of a text, the longest that stands there, and what follows it.
#[tactic(auto, unfolding(crate::specs::Tokens::token_at))]
fn token_at(text: &str) -> Option<(Token<'_>, &str)>
    ensures { option_map (λ x. (token_view x.0, x.1.now)) result ≡ spec.token_at text.now }
{
    let bytes = text.as_bytes();
    if bytes.is_empty() {
        return None;
    }
    let first = bytes[0];
    if first.is_ascii_digit() {
        return number_at(text);
    }
    if first.is_ascii_alphabetic() {
        return Some(word_at(text));
    }
    if first == b'\'' {
        return quoted_at(text.split_at(1).1);
    }
    sign_at(text)
}

/// The tokens of a text, in order. White space stands between any two of them, and before and behind all.
pub(crate) fn tokens_of<'a>(alloc: Global, source: &'a str) -> Result<Vec<Token<'a>>, Unread>
    ensures { Lexes (λ tokens. token_views tokens.items) result source.now }
{
    let mut tokens = Vec::new(alloc);
    let mut rest = source;
    'tokens: while !rest.is_empty() {
        if is_blank(rest.as_bytes()[0]) {
            rest = rest.split_at(1).1;
            continue;
        }
        let Some((token, after)) = token_at(rest) else {
            return Err(Unread::Refused);
        };
        tokens.push(token)?;
        rest = after;
    }
    Ok(tokens)
}
