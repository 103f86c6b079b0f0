ghost use Rattle.std.specs.Prelude.{◌≡◌, ◌≤◌, ◌<◌, ℕ, length, option_map, IfSome, IfOk};
ghost use Rattle.dtml_lex.specs.Reading.{word_at, quotation_at, tag_end, value_at, attribute_at, next_attribute, attributes_at};

use crate::bytes::{Class, begins, run, strip};
use crate::{Attribute, Attributes};
use std::alloc::Global;
use zbase::{Items, Memory, Text};

/// A word or a value without quotes.
#[tactic(auto, unfolding(crate::specs::Reading::word_at))]
fn word_of(text: &str) -> Option<(&str, &str)>
    ensures is { option_map (λ x. (x.0.now, x.1.now)) result ≡ word_at text.now }
    ensures shorter { IfSome result (λ x. length x.1.now < length text.now) }
{
    if begins(Class::Word, text) {
        Some(run(Class::Word, text))
    } else {
        None
    }
}

/// A text in quotes, behind its opening quote.
#[tactic(auto, unfolding(crate::specs::Reading::quotation_at))]
fn quotation_of(text: &str) -> Option<(&str, &str)>
    ensures is { option_map (λ x. (x.0.now, x.1.now)) result ≡ quotation_at text.now }
    ensures shorter { IfSome result (λ x. length x.1.now < length text.now) }
{
    let (inside, rest) = run(Class::Unquoted, text);
    let rest = strip(rest, "\"")?;
    Some((inside, rest))
}

/// What follows the `>` of a tag, which may stand behind white space.
#[tactic(auto, unfolding(crate::specs::Reading::tag_end))]
pub(crate) fn tag_end(text: &str) -> Option<&str>
    ensures is { option_map (λ rest. rest.now) result ≡ tag_end text.now }
    ensures shorter { IfSome result (λ rest. length rest.now < length text.now) }
{
    strip(run(Class::Blank, text).1, ">")
}

/// The value of an attribute, behind its name and `=`.
#[tactic(auto, unfolding(crate::specs::Reading::value_at))]
fn value_of<'a>(
    alloc: Global,
    name: &str,
    text: &'a str,
) -> Result<Option<(Attribute, &'a str)>, Memory>
    ensures is { IfOk result (λ r. option_map (λ x. (x.0, x.1.now)) r ≡ value_at name.now text.now) }
    ensures shorter { IfOk result (λ r. IfSome r (λ x. length x.1.now < length text.now)) }
{
    if let Some(inner) = strip(text, "\"") {
        let Some((value, rest)) = quotation_of(inner) else {
            return Ok(None);
        };
        let name = Text::from_str(alloc, name)?;
        let value = Text::from_str(alloc, value)?;
        return Ok(Some((Attribute::Quoted { name, value }, rest)));
    }
    let Some((value, rest)) = word_of(text) else {
        return Ok(None);
    };
    let name = Text::from_str(alloc, name)?;
    let value = Text::from_str(alloc, value)?;
    Ok(Some((Attribute::Bare { name, value }, rest)))
}

/// The attribute at the front.
#[tactic(auto, unfolding(crate::specs::Reading::attribute_at))]
fn attribute_of(alloc: Global, text: &str) -> Result<Option<(Attribute, &str)>, Memory>
    ensures is { IfOk result (λ r. option_map (λ x. (x.0, x.1.now)) r ≡ attribute_at text.now) }
    ensures shorter { IfOk result (λ r. IfSome r (λ x. length x.1.now < length text.now)) }
{
    if let Some(inner) = strip(text, "\"") {
        let Some((inside, rest)) = quotation_of(inner) else {
            return Ok(None);
        };
        let inside = Text::from_str(alloc, inside)?;
        return Ok(Some((Attribute::Quotation(inside), rest)));
    }
    let Some((word, rest)) = word_of(text) else {
        return Ok(None);
    };
    if let Some(inner) = strip(rest, "=") {
        return value_of(alloc, word, inner);
    }
    let word = Text::from_str(alloc, word)?;
    Ok(Some((Attribute::Word(word), rest)))
}

/// The attribute behind the white space at the front.
#[tactic(auto, unfolding(crate::specs::Reading::next_attribute))]
fn next_attribute(alloc: Global, text: &str) -> Result<Option<(Attribute, &str)>, Memory>
    ensures is { IfOk result (λ r. option_map (λ x. (x.0, x.1.now)) r ≡ next_attribute text.now) }
    ensures shorter { IfOk result (λ r. IfSome r (λ x. length x.1.now < length text.now)) }
{
    if begins(Class::Blank, text) {
        attribute_of(alloc, run(Class::Blank, text).1)
    } else {
        Ok(None)
    }
}

/// The attributes of a tag, and what follows its `>`.
pub(crate) fn attributes_of(alloc: Global, text: &str) -> Result<Option<(Attributes, &str)>, Memory>
    ensures { (fuel : ℕ) → length text.now ≤ fuel → IfOk result (λ r. option_map (λ x. (x.0, x.1.now)) r ≡ attributes_at fuel text.now) }
{
    let mut attributes = Items::new(alloc);
    let mut rest = text;
    'attributes: loop {
        if let Some(after) = tag_end(rest) {
            return Ok(Some((attributes, after)));
        }
        let Some((attribute, after)) = next_attribute(alloc, rest)? else {
            return Ok(None);
        };
        attributes.push(attribute)?;
        rest = after;
    }
}
