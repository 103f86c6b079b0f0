ghost use Rattle.std.specs.Prelude.{◌≡◌, ◌&&◌, option_map, is_some, codes, IfOk};
ghost use Rattle.std.specs.List.{list_all, find};
ghost use Rattle.std.specs.Char.{is_ascii_digit};
ghost use Rattle.dtml_lex.specs.Spelling as spelling;
ghost use Rattle.dtml_parse.specs.Table as spec;
ghost use Rattle.dtml_parse.specs.Views.{given_view};

use dtml_lex::{Attribute, TagName};
use std::alloc::Global;
use std::collections::BTreeSet;
use zbase::{Memory, Text};

/// An argument as it is spelled.
#[derive(Clone, Copy, Debug)]
pub(crate) enum Given<'a> {
    Name(&'a str),
    /// The text of an expression.
    Expression(&'a str),
}

fn is_letter(byte: u8) -> bool
    ensures { result ≡ spelling.is_letter byte }
{
    byte.is_ascii_alphabetic()
}

fn is_name_byte(byte: u8) -> bool
    ensures { result ≡ spelling.is_name_byte byte }
{
    byte.is_ascii_alphanumeric() || matches!(byte, b'_' | b'-' | b'.')
}

fn are_name_bytes(bytes: &[u8]) -> bool
    ensures { result ≡ list_all spelling.is_name_byte bytes.now }
{
    bytes.iter().all(|byte| is_name_byte(*byte))
}

/// Whether a text is a name: a letter, and then letters, digits, `_`, `-` and `.`.
pub(crate) fn is_name(text: &str) -> bool
    ensures { result ≡ spelling.is_name text.now }
{
    match text.as_bytes().split_first() {
        Some((first, rest)) => is_letter(*first) && are_name_bytes(rest),
        None => false,
    }
}

fn are_digits(bytes: &[u8]) -> bool
    ensures { result ≡ list_all is_ascii_digit bytes.now }
{
    bytes.iter().all(|byte| byte.is_ascii_digit())
}

/// Whether a text is a decimal number of one to six digits.
fn is_size(text: &str) -> bool
    ensures { result ≡ spec.is_size text.now }
{
    if text.is_empty() || text.len() > 6 {
        return false;
    }
    are_digits(text.as_bytes())
}

/// The value of a decimal number of one to six digits.
fn size_value(text: &str) -> Option<u32>
    ensures { result ≡ spec.size_value text.now }
{
    if !is_size(text) {
        return None;
    }
    match text.parse::<u32>() {
        Ok(size) => Some(size),
        Err(_) => None,
    }
}

fn named(text: &str) -> Option<Given<'_>>
    ensures { option_map given_view result ≡ spec.named text.now }
{
    if is_name(text) {
        Some(Given::Name(text))
    } else {
        None
    }
}

/// The argument that an attribute is: `NAME`, `name=NAME`, `"EXPR"` or `expr="EXPR"`.
pub(crate) fn given_of(attribute: &Attribute) -> Option<Given<'_>>
    ensures { option_map given_view result ≡ spec.given attribute.now }
{
    match attribute {
        Attribute::Word(word) => named(word.as_str()),
        Attribute::Bare { name, value } => {
            if name.as_str() == "name" {
                named(value.as_str())
            } else {
                None
            }
        }
        Attribute::Quoted { name, value } => {
            if name.as_str() == "expr" {
                Some(Given::Expression(value.as_str()))
            } else {
                None
            }
        }
        Attribute::Quotation(text) => Some(Given::Expression(text.as_str())),
    }
}

/// The name and the argument of a binding: `NAME=NAME` or `NAME="EXPR"`.
pub(crate) fn binding_of(attribute: &Attribute) -> Option<(&str, Given<'_>)>
    ensures { option_map (λ x. (x.0.now, given_view x.1)) result ≡ spec.binding attribute.now }
{
    match attribute {
        Attribute::Bare { name, value } => {
            if is_name(name.as_str()) && is_name(value.as_str()) {
                Some((name.as_str(), Given::Name(value.as_str())))
            } else {
                None
            }
        }
        Attribute::Quoted { name, value } => {
            if is_name(name.as_str()) {
                Some((name.as_str(), Given::Expression(value.as_str())))
            } else {
                None
            }
        }
        _ => None,
    }
}

/// Whether an attribute is that word, without a value.
fn is_word(word: &str, attribute: &Attribute) -> bool
    ensures { result ≡ spec.is_word word.now attribute.now }
{
    match attribute {
        Attribute::Word(text) => text.as_str() == word,
        _ => false,
    }
}

/// The value of an attribute of that name.
fn value_under<'a>(name: &str, attribute: &'a Attribute) -> Option<&'a str>
    ensures { option_map (λ value. value.now) result ≡ spec.value_under name.now attribute.now }
{
    match attribute {
        Attribute::Bare { name: own, value } => {
            if own.as_str() == name {
                Some(value.as_str())
            } else {
                None
            }
        }
        Attribute::Quoted { name: own, value } => {
            if own.as_str() == name {
                Some(value.as_str())
            } else {
                None
            }
        }
        _ => None,
    }
}

/// Whether a value is a size.
fn has_size(attribute: &Attribute) -> bool
    ensures { result ≡ spec.has_size (spec.value_under (codes "size") attribute.now) }
{
    match value_under("size", attribute) {
        Some(value) => is_size(value),
        None => false,
    }
}

/// Whether `var` may have an attribute behind its argument.
fn is_mark(attribute: &Attribute) -> bool
    ensures { result ≡ spec.is_mark attribute.now }
{
    is_word("html_quote", attribute)
        || is_word("url_quote", attribute)
        || is_word("newline_to_br", attribute)
        || is_word("lower", attribute)
        || is_word("upper", attribute)
        || is_word("capitalize", attribute)
        || is_word("missing", attribute)
        || value_under("missing", attribute).is_some()
        || has_size(attribute)
        || value_under("etc", attribute).is_some()
}

/// Whether `in` may have an attribute behind its argument.
fn is_order(attribute: &Attribute) -> bool
    ensures { result ≡ spec.is_order attribute.now }
{
    is_word("reverse", attribute) || is_word("skip_unauthorized", attribute)
}

/// The name under which an attribute stands; a text in quotes has none.
fn name_of(attribute: &Attribute) -> &str
    ensures { result.now ≡ spec.attribute_name attribute.now }
{
    match attribute {
        Attribute::Word(word) => word.as_str(),
        Attribute::Bare { name, value: _ } => name.as_str(),
        Attribute::Quoted { name, value: _ } => name.as_str(),
        Attribute::Quotation(_) => "",
    }
}

/// Whether no attribute stands twice.
fn are_distinct(alloc: Global, attributes: &[Attribute]) -> Result<bool, Memory>
    ensures { IfOk result (λ distinct. distinct ≡ spec.each_once attributes.now) }
{
    let mut names = BTreeSet::new(alloc);
    for attribute in attributes {
        if !names.insert(name_of(attribute))? {
            return Ok(false);
        }
    }
    Ok(true)
}

/// The attributes behind the first.
pub(crate) fn behind_argument(attributes: &[Attribute]) -> &[Attribute]
    ensures { result.now ≡ spec.behind_argument attributes.now }
{
    match attributes.split_first() {
        Some((_, rest)) => rest,
        None => attributes,
    }
}

/// The argument of a tag: its first attribute.
pub(crate) fn argument_of(attributes: &[Attribute]) -> Option<Given<'_>>
    ensures { option_map given_view result ≡ spec.argument attributes.now }
{
    given_of(attributes.first()?)
}

fn are_marks(attributes: &[Attribute]) -> bool
    ensures { result ≡ list_all spec.is_mark attributes.now }
{
    attributes.iter().all(|attribute| is_mark(attribute))
}

fn are_orders(attributes: &[Attribute]) -> bool
    ensures { result ≡ list_all spec.is_order attributes.now }
{
    attributes.iter().all(|attribute| is_order(attribute))
}

fn is_binding(attribute: &Attribute) -> bool
    ensures { result ≡ is_some (spec.binding attribute.now) }
{
    binding_of(attribute).is_some()
}

fn are_bindings(attributes: &[Attribute]) -> bool
    ensures { result ≡ list_all (λ attribute. is_some (spec.binding attribute)) attributes.now }
{
    attributes.iter().all(|attribute| is_binding(attribute))
}

/// Whether attributes are allowed, and none of them stands twice.
fn allowed_once(alloc: Global, allowed: bool, attributes: &[Attribute]) -> Result<bool, Memory>
    ensures { IfOk result (λ fit. fit ≡ (allowed && spec.each_once attributes.now)) }
{
    if allowed {
        are_distinct(alloc, attributes)
    } else {
        Ok(false)
    }
}

/// Whether the table gives a tag these attributes.
pub(crate) fn fits(alloc: Global, name: TagName, attributes: &[Attribute]) -> Result<bool, Memory>
    ensures { IfOk result (λ fit. fit ≡ spec.fits name attributes.now) }
{
    let rest = behind_argument(attributes);
    let has_argument = argument_of(attributes).is_some();
    match name {
        TagName::Var => allowed_once(alloc, has_argument && are_marks(rest), rest),
        TagName::In => allowed_once(alloc, has_argument && are_orders(rest), rest),
        TagName::Let => {
            let allowed = !attributes.is_empty() && are_bindings(attributes);
            allowed_once(alloc, allowed, attributes)
        }
        TagName::Else | TagName::Comment => Ok(attributes.is_empty()),
        TagName::Call | TagName::If | TagName::Elif | TagName::Unless | TagName::With => {
            Ok(has_argument && rest.is_empty())
        }
    }
}

/// Whether that word stands among the attributes.
pub(crate) fn has_word(word: &str, attributes: &[Attribute]) -> bool
    ensures { result ≡ spec.has_word word.now attributes.now }
{
    attributes.iter().any(|attribute| is_word(word, attribute))
}

/// The first attribute of that name that has a value.
fn valued<'a>(name: &str, attributes: &'a [Attribute]) -> Option<&'a Attribute>
    ensures { option_map (λ attribute. attribute.now) result ≡ find (λ attribute. is_some (spec.value_under name.now attribute)) attributes.now }
{
    attributes
        .iter()
        .find(|attribute| value_under(name, attribute).is_some())
}

/// The value of the first attribute of that name.
fn value_of<'a>(name: &str, attributes: &'a [Attribute]) -> Option<&'a str>
    ensures { option_map (λ value. value.now) result ≡ spec.value_of name.now attributes.now }
{
    match valued(name, attributes) {
        Some(attribute) => value_under(name, attribute),
        None => None,
    }
}

/// A copy of a text, where there is one.
fn copy_of(alloc: Global, text: Option<&str>) -> Result<Option<Text>, Memory>
    ensures { IfOk result (λ copy. copy ≡ option_map (λ text. text.now) text.entry) }
{
    match text {
        Some(text) => Ok(Some(Text::from_str(alloc, text)?)),
        None => Ok(None),
    }
}

/// `missing`: the empty text where it has no value.
pub(crate) fn missing_of(alloc: Global, attributes: &[Attribute]) -> Result<Option<Text>, Memory>
    ensures { IfOk result (λ missing. missing ≡ spec.missing_of attributes.now) }
{
    if has_word("missing", attributes) {
        return Ok(Some(Text::new(alloc)));
    }
    copy_of(alloc, value_of("missing", attributes))
}

/// `etc`
pub(crate) fn etc_of(alloc: Global, attributes: &[Attribute]) -> Result<Option<Text>, Memory>
    ensures { IfOk result (λ etc. etc ≡ spec.value_of (codes "etc") attributes.now) }
{
    copy_of(alloc, value_of("etc", attributes))
}

/// `size`
pub(crate) fn size_of(attributes: &[Attribute]) -> Option<u32>
    ensures { result ≡ spec.size_of attributes.now }
{
    size_value(value_of("size", attributes)?)
}
