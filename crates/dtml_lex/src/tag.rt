ghost use Rattle.std.specs.Prelude.{◌≡◌, option_map, IfOk};
ghost use Rattle.dtml_lex.specs.Spelling.{tag_text};
ghost use Rattle.dtml_lex.specs.Reading.{tag_named, tag_at};

use crate::attributes::attributes_of;
use crate::bytes::{Class, run};
use crate::{Attributes, TagName};
use std::alloc::Global;
use zbase::Memory;

/// Every name of a tag.
const NAMES: [TagName; 10] = [
    TagName::Var,
    TagName::Call,
    TagName::If,
    TagName::Elif,
    TagName::Else,
    TagName::Unless,
    TagName::In,
    TagName::With,
    TagName::Let,
    TagName::Comment,
];

/// How a name is spelled.
fn tag_text(name: TagName) -> &'static str
    ensures { result.now ≡ tag_text name }
{
    match name {
        TagName::Var => "var",
        TagName::Call => "call",
        TagName::If => "if",
        TagName::Elif => "elif",
        TagName::Else => "else",
        TagName::Unless => "unless",
        TagName::In => "in",
        TagName::With => "with",
        TagName::Let => "let",
        TagName::Comment => "comment",
    }
}

/// The name that is spelled so.
#[tactic(auto, unfolding(crate::specs::Reading::tag_named))]
fn tag_named(word: &str) -> Option<TagName>
    ensures { result ≡ tag_named word.now }
{
    let names: [TagName; 10] = NAMES;
    names
        .iter()
        .copied()
        .find(|name| tag_text(*name).as_bytes() == word.as_bytes())
}

/// A tag behind its `<dtml-` or `</dtml-`, and what follows its `>`.
#[tactic(auto, unfolding(crate::specs::Reading::tag_at))]
pub(crate) fn tag_of(
    alloc: Global,
    text: &str,
) -> Result<Option<((TagName, Attributes), &str)>, Memory>
    ensures { IfOk result (λ r. option_map (λ x. (x.0, x.1.now)) r ≡ tag_at text.now) }
{
    let (word, rest) = run(Class::Lower, text);
    let Some(name) = tag_named(word) else {
        return Ok(None);
    };
    let Some((attributes, rest)) = attributes_of(alloc, rest)? else {
        return Ok(None);
    };
    Ok(Some(((name, attributes), rest)))
}
