ghost use Rattle.std.specs.Prelude.{◌≡◌, ◌<◌, length, drop, option_map, IfOk, IfErr, IfSome, IfNone};
ghost use Rattle.std.specs.Bool.{OnTrue};
ghost use Rattle.std.specs.Str.{IsCharBoundary};
ghost use Rattle.dtml_lex.specs.Reading.{name_at, entity_at, begins_part, plain_len, part_at};
ghost use Rattle.dtml_lex.specs.Source.{IsPartAt, IsSpelled, Refuses};

use crate::bytes::{Class, begins, run, strip};
use crate::tag::tag_of;
use crate::{DtmlRefusal, PartKind, SourcePart};
use std::alloc::Global;
use zbase::{Memory, Text};

/// A name: a letter, and then letters, digits, `_`, `-` and `.`.
#[tactic(auto, unfolding(crate::specs::Reading::name_at))]
fn name_of(text: &str) -> Option<(&str, &str)>
    ensures { option_map (λ x. (x.0.now, x.1.now)) result ≡ name_at text.now }
{
    if begins(Class::Letter, text) {
        Some(run(Class::Name, text))
    } else {
        None
    }
}

/// The name of the entity at the front, and what follows it.
#[tactic(auto, unfolding(crate::specs::Reading::entity_at))]
fn entity_of(text: &str) -> Option<(&str, &str)>
    ensures { option_map (λ x. (x.0.now, x.1.now)) result ≡ entity_at text.now }
{
    let (name, rest) = name_of(strip(text, "&dtml-")?)?;
    let rest = strip(rest, ";")?;
    Some((name, rest))
}

/// Whether a tag or an entity begins at the front.
#[tactic(auto, unfolding(crate::specs::Reading::begins_part))]
fn begins_part(text: &str) -> bool
    ensures { result ≡ begins_part text.now }
{
    strip(text, "<dtml-").is_some() || strip(text, "</dtml-").is_some() || entity_of(text).is_some()
}

/// Whether a tag or an entity begins at a place. Only at `<` and `&` is more than one byte looked at.
#[tactic(auto, using(crate::proofs::PlainLoop::other_byte))]
fn begins_at(text: &str, at: usize) -> bool
    requires { at < length text.now }
    ensures is { result ≡ begins_part (drop at text.now) }
    ensures boundary { OnTrue result (IsCharBoundary text.now at) }
{
    let byte = text.as_bytes()[at];
    (byte == b'<' || byte == b'&') && begins_part(text.split_at(at).1)
}

/// How many bytes stand before the next tag or entity. Each is looked at once, but for those of a name behind
/// `&dtml-`, which are looked at twice.
#[tactic(auto, using(crate::proofs::PlainLoop::plain_more, crate::proofs::PlainLoop::plain_stops, crate::proofs::PlainLoop::plain_ends))]
fn plain_len(text: &str) -> usize
    ensures is { result ≡ plain_len text.now }
    ensures boundary { IsCharBoundary text.now result }
{
    for at in 0..text.len() {
        if begins_at(text, at) {
            return at;
        }
    }
    text.len()
}

/// The part at the front, and what follows it; none where that is a tag that doesn't fit its form.
#[tactic(auto, unfolding(crate::specs::Reading::part_at))]
fn part_of(alloc: Global, text: &str) -> Result<Option<(PartKind, &str)>, Memory>
    ensures { IfOk result (λ r. option_map (λ x. (x.0, x.1.now)) r ≡ part_at text.now) }
{
    if let Some(inner) = strip(text, "<dtml-") {
        let Some(((name, attributes), rest)) = tag_of(alloc, inner)? else {
            return Ok(None);
        };
        return Ok(Some((PartKind::Opening(name, attributes), rest)));
    }
    if let Some(inner) = strip(text, "</dtml-") {
        let Some(((name, attributes), rest)) = tag_of(alloc, inner)? else {
            return Ok(None);
        };
        return Ok(Some((PartKind::Closing(name, attributes), rest)));
    }
    if let Some((name, rest)) = entity_of(text) {
        let name = Text::from_str(alloc, name)?;
        return Ok(Some((PartKind::Entity(name), rest)));
    }
    let (plain, rest) = text.split_at(plain_len(text));
    let plain = Text::from_str(alloc, plain)?;
    Ok(Some((PartKind::Plain(plain), rest)))
}

/// The part of a source that starts at a place, or `None` where the source ends there. The place is a number of
/// bytes from the start. To read a whole source, go on from each part's `end`: that takes time in the source's
/// length.
///
/// `BadTag` comes where a tag starts there that has an unknown name, lacks its `>` or has attributes of no form;
/// it tells the place.
///
/// Zope Book, appendix "DTML Reference".
pub fn next_part(alloc: Global, source: &str, at: usize) -> Result<Option<SourcePart>, DtmlRefusal>
    requires { IsCharBoundary source.now at }
    ensures part { IfOk result (λ found. IfSome found (IsPartAt source.now at)) }
    ensures spelled { IfOk result (λ found. IfSome found (IsSpelled source.now)) }
    ensures end { IfOk result (λ found. IfNone found (at ≡ length source.now)) }
    ensures refused { IfErr result (Refuses source.now at) }
{
    if at == source.len() {
        return Ok(None);
    }
    let (_, text) = source.split_at(at);
    let Some((kind, rest)) = part_of(alloc, text)? else {
        return Err(DtmlRefusal::BadTag(at));
    };
    Ok(Some(SourcePart {
        start: at,
        end: source.len() - rest.len(),
        kind,
    }))
}
