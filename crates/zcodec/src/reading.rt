ghost use Rattle.zcodec.specs.Reading.{Gives, int_at, lines_at, one_line_at, proxy_at, typed_at, value_at};

use crate::fields::{byte_of, text_of, u64_of};
use crate::lists::list_of;
use crate::rows::{LineRow, roles_of};
use crate::unread::Unread;
use std::alloc::Global;
use zbase::{Items, Text};
use zobject::limits::MOST_LINES;
use zobject::{PropValue, Roles, Rule, Version};

#[tactic(auto, unfolding(crate::specs::Reading::one_line_at))]
fn line_of(alloc: Global, bytes: &[u8]) -> Result<(PropValue, &[u8]), Unread>
    ensures { Gives (λ x. (x.0, x.1.now)) result (one_line_at bytes.now) }
{
    let (line, rest) = text_of(Rule::Value, bytes)?;
    Ok((PropValue::Line(Text::from_str(alloc, line)?), rest))
}

#[tactic(auto, unfolding(crate::specs::Reading::int_at))]
fn int_of(bytes: &[u8]) -> Result<(PropValue, &[u8]), Unread>
    ensures { Gives (λ x. (x.0, x.1.now)) result (int_at bytes.now) }
{
    let (number, rest) = u64_of(bytes)?;
    Ok((PropValue::Int(number.cast_signed()), rest))
}

#[tactic(auto, unfolding(crate::specs::Reading::lines_at))]
fn lines_of(alloc: Global, bytes: &[u8]) -> Result<(PropValue, &[u8]), Unread>
    ensures { Gives (λ x. (x.0, x.1.now)) result (lines_at bytes.now) }
{
    let (lines, rest) = list_of(alloc, &LineRow, 0, MOST_LINES, bytes)?;
    Ok((PropValue::Lines(lines), rest))
}

fn typed_of(
    alloc: Global,
    left: usize,
    letter: u8,
    bytes: &[u8],
) -> Result<(PropValue, &[u8]), Unread>
    ensures { Gives (λ x. (x.0, x.1.now)) result (typed_at left letter bytes.now) }
{
    match letter {
        b's' => line_of(alloc, bytes),
        b'i' => int_of(bytes),
        b'l' => lines_of(alloc, bytes),
        _ => Err(Unread::Bad(left)),
    }
}

/// The value of a property, in the second version behind its type.
#[tactic(auto, unfolding(crate::specs::Reading::value_at))]
pub(crate) fn value_of(
    alloc: Global,
    version: Version,
    bytes: &[u8],
) -> Result<(PropValue, &[u8]), Unread>
    ensures { Gives (λ x. (x.0, x.1.now)) result (value_at version bytes.now) }
{
    match version {
        Version::First => line_of(alloc, bytes),
        Version::Second => {
            let (letter, rest) = byte_of(bytes)?;
            typed_of(alloc, bytes.len(), letter, rest)
        }
    }
}

/// Proxy roles, which the first version hasn't.
#[tactic(auto, unfolding(crate::specs::Reading::proxy_at))]
pub(crate) fn proxy_of(
    alloc: Global,
    version: Version,
    bytes: &[u8],
) -> Result<(Roles, &[u8]), Unread>
    ensures { Gives (λ x. (x.0, x.1.now)) result (proxy_at version bytes.now) }
{
    match version {
        Version::First => Ok((Items::new(alloc), bytes)),
        Version::Second => roles_of(alloc, 0, bytes),
    }
}
