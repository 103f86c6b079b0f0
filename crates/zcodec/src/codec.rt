ghost use Rattle.std.specs.Prelude.{IfOk, Ok};
ghost use Rattle.zobject.specs.declared.object.Object.{Object};
ghost use Rattle.zobject.specs.declared.limits.TheConstants.{MOST_COUNTED, MOST_LOCALS, MOST_PROPERTIES};
ghost use Rattle.zcodec.specs.Reading.{Decodes, Gives, head_at, list_at, lists_at, local_at, names_at, object_at, property_at, read, setting_at, start_at, whole_at};
ghost use Rattle.zcodec.specs.Record.{Spells};

use crate::fields::{kind_of, text_of, u64_of, version_of};
use crate::lists::list_of;
use crate::parts::part_of;
use crate::rows::{LocalRow, PropertyRow, SettingRow};
use crate::unread::Unread;
use std::alloc::Global;
use zbase::{Oid, Text};
use zobject::limits::{MOST_COUNTED, MOST_LOCALS, MOST_PROPERTIES};
use zobject::{CodecRefusal, Kind, Locals, Object, Properties, Rule, Settings, Version};

#[derive(Clone, Copy)]
struct Start {
    version: Version,
    kind: Kind,
}

#[derive(Drop)]
struct Names {
    id: Text,
    parent: Oid,
    title: Text,
}

#[derive(Drop)]
struct Lists {
    settings: Settings,
    locals: Locals,
    properties: Properties,
}

// The version and the kind.
#[tactic(auto, unfolding(crate::specs::Reading::start_at))]
fn start_of(bytes: &[u8]) -> Result<(Start, &[u8]), Unread>
    ensures { Gives (λ x. (record { version = x.0.version; kind = x.0.kind }, x.1.now)) result (start_at bytes.now) }
{
    let (version, rest) = version_of(bytes)?;
    let (kind, rest) = kind_of(rest)?;
    Ok((Start { version, kind }, rest))
}

// The id, the container and the title.
#[tactic(auto, unfolding(crate::specs::Reading::names_at))]
fn names_of(alloc: Global, kind: Kind, bytes: &[u8]) -> Result<(Names, &[u8]), Unread>
    ensures { Gives (λ x. (record { id = x.0.id; parent = x.0.parent; title = x.0.title }, x.1.now)) result (names_at kind bytes.now) }
{
    let (id, rest) = text_of(Rule::StoredId(kind), bytes)?;
    let (parent, rest) = u64_of(rest)?;
    let (title, rest) = text_of(Rule::Title, rest)?;
    let id = Text::from_str(alloc, id)?;
    let title = Text::from_str(alloc, title)?;
    let parent = Oid(parent);
    Ok((Names { id, parent, title }, rest))
}

#[tactic(auto, unfolding(crate::specs::Reading::head_at))]
fn head_of(alloc: Global, bytes: &[u8]) -> Result<(Start, Names, &[u8]), Unread>
    ensures { Gives (λ x. (
      record {
        start = record { version = x.0.version; kind = x.0.kind };
        names = record
            { id = x.1.id; parent = x.1.parent; title = x.1.title };
      },
      x.2.now,
    )) result (head_at bytes.now) }
{
    let (start, rest) = start_of(bytes)?;
    let (names, rest) = names_of(alloc, start.kind, rest)?;
    Ok((start, names, rest))
}

fn settings_of(alloc: Global, version: Version, bytes: &[u8]) -> Result<(Settings, &[u8]), Unread>
    ensures { Gives (λ x. (x.0, x.1.now)) result (list_at 0 MOST_COUNTED (setting_at version) bytes.now) }
{
    list_of(alloc, &SettingRow { version }, 0, MOST_COUNTED, bytes)
}

fn locals_of(alloc: Global, bytes: &[u8]) -> Result<(Locals, &[u8]), Unread>
    ensures { Gives (λ x. (x.0, x.1.now)) result (list_at 0 MOST_LOCALS local_at bytes.now) }
{
    list_of(alloc, &LocalRow, 0, MOST_LOCALS, bytes)
}

fn properties_of(
    alloc: Global,
    version: Version,
    bytes: &[u8],
) -> Result<(Properties, &[u8]), Unread>
    ensures { Gives (λ x. (x.0, x.1.now)) result (list_at 0 MOST_PROPERTIES (property_at version) bytes.now) }
{
    list_of(alloc, &PropertyRow { version }, 0, MOST_PROPERTIES, bytes)
}

// The settings, the local roles and the properties.
#[tactic(auto, unfolding(crate::specs::Reading::lists_at))]
fn lists_of(alloc: Global, version: Version, bytes: &[u8]) -> Result<(Lists, &[u8]), Unread>
    ensures { Gives (λ x. (record { settings = x.0.settings; locals = x.0.locals; properties = x.0.properties }, x.1.now)) result (lists_at version bytes.now) }
{
    let (settings, rest) = settings_of(alloc, version, bytes)?;
    let (locals, rest) = locals_of(alloc, rest)?;
    let (properties, rest) = properties_of(alloc, version, rest)?;
    let lists = Lists {
        settings,
        locals,
        properties,
    };
    Ok((lists, rest))
}

// The version of the record, and the object.
#[tactic(auto, unfolding(crate::specs::Reading::object_at))]
fn object_of(alloc: Global, bytes: &[u8]) -> Result<(Version, Object, &[u8]), Unread>
    ensures { Gives (λ x. ((x.0, x.1), x.2.now)) result (object_at bytes.now) }
{
    let (start, names, rest) = head_of(alloc, bytes)?;
    let (lists, rest) = lists_of(alloc, start.version, rest)?;
    let (part, rest) = part_of(alloc, start.version, start.kind, rest)?;
    let object = Object {
        id: names.id,
        parent: names.parent,
        title: names.title,
        settings: lists.settings,
        locals: lists.locals,
        properties: lists.properties,
        part,
    };
    Ok((start.version, object, rest))
}

#[tactic(auto, unfolding(crate::specs::Reading::whole_at))]
fn whole_of(alloc: Global, bytes: &[u8]) -> Result<Object, Unread>
    ensures { Gives (λ o. o) result (whole_at bytes.now) }
{
    let (_version, object, rest) = object_of(alloc, bytes)?;
    if rest.is_empty() {
        Ok(object)
    } else {
        Err(Unread::Bad(rest.len()))
    }
}

#[tactic(auto, unfolding(crate::specs::Reading::read))]
fn decoded(alloc: Global, bytes: &[u8]) -> Result<Object, CodecRefusal>
    ensures { Decodes result (read bytes.now) }
{
    match whole_of(alloc, bytes) {
        Ok(object) => Ok(object),
        Err(Unread::Memory) => Err(CodecRefusal::Memory),
        Err(Unread::Bad(left)) => Err(CodecRefusal::BadRecord(bytes.len().saturating_sub(left))),
    }
}

/// The object whose record the bytes are, in either version.
///
/// Where no object has this record, the place is where the first field starts that fits no rule, or the end of the
/// object where bytes are left over; want of memory is the one other error.
pub fn decode(alloc: Global, bytes: &[u8]) -> Result<Object, CodecRefusal>
    ensures read { IfOk result (λ o. Spells o bytes.now) }
    ensures only { (o : Object) → Spells o bytes.now → Decodes result (Ok o) }
    ensures place { Decodes result (read bytes.now) }
{
    decoded(alloc, bytes)
}
