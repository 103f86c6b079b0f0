ghost use Rattle.std.specs.Prelude.{◌≡◌, ◌==◌, map, not, IfOk, Ok};
ghost use Rattle.form_fields.specs.Numbers.{whole_number as number_in};
ghost use Rattle.std.specs.Str.Lines.{strip_carriage_return};
ghost use Rattle.std.specs.List.{filter, slice_split};
ghost use Rattle.zobject.specs.declared.object.Property.{Property as AProperty};
ghost use Rattle.zobject.specs.Changes.{put_property, with_properties};
ghost use Rattle.manage.specs.Becoming as becoming;
ghost use Rattle.manage.specs.Changing.{became};
ghost use Rattle.manage.specs.Fields.{Gives};
ghost use Rattle.manage.specs.Table as table;

use crate::copying::copy_with_properties;
use crate::field::{fields_kept, text_of, texts_of};
use crate::putting::put;
use crate::refusal::{FieldName, ManageRefusal};
use crate::refusing::{has_room_for_property, is_free};
use crate::rule::{FieldRule, list, maybe, one};
use crate::seeking::others;
use form_fields::{Fields, whole_number};
use std::alloc::{AllocError, Global};
use zbase::{Memory, Text, Texts};
use zobject::{Object, PropValue, Property};

// ---- values

// The text without a CR at its end.
fn without_cr(line: &str) -> &str
    ensures { result.now ≡ strip_carriage_return line.now }
{
    match line.strip_suffix('\r') {
        Some(front) => front,
        None => line,
    }
}

// The parts as lines; each but the last stood before an LF, and a CR before that is dropped.
fn lines_in(alloc: Global, parts: &[&str]) -> Result<Texts, Memory>
    ensures { IfOk result (λ lines. lines ≡ becoming.without_cr (map (λ part. part.now) parts.now)) }
{
    let mut lines = Texts::new(alloc);
    for at in 0..parts.len() {
        let line = if at + 1 < parts.len() {
            without_cr(parts[at])
        } else {
            parts[at]
        };
        lines.push(Text::from_str(alloc, line)?)?;
    }
    Ok(lines)
}

// What stands between the LFs.
fn parts_of<'a>(alloc: Global, text: &'a str) -> Result<Vec<&'a str>, AllocError>
    ensures { IfOk result (λ parts. map (λ part. part.now) parts.items ≡ slice_split (λ b. b == 10) text.now) }
{
    text.split('\n').collect(alloc)
}

fn lines_of(alloc: Global, text: &str) -> Result<Texts, Memory>
    ensures { IfOk result (λ lines. lines ≡ becoming.lines_of text.now) }
{
    if text.is_empty() {
        return Ok(Texts::new(alloc));
    }
    lines_in(alloc, parts_of(alloc, text)?.as_slice())
}

fn number_of(text: &str) -> i64
    ensures { result ≡ becoming.number_of (number_in text.now) }
{
    whole_number(text).unwrap_or(0)
}

// The value by its type, one line of text where none is told.
fn value_by(alloc: Global, type_name: &str, text: Text) -> Result<PropValue, Memory>
    ensures { IfOk result (λ value. value ≡ becoming.value_by type_name.now text) }
{
    if type_name == "int" {
        return Ok(PropValue::Int(number_of(text.as_str())));
    }
    if type_name == "lines" {
        return Ok(PropValue::Lines(lines_of(alloc, text.as_str())?));
    }
    Ok(PropValue::Line(text))
}

fn value_of(alloc: Global, fields: &Fields) -> Result<PropValue, Memory>
    ensures { IfOk result (λ value. value ≡ becoming.new_value fields.now) }
{
    let type_name = text_of(alloc, FieldName::ValueType, fields)?;
    let text = text_of(alloc, FieldName::Value, fields)?;
    value_by(alloc, type_name.as_str(), text)
}

// ---- rows

// A number is told by its type, which is another field.
fn value_rule(alloc: Global, fields: &Fields) -> Result<FieldRule, Memory>
    ensures { IfOk result (λ rule. rule ≡ table.value_rule fields.now) }
{
    if text_of(alloc, FieldName::ValueType, fields)?.as_str() == "int" {
        return Ok(FieldRule::Number);
    }
    Ok(FieldRule::Value)
}

// The object with that property in its place.
fn with_property(alloc: Global, object: &Object, property: Property) -> Result<Object, Memory>
    ensures { IfOk result (λ more. more ≡ with_properties (put_property property object.now.properties) object.now) }
{
    let properties = put(alloc, object.properties.as_slice(), property)?;
    copy_with_properties(alloc, object, properties)
}

/// An object with one property more.
#[tactic(auto, using(crate::proofs::Steps::stops), unfolding(crate::specs::Changing::judged, crate::specs::Fields::fields_kept))]
pub(crate) fn add_property(
    alloc: Global,
    object: &Object,
    fields: &Fields,
) -> Result<Object, ManageRefusal>
    ensures { Gives (λ o. o) result (became table.add_property becoming.with_property object.now fields.now) }
{
    let rows = [
        one(FieldName::Id, FieldRule::PropertyName),
        one(FieldName::Value, value_rule(alloc, fields)?),
        maybe(FieldName::ValueType, FieldRule::PropertyType),
    ];
    fields_kept(alloc, rows.as_slice(), fields)?;
    let name = text_of(alloc, FieldName::Id, fields)?;
    is_free(object.properties.as_slice(), &name)?;
    let value = value_of(alloc, fields)?;
    has_room_for_property(object.properties.as_slice(), &value)?;
    Ok(with_property(alloc, object, Property { name, value })?)
}

/// An object without some properties.
#[tactic(auto, using(crate::proofs::Steps::stops), unfolding(crate::specs::Changing::judged, crate::specs::Fields::fields_kept))]
pub(crate) fn delete_properties(
    alloc: Global,
    object: &Object,
    fields: &Fields,
) -> Result<Object, ManageRefusal>
    ensures { Gives (λ o. o) result (became table.delete_properties becoming.without_properties object.now fields.now) }
{
    let rows = [list(FieldName::Ids, FieldRule::Any)];
    fields_kept(alloc, rows.as_slice(), fields)?;
    let ids = texts_of(alloc, FieldName::Ids, fields)?;
    let left = others(alloc, object.properties.as_slice(), &ids)?;
    Ok(copy_with_properties(alloc, object, left)?)
}
