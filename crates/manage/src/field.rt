ghost use Rattle.std.specs.Prelude.{◌≡◌, ◌||◌, ◌∷◌, [], length, map, IfOk, Option, Some, option_map};
ghost use Rattle.std.specs.List.{list_all, list_any};
ghost use Rattle.manage.specs.Fields as spec;
ghost use Rattle.manage.specs.Fields.{Gives};

use crate::naming::sorted;
use crate::refusal::{FieldName, ManageRefusal, field_name};
use crate::rule::{FieldRow, FieldRule, is_like, is_long};
use form_fields::{Field, FieldValue, Fields, Scalar};
use std::alloc::Global;
use zbase::{Memory, Text, Texts};
use zobject::limits::MOST_COUNTED;

fn find_field<'a>(fields: &'a [Field], name: &[u8]) -> Option<&'a FieldValue>
    ensures { option_map (λ value. value.now) result ≡ spec.value_named name.now fields.now }
{
    let found = fields.iter().find(|field| field.name.as_bytes() == name);
    match found {
        Some(field) => Some(&field.value),
        None => None,
    }
}

/// What the form has under a name.
pub(crate) fn value_of(field: FieldName, fields: &Fields) -> Option<&FieldValue>
    ensures { option_map (λ value. value.now) result ≡ spec.value_of field fields.now }
{
    find_field(fields.as_slice(), field_name(field).as_bytes())
}

/// The text of a value; a number counts as its decimal text.
pub(crate) fn scalar_text(alloc: Global, scalar: &Scalar) -> Result<Text, Memory>
    ensures { IfOk result (λ text. text ≡ spec.scalar_text scalar.now) }
{
    match scalar {
        Scalar::Text(text) => text.copy(),
        Scalar::Int(number) => Text::from_str(alloc, number.to_string(alloc)?.as_str()),
    }
}

// The texts of a list.
fn scalar_texts(alloc: Global, scalars: &[Scalar]) -> Result<Texts, Memory>
    ensures { IfOk result (λ texts. texts ≡ map spec.scalar_text scalars.now) }
{
    let mut texts = Texts::new(alloc);
    for scalar in scalars {
        texts.push(scalar_text(alloc, scalar)?)?;
    }
    Ok(texts)
}

// ---- rules

fn is_likely(alloc: Global, rule: FieldRule, scalar: &Scalar) -> Result<bool, Memory>
    ensures { IfOk result (λ yes. yes ≡ spec.is_like rule (spec.scalar_text scalar.now)) }
{
    match scalar {
        Scalar::Text(text) => Ok(is_like(rule, text.as_str())),
        Scalar::Int(number) => Ok(is_like(rule, number.to_string(alloc)?.as_str())),
    }
}

fn has_more(alloc: Global, rule: FieldRule, scalar: &Scalar) -> Result<bool, Memory>
    ensures { IfOk result (λ yes. yes ≡ spec.is_long rule (spec.scalar_text scalar.now)) }
{
    match scalar {
        Scalar::Text(text) => Ok(is_long(rule, text.as_str())),
        Scalar::Int(number) => Ok(is_long(rule, number.to_string(alloc)?.as_str())),
    }
}

fn all_likely(alloc: Global, rule: FieldRule, scalars: &[Scalar]) -> Result<bool, Memory>
    ensures { IfOk result (λ yes. yes ≡ list_all (spec.is_like rule) (map spec.scalar_text scalars.now)) }
{
    for scalar in scalars {
        if !is_likely(alloc, rule, scalar)? {
            return Ok(false);
        }
    }
    Ok(true)
}

fn any_has_more(alloc: Global, rule: FieldRule, scalars: &[Scalar]) -> Result<bool, Memory>
    ensures { IfOk result (λ yes. yes ≡ list_any (spec.is_long rule) (map spec.scalar_text scalars.now)) }
{
    for scalar in scalars {
        if has_more(alloc, rule, scalar)? {
            return Ok(true);
        }
    }
    Ok(false)
}

// Whether there are more roles than a list of roles may have.
fn is_crowd(alloc: Global, rule: FieldRule, scalars: &[Scalar]) -> Result<bool, Memory>
    ensures { IfOk result (λ yes. yes ≡ spec.is_crowd rule (map spec.scalar_text scalars.now)) }
{
    match rule {
        FieldRule::Role => {
            let texts = scalar_texts(alloc, scalars)?;
            Ok((MOST_COUNTED as usize) < sorted(alloc, &texts)?.len())
        }
        _ => Ok(false),
    }
}

// Whether one of the texts has too many bytes, or there are too many roles.
fn has_too_many(alloc: Global, rule: FieldRule, scalars: &[Scalar]) -> Result<bool, Memory>
    ensures { IfOk result (λ yes. yes ≡ (list_any (spec.is_long rule) (map spec.scalar_text scalars.now)
        || spec.is_crowd rule (map spec.scalar_text scalars.now))) }
{
    Ok(any_has_more(alloc, rule, scalars)? || is_crowd(alloc, rule, scalars)?)
}

fn texts_kept(alloc: Global, row: FieldRow, scalars: &[Scalar]) -> Result<(), ManageRefusal>
    ensures { Gives (λ kept. kept) result (spec.texts_kept row.field row.rule (map spec.scalar_text scalars.now)) }
{
    if !all_likely(alloc, row.rule, scalars)? {
        return Err(ManageRefusal::BadField(row.field));
    }
    if has_too_many(alloc, row.rule, scalars)? {
        return Err(ManageRefusal::TooLong(row.field));
    }
    Ok(())
}

fn absent(row: FieldRow) -> Result<(), ManageRefusal>
    ensures { Gives (λ kept. kept) result (spec.absent row) }
{
    if row.needed {
        return Err(ManageRefusal::Missing(row.field));
    }
    Ok(())
}

// A list of nothing is as good as none.
fn list_kept(alloc: Global, row: FieldRow, scalars: &[Scalar]) -> Result<(), ManageRefusal>
    ensures { Gives (λ kept. kept) result (spec.list_kept row scalars.now) }
{
    match scalars {
        [] => absent(row),
        [_, ..] => texts_kept(alloc, row, scalars),
    }
}

fn scalar_kept(alloc: Global, row: FieldRow, scalar: &Scalar) -> Result<(), ManageRefusal>
    ensures { Gives (λ kept. kept) result (spec.texts_kept row.field row.rule (spec.scalar_text scalar.now ∷ [])) }
{
    texts_kept(alloc, row, std::slice::from_ref(scalar))
}

// One value is due, or a list where the row has one.
fn value_kept(alloc: Global, row: FieldRow, value: &FieldValue) -> Result<(), ManageRefusal>
    ensures { Gives (λ kept. kept) result (spec.value_kept row value.now) }
{
    match value {
        FieldValue::One(scalar) => scalar_kept(alloc, row, scalar),
        FieldValue::List(scalars) => {
            if row.listed {
                list_kept(alloc, row, scalars.as_slice())
            } else {
                Err(ManageRefusal::BadField(row.field))
            }
        }
    }
}

// The form has the field as the row has it.
#[tactic(auto, unfolding(crate::specs::Fields::field_kept))]
fn field_kept(alloc: Global, row: FieldRow, fields: &Fields) -> Result<(), ManageRefusal>
    ensures { Gives (λ kept. kept) result (spec.field_kept row fields.now) }
{
    match value_of(row.field, fields) {
        Some(value) => value_kept(alloc, row, value),
        None => absent(row),
    }
}

/// Judges the fields of a form in the order of a row; the first refusal is given.
#[tactic(auto, using(crate::proofs::Steps::stops), unfolding(crate::specs::Fields::fields_kept))]
pub(crate) fn fields_kept(
    alloc: Global,
    rows: &[FieldRow],
    fields: &Fields,
) -> Result<(), ManageRefusal>
    ensures { Gives (λ kept. kept) result (spec.fields_kept rows.now fields.now) }
{
    for row in rows {
        field_kept(alloc, *row, fields)?;
    }
    Ok(())
}

// ---- what a form says

fn texts_in(alloc: Global, value: &FieldValue) -> Result<Texts, Memory>
    ensures { IfOk result (λ texts. texts ≡ spec.texts_in (Some value.now)) }
{
    match value {
        FieldValue::One(scalar) => {
            let mut texts = Texts::new(alloc);
            texts.push(scalar_text(alloc, scalar)?)?;
            Ok(texts)
        }
        FieldValue::List(scalars) => scalar_texts(alloc, scalars.as_slice()),
    }
}

/// The texts of a field, none where it is absent.
#[tactic(auto, unfolding(crate::specs::Fields::texts_of))]
pub(crate) fn texts_of(alloc: Global, field: FieldName, fields: &Fields) -> Result<Texts, Memory>
    ensures { IfOk result (λ texts. texts ≡ spec.texts_of field fields.now) }
{
    match value_of(field, fields) {
        Some(value) => texts_in(alloc, value),
        None => Ok(Texts::new(alloc)),
    }
}

fn first_scalar(alloc: Global, scalars: &[Scalar]) -> Result<Text, Memory>
    ensures { IfOk result (λ text. text ≡ spec.first_text (map spec.scalar_text scalars.now)) }
{
    match scalars {
        [] => Ok(Text::new(alloc)),
        [scalar, ..] => scalar_text(alloc, scalar),
    }
}

/// The text of a field, empty where it is absent.
#[tactic(auto, unfolding(crate::specs::Fields::text_of, crate::specs::Fields::texts_of))]
pub(crate) fn text_of(alloc: Global, field: FieldName, fields: &Fields) -> Result<Text, Memory>
    ensures { IfOk result (λ text. text ≡ spec.text_of field fields.now) }
{
    match value_of(field, fields) {
        Some(FieldValue::One(scalar)) => scalar_text(alloc, scalar),
        Some(FieldValue::List(scalars)) => first_scalar(alloc, scalars.as_slice()),
        None => Ok(Text::new(alloc)),
    }
}
