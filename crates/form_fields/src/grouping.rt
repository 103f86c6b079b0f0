ghost use Rattle.std.specs.Prelude.{◌≡◌, ◌++◌, ◌∷◌, [], Some, IfOk, OnOk, map, set, get_or};
ghost use Rattle.form_fields.specs.Firsts.{AreAt};
ghost use Rattle.form_fields.specs.Fields.{fields_by};
ghost use Rattle.form_fields.specs.Grouping as spec;

use crate::places::{Places, place_of, put_name};
use crate::rows::Row;
use crate::{Field, FieldValue, Fields, Scalar};
use name_keys::names_differ;
use std::alloc::Global;
use std::collections::BTreeMap;
use std::mem;
use zbase::{Items, Memory};

// A value of a name that has values already.
fn with_value(alloc: Global, old: FieldValue, value: Scalar) -> Result<FieldValue, Memory>
    ensures { IfOk result (λ new. new ≡ spec.with_value value old) }
{
    let mut all = match old {
        FieldValue::One(first) => {
            let mut all = Items::new(alloc);
            all.push(first)?;
            all
        }
        FieldValue::List(all) => all,
    };
    all.push(value)?;
    Ok(FieldValue::List(all))
}

fn add_value(alloc: Global, field: &mut Field, value: Scalar) -> Result<(), Memory>
    ensures { OnOk result (field.new ≡ spec.with_one_more value field.old) }
{
    let none = FieldValue::List(Items::new(alloc));
    let old = mem::replace(&mut field.value, none);
    field.value = with_value(alloc, old, value)?;
    Ok(())
}

// The field of a name that comes first.
fn field_by(alloc: Global, row: Row) -> Result<Field, Memory>
    ensures { IfOk result (λ field. field ≡ spec.field_by row) }
{
    let Row {
        name,
        is_list,
        value,
    } = row;
    if !is_list {
        return Ok(Field {
            name,
            value: FieldValue::One(value),
        });
    }
    let mut all = Items::new(alloc);
    all.push(value)?;
    Ok(Field {
        name,
        value: FieldValue::List(all),
    })
}

fn add_row(
    alloc: Global,
    row: Row,
    fields: &mut Vec<Field>,
    places: &mut Places,
) -> Result<(), Memory>
    requires { AreAt (spec.names fields.old.items) places.old }
    ensures fields { OnOk result (fields.new.items ≡ spec.with_row fields.old.items row) }
    ensures places { OnOk result (AreAt (spec.names fields.new.items) places.new) }
{
    match place_of(places, row.name.as_str()) {
        Some(place) => add_value(alloc, &mut fields[place], row.value),
        None => {
            put_name(alloc, places, row.name.as_str(), fields.len())?;
            fields.push(field_by(alloc, row)?)?;
            Ok(())
        }
    }
}

// The fields of these rows, whose names may come again: a map tells where a name stands.
fn grouped_by_places(alloc: Global, rows: Vec<Row>) -> Result<Fields, Memory>
    ensures { IfOk result (λ fields. fields ≡ fields_by rows.items) }
{
    let mut fields = Vec::new(alloc);
    let mut places = BTreeMap::new(alloc);
    for row in rows {
        add_row(alloc, row, &mut fields, &mut places)?;
    }
    Ok(Items::from_vec(fields))
}

// The fields of these rows, one of each.
fn each_alone(alloc: Global, rows: Vec<Row>) -> Result<Fields, Memory>
    ensures { IfOk result (λ fields. fields ≡ map spec.field_by rows.items) }
{
    let mut fields = Vec::with_capacity(alloc, rows.len())?;
    for row in rows {
        fields.push(field_by(alloc, row)?)?;
    }
    Ok(Items::from_vec(fields))
}

/// The fields of these rows: one for each name, in the order in which the names come first.
pub(crate) fn grouped(alloc: Global, rows: Vec<Row>) -> Result<Fields, Memory>
    ensures { IfOk result (λ fields. fields ≡ fields_by rows.items) }
{
    if names_differ(alloc, rows.as_slice())? {
        each_alone(alloc, rows)
    } else {
        grouped_by_places(alloc, rows)
    }
}
