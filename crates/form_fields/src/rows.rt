ghost use Rattle.std.specs.Prelude.{◌≡◌, Ok, IfOk, IfErr};
ghost use Rattle.form_fields.specs.Names.{named_by};
ghost use Rattle.form_fields.specs.Rows as spec;
ghost use Rattle.form_fields.specs.Views.{named_view, pair_views};

use crate::names::{Named, named_by};
use crate::numbers::whole_number;
use crate::pairs::{Pair, Pairs};
use crate::{FieldRefusal, Scalar};
use name_keys::HasName;
use std::alloc::Global;
use zbase::Text;

/// A value under its name without suffixes.
#[derive(Debug, Drop)]
pub(crate) struct Row {
    pub name: Text,
    pub is_list: bool,
    pub value: Scalar,
}

impl HasName for Row {
    ghost name_of = { λ row. row.name };

    fn name_bytes(&self) -> &[u8] {
        self.name.as_bytes()
    }
}

fn scalar_of(alloc: Global, named: &Named<'_>, text: Text) -> Result<Scalar, FieldRefusal>
    ensures ok { IfOk result (λ value. spec.scalar_by (named_view named.now) text ≡ Ok value) }
    ensures err { IfErr result (λ refusal. spec.Fails refusal (spec.scalar_by (named_view named.now) text)) }
{
    if !named.is_int {
        return Ok(Scalar::Text(text));
    }
    match whole_number(text.as_str()) {
        Some(number) => Ok(Scalar::Int(number)),
        None => Err(FieldRefusal::NotANumber(Text::from_str(alloc, named.name)?)),
    }
}

fn row_of(alloc: Global, pair: Pair) -> Result<Row, FieldRefusal>
    ensures ok { IfOk result (λ row. spec.row_by (named_by pair.name) pair.value ≡ Ok row) }
    ensures err { IfErr result (λ refusal. spec.Fails refusal (spec.row_by (named_by pair.name) pair.value)) }
{
    let Pair { name, value } = pair;
    let named = named_by(name.as_str());
    let value = scalar_of(alloc, &named, value)?;
    Ok(Row {
        name: Text::from_str(alloc, named.name)?,
        is_list: named.is_list,
        value,
    })
}

/// The rows of pairs, or the first of them whose value isn't the number that its name asks for.
pub(crate) fn rows_of(alloc: Global, pairs: Pairs) -> Result<Vec<Row>, FieldRefusal>
    ensures ok { IfOk result (λ rows. spec.rows_of (pair_views pairs) ≡ Ok rows.items) }
    ensures err { IfErr result (λ refusal. spec.Fails refusal (spec.rows_of (pair_views pairs))) }
{
    let mut rows = Vec::with_capacity(alloc, pairs.len())?;
    for pair in pairs.into_vec() {
        rows.push(row_of(alloc, pair)?)?;
    }
    Ok(rows)
}
