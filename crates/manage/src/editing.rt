ghost use Rattle.std.specs.Prelude.{◌≡◌, IfOk, Ok};
ghost use Rattle.zobject.specs.Changes.{with_title};
ghost use Rattle.manage.specs.Becoming as becoming;
ghost use Rattle.manage.specs.Changing.{became};
ghost use Rattle.manage.specs.Fields.{Gives, texts_of as said};
ghost use Rattle.manage.specs.Table as table;
ghost use Rattle.manage.specs.declared.refusal.FieldName.TheVariants as names;

use crate::copying::{copy_items, copy_part, copy_with};
use crate::field::{fields_kept, text_of, texts_of};
use crate::refusal::{FieldName, ManageRefusal};
use crate::refusing::is_template;
use crate::rule::{FieldRule, maybe, one};
use form_fields::Fields;
use std::alloc::Global;
use zbase::{Memory, Text, Texts};
use zobject::{Object, Part2};

// The first of the texts, or the old one where there is none.
fn first_or(old: &Text, texts: &Texts) -> Result<Text, Memory>
    ensures { IfOk result (λ title. title ≡ becoming.title_or old.now texts.now) }
{
    match texts.as_slice() {
        [] => old.copy(),
        [new, ..] => new.copy(),
    }
}

// The new title, where the form has one, or the old one.
fn title_or(alloc: Global, old: &Text, fields: &Fields) -> Result<Text, Memory>
    ensures { IfOk result (λ title. title ≡ becoming.title_or old.now (said names.Title fields.now)) }
{
    first_or(old, &texts_of(alloc, FieldName::Title, fields)?)
}

// The same once more with another source.
fn with_source(alloc: Global, part: &Part2, source: Text) -> Result<Part2, Memory>
    ensures { IfOk result (λ new. new ≡ becoming.with_source source part.now) }
{
    match part {
        Part2::Method { proxy, .. } => Ok(Part2::Method {
            source,
            proxy: copy_items(alloc, proxy.as_slice())?,
        }),
        Part2::Document { proxy, .. } => Ok(Part2::Document {
            source,
            proxy: copy_items(alloc, proxy.as_slice())?,
        }),
        Part2::Folder(_) | Part2::UserFolder(_) => copy_part(alloc, part),
    }
}

/// A method or document with another source, and another title where the form has one.
#[tactic(auto, using(crate::proofs::Steps::stops), unfolding(crate::specs::Changing::judged, crate::specs::Fields::fields_kept))]
pub(crate) fn edit_page(
    alloc: Global,
    object: &Object,
    fields: &Fields,
) -> Result<Object, ManageRefusal>
    ensures { Gives (λ o. o) result (became table.edit_method becoming.edited_page object.now fields.now) }
{
    let rows = [
        one(FieldName::Data, FieldRule::Source),
        maybe(FieldName::Title, FieldRule::Title),
    ];
    fields_kept(alloc, rows.as_slice(), fields)?;
    let source = text_of(alloc, FieldName::Data, fields)?;
    is_template(alloc, source.as_str())?;
    let title = title_or(alloc, &object.title, fields)?;
    let part = with_source(alloc, &object.part, source)?;
    Ok(copy_with(alloc, object, title, part)?)
}

// The same object once more with another title.
fn retitled(alloc: Global, object: &Object, title: Text) -> Result<Object, Memory>
    ensures { IfOk result (λ new. new ≡ with_title title object.now) }
{
    let part = copy_part(alloc, &object.part)?;
    copy_with(alloc, object, title, part)
}

/// A folder with another title.
#[tactic(auto, using(crate::proofs::Steps::stops), unfolding(crate::specs::Changing::judged, crate::specs::Fields::fields_kept))]
pub(crate) fn edit_folder(
    alloc: Global,
    object: &Object,
    fields: &Fields,
) -> Result<Object, ManageRefusal>
    ensures { Gives (λ o. o) result (became table.edit_folder becoming.edited_folder object.now fields.now) }
{
    let rows = [one(FieldName::Title, FieldRule::Title)];
    fields_kept(alloc, rows.as_slice(), fields)?;
    let title = text_of(alloc, FieldName::Title, fields)?;
    Ok(retitled(alloc, object, title)?)
}
