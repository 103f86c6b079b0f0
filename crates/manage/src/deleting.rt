ghost use Rattle.manage.specs.Becoming.{without_ids};
ghost use Rattle.manage.specs.Changing.{became};
ghost use Rattle.manage.specs.Fields.{Gives};
ghost use Rattle.manage.specs.Table as table;

use crate::copying::copy_with_part;
use crate::field::{fields_kept, texts_of};
use crate::refusal::{FieldName, ManageRefusal};
use crate::refusing::children_of;
use crate::rule::{FieldRule, list};
use crate::seeking::others;
use form_fields::Fields;
use std::alloc::Global;
use zobject::{Object, Part2};

/// The folder without the children that a form names.
#[tactic(auto, using(crate::proofs::Steps::stops), unfolding(crate::specs::Changing::judged, crate::specs::Fields::fields_kept))]
pub(crate) fn delete_objects(
    alloc: Global,
    folder: &Object,
    fields: &Fields,
) -> Result<Object, ManageRefusal>
    ensures { Gives (λ o. o) result (became table.delete_objects without_ids folder.now fields.now) }
{
    let rows = [list(FieldName::Ids, FieldRule::Any)];
    fields_kept(alloc, rows.as_slice(), fields)?;
    let ids = texts_of(alloc, FieldName::Ids, fields)?;
    let left = others(alloc, children_of(folder), &ids)?;
    Ok(copy_with_part(alloc, folder, Part2::Folder(left))?)
}
