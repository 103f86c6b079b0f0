ghost use Rattle.std.specs.Prelude.{◌≡◌, ◌&&◌, ◌∷◌, [], not, nat_lt, length, map};
ghost use Rattle.acquisition.specs.declared.limits.TheConstants.{MOST_ON_PATH};
ghost use Rattle.dtml_parse.specs.TreeReading.{template};
ghost use Rattle.zobject.specs.declared.limits.TheConstants.{MOST_CHILDREN, MOST_LOCALS, MOST_PROPERTIES, MOST_USERS};
ghost use Rattle.manage.specs.declared.refusal.ManageRefusal.TheVariants as refusals;
ghost use Rattle.manage.specs.Becoming.{children_in, is_among, users_in};
ghost use Rattle.manage.specs.Fields.{Gives, refuse_if};
ghost use Rattle.manage.specs.Refusing as refusing;

use crate::naming::{Named, is_taken};
use crate::refusal::ManageRefusal;
use acquisition::MOST_ON_PATH;
use dtml_lex::DtmlRefusal;
use dtml_parse::{parse, template_reader_agrees};
use std::alloc::Global;
use zbase::Text;
use zobject::limits::{MOST_CHILDREN, MOST_LINES, MOST_LOCALS, MOST_PROPERTIES, MOST_USERS};
use zobject::{Child, Local, Object, Part2, PropValue, Property, User};

/// The children of a folder. Takes no memory.
pub(crate) fn children_of(object: &Object) -> &[Child]
    ensures { result.now ≡ children_in object.now.part }
{
    match &object.part {
        Part2::Folder(children) => children.as_slice(),
        Part2::Method { .. } | Part2::Document { .. } | Part2::UserFolder(_) => &[],
    }
}

/// The users of a user folder. Takes no memory.
pub(crate) fn users_of(object: &Object) -> &[User]
    ensures { result.now ≡ users_in object.now.part }
{
    match &object.part {
        Part2::UserFolder(users) => users.as_slice(),
        Part2::Folder(_) | Part2::Method { .. } | Part2::Document { .. } => &[],
    }
}

/// None of the items has that name.
pub(crate) fn is_free<T: Named>(items: &[T], name: &Text) -> Result<(), ManageRefusal>
    ensures { Gives (λ x. x) result (refuse_if (is_among (map T.name_of items.now) name.now) (refusals.Taken name.now)) }
{
    if is_taken(items, name) {
        return Err(ManageRefusal::Taken(name.copy()?));
    }
    Ok(())
}

/// One of the items has that name.
pub(crate) fn is_known<T: Named>(items: &[T], name: &Text) -> Result<(), ManageRefusal>
    ensures { Gives (λ x. x) result (refusing.none_unknown (refusing.first_unknown (map T.name_of items.now) (name.now ∷ []))) }
{
    if is_taken(items, name) {
        return Ok(());
    }
    Err(ManageRefusal::NoSuchId(name.copy()?))
}

/// There is room for one child more, and for one object more on the path up to the root.
pub(crate) fn has_room(children: &[Child], depth: usize) -> Result<(), ManageRefusal>
    ensures { Gives (λ x. x) result (refuse_if (not (nat_lt (length children.now) MOST_CHILDREN && nat_lt depth MOST_ON_PATH)) refusals.TooMany) }
{
    if children.len() < MOST_CHILDREN as usize && depth < MOST_ON_PATH {
        return Ok(());
    }
    Err(ManageRefusal::TooMany)
}

/// There aren't too many users with local roles.
pub(crate) fn has_room_for_locals(locals: &[Local]) -> Result<(), ManageRefusal>
    ensures { Gives (λ x. x) result (refuse_if (nat_lt MOST_LOCALS (length locals.now)) refusals.TooMany) }
{
    if (MOST_LOCALS as usize) < locals.len() {
        return Err(ManageRefusal::TooMany);
    }
    Ok(())
}

/// There is room for one user more.
pub(crate) fn has_room_for_user(users: &[User]) -> Result<(), ManageRefusal>
    ensures { Gives (λ x. x) result (refuse_if (not (nat_lt (length users.now) MOST_USERS)) refusals.TooMany) }
{
    if users.len() < MOST_USERS as usize {
        return Ok(());
    }
    Err(ManageRefusal::TooMany)
}

fn is_short(value: &PropValue) -> bool
    ensures { result ≡ refusing.is_short value.now }
{
    match value {
        PropValue::Line(_) | PropValue::Int(_) => true,
        PropValue::Lines(lines) => lines.len() <= MOST_LINES as usize,
    }
}

/// There is room for one property more, and it hasn't too many lines.
pub(crate) fn has_room_for_property(
    properties: &[Property],
    value: &PropValue,
) -> Result<(), ManageRefusal>
    ensures { Gives (λ x. x) result (refuse_if (not (nat_lt (length properties.now) MOST_PROPERTIES && refusing.is_short value.now)) refusals.TooMany) }
{
    if properties.len() < MOST_PROPERTIES as usize && is_short(value) {
        return Ok(());
    }
    Err(ManageRefusal::TooMany)
}

/// The source is a template.
#[tactic(auto, using(crate::proofs::Templates::read_so, crate::proofs::Templates::refused_so))]
pub(crate) fn is_template(alloc: Global, source: &str) -> Result<(), ManageRefusal>
    ensures { Gives (λ x. x) result (refusing.where_read tt (template source.now)) }
{
    template_reader_agrees();
    match parse(alloc, source) {
        Ok(_) => Ok(()),
        Err(DtmlRefusal::Memory) => Err(ManageRefusal::Memory),
        Err(refusal) => Err(ManageRefusal::BadSource(refusal)),
    }
}
