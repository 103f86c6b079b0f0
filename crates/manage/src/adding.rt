ghost use Rattle.std.specs.Prelude.{◌≡◌, [], IfOk};
ghost use Rattle.zbase.specs.Query.{run, Answers};
ghost use Rattle.zobject.specs.Changes.{new_object as made};
ghost use Rattle.zobject.specs.Rules.{IsObject, kind_of};
ghost use Rattle.zobject.specs.declared.object.Part2.TheVariants as parts;
ghost use Rattle.zknown.specs.Seen.{objects};
ghost use Rattle.evaluator.specs.Questions.{as_ask};
ghost use Rattle.manage.specs.Becoming.{children_in, text};
ghost use Rattle.manage.specs.Calling.{told};
ghost use Rattle.manage.specs.Changing as changing;
ghost use Rattle.manage.specs.Fields.{Gives};
ghost use Rattle.manage.specs.Refusing.{acl_users};
ghost use Rattle.manage.specs.Table as table;
ghost use Rattle.manage.specs.Table.{no_text, row_of};
ghost use Rattle.manage.specs.Written.{change_of, with_child};
ghost use Rattle.manage.specs.declared.refusal.FieldName.TheVariants as field;

use crate::call::Call;
use crate::called::kind_of;
use crate::changes::{Change, NewChild, Page};
use crate::copying::{copy_items, copy_with_part};
use crate::field::{fields_kept, text_of};
use crate::laws::rows_keep_the_rules;
use crate::refusal::{FieldName, ManageRefusal};
use crate::refusing::{children_of, has_room, is_free, is_template};
use crate::rule::{FieldRule, maybe, one};
use crate::written::{fits, write, write_grown};
use acquisition::containers;
use evaluator::{Entries, Name};
use form_fields::Fields;
use std::alloc::Global;
use zbase::{Memory, Oid, Text};
use zknown::Known;
use zobject::{Child, Children, Kind, Locals, Object, Part2, Properties, Roles, Settings, Users};

// ---- the child

// A new folder.
#[tactic(auto, using(crate::proofs::Steps::stops), unfolding(crate::specs::Changing::judged, crate::specs::Fields::fields_kept))]
fn new_folder(
    alloc: Global,
    folder: &Object,
    fields: &Fields,
    depth: usize,
) -> Result<NewChild, ManageRefusal>
    ensures { Gives (λ child. child) result (changing.wanted (text field.Id) (text field.Title) (λ s. parts.Folder [])
        table.add_folder (record { object = folder.now; form = fields.now; depth = depth })) }
{
    let rows = [
        one(FieldName::Id, FieldRule::Id),
        maybe(FieldName::Title, FieldRule::Title),
    ];
    fields_kept(alloc, rows.as_slice(), fields)?;
    let id = text_of(alloc, FieldName::Id, fields)?;
    is_free(children_of(folder), &id)?;
    has_room(children_of(folder), depth)?;
    Ok(NewChild {
        id,
        title: text_of(alloc, FieldName::Title, fields)?,
        part: Part2::Folder(Children::new(alloc)),
    })
}

// What a new method or document has alone.
fn page_part(alloc: Global, page: Page, source: Text) -> Part2
    ensures { result ≡ changing.page_part page source }
{
    let proxy = Roles::new(alloc);
    match page {
        Page::Method => Part2::Method { source, proxy },
        Page::Document => Part2::Document { source, proxy },
    }
}

// A new method or document.
#[tactic(auto, using(crate::proofs::Steps::stops), unfolding(crate::specs::Changing::judged, crate::specs::Fields::fields_kept))]
fn new_page(
    alloc: Global,
    page: Page,
    folder: &Object,
    fields: &Fields,
    depth: usize,
) -> Result<NewChild, ManageRefusal>
    ensures { Gives (λ child. child) result (changing.wanted (text field.Id) (text field.Title) (λ s. changing.page_part page (text field.File s))
        table.add_method (record { object = folder.now; form = fields.now; depth = depth })) }
{
    let rows = [
        one(FieldName::Id, FieldRule::Id),
        maybe(FieldName::Title, FieldRule::Title),
        maybe(FieldName::File, FieldRule::Source),
    ];
    fields_kept(alloc, rows.as_slice(), fields)?;
    let id = text_of(alloc, FieldName::Id, fields)?;
    is_free(children_of(folder), &id)?;
    has_room(children_of(folder), depth)?;
    let source = text_of(alloc, FieldName::File, fields)?;
    is_template(alloc, source.as_str())?;
    Ok(NewChild {
        id,
        title: text_of(alloc, FieldName::Title, fields)?,
        part: page_part(alloc, page, source),
    })
}

// A new user folder, whose id and title no form says.
#[tactic(auto, using(crate::proofs::Steps::stops), unfolding(crate::specs::Changing::judged, crate::specs::Fields::fields_kept))]
fn new_user_folder(alloc: Global, folder: &Object, depth: usize) -> Result<NewChild, ManageRefusal>
    ensures { Gives (λ child. child) result (changing.wanted acl_users no_text (λ s. parts.UserFolder [])
        table.add_user_folder (record { object = folder.now; form = []; depth = depth })) }
{
    let id = Text::from_str(alloc, "acl_users")?;
    is_free(children_of(folder), &id)?;
    has_room(children_of(folder), depth)?;
    Ok(NewChild {
        id,
        title: Text::new(alloc),
        part: Part2::UserFolder(Users::new(alloc)),
    })
}

// The child that a call adds, where its row refuses nothing.
#[tactic(auto, unfolding(crate::specs::Changing::judged, crate::specs::Fields::fields_kept))]
fn new_child(
    alloc: Global,
    call: Call,
    folder: &Object,
    fields: &Fields,
    depth: usize,
) -> Result<NewChild, ManageRefusal>
    ensures { Gives (λ child. child) result (changing.child_wanted (row_of call (kind_of folder.now.part)) call
        (record { object = folder.now; form = fields.now; depth = depth })) }
{
    match (call, kind_of(&folder.part)) {
        (Call::AddFolder, Kind::Folder) => new_folder(alloc, folder, fields, depth),
        (Call::AddMethod, Kind::Folder) => new_page(alloc, Page::Method, folder, fields, depth),
        (Call::AddDocument, Kind::Folder) => new_page(alloc, Page::Document, folder, fields, depth),
        (Call::AddUserFolder, Kind::Folder) => new_user_folder(alloc, folder, depth),
        _ => Err(ManageRefusal::NotFound(call)),
    }
}

// ---- what is written

// The folder with one child more, whose id isn't known yet.
fn grown(alloc: Global, folder: &Object, name: &Text) -> Result<Object, Memory>
    ensures { IfOk result (λ more. more ≡ with_child folder.now (children_in folder.now.part) name.now 0) }
{
    let mut children = copy_items(alloc, children_of(folder))?;
    children.push(Child {
        name: name.copy()?,
        oid: Oid(0),
    })?;
    copy_with_part(alloc, folder, Part2::Folder(children))
}

// An object that was just made.
fn new_object(alloc: Global, parent: Oid, child: NewChild) -> Object
    ensures { result ≡ made child.id parent child.title child.part }
{
    Object {
        id: child.id,
        parent,
        title: child.title,
        settings: Settings::new(alloc),
        locals: Locals::new(alloc),
        properties: Properties::new(alloc),
        part: child.part,
    }
}

// The folder with the child last, and the child, which is new.
fn write_added(alloc: Global, oid: Oid, folder: &Object, child: NewChild) -> Result<Change, Memory>
    requires folder { IsObject (with_child folder.now (children_in folder.now.part) child.id 0) }
    requires child { IsObject (made child.id oid child.title child.part) }
    ensures { IfOk result (λ change. change ≡ change_of (changing.added oid folder.now child)) }
{
    let more = grown(alloc, folder, &child.id)?;
    let new = new_object(alloc, oid, child);
    let mut entries = Entries::new(alloc);
    entries.push(write_grown(alloc, oid, &more)?)?;
    entries.push(write(alloc, Name::New(0), &new)?)?;
    Ok(Change { entries })
}

#[tactic(auto, using(crate::proofs::Steps::stops))]
fn add_at(
    alloc: Global,
    call: Call,
    oid: Oid,
    folder: &Object,
    fields: &Fields,
    depth: usize,
) -> Result<Change, ManageRefusal>
    requires lawful { IsObject folder.now }
    ensures { Gives (λ change. change) result (changing.child_added (row_of call (kind_of folder.now.part)) call oid
        (record { object = folder.now; form = fields.now; depth = depth })) }
{
    rows_keep_the_rules();
    fits(oid.0);
    let child = new_child(alloc, call, folder, fields, depth)?;
    Ok(write_added(alloc, oid, folder, child)?)
}

// How many objects there are from it up to the root.
#[tactic(auto, using(crate::proofs::Children::depth_is, crate::proofs::Children::no_depth_is))]
fn depth_of(alloc: Global, known: &Known, oid: Oid) -> Result<usize, ManageRefusal>
    ensures { Answers told (λ depth. depth) result (as_ask (run (objects known.now) (changing.depth_of oid))) }
{
    let path = containers(alloc, known, oid)?;
    Ok(path.len())
}

/// What a call changes that adds a child to a folder.
#[tactic(auto, using(crate::proofs::Children::passes_adding))]
pub(crate) fn change_adding(
    alloc: Global,
    call: Call,
    oid: Oid,
    known: &Known,
    folder: &Object,
    fields: &Fields,
) -> Result<Change, ManageRefusal>
    requires lawful { IsObject folder.now }
    requires adding { changing.IsAdding (row_of call (kind_of folder.now.part)) }
    ensures { Answers told (λ change. change) result (as_ask (run (objects known.now)
        (changing.change_by (row_of call (kind_of folder.now.part)) call oid folder.now fields.now))) }
{
    let depth = depth_of(alloc, known, oid)?;
    add_at(alloc, call, oid, folder, fields, depth)
}
