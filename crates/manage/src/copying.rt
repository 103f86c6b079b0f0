ghost use Rattle.std.specs.Prelude.{◌≡◌, IfOk};
ghost use Rattle.zobject.specs.Changes.{with_id, with_locals, with_part, with_properties, with_settings, with_title};

use std::alloc::Global;
use zbase::{Items, Memory, Text};
use zobject::{
    Child, Local, Locals, Object, Part2, PropValue, Properties, Property, Setting, Settings, User,
};

/// What a list has items of that are copied one by one.
pub(crate) trait Copied: Drop {
    /// The same once more.
    fn copied(&self, alloc: Global) -> Result<Self, Memory>
        ensures { IfOk result (λ copy. copy ≡ self.now) };
}

/// The same list once more.
pub(crate) fn copy_items<T: Copied>(alloc: Global, items: &[T]) -> Result<Items<T>, Memory>
    ensures { IfOk result (λ copies. copies ≡ items.now) }
{
    let mut copies = Items::from_vec(Vec::with_capacity(alloc, items.len())?);
    for item in items {
        copies.push(item.copied(alloc)?)?;
    }
    Ok(copies)
}

impl Copied for Text {
    fn copied(&self, _alloc: Global) -> Result<Text, Memory> {
        self.copy()
    }
}

impl Copied for Setting {
    fn copied(&self, alloc: Global) -> Result<Setting, Memory> {
        Ok(Setting {
            permission: self.permission,
            acquire: self.acquire,
            roles: copy_items(alloc, self.roles.as_slice())?,
        })
    }
}

impl Copied for Local {
    fn copied(&self, alloc: Global) -> Result<Local, Memory> {
        Ok(Local {
            user: self.user.copy()?,
            roles: copy_items(alloc, self.roles.as_slice())?,
        })
    }
}

fn copy_value(alloc: Global, value: &PropValue) -> Result<PropValue, Memory>
    ensures { IfOk result (λ copy. copy ≡ value.now) }
{
    match value {
        PropValue::Line(text) => Ok(PropValue::Line(text.copy()?)),
        PropValue::Int(number) => Ok(PropValue::Int(*number)),
        PropValue::Lines(texts) => Ok(PropValue::Lines(copy_items(alloc, texts.as_slice())?)),
    }
}

impl Copied for Property {
    fn copied(&self, alloc: Global) -> Result<Property, Memory> {
        Ok(Property {
            name: self.name.copy()?,
            value: copy_value(alloc, &self.value)?,
        })
    }
}

impl Copied for Child {
    fn copied(&self, _alloc: Global) -> Result<Child, Memory> {
        Ok(Child {
            name: self.name.copy()?,
            oid: self.oid,
        })
    }
}

impl Copied for User {
    fn copied(&self, alloc: Global) -> Result<User, Memory> {
        Ok(User {
            name: self.name.copy()?,
            password: self.password.copy()?,
            roles: copy_items(alloc, self.roles.as_slice())?,
        })
    }
}

/// The same once more of what only its kind has.
pub(crate) fn copy_part(alloc: Global, part: &Part2) -> Result<Part2, Memory>
    ensures { IfOk result (λ copy. copy ≡ part.now) }
{
    match part {
        Part2::Folder(children) => Ok(Part2::Folder(copy_items(alloc, children.as_slice())?)),
        Part2::Method { source, proxy } => Ok(Part2::Method {
            source: source.copy()?,
            proxy: copy_items(alloc, proxy.as_slice())?,
        }),
        Part2::Document { source, proxy } => Ok(Part2::Document {
            source: source.copy()?,
            proxy: copy_items(alloc, proxy.as_slice())?,
        }),
        Part2::UserFolder(users) => Ok(Part2::UserFolder(copy_items(alloc, users.as_slice())?)),
    }
}

/// The same object once more, with this title and this of its kind.
pub(crate) fn copy_with(
    alloc: Global,
    object: &Object,
    title: Text,
    part: Part2,
) -> Result<Object, Memory>
    ensures { IfOk result (λ copy. copy ≡ with_title title (with_part part object.now)) }
{
    Ok(Object {
        id: object.id.copy()?,
        parent: object.parent,
        title,
        settings: copy_items(alloc, object.settings.as_slice())?,
        locals: copy_items(alloc, object.locals.as_slice())?,
        properties: copy_items(alloc, object.properties.as_slice())?,
        part,
    })
}

/// The same object once more, with this of its kind.
pub(crate) fn copy_with_part(alloc: Global, object: &Object, part: Part2) -> Result<Object, Memory>
    ensures { IfOk result (λ copy. copy ≡ with_part part object.now) }
{
    copy_with(alloc, object, object.title.copy()?, part)
}

/// The same object once more, with these settings.
pub(crate) fn copy_with_settings(
    alloc: Global,
    object: &Object,
    settings: Settings,
) -> Result<Object, Memory>
    ensures { IfOk result (λ copy. copy ≡ with_settings settings object.now) }
{
    Ok(Object {
        id: object.id.copy()?,
        parent: object.parent,
        title: object.title.copy()?,
        settings,
        locals: copy_items(alloc, object.locals.as_slice())?,
        properties: copy_items(alloc, object.properties.as_slice())?,
        part: copy_part(alloc, &object.part)?,
    })
}

/// The same object once more, with these local roles.
pub(crate) fn copy_with_locals(
    alloc: Global,
    object: &Object,
    locals: Locals,
) -> Result<Object, Memory>
    ensures { IfOk result (λ copy. copy ≡ with_locals locals object.now) }
{
    Ok(Object {
        id: object.id.copy()?,
        parent: object.parent,
        title: object.title.copy()?,
        settings: copy_items(alloc, object.settings.as_slice())?,
        locals,
        properties: copy_items(alloc, object.properties.as_slice())?,
        part: copy_part(alloc, &object.part)?,
    })
}

/// The same object once more, with these properties.
pub(crate) fn copy_with_properties(
    alloc: Global,
    object: &Object,
    properties: Properties,
) -> Result<Object, Memory>
    ensures { IfOk result (λ copy. copy ≡ with_properties properties object.now) }
{
    Ok(Object {
        id: object.id.copy()?,
        parent: object.parent,
        title: object.title.copy()?,
        settings: copy_items(alloc, object.settings.as_slice())?,
        locals: copy_items(alloc, object.locals.as_slice())?,
        properties,
        part: copy_part(alloc, &object.part)?,
    })
}

/// The same object once more, with this id.
pub(crate) fn copy_with_id(alloc: Global, object: &Object, id: Text) -> Result<Object, Memory>
    ensures { IfOk result (λ copy. copy ≡ with_id id object.now) }
{
    Ok(Object {
        id,
        parent: object.parent,
        title: object.title.copy()?,
        settings: copy_items(alloc, object.settings.as_slice())?,
        locals: copy_items(alloc, object.locals.as_slice())?,
        properties: copy_items(alloc, object.properties.as_slice())?,
        part: copy_part(alloc, &object.part)?,
    })
}
