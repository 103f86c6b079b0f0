use crate::rows::{said_text, said_texts, says};
use crate::words::{
    bytes_text, oid_in, permission_at, roles_in, split_named, split_three, text_from, texts_from,
    word_at,
};
use cases::{Case, CasesRefusal, Part};
use std::alloc::Global;
use zbase::{Items, Oid, Text};
use zobject::{
    Child, Children, Local, Locals, Object, Part2, PropValue, Properties, Property, Setting,
    Settings, User, Users,
};

/// The object of a row, with what the case and the other rows say of it.
pub(crate) fn object_of(
    alloc: Global,
    case: &Case,
    row: &Part,
    rows: &[Part],
) -> Result<Object, CasesRefusal> {
    let oid = row.number(1)?;
    Ok(Object {
        id: said_text(alloc, rows, "id", oid)?,
        parent: Oid(row.number(2)?),
        title: said_text(alloc, rows, "title", oid)?,
        settings: settings_of(alloc, rows, oid)?,
        locals: locals_of(alloc, rows, oid)?,
        properties: properties_of(alloc, rows, oid)?,
        part: part_of(alloc, case, row, rows)?,
    })
}

fn settings_of(alloc: Global, rows: &[Part], oid: u64) -> Result<Settings, CasesRefusal> {
    let mut settings = Items::new(alloc);
    for row in rows {
        let acquire = row.key() == "acquired";
        if says(row, "alone", oid)? || says(row, "acquired", oid)? {
            let permission = permission_at(row, 2)?;
            let roles = texts_from(alloc, row, 3)?;
            settings.push(Setting {
                permission,
                acquire,
                roles,
            })?;
        }
    }
    Ok(settings)
}

fn locals_of(alloc: Global, rows: &[Part], oid: u64) -> Result<Locals, CasesRefusal> {
    let mut locals = Items::new(alloc);
    for row in rows {
        if says(row, "local", oid)? {
            let user = Text::from_str(alloc, word_at(row, 2)?)?;
            let roles = texts_from(alloc, row, 3)?;
            locals.push(Local { user, roles })?;
        }
    }
    Ok(locals)
}

fn value_of(alloc: Global, row: &Part) -> Result<PropValue, CasesRefusal> {
    match word_at(row, 3)? {
        "int" => match word_at(row, 4)?.parse::<i64>() {
            Ok(number) => Ok(PropValue::Int(number)),
            Err(_) => Err(CasesRefusal::BadPart(row.line)),
        },
        "lines" => Ok(PropValue::Lines(texts_from(alloc, row, 4)?)),
        "line" => Ok(PropValue::Line(text_from(alloc, row, 4)?)),
        _ => Err(CasesRefusal::BadPart(row.line)),
    }
}

fn properties_of(alloc: Global, rows: &[Part], oid: u64) -> Result<Properties, CasesRefusal> {
    let mut properties = Items::new(alloc);
    for row in rows {
        if says(row, "property", oid)? {
            let name = Text::from_str(alloc, word_at(row, 2)?)?;
            let value = value_of(alloc, row)?;
            properties.push(Property { name, value })?;
        }
    }
    Ok(properties)
}

// The source that the case gives the object; empty where it gives none.
fn source_of(alloc: Global, case: &Case, oid: u64) -> Result<Text, CasesRefusal> {
    for part in &case.parts {
        if says(part, "source", oid)? {
            return bytes_text(alloc, part);
        }
    }
    Ok(Text::new(alloc))
}

fn part_of(alloc: Global, case: &Case, row: &Part, rows: &[Part]) -> Result<Part2, CasesRefusal> {
    let oid = row.number(1)?;
    let source = source_of(alloc, case, oid)?;
    let proxy = said_texts(alloc, rows, "proxy", oid)?;
    match row.key() {
        "method" => Ok(Part2::Method { source, proxy }),
        "document" => Ok(Part2::Document { source, proxy }),
        "users" => Ok(Part2::UserFolder(users_of(alloc, row)?)),
        _ => Ok(Part2::Folder(children_of(alloc, row)?)),
    }
}

// The children, each as NAME=ID.
fn children_of(alloc: Global, row: &Part) -> Result<Children, CasesRefusal> {
    let mut children = Items::new(alloc);
    for word in row.words.iter().skip(3) {
        let (name, id) = split_named(row, word.as_str())?;
        let oid = oid_in(row, id)?;
        let name = Text::from_str(alloc, name)?;
        children.push(Child { name, oid })?;
    }
    Ok(children)
}

// The users, each as NAME:PASSWORD:ROLE,ROLE.
fn users_of(alloc: Global, row: &Part) -> Result<Users, CasesRefusal> {
    let mut users = Items::new(alloc);
    for word in row.words.iter().skip(3) {
        let (name, password, roles) = split_three(row, word.as_str())?;
        users.push(User {
            name: Text::from_str(alloc, name)?,
            password: user_folder::keep(alloc, password)?,
            roles: roles_in(alloc, roles)?,
        })?;
    }
    Ok(users)
}
