use std::alloc::Global;
use zbase::{Bytes, Memory, Text, Texts};
use zobject::{
    Children, Locals, Object, Part2, PropValue, Properties, Property, Roles, Settings, Users,
};

// Adds a text in brackets, behind a space.
fn put_text(out: &mut Bytes, text: &Text) -> Result<(), Memory> {
    out.append(b" [")?;
    out.append(text.as_bytes())?;
    out.append(b"]")
}

fn put_texts(out: &mut Bytes, texts: &Texts) -> Result<(), Memory> {
    for text in texts.as_slice() {
        put_text(out, text)?;
    }
    Ok(())
}

// Adds a line of a word and a text.
fn put_field(out: &mut Bytes, word: &[u8], text: &Text) -> Result<(), Memory> {
    out.append(word)?;
    put_text(out, text)?;
    out.push(b'\n')
}

fn put_settings(alloc: Global, out: &mut Bytes, settings: &Settings) -> Result<(), Memory> {
    for setting in settings.as_slice() {
        let number = setting.permission;
        let word = if setting.acquire { "yes" } else { "no" };
        out.append(format!(in alloc; "setting {number} {word}")?.as_bytes())?;
        put_texts(out, &setting.roles)?;
        out.push(b'\n')?;
    }
    Ok(())
}

fn put_locals(out: &mut Bytes, locals: &Locals) -> Result<(), Memory> {
    for local in locals.as_slice() {
        out.append(b"local")?;
        put_text(out, &local.user)?;
        put_texts(out, &local.roles)?;
        out.push(b'\n')?;
    }
    Ok(())
}

fn put_property(alloc: Global, out: &mut Bytes, property: &Property) -> Result<(), Memory> {
    out.append(b"property")?;
    put_text(out, &property.name)?;
    match &property.value {
        PropValue::Line(line) => {
            out.append(b" line")?;
            put_text(out, line)?;
        }
        PropValue::Int(number) => {
            let number = *number;
            out.append(format!(in alloc; " int {number}")?.as_bytes())?;
        }
        PropValue::Lines(lines) => {
            out.append(b" lines")?;
            put_texts(out, lines)?;
        }
    }
    out.push(b'\n')
}

fn put_properties(alloc: Global, out: &mut Bytes, properties: &Properties) -> Result<(), Memory> {
    for property in properties.as_slice() {
        put_property(alloc, out, property)?;
    }
    Ok(())
}

fn put_children(alloc: Global, out: &mut Bytes, children: &Children) -> Result<(), Memory> {
    for child in children.as_slice() {
        let oid = child.oid.0;
        out.append(format!(in alloc; "child {oid:016x}")?.as_bytes())?;
        put_text(out, &child.name)?;
        out.push(b'\n')?;
    }
    Ok(())
}

fn put_users(out: &mut Bytes, users: &Users) -> Result<(), Memory> {
    for user in users.as_slice() {
        out.append(b"user")?;
        put_text(out, &user.name)?;
        put_text(out, &user.password)?;
        put_texts(out, &user.roles)?;
        out.push(b'\n')?;
    }
    Ok(())
}

// Adds the kind, the source and the proxy roles.
fn put_page(out: &mut Bytes, word: &[u8], source: &Text, proxy: &Roles) -> Result<(), Memory> {
    put_field(out, word, source)?;
    out.append(b"proxy")?;
    put_texts(out, proxy)?;
    out.push(b'\n')
}

// Adds what only its kind has.
fn put_kind(alloc: Global, out: &mut Bytes, part: &Part2) -> Result<(), Memory> {
    match part {
        Part2::Folder(children) => {
            out.append(b"folder\n")?;
            put_children(alloc, out, children)
        }
        Part2::Method { source, proxy } => put_page(out, b"method", source, proxy),
        Part2::Document { source, proxy } => put_page(out, b"document", source, proxy),
        Part2::UserFolder(users) => {
            out.append(b"user folder\n")?;
            put_users(out, users)
        }
    }
}

// Adds the fields that have one value.
fn put_plain(alloc: Global, out: &mut Bytes, object: &Object) -> Result<(), Memory> {
    let parent = object.parent.0;
    put_field(out, b"id", &object.id)?;
    out.append(format!(in alloc; "parent {parent:016x}\n")?.as_bytes())?;
    put_field(out, b"title", &object.title)
}

// Adds the fields that have many values.
fn put_lists(alloc: Global, out: &mut Bytes, object: &Object) -> Result<(), Memory> {
    put_settings(alloc, out, &object.settings)?;
    put_locals(out, &object.locals)?;
    put_properties(alloc, out, &object.properties)
}

/// The fields of an object, one a line.
pub fn shown(alloc: Global, object: &Object) -> Result<Bytes, Memory> {
    let mut out = Bytes::new(alloc);
    put_plain(alloc, &mut out, object)?;
    put_lists(alloc, &mut out, object)?;
    put_kind(alloc, &mut out, &object.part)?;
    Ok(out)
}
