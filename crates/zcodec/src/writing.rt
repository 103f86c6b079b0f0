ghost use Rattle.std.specs.Prelude.{◌≡◌, ◌++◌, IfOk, OnOk};
ghost use Rattle.std.specs.List.{flat_map};
ghost use Rattle.std.specs.Int.{cast_unsigned};
ghost use Rattle.zbase.specs.Numbers.{be16, be32, be64};
ghost use Rattle.zobject.specs.Rules.{IsObject, kind_of};
ghost use Rattle.zobject.specs.Texts.{letter};
ghost use Rattle.zobject.specs.declared.version.Version.TheVariants.{Second};
ghost use Rattle.zobject.specs.declared.object.PropValue.TheVariants as PropValue;
ghost use Rattle.zcodec.specs.Record as spelled;

use std::alloc::Global;
use zbase::{Bytes, Memory, Text, Texts};
use zobject::{
    Child, Children, Local, Locals, Object, Part2, PropValue, Properties, Property, Roles, Setting,
    Settings, User, Users,
};

// The functions `put_..` add the spelling of a part to what was written. A length goes into two bytes, and a
// source's into four, without the bits above them: an object that has a record has no longer texts.

// The two low bytes of a number.
#[tactic(auto, unfolding(zbase::specs::Numbers::be16))]
fn put_u16(out: &mut Bytes, n: usize) -> Result<(), Memory>
    ensures { OnOk result (out.new ≡ out.old ++ be16 n) }
{
    out.append(&n.to_be_bytes()[6..])
}

// The four low bytes of a number.
#[tactic(auto, unfolding(zbase::specs::Numbers::be32))]
fn put_u32(out: &mut Bytes, n: usize) -> Result<(), Memory>
    ensures { OnOk result (out.new ≡ out.old ++ be32 n) }
{
    out.append(&n.to_be_bytes()[4..])
}

// A number in eight bytes.
#[tactic(auto, unfolding(zbase::specs::Numbers::be64))]
fn put_u64(out: &mut Bytes, n: u64) -> Result<(), Memory>
    ensures { OnOk result (out.new ≡ out.old ++ be64 n) }
{
    out.append(&n.to_be_bytes())
}

// A text behind its length.
#[tactic(auto, unfolding(crate::specs::Record::text))]
fn put_text(out: &mut Bytes, text: &Text) -> Result<(), Memory>
    ensures { OnOk result (out.new ≡ out.old ++ spelled.text text.now) }
{
    put_u16(out, text.len())?;
    out.append(text.as_bytes())
}

// A source behind its length.
#[tactic(auto, unfolding(crate::specs::Record::source_text))]
fn put_source(out: &mut Bytes, source: &Text) -> Result<(), Memory>
    ensures { OnOk result (out.new ≡ out.old ++ spelled.source_text source.now) }
{
    put_u32(out, source.len())?;
    out.append(source.as_bytes())
}

fn put_each_text(out: &mut Bytes, texts: &[Text]) -> Result<(), Memory>
    ensures { OnOk result (out.new ≡ out.old ++ flat_map spelled.text texts.now) }
{
    for text in texts {
        put_text(out, text)?;
    }
    Ok(())
}

#[tactic(auto, unfolding(crate::specs::Record::list_of))]
fn put_texts(out: &mut Bytes, texts: &Texts) -> Result<(), Memory>
    ensures { OnOk result (out.new ≡ out.old ++ spelled.list_of spelled.text texts.now) }
{
    put_u16(out, texts.len())?;
    put_each_text(out, texts.as_slice())
}

fn put_setting(out: &mut Bytes, setting: &Setting) -> Result<(), Memory>
    ensures { OnOk result (out.new ≡ out.old ++ spelled.setting setting.now) }
{
    out.push(setting.permission)?;
    out.push(u8::from(setting.acquire))?;
    put_texts(out, &setting.roles)
}

fn put_each_setting(out: &mut Bytes, settings: &[Setting]) -> Result<(), Memory>
    ensures { OnOk result (out.new ≡ out.old ++ flat_map spelled.setting settings.now) }
{
    for setting in settings {
        put_setting(out, setting)?;
    }
    Ok(())
}

#[tactic(auto, unfolding(crate::specs::Record::list_of))]
fn put_settings(out: &mut Bytes, settings: &Settings) -> Result<(), Memory>
    ensures { OnOk result (out.new ≡ out.old ++ spelled.list_of spelled.setting settings.now) }
{
    put_u16(out, settings.len())?;
    put_each_setting(out, settings.as_slice())
}

fn put_local(out: &mut Bytes, local: &Local) -> Result<(), Memory>
    ensures { OnOk result (out.new ≡ out.old ++ spelled.local_roles local.now) }
{
    put_text(out, &local.user)?;
    put_texts(out, &local.roles)
}

fn put_each_local(out: &mut Bytes, locals: &[Local]) -> Result<(), Memory>
    ensures { OnOk result (out.new ≡ out.old ++ flat_map spelled.local_roles locals.now) }
{
    for local in locals {
        put_local(out, local)?;
    }
    Ok(())
}

#[tactic(auto, unfolding(crate::specs::Record::list_of))]
fn put_locals(out: &mut Bytes, locals: &Locals) -> Result<(), Memory>
    ensures { OnOk result (out.new ≡ out.old ++ spelled.list_of spelled.local_roles locals.now) }
{
    put_u16(out, locals.len())?;
    put_each_local(out, locals.as_slice())
}

fn put_line(out: &mut Bytes, line: &Text) -> Result<(), Memory>
    ensures { OnOk result (out.new ≡ out.old ++ spelled.value Second (PropValue.Line line.now)) }
{
    out.push(b's')?;
    put_text(out, line)
}

fn put_int(out: &mut Bytes, number: i64) -> Result<(), Memory>
    ensures { OnOk result (out.new ≡ out.old ++ spelled.value Second (PropValue.Int number)) }
{
    out.push(b'i')?;
    put_u64(out, number.cast_unsigned())
}

fn put_lines(out: &mut Bytes, lines: &Texts) -> Result<(), Memory>
    ensures { OnOk result (out.new ≡ out.old ++ spelled.value Second (PropValue.Lines lines.now)) }
{
    out.push(b'l')?;
    put_texts(out, lines)
}

// A value behind its type.
fn put_value(out: &mut Bytes, value: &PropValue) -> Result<(), Memory>
    ensures { OnOk result (out.new ≡ out.old ++ spelled.value Second value.now) }
{
    match value {
        PropValue::Line(line) => put_line(out, line),
        PropValue::Int(number) => put_int(out, *number),
        PropValue::Lines(lines) => put_lines(out, lines),
    }
}

fn put_property(out: &mut Bytes, property: &Property) -> Result<(), Memory>
    ensures { OnOk result (out.new ≡ out.old ++ spelled.property Second property.now) }
{
    put_text(out, &property.name)?;
    put_value(out, &property.value)
}

fn put_each_property(out: &mut Bytes, properties: &[Property]) -> Result<(), Memory>
    ensures { OnOk result (out.new ≡ out.old ++ flat_map (spelled.property Second) properties.now) }
{
    for property in properties {
        put_property(out, property)?;
    }
    Ok(())
}

#[tactic(auto, unfolding(crate::specs::Record::list_of))]
fn put_properties(out: &mut Bytes, properties: &Properties) -> Result<(), Memory>
    ensures { OnOk result (out.new ≡ out.old ++ spelled.list_of (spelled.property Second) properties.now) }
{
    put_u16(out, properties.len())?;
    put_each_property(out, properties.as_slice())
}

fn put_child(out: &mut Bytes, child: &Child) -> Result<(), Memory>
    ensures { OnOk result (out.new ≡ out.old ++ spelled.child child.now) }
{
    put_text(out, &child.name)?;
    put_u64(out, child.oid.0)
}

fn put_each_child(out: &mut Bytes, children: &[Child]) -> Result<(), Memory>
    ensures { OnOk result (out.new ≡ out.old ++ flat_map spelled.child children.now) }
{
    for child in children {
        put_child(out, child)?;
    }
    Ok(())
}

#[tactic(auto, unfolding(crate::specs::Record::list_of))]
fn put_children(out: &mut Bytes, children: &Children) -> Result<(), Memory>
    ensures { OnOk result (out.new ≡ out.old ++ spelled.list_of spelled.child children.now) }
{
    put_u16(out, children.len())?;
    put_each_child(out, children.as_slice())
}

fn put_user(out: &mut Bytes, user: &User) -> Result<(), Memory>
    ensures { OnOk result (out.new ≡ out.old ++ spelled.user user.now) }
{
    put_text(out, &user.name)?;
    put_text(out, &user.password)?;
    put_texts(out, &user.roles)
}

fn put_each_user(out: &mut Bytes, users: &[User]) -> Result<(), Memory>
    ensures { OnOk result (out.new ≡ out.old ++ flat_map spelled.user users.now) }
{
    for user in users {
        put_user(out, user)?;
    }
    Ok(())
}

#[tactic(auto, unfolding(crate::specs::Record::list_of))]
fn put_users(out: &mut Bytes, users: &Users) -> Result<(), Memory>
    ensures { OnOk result (out.new ≡ out.old ++ spelled.list_of spelled.user users.now) }
{
    put_u16(out, users.len())?;
    put_each_user(out, users.as_slice())
}

// The letter of a kind.
fn letter_of(part: &Part2) -> u8
    ensures { result ≡ letter (kind_of part.now) }
{
    match part {
        Part2::Folder(_) => b'F',
        Part2::Method { .. } => b'M',
        Part2::Document { .. } => b'D',
        Part2::UserFolder(_) => b'U',
    }
}

// A source, and the proxy roles of the method or document behind it.
fn put_page(out: &mut Bytes, source: &Text, proxy: &Roles) -> Result<(), Memory>
    ensures { OnOk result (out.new ≡ out.old ++ (spelled.source_text source.now ++ spelled.proxy_text Second proxy.now)) }
{
    put_source(out, source)?;
    put_texts(out, proxy)
}

fn put_part(out: &mut Bytes, part: &Part2) -> Result<(), Memory>
    ensures { OnOk result (out.new ≡ out.old ++ spelled.part_text Second part.now) }
{
    match part {
        Part2::Folder(children) => put_children(out, children),
        Part2::Method { source, proxy } | Part2::Document { source, proxy } => put_page(
            out, source, proxy,
        ),
        Part2::UserFolder(users) => put_users(out, users),
    }
}

/// The record of an object, in the second version: its one spelling there.
///
/// An object that keeps the rules has this record; want of memory is the one error.
#[tactic(auto, unfolding(crate::specs::Record::record_text))]
pub fn encode(alloc: Global, object: &Object) -> Result<Bytes, Memory>
    requires lawful { IsObject object.now }
    ensures spelled { IfOk result (λ bytes. bytes ≡ spelled.record_text Second object.now) }
{
    let mut out = Bytes::from_slice(alloc, b"Z2")?;
    out.push(letter_of(&object.part))?;
    put_text(&mut out, &object.id)?;
    put_u64(&mut out, object.parent.0)?;
    put_text(&mut out, &object.title)?;
    put_settings(&mut out, &object.settings)?;
    put_locals(&mut out, &object.locals)?;
    put_properties(&mut out, &object.properties)?;
    put_part(&mut out, &object.part)?;
    Ok(out)
}
