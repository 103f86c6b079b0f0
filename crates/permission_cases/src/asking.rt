use acquisition::{AqRefusal, containers, containers_are_here, here};
use case_sites::{oid_in, permission_at, put_refusal, roles_in, split_three, texts_from, word_at};
use cases::{CasesRefusal, Part, put_number, put_numbered, put_word};
use permissions::{
    Verdict, Who, acting, allowed, find_user, roles_for, user_roles, verdict, verdict_on,
};
use std::alloc::Global;
use zbase::{Oid, Text};
use zknown::Known;
use zobject::Roles;

// A user for verdicts: `anonymous`, or NAME:HOME:ROLE,ROLE.
fn who_of(alloc: Global, part: &Part, word: &str) -> Result<Who, CasesRefusal> {
    if word == "anonymous" {
        return Ok(Who::Anonymous);
    }
    let (name, home, roles) = split_three(part, word)?;
    let home = oid_in(part, home)?;
    Ok(Who::Known {
        name: Text::from_str(alloc, name)?,
        roles: roles_in(alloc, roles)?,
        home,
    })
}

fn put_roles(line: &mut String, roles: &Roles) -> Result<(), CasesRefusal> {
    for role in roles.as_slice() {
        put_word(line, role.as_str())?;
    }
    Ok(())
}

fn put_verdict(alloc: Global, line: &mut String, verdict: &Verdict) -> Result<(), CasesRefusal> {
    match verdict {
        Verdict::Granted(role) => {
            put_word(line, "granted")?;
            put_word(line, role.as_str())
        }
        Verdict::Denied(permission) => {
            put_numbered(alloc, line, "denied", u64::from(*permission))
        }
    }
}

// What came of a verdict on an object.
fn put_judged(
    alloc: Global,
    line: &mut String,
    judged: Result<Verdict, AqRefusal>,
) -> Result<(), CasesRefusal> {
    match judged {
        Ok(verdict) => put_verdict(alloc, line, &verdict),
        Err(refusal) => put_refusal(alloc, line, refusal),
    }
}

fn put_who(alloc: Global, line: &mut String, who: &Who) -> Result<(), CasesRefusal> {
    match who {
        Who::Anonymous => put_word(line, "anonymous"),
        Who::Known { name, roles, home } => {
            put_word(line, name.as_str())?;
            put_number(alloc, line, home.0)?;
            put_roles(line, roles)
        }
    }
}

// The roles to which a permission is given on an object.
fn given_on(alloc: Global, known: &Known, oid: Oid, permission: u8) -> Result<Roles, AqRefusal> {
    containers_are_here();
    let path = containers(alloc, known, oid)?;
    Ok(roles_for(alloc, known, path.as_slice(), permission)?)
}

// The roles of a user on an object.
fn had_on(alloc: Global, known: &Known, oid: Oid, who: &Who) -> Result<Roles, AqRefusal> {
    containers_are_here();
    let path = containers(alloc, known, oid)?;
    Ok(user_roles(alloc, who, known, path.as_slice())?)
}

// The verdict on an object, by its path.
fn judged_on(
    alloc: Global,
    known: &Known,
    oid: Oid,
    who: &Who,
    permission: u8,
) -> Result<Verdict, AqRefusal> {
    containers_are_here();
    let path = containers(alloc, known, oid)?;
    Ok(verdict(alloc, who, known, path.as_slice(), permission)?)
}

// Whom the source of an object acts for.
fn acting_in(alloc: Global, known: &Known, oid: Oid) -> Result<Option<Who>, AqRefusal> {
    let object = here(known, oid)?;
    Ok(acting(alloc, object)?)
}

fn put_found(
    alloc: Global,
    line: &mut String,
    roles: Result<Roles, AqRefusal>,
) -> Result<(), CasesRefusal> {
    match roles {
        Ok(roles) => put_roles(line, &roles),
        Err(refusal) => put_refusal(alloc, line, refusal),
    }
}

/// `given PERMISSION ID`.
pub(crate) fn put_given(
    alloc: Global,
    known: &Known,
    part: &Part,
    line: &mut String,
) -> Result<(), CasesRefusal> {
    line.push_str("roles")?;
    let permission = permission_at(part, 1)?;
    let oid = Oid(part.number(2)?);
    put_found(alloc, line, given_on(alloc, known, oid, permission))
}

/// `has USER ID`.
pub(crate) fn put_had(
    alloc: Global,
    known: &Known,
    part: &Part,
    line: &mut String,
) -> Result<(), CasesRefusal> {
    line.push_str("had")?;
    let who = who_of(alloc, part, word_at(part, 1)?)?;
    let oid = Oid(part.number(2)?);
    put_found(alloc, line, had_on(alloc, known, oid, &who))
}

/// `judge PERMISSION ID USER`.
pub(crate) fn put_judge(
    alloc: Global,
    known: &Known,
    part: &Part,
    line: &mut String,
) -> Result<(), CasesRefusal> {
    line.push_str("verdict")?;
    let permission = permission_at(part, 1)?;
    let oid = Oid(part.number(2)?);
    let who = who_of(alloc, part, word_at(part, 3)?)?;
    put_judged(alloc, line, judged_on(alloc, known, oid, &who, permission))
}

/// `acts ID`.
pub(crate) fn put_acting(
    alloc: Global,
    known: &Known,
    part: &Part,
    line: &mut String,
) -> Result<(), CasesRefusal> {
    line.push_str("acting")?;
    match acting_in(alloc, known, Oid(part.number(1)?)) {
        Ok(None) => put_word(line, "user"),
        Ok(Some(who)) => put_who(alloc, line, &who),
        Err(refusal) => put_refusal(alloc, line, refusal),
    }
}

/// `least ROLE,ROLE ROLE ..`.
pub(crate) fn put_allowed(
    alloc: Global,
    part: &Part,
    line: &mut String,
) -> Result<(), CasesRefusal> {
    line.push_str("place")?;
    let given = texts_from(alloc, part, 2)?;
    let mine = roles_in(alloc, word_at(part, 1)?)?;
    match allowed(&given, &mine) {
        Some(place) => put_number(alloc, line, place as u64),
        None => put_word(line, "none"),
    }
}

// The name and the password of a part, if it has them.
fn credentials_of(alloc: Global, part: &Part) -> Result<Option<(Text, Text)>, CasesRefusal> {
    let Some(name) = part.word(3) else {
        return Ok(None);
    };
    let password = part.word(4).unwrap_or("");
    Ok(Some((
        Text::from_str(alloc, name)?,
        Text::from_str(alloc, password)?,
    )))
}

/// `request PERMISSION ID NAME PASSWORD`, or without the last two.
pub(crate) fn put_asked(
    alloc: Global,
    known: &Known,
    part: &Part,
    line: &mut String,
) -> Result<(), CasesRefusal> {
    line.push_str("user")?;
    let permission = permission_at(part, 1)?;
    let oid = Oid(part.number(2)?);
    let credentials = credentials_of(alloc, part)?;
    match find_user(alloc, known, credentials.as_ref(), oid, permission) {
        Ok(who) => {
            put_who(alloc, line, &who)?;
            put_word(line, ":")?;
            put_judged(alloc, line, verdict_on(alloc, &who, known, oid, permission))
        }
        Err(refusal) => put_refusal(alloc, line, refusal),
    }
}
