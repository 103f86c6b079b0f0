use cases::{Case, CasesRefusal, Part, add_bytes, add_line};
use std::alloc::Global;
use user_folder::{HeaderRefusal, authenticate, credentials, keep};
use zbase::{Bytes, Memory, Text};
use zobject::{Roles, User, Users};

fn text_of(part: &Part) -> Result<&str, CasesRefusal> {
    match str::from_utf8(part.bytes.as_slice()) {
        Ok(text) => Ok(text),
        Err(_) => Err(CasesRefusal::BadPart(part.line)),
    }
}

// The line of a name and a password, each in brackets.
fn pair_line(alloc: Global, name: &Text, password: &Text) -> Result<Bytes, Memory> {
    let mut line = Bytes::from_slice(alloc, b"[")?;
    line.append(name.as_bytes())?;
    line.append(b"] [")?;
    line.append(password.as_bytes())?;
    line.append(b"]\n")?;
    Ok(line)
}

/// Adds what a header carries that has a part's bytes as its value, or is absent.
pub fn put_credentials(
    alloc: Global,
    part: &Part,
    parts: &mut Vec<Part>,
) -> Result<(), CasesRefusal> {
    let header = if part.word(1) == Some("absent") {
        None
    } else {
        Some(part.bytes.as_slice())
    };
    match credentials(alloc, header) {
        Ok(Some((name, password))) => {
            let line = pair_line(alloc, &name, &password)?;
            add_bytes(alloc, parts, "credentials", line)
        }
        Ok(None) => add_line(alloc, parts, "credentials none"),
        Err(HeaderRefusal::BadHeader) => add_line(alloc, parts, "credentials bad"),
        Err(HeaderRefusal::Memory) => Err(CasesRefusal::Memory),
    }
}

/// Adds what is kept of the password that a part has.
pub fn put_kept(alloc: Global, part: &Part, parts: &mut Vec<Part>) -> Result<(), CasesRefusal> {
    let kept = keep(alloc, text_of(part)?)?;
    add_bytes(
        alloc,
        parts,
        "kept",
        Bytes::from_slice(alloc, kept.as_bytes())?,
    )
}

// The users that the case's parts have: a name, and below it what is kept of the password.
fn users_of(alloc: Global, case: &Case) -> Result<Users, CasesRefusal> {
    let mut users = Users::new(alloc);
    for part in &case.parts {
        if part.key() == "user" {
            let name = Text::from_str(alloc, part.word(1).unwrap_or(""))?;
            let password = Text::from_str(alloc, text_of(part)?)?;
            let roles = Roles::new(alloc);
            users.push(User {
                name,
                password,
                roles,
            })?;
        }
    }
    Ok(users)
}

// The line of the user of the case whose name and password a part has.
fn found_line(alloc: Global, case: &Case, part: &Part) -> Result<Option<Bytes>, CasesRefusal> {
    let users = users_of(alloc, case)?;
    let name = part.word(1).unwrap_or("");
    match authenticate(alloc, &users, name, text_of(part)?)? {
        Some(user) => Ok(Some(pair_line(alloc, &user.name, &user.password)?)),
        None => Ok(None),
    }
}

/// Adds the user of the case whose name and password a part has.
pub fn put_found(
    alloc: Global,
    case: &Case,
    part: &Part,
    parts: &mut Vec<Part>,
) -> Result<(), CasesRefusal> {
    match found_line(alloc, case, part)? {
        Some(line) => add_bytes(alloc, parts, "found", line),
        None => add_line(alloc, parts, "found none"),
    }
}
