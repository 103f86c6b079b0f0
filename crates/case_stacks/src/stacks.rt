use crate::layers::wrapper_of;
use crate::requests::names_of;
use acquisition::Wrapped;
use case_sites::{texts_from, word_at};
use cases::{Case, CasesRefusal};
use namespace::Stack;
use permissions::Who;
use std::alloc::Global;
use zbase::{Oid, Text};
use zknown::Known;

// The user of the case: by name, the folder of the user folder, and roles.
fn user_of(alloc: Global, case: &Case) -> Result<Who, CasesRefusal> {
    let Some(part) = case.part("user") else {
        return Ok(Who::Anonymous);
    };
    let name = Text::from_str(alloc, word_at(part, 1)?)?;
    let home = Oid(part.number(2)?);
    let roles = texts_from(alloc, part, 3)?;
    Ok(Who::Known { name, roles, home })
}

fn client_of(alloc: Global, known: &Known, case: &Case) -> Result<Wrapped, CasesRefusal> {
    match case.part("client") {
        Some(part) => wrapper_of(alloc, known, part, 1),
        None => Ok(Wrapped::root(alloc)?),
    }
}

/// The stack that a case begins with.
pub fn stack_of<'k>(
    alloc: Global,
    known: &'k Known,
    case: &Case,
) -> Result<Stack<'k>, CasesRefusal> {
    let user = user_of(alloc, case)?;
    let client = client_of(alloc, known, case)?;
    let names = names_of(alloc, case, &user)?;
    Ok(Stack::new(alloc, known, user, client, names))
}
