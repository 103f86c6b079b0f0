use crate::asking::{answer, change};
use case_sites::known_of;
use case_stacks::stack_of;
use cases::{Case, CasesRefusal, Part, Runner, add_line};
use namespace::Stack;
use std::alloc::Global;
use zknown::Known;

/// What names mean in a stack over a small site.
///
/// `site` is what is known of it, as `case_sites` says; the stack is that of `user`, `client` and `message`, as
/// `case_stacks` says. The other parts are done in their order:
///
/// - `push` and `names` push a layer, `pop` takes the newest away, where there is one; `act ROLE ..` takes verdicts for
///   someone with these roles from then on, `act` for the user again;
/// - `find NAME` gives `found`, `look NAME ID ..` gives `looked`: a value as `text TEXT`, `int NUMBER`, `object ID ..` with
///   its wrapper, or `seq` and values with `|` before each; or `none`;
/// - `open ID` gives `opened` with the object's title, `view ID` gives `viewed yes`, `offer ID` gives `offered yes` or
///   `offered no`;
/// - `shown` gives `listed` with the objects that were shown so far, each with its role.
///
/// In place of a value stands why there is none: `need ID`, `broken ID`, `unauthorized ID PERMISSION`, `deep`.
#[derive(Drop)]
pub struct NamespaceCases;

impl Runner for NamespaceCases {
    fn knows(&self, key: &str) -> bool {
        is_given(key) || is_change(key) || is_question(key)
    }

    fn run(&self, alloc: Global, case: &Case) -> Result<Vec<Part>, CasesRefusal> {
        let known = known_of(alloc, case)?;
        let mut stack = stack_of(alloc, &known, case)?;
        answers(alloc, &known, &mut stack, case)
    }
}

// What comes of a case's questions, between which its changes are made.
fn answers(
    alloc: Global,
    known: &Known,
    stack: &mut Stack<'_>,
    case: &Case,
) -> Result<Vec<Part>, CasesRefusal> {
    let mut parts = Vec::new(alloc);
    for part in &case.parts {
        if is_change(part.key()) {
            change(alloc, known, stack, part)?;
        } else if is_question(part.key()) {
            let line = answer(alloc, known, stack, part)?;
            add_line(alloc, &mut parts, line.as_str())?;
        }
    }
    Ok(parts)
}

fn is_given(key: &str) -> bool {
    matches!(key, "site" | "user" | "client" | "message")
}

fn is_change(key: &str) -> bool {
    matches!(key, "push" | "names" | "pop" | "act")
}

fn is_question(key: &str) -> bool {
    matches!(key, "find" | "look" | "open" | "view" | "offer" | "shown")
}
