use acquisition::Wrapped;
use case_sites::{reached, split_named};
use cases::{Case, CasesRefusal, Part};
use namespace::{Label, Named, Names, Single, Stack, Val};
use std::alloc::Global;
use zbase::{Items, Text};
use zknown::Known;

/// The wrapper of the objects that the words from that one on name, from the root on; each of them has to be there.
pub fn wrapper_of(
    alloc: Global,
    known: &Known,
    part: &Part,
    from: usize,
) -> Result<Wrapped, CasesRefusal> {
    match reached(alloc, known, part, from)? {
        Ok(wrapper) => Ok(wrapper),
        Err(_) => Err(CasesRefusal::BadPart(part.line)),
    }
}

// The names of a part, each as NAME=TEXT.
fn names_of(alloc: Global, part: &Part) -> Result<Names, CasesRefusal> {
    let mut names = Items::new(alloc);
    for word in part.words.iter().skip(1) {
        let (name, text) = split_named(part, word.as_str())?;
        let name = Label::of(Text::from_str(alloc, name)?);
        let text = Text::from_str(alloc, text)?;
        let val = Val::Single(Single::Text(text));
        names.push(Named { name, val })?;
    }
    Ok(names)
}

/// Pushes the layer that a part is; nothing where it is none.
pub fn push_layer(
    alloc: Global,
    known: &Known,
    stack: &mut Stack<'_>,
    part: &Part,
) -> Result<(), CasesRefusal> {
    match part.key() {
        "push" => stack.push_object(wrapper_of(alloc, known, part, 1)?)?,
        "names" => stack.push_names(names_of(alloc, part)?)?,
        _ => {}
    }
    Ok(())
}

/// Pushes the layers that the parts of a case are, in their order.
pub fn push_layers(
    alloc: Global,
    known: &Known,
    stack: &mut Stack<'_>,
    case: &Case,
) -> Result<(), CasesRefusal> {
    for part in &case.parts {
        push_layer(alloc, known, stack, part)?;
    }
    Ok(())
}
