use crate::sites::known_of;
use cases::{Case, CasesRefusal, Part, add_line};
use std::alloc::Global;
use zknown::Known;

/// What small sites are asked.
pub trait Asking {
    /// Whether a part of this key is a question.
    fn asks(&self, key: &str) -> bool;

    /// The line that comes of a question.
    fn answer(&self, alloc: Global, known: &Known, part: &Part) -> Result<String, CasesRefusal>;
}

/// The lines that come of a case's questions to its site, in their order, as parts.
pub fn answers<A: Asking>(
    alloc: Global,
    asking: &A,
    case: &Case,
) -> Result<Vec<Part>, CasesRefusal> {
    let known = known_of(alloc, case)?;
    let mut parts = Vec::new(alloc);
    for part in &case.parts {
        if asking.asks(part.key()) {
            let line = asking.answer(alloc, &known, part)?;
            add_line(alloc, &mut parts, line.as_str())?;
        }
    }
    Ok(parts)
}
