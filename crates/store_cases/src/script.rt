//! A script: lines of words, of which each is a call.
use cases::{CasesRefusal, Part};
use std::alloc::Global;

/// The lines of a script. Empty ones are none of it.
pub(crate) fn read_script(alloc: Global, text: &[u8]) -> Result<Vec<Part>, CasesRefusal> {
    let Ok(text) = str::from_utf8(text) else {
        return Err(CasesRefusal::Missing);
    };
    let mut steps = Vec::new(alloc);
    for line in text.lines() {
        let step = Part::new(alloc, steps.len(), line)?;
        if step.word(0).is_some() {
            steps.push(step)?;
        }
    }
    Ok(steps)
}

/// The next line; the number of those that were taken is one more then.
pub(crate) fn next_step<'a>(steps: &'a [Part], taken: &mut usize) -> Option<&'a Part> {
    let step = steps.get(*taken);
    *taken = taken.saturating_add(1);
    step
}

/// The word behind the first one that is this key; the empty one where there is none.
pub(crate) fn word_behind<'a>(step: &'a Part, key: &str) -> &'a str {
    let mut is_next = false;
    for word in &step.words {
        if is_next {
            return word.as_str();
        }
        is_next = word.as_str() == key;
    }
    ""
}
