//! One run of the program.
use std::alloc::Global;
use zbase::{FaultPlan, Memory};
use zio::{MemoryClock, MemoryHub, MemorySink, Shelf, Source};
use zope::{Status, run};

/// The words of a command line.
fn words_of(alloc: Global, words: &[&str]) -> Result<Vec<String>, Memory> {
    let mut line = Vec::with_capacity(alloc, words.len())?;
    for word in words {
        line.push(String::from_str(alloc, word)?)?;
    }
    Ok(line)
}

/// The status and the output of the program with these words, as the year 2000 begins.
pub(crate) fn ran<F: Shelf, S: Source>(
    alloc: Global,
    words: &[&str],
    files: &mut F,
    input: &mut S,
) -> Result<(Status, MemorySink), Memory>
where
    F::D: Drop,
{
    let words = words_of(alloc, words)?;
    let mut clock = MemoryClock::new(vec![in alloc; (946_684_800, 0); 1]?, FaultPlan::none(alloc));
    let mut sink = MemorySink::new(alloc, FaultPlan::none(alloc));
    let mut hub = MemoryHub::new(alloc, Vec::new(alloc), FaultPlan::none(alloc));
    let status = run(
        alloc,
        words.as_slice(),
        files,
        input,
        &mut sink,
        &mut hub,
        &mut clock,
    );
    Ok((status, sink))
}
