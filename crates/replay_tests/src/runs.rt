use case_links::ByteLinks;
use evaluator::Evaluator;
use replay::{RunRefusal, replay};
use schedule::Schedule;
use std::alloc::Global;
use std::test::Fail;
use zbase::{Bytes, FaultPlan};
use zio::MemorySink;

/// Runs a schedule by an evaluator, over a file without transactions: why the run was broken off, if it was, and all that it
/// printed.
pub(crate) fn ran<E: Evaluator>(
    alloc: Global,
    schedule: &Schedule,
    evaluator: E,
) -> Result<(Option<RunRefusal>, String), Fail> {
    let file = Bytes::from_slice(alloc, b"FS21")?;
    let mut sink = MemorySink::new(alloc, FaultPlan::new(Vec::new(alloc)));
    let links = ByteLinks::new(alloc);
    let ran = replay(alloc, file, 1_000, schedule, evaluator, &links, &mut sink);
    let refusal = ran.err();
    let Ok(text) = str::from_utf8(sink.bytes()) else {
        return Err(Fail::from("no text"));
    };
    Ok((refusal, String::from_str(alloc, text)?))
}
