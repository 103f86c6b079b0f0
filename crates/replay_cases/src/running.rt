use case_links::ByteLinks;
use cases::{Case, CasesRefusal, Part, Runner, add_bytes, add_line};
use evaluator::Cells;
use fs_record::MAX_LENGTH;
use replay::{RunRefusal, replay, serial};
use schedule::{Schedule, read_schedule};
use std::alloc::Global;
use zbase::{Bytes, FaultPlan};
use zdisk::{Disk, MemoryDisk};
use zio::MemorySink;

/// Replays over the evaluator of cells, whose values link to what their bytes name: of `file` with its bytes, `limit NUMBER`
/// (100,000 where there is none), `input` with a schedule, `alone` where its requests are run one by one, and `failing output
/// NUMBER` come `status done`, `status line NUMBER`, `status damaged KIND PLACE`, `status output` or `status memory`, `output`
/// with all that was written, and with `status done` the `disk` that came back, with what it reads.
#[derive(Drop)]
pub struct CellRuns;

// The words of why a run was broken off.
fn status_of(alloc: Global, refusal: RunRefusal) -> Result<String, CasesRefusal> {
    match refusal {
        RunRefusal::Damaged(kind, place) => {
            Ok(format!(in alloc; "status damaged {kind:?} {place}")?)
        }
        RunRefusal::BadLine(line) => Ok(format!(in alloc; "status line {line}")?),
        RunRefusal::Output => Ok(String::from_str(alloc, "status output")?),
        RunRefusal::Memory => Ok(String::from_str(alloc, "status memory")?),
    }
}

// What a disk reads.
fn contents_of(alloc: Global, disk: MemoryDisk) -> Result<Bytes, CasesRefusal> {
    let mut disk = disk;
    let Ok(length) = disk.len() else {
        return Err(CasesRefusal::Missing);
    };
    let mut bytes = vec![in alloc; 0u8; length as usize]?;
    match disk.read_at(0, &mut bytes) {
        Ok(()) => Ok(Bytes::from_vec(bytes)),
        Err(_) => Err(CasesRefusal::Missing),
    }
}

// The schedule of the case.
fn schedule_of(alloc: Global, case: &Case) -> Result<Schedule, CasesRefusal> {
    let input = case.bytes(alloc, "input")?;
    match read_schedule(alloc, input.as_slice()) {
        Ok(schedule) => Ok(schedule),
        Err(_) => Err(CasesRefusal::Missing),
    }
}

// Replays the case's schedule over its file.
fn ran(
    alloc: Global,
    case: &Case,
    sink: &mut MemorySink,
) -> Result<Result<MemoryDisk, RunRefusal>, CasesRefusal> {
    let limit = case.number("limit", 100_000)?.min(MAX_LENGTH);
    let schedule = schedule_of(alloc, case)?;
    let bytes = case.bytes(alloc, "file")?;
    if bytes.len() as u64 > MAX_LENGTH {
        return Err(CasesRefusal::Missing);
    }
    let evaluator = Cells::new(alloc);
    let links = ByteLinks::new(alloc);
    Ok(match case.part("alone") {
        Some(_) => serial(alloc, bytes, limit, &schedule, evaluator, &links, sink),
        None => replay(alloc, bytes, limit, &schedule, evaluator, &links, sink),
    })
}

// The parts of what a disk reads that came back, or of why none did.
fn ended(alloc: Global, ran: Result<MemoryDisk, RunRefusal>) -> Result<Vec<Part>, CasesRefusal> {
    let mut parts = Vec::new(alloc);
    match ran {
        Ok(disk) => {
            add_line(alloc, &mut parts, "status done")?;
            add_bytes(alloc, &mut parts, "disk", contents_of(alloc, disk)?)?;
        }
        Err(refusal) => {
            let status = status_of(alloc, refusal)?;
            add_line(alloc, &mut parts, status.as_str())?;
        }
    }
    Ok(parts)
}

impl Runner for CellRuns {
    fn knows(&self, key: &str) -> bool {
        key == "file" || key == "limit" || key == "input" || key == "alone" || key == "failing"
    }

    fn run(&self, alloc: Global, case: &Case) -> Result<Vec<Part>, CasesRefusal> {
        let mut sink = MemorySink::new(alloc, FaultPlan::new(case.failing(alloc, "output")?));
        let mut parts = ended(alloc, ran(alloc, case, &mut sink)?)?;
        let output = Bytes::from_slice(alloc, sink.bytes())?;
        add_bytes(alloc, &mut parts, "output", output)?;
        Ok(parts)
    }
}
