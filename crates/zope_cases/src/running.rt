ghost use Rattle.std.specs.Prelude.{◌<◌, IfOk, IsTrue};
ghost use Rattle.std.specs.List.{list_all};
ghost use Rattle.zio.specs.Clocks.{is_tick};

use cases::{Case, CasesRefusal, Part, Runner, add_bytes, add_number};
use std::alloc::Global;
use zbase::{Bytes, FaultPlan, Text};
use zio::{MemoryClock, MemoryFile, MemoryHub, MemoryShelf, MemorySink, MemorySource};
use zope::{Status, run};

/// The program: `words`, each `file NAME` with its bytes, `taken BASE FROM TO` for empty files under numbered names, `input`, `connection` with the bytes of one that comes to the hub, `clock
/// SECONDS NANOSECONDS` since 1970, one for each question (behind the last one the first moment), and `failing KIND NUMBER`, where a
/// kind is `opening` (also of a new file), `disk` and `new` (the disks of files that are there, and of new ones; one number each at
/// most), `input`, `output`, `hub` or `clock`; `status NUMBER`, `output`, `left NAME` with what stands in each file, and `written`
/// with what was written on each connection that was accepted come of it.
#[derive(Drop)]
pub struct Program;

// The number of the call that is to fail of each disk of that kind.
fn failing_of(alloc: Global, case: &Case, kind: &str) -> Result<Option<u64>, CasesRefusal> {
    let numbers = case.failing(alloc, kind)?;
    if numbers.len() > 1 {
        return Err(CasesRefusal::Missing);
    }
    Ok(numbers.first().copied())
}

// Adds empty files under numbered names: the numbers from the one on and below the other, with four digits.
fn add_taken(alloc: Global, files: &mut Vec<MemoryFile>, part: &Part) -> Result<(), CasesRefusal> {
    let base = part.word(1).unwrap_or("");
    for n in part.number(2)?..part.number(3)? {
        let name = format!(in alloc; "{base}.{n:04}")?;
        files.push(MemoryFile {
            name: Text::from_str(alloc, name.as_str())?,
            bytes: Bytes::new(alloc),
            failing: None,
        })?;
    }
    Ok(())
}

// The files of the case.
fn files_of(alloc: Global, case: &Case) -> Result<Vec<MemoryFile>, CasesRefusal> {
    let failing = failing_of(alloc, case, "disk")?;
    let mut files = Vec::new(alloc);
    for part in &case.parts {
        if part.key() == "file" {
            files.push(MemoryFile {
                name: Text::from_str(alloc, part.word(1).unwrap_or(""))?,
                bytes: part.bytes.copy()?,
                failing,
            })?;
        } else if part.key() == "taken" {
            add_taken(alloc, &mut files, part)?;
        }
    }
    Ok(files)
}

// The files of the case, on a shelf.
fn shelf_of(alloc: Global, case: &Case) -> Result<MemoryShelf, CasesRefusal> {
    let new = failing_of(alloc, case, "new")?;
    let plan = FaultPlan::new(case.failing(alloc, "opening")?);
    let shelf = MemoryShelf::new(alloc, files_of(alloc, case)?, plan);
    match new {
        Some(number) => Ok(shelf.with_failing_new(number)),
        None => Ok(shelf),
    }
}

// The moment that the case's clock tells.
fn moment_of(part: &Part) -> Result<(i64, u32), CasesRefusal>
    ensures { IfOk result (λ moment. moment.1 < 1000000000) }
{
    let Ok(seconds) = part.word(1).unwrap_or("").parse::<i64>() else {
        return Err(CasesRefusal::BadPart(part.line));
    };
    let nanos = part.number(2)?;
    if nanos >= 1_000_000_000 {
        return Err(CasesRefusal::BadPart(part.line));
    }
    Ok((seconds, nanos as u32))
}

// The moments that the case's clock tells.
fn moments_of(alloc: Global, case: &Case) -> Result<Vec<(i64, u32)>, CasesRefusal>
    ensures { IfOk result (λ moments. IsTrue (list_all is_tick moments.items)) }
{
    let mut moments = Vec::new(alloc);
    for part in &case.parts {
        if part.key() == "clock" {
            moments.push(moment_of(part)?)?;
        }
    }
    Ok(moments)
}

// The case's clock.
fn clock_of(alloc: Global, case: &Case) -> Result<MemoryClock, CasesRefusal> {
    let plan = FaultPlan::new(case.failing(alloc, "clock")?);
    Ok(MemoryClock::new(moments_of(alloc, case)?, plan))
}

// The hub to which the case's connections come.
fn hub_of(alloc: Global, case: &Case) -> Result<MemoryHub, CasesRefusal> {
    let plan = FaultPlan::new(case.failing(alloc, "hub")?);
    let mut coming = Vec::new(alloc);
    for part in &case.parts {
        if part.key() == "connection" {
            coming.push(part.bytes.copy()?)?;
        }
    }
    Ok(MemoryHub::new(alloc, coming, plan))
}

// The status, the output and the connections of the program with these words over these files.
fn ran(
    alloc: Global,
    case: &Case,
    words: &[String],
    shelf: &mut MemoryShelf,
) -> Result<(Status, MemorySink, MemoryHub), CasesRefusal> {
    let plan = FaultPlan::new(case.failing(alloc, "input")?);
    let mut input = MemorySource::new(case.bytes(alloc, "input")?, plan);
    let mut output = MemorySink::new(alloc, FaultPlan::new(case.failing(alloc, "output")?));
    let mut clock = clock_of(alloc, case)?;
    let mut hub = hub_of(alloc, case)?;
    let status = run(
        alloc,
        words,
        shelf,
        &mut input,
        &mut output,
        &mut hub,
        &mut clock,
    );
    Ok((status, output, hub))
}

// What a run left in a file.
fn left_of(alloc: Global, file: &MemoryFile) -> Result<Part, CasesRefusal> {
    let key = format!(in alloc; "left {}", file.name.as_str())?;
    Ok(Part::with(alloc, key.as_str(), file.bytes.copy()?)?)
}

// Adds what was written on each connection that was accepted, of so many that came.
fn add_written(
    alloc: Global,
    parts: &mut Vec<Part>,
    hub: &MemoryHub,
    coming: usize,
) -> Result<(), CasesRefusal> {
    for number in 0..coming {
        let Some(connection) = hub.connection(number) else {
            break;
        };
        add_bytes(alloc, parts, "written", connection.written.copy()?)?;
    }
    Ok(())
}

// The parts that come of a run.
fn parts_of(
    alloc: Global,
    status: u8,
    output: &MemorySink,
    shelf: &MemoryShelf,
) -> Result<Vec<Part>, CasesRefusal> {
    let mut parts = Vec::new(alloc);
    add_number(alloc, &mut parts, "status", u64::from(status))?;
    let bytes = Bytes::from_slice(alloc, output.bytes())?;
    add_bytes(alloc, &mut parts, "output", bytes)?;
    for file in shelf.files() {
        parts.push(left_of(alloc, file)?)?;
    }
    Ok(parts)
}

impl Runner for Program {
    fn knows(&self, key: &str) -> bool {
        matches!(
            key,
            "words" | "file" | "taken" | "input" | "connection" | "clock" | "failing"
        )
    }

    fn run(&self, alloc: Global, case: &Case) -> Result<Vec<Part>, CasesRefusal> {
        let words = case.words(alloc, "words")?;
        let mut shelf = shelf_of(alloc, case)?;
        let (status, output, hub) = ran(alloc, case, words.as_slice(), &mut shelf)?;
        let mut parts = parts_of(alloc, status.0, &output, &shelf)?;
        add_written(alloc, &mut parts, &hub, case.parts.len())?;
        Ok(parts)
    }
}
