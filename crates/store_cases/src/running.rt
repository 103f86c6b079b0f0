use crate::answers::{put_line, put_open_refusal};
use crate::arming::{Planned, arm, each_of, gone_on, planned_by, with_one};
use crate::script::read_script;
use crate::session::run_script;
use cases::{Case, CasesRefusal, Part, Runner, add_bytes, add_line, add_number};
use fs_record::MAX_LENGTH;
use fs_store::Store;
use std::alloc::Global;
use zbase::Bytes;
use zdisk::{Disk, MemoryDisk};

/// Scripts of a store's calls. A case gives
///
/// - `file`: the bytes of the disk's file;
/// - `limit N`: how many bytes the file may have, 1,000,000 where it isn't said;
/// - `failing disk N SEED`: the disk's call of number N fails, and leaves what the seed names, 0 where it isn't said; `failing
///   behind N SEED`: the N-th call behind those that the opening of `base` makes; `failing each SEED`: the script is run once
///   for each of its calls behind those that fail or stop anyway, which fails then, and once more without;
/// - `stopping` with the same words: the disk stops at that call, and goes on when the script has ended;
/// - `fronts` with bytes: the script is run over the file with each front of these behind it, from none of them to all but
///   the last;
/// - `base`: the bytes of a file, those of `file` where it isn't said;
/// - `script`: a line for each call. Numbers are decimal, ids too.
///
/// | line | call, and what it answers |
/// |---|---|
/// | `open` | `opened LAST COUNT`: the last transaction's id, and how many there are; `not opened CAUSE`: `damaged KIND PLACE`, `disk`, `long N`, `memory` |
/// | `last` | `last LAST COUNT`, the same numbers |
/// | `load OID AT` | `loaded VALUE SERIAL PLACE`: what the object was up to that transaction |
/// | `parts TID AT` | `parts N`, and of each `part OID AFTER BEFORE SERIAL`; `parts none` where there is no such transaction |
/// | `log AT` | `rows N`, and of each `row TID USER DESCRIPTION` |
/// | `vote HOLDER STAMP CHANGE MORE` | `voted TID`, or `refused CAUSE`: `busy HOLDER`, `conflict OID SEEN FOUND`, `tids`, `oids GREATEST NEW`, `full NEED LIMIT`, `disk`, `memory` |
/// | `finish` | `finished TID`, or `unknown TID` |
/// | `abort` | `aborted`, or `not aborted` |
/// | `close` | `closed`: the store hands its disk back |
///
/// A call that reads may answer `unread disk` or `unread memory`. A value stands between quotation marks, `none` for none.
/// A line without an open store answers `not open`. Over a stale store `load`, `parts`, `log` and `vote` are called, which
/// open it again, and `last`, `finish` and `abort` answer `stale`. Behind a vote that stands open comes
/// its `finish` or `abort`, with other calls between, also votes, which are made without reads and are refused as busy; behind
/// one that is refused comes none. A script that breaks this, or has another line, isn't run.
///
/// STAMP is the clock's stamp, or `+N` for N more than the last transaction's id. CHANGE is `write OID VALUE`, `restore
/// OID TID` or `new VALUE`, a new object in whose value the id takes the bytes 1 to 8. A VALUE is a word; `@` is the stamp's
/// digits. MORE are `by USER`, `about DESCRIPTION` and any number of `read OID AT`: the objects on which the vote rests,
/// loaded up to that transaction just before it.
///
/// Of it come `answers`, their lines; `disk`, the bytes of the file at the end; `again` and what an opening of these would
/// answer; and `calls N`, how many device calls were made, without as many as the opening of `base` makes. Where the script
/// is run several times they come once for each run whose answers or whose bytes differ from those of the run before, and
/// `groups N` says how many such runs there were. Of a run with `failing each` or `stopping each` N is the number of the
/// calls behind the one that failed.
#[derive(Drop)]
pub struct Scripts;

/// What is given of a case.
#[derive(Drop)]
struct Given {
    file: Bytes,
    limit: u64,
    steps: Vec<Part>,
    opening: u64,
}

/// What came of a run.
#[derive(Drop)]
struct Came {
    answers: Bytes,
    disk: Bytes,
    calls: u64,
}

// How many calls a disk has had that isn't wanted any more.
fn calls_of(disk: MemoryDisk) -> u64 {
    disk.calls()
}

// What opening a file answers, and how many device calls it makes.
fn opening_of(alloc: Global, file: &Bytes, limit: u64) -> Result<(Bytes, u64), CasesRefusal> {
    let mut answer = Bytes::from_slice(alloc, b"again ")?;
    let disk = MemoryDisk::new(alloc, file.copy()?);
    match Store::open(alloc, disk, limit.min(MAX_LENGTH)) {
        Ok(store) => {
            let numbers = [store.last().0, store.len()];
            let calls = calls_of(store.into_disk());
            put_line(&mut answer, "opened", &numbers)?;
            Ok((answer, calls))
        }
        Err((refusal, disk)) => {
            let calls = calls_of(disk);
            put_open_refusal(&mut answer, refusal)?;
            Ok((answer, calls))
        }
    }
}

// The bytes of a disk's file.
fn bytes_of(alloc: Global, disk: MemoryDisk) -> Result<Bytes, CasesRefusal> {
    let mut disk = disk;
    let Ok(len) = disk.len() else {
        return Err(CasesRefusal::Missing);
    };
    let mut bytes = vec![in alloc; 0u8; len as usize]?;
    match disk.read_at(0, &mut bytes) {
        Ok(()) => Ok(Bytes::from_vec(bytes)),
        Err(_) => Err(CasesRefusal::Missing),
    }
}

// How many device calls an opening makes of the case's base, or of this file where it has none.
fn opening_calls(
    alloc: Global,
    case: &Case,
    file: &Bytes,
    limit: u64,
) -> Result<u64, CasesRefusal> {
    let (_, calls) = match case.part("base") {
        Some(base) => opening_of(alloc, &base.bytes, limit)?,
        None => opening_of(alloc, file, limit)?,
    };
    Ok(calls)
}

// The steps of the case's script.
fn steps_of(alloc: Global, case: &Case) -> Result<Vec<Part>, CasesRefusal> {
    match case.part("script") {
        Some(script) => read_script(alloc, script.bytes.as_slice()),
        None => Ok(Vec::new(alloc)),
    }
}

// Reads what is given.
fn given_by(alloc: Global, case: &Case) -> Result<Given, CasesRefusal> {
    let limit = case.number("limit", 1_000_000)?;
    let file = case.bytes(alloc, "file")?;
    let opening = opening_calls(alloc, case, &file, limit)?;
    let steps = steps_of(alloc, case)?;
    Ok(Given {
        file,
        limit,
        steps,
        opening,
    })
}

// A disk of the file with this rest behind it, on which what is planned is armed.
fn armed(
    alloc: Global,
    file: &Bytes,
    rest: &[u8],
    planned: &[Planned],
) -> Result<MemoryDisk, CasesRefusal> {
    let mut file = file.copy()?;
    file.append(rest)?;
    let mut disk = MemoryDisk::new(alloc, file);
    arm(&mut disk, planned)?;
    Ok(disk)
}

// Runs the script over a disk of the file with this rest behind it, which stops and fails as it is planned.
fn run_once(
    alloc: Global,
    given: &Given,
    rest: &[u8],
    planned: &[Planned],
) -> Result<Came, CasesRefusal> {
    let disk = armed(alloc, &given.file, rest, planned)?;
    let mut answers = Bytes::new(alloc);
    let steps = given.steps.as_slice();
    let disk = run_script(alloc, disk, given.limit, steps, &mut answers)?;
    let calls = disk.calls();
    Ok(Came {
        answers,
        disk: bytes_of(alloc, gone_on(disk))?,
        calls,
    })
}

// Adds what opening a file answers.
fn add_again(
    alloc: Global,
    parts: &mut Vec<Part>,
    file: &Bytes,
    limit: u64,
) -> Result<(), CasesRefusal> {
    let (again, _) = opening_of(alloc, file, limit)?;
    match str::from_utf8(again.as_slice()) {
        Ok(text) => add_line(alloc, parts, text),
        Err(_) => Err(CasesRefusal::Missing),
    }
}

/// The parts that came so far, and the last run of which they came.
#[derive(Drop)]
struct Groups {
    parts: Vec<Part>,
    last: Option<Came>,
    count: u64,
}

impl Groups {
    fn new(alloc: Global) -> Groups {
        Groups {
            parts: Vec::new(alloc),
            last: None,
            count: 0,
        }
    }

    // Adds the parts of a run, with so many calls taken off.
    fn put(&mut self, given: &Given, came: &Came, without: u64) -> Result<(), CasesRefusal> {
        let alloc = came.answers.alloc();
        let parts = &mut self.parts;
        add_bytes(alloc, parts, "answers", came.answers.copy()?)?;
        add_bytes(alloc, parts, "disk", came.disk.copy()?)?;
        add_again(alloc, parts, &came.disk, given.limit)?;
        add_number(alloc, parts, "calls", came.calls.saturating_sub(without))
    }

    // The same, unless all is as in the run before.
    fn put_new(&mut self, given: &Given, came: Came, without: u64) -> Result<(), CasesRefusal> {
        let is_new = match &self.last {
            Some(last) => !came.answers.same(&last.answers) || !came.disk.same(&last.disk),
            None => true,
        };
        if is_new {
            self.put(given, &came, without)?;
            self.count = self.count.saturating_add(1);
        }
        self.last = Some(came);
        Ok(())
    }

    // All parts, with the number of runs of which they came.
    fn counted(self, alloc: Global) -> Result<Vec<Part>, CasesRefusal> {
        let Groups {
            parts,
            last: _,
            count,
        } = self;
        let mut parts = parts;
        add_number(alloc, &mut parts, "groups", count)?;
        Ok(parts)
    }
}

// Runs the script once for each of its calls behind those that are planned, which stops the disk then or fails, and once
// more without.
fn run_each_call(
    alloc: Global,
    given: &Given,
    planned: &[Planned],
    stops: bool,
    seed: u64,
) -> Result<Vec<Part>, CasesRefusal> {
    let mut groups = Groups::new(alloc);
    let whole = run_once(alloc, given, &[], planned)?;
    let first = match planned.last() {
        Some(entry) => entry.number,
        None => 0,
    };
    for earlier in first..whole.calls {
        let number = earlier + 1;
        let entry = Planned {
            stops,
            number,
            seed,
        };
        let entries = with_one(alloc, planned, entry)?;
        let came = run_once(alloc, given, &[], entries.as_slice())?;
        groups.put_new(given, came, number)?;
    }
    groups.put_new(given, whole, given.opening)?;
    groups.counted(alloc)
}

// Runs the script once for each front of these bytes.
fn run_each_front(alloc: Global, given: &Given, rest: &[u8]) -> Result<Vec<Part>, CasesRefusal> {
    let mut groups = Groups::new(alloc);
    for len in 0..rest.len() {
        let front = rest.get(..len).unwrap_or(&[]);
        let came = run_once(alloc, given, front, &[])?;
        groups.put_new(given, came, given.opening)?;
    }
    groups.counted(alloc)
}

impl Runner for Scripts {
    fn knows(&self, key: &str) -> bool {
        matches!(
            key,
            "file" | "limit" | "failing" | "stopping" | "fronts" | "base" | "script"
        )
    }

    fn run(&self, alloc: Global, case: &Case) -> Result<Vec<Part>, CasesRefusal> {
        let given = given_by(alloc, case)?;
        if let Some(part) = case.part("fronts") {
            return run_each_front(alloc, &given, part.bytes.as_slice());
        }
        let planned = planned_by(alloc, case, given.opening)?;
        if let Some((stops, seed)) = each_of(case)? {
            return run_each_call(alloc, &given, planned.as_slice(), stops, seed);
        }
        let mut groups = Groups::new(alloc);
        let came = run_once(alloc, &given, &[], planned.as_slice())?;
        groups.put(&given, &came, given.opening)?;
        let Groups {
            parts,
            last: _,
            count: _,
        } = groups;
        Ok(parts)
    }
}
