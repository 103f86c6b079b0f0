ghost use Rattle.std.specs.Prelude.{◌≡◌, IfOk, Some};
ghost use Rattle.std.specs.Option.{ForSome};
ghost use Rattle.zdisk.specs.Disk.{content, synced};
ghost use Rattle.packing.specs.Reachable.{Linking};
ghost use Rattle.fs_pack.specs.Plans.{StandsFor};

use crate::telling::{packed_words, refusal_words};
use case_links::ByteLinks;
use cases::{Case, CasesRefusal, Part, Runner, add_bytes, add_line};
use fs_pack::{Plan, plan, write};
use std::alloc::Global;
use zbase::{Bytes, Tid};
use zdisk::{Disk, MemoryDisk};

/// Packs: `file` is one, `before HEX` the time of the pack, and `limit N` how long a packed file may be, if that is limited;
/// `failing from N` or `failing to N` is a call that is to fail, of the disk of the file or of the packed one.
///
/// - `plan size N` with the size of the packed file, or why no plan was made;
/// - `packed end N floor HEX transactions N` and `written` with its bytes, or `packed` with why it wasn't written.
#[derive(Drop)]
pub struct PackRuns;

// A disk over these bytes. Of its calls that one fails which the case tells for disks of the kind.
fn disk_of(alloc: Global, case: &Case, kind: &str, bytes: Bytes) -> Result<MemoryDisk, CasesRefusal>
    ensures { IfOk result (λ disk. ⟦<MemoryDisk as Disk>⟧.told disk ≡ Some (synced bytes)) }
{
    let mut disk = MemoryDisk::new(alloc, bytes);
    let numbers = case.failing(alloc, kind)?;
    match numbers.first() {
        None | Some(0) => {}
        Some(number) => disk.arm_fail(*number, 0)?,
    }
    Ok(disk)
}

// All that a disk reads.
fn bytes_on(alloc: Global, disk: &mut MemoryDisk) -> Result<Bytes, CasesRefusal> {
    disk.disarm();
    let len = disk.len().map_err(|_| CasesRefusal::Missing)?;
    let mut bytes = vec![in alloc; 0; len as usize]?;
    disk.read_at(0, &mut bytes)
        .map_err(|_| CasesRefusal::Missing)?;
    Ok(Bytes::from_vec(bytes))
}

// Adds a part of this key and these words.
fn add_words(
    alloc: Global,
    parts: &mut Vec<Part>,
    key: &str,
    words: &str,
) -> Result<(), CasesRefusal> {
    let line = format!(in alloc; "{key} {words}")?;
    add_line(alloc, parts, line.as_str())
}

// The time of the case's pack.
fn time_of(case: &Case) -> Result<Tid, CasesRefusal> {
    match case.part("before") {
        Some(part) => Ok(Tid(part.id(1)?)),
        None => Err(CasesRefusal::Missing),
    }
}

// Writes what was planned, and adds what came.
fn put_written(
    alloc: Global,
    case: &Case,
    disk: &mut MemoryDisk,
    plan: &Plan,
    parts: &mut Vec<Part>,
) -> Result<(), CasesRefusal>
    requires { ForSome (⟦<MemoryDisk as Disk>⟧.told disk.old) (λ told. (links : Linking) × StandsFor links (content told) plan.now) }
{
    let mut to = disk_of(alloc, case, "to", Bytes::new(alloc))?;
    match write(alloc, disk, plan, &mut to) {
        Ok(packed) => {
            let words = packed_words(alloc, packed)?;
            add_words(alloc, parts, "packed", words.as_str())?;
            add_bytes(alloc, parts, "written", bytes_on(alloc, &mut to)?)
        }
        Err(refusal) => {
            let words = refusal_words(alloc, refusal)?;
            add_words(alloc, parts, "packed", words.as_str())
        }
    }
}

impl Runner for PackRuns {
    fn knows(&self, key: &str) -> bool {
        key == "file" || key == "before" || key == "limit" || key == "failing"
    }

    fn run(&self, alloc: Global, case: &Case) -> Result<Vec<Part>, CasesRefusal> {
        let mut parts = Vec::new(alloc);
        let before = time_of(case)?;
        let limit = case.number("limit", u64::MAX)?;
        let mut disk = disk_of(alloc, case, "from", case.bytes(alloc, "file")?)?;
        match plan(alloc, &mut disk, before, limit, &ByteLinks::new(alloc)) {
            Ok(plan) => {
                let size = plan.size();
                let words = format!(in alloc; "size {size}")?;
                add_words(alloc, &mut parts, "plan", words.as_str())?;
                put_written(alloc, case, &mut disk, &plan, &mut parts)?;
            }
            Err(refusal) => {
                let words = refusal_words(alloc, refusal)?;
                add_words(alloc, &mut parts, "plan", words.as_str())?;
            }
        }
        Ok(parts)
    }
}
