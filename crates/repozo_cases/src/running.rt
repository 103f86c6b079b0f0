ghost use Rattle.std.specs.Prelude.{IfOk};
ghost use Rattle.repozo.specs.Index.{AreRows};

use crate::disks::{bytes_on, disk_of, disks_of, held, new_disk};
use crate::telling::{add_digest, add_joined, add_words, plan_words, refusal_words};
use cases::{Case, CasesRefusal, Part, Runner, add_bytes, add_number};
use repozo::{
    BackupPlan, IndexRefusal, PieceRow, PieceRows, RepoRefusal, copy, join, plan, read_index,
    write_index,
};
use std::alloc::Global;
use zbase::{Bytes, Text};

/// Backups: `file` is one, `index` the text of the index of its backup, `held` the bytes of each of its pieces, and `full`
/// says that all of it is due; `failing KIND NUMBER` is a call that is to fail, of the disk of the `file`, of the same as it
/// is copied (`source`), of each `piece` that is there, of the `new` one, or of the one (`out`) to which pieces are joined. A further piece is named `R.new`.
///
/// - `rows N` and `written`, the text of these rows, or `bad LINE`, where the backup has no piece;
/// - `plan` with what is due, or why it was refused;
/// - where a piece is due, `copied` with its bytes and `digest HEX`, or `copied` with the words of a refusal; and `next`, the
///   text of the index with it;
/// - `joined LENGTH` or the words of a refusal, and `out`, the bytes of the file: of the backup that there was, and then of
///   the one with the further piece.
#[derive(Drop)]
pub struct BackupRuns;

// The rows of an index. A text that is none has none of them.
fn rows_of(alloc: Global, text: &[u8]) -> Result<Result<PieceRows, u64>, CasesRefusal>
    ensures { IfOk result (λ read. IfOk read AreRows) }
{
    match read_index(alloc, text) {
        Ok(rows) => Ok(Ok(rows)),
        Err(IndexRefusal::BadIndex(line)) => Ok(Err(line)),
        Err(IndexRefusal::Memory) => Err(CasesRefusal::Memory),
    }
}

// What is due.
fn planned(
    alloc: Global,
    case: &Case,
    rows: &PieceRows,
    pieces: &[Bytes],
) -> Result<Result<BackupPlan, RepoRefusal>, CasesRefusal>
    requires rows { AreRows rows.now }
{
    let mut file = disk_of(alloc, case, "file", case.bytes(alloc, "file")?)?;
    let mut disks = disks_of(alloc, case, pieces)?;
    if disks.len() != rows.len() {
        return Err(CasesRefusal::Missing);
    }
    let full = case.part("full").is_some();
    Ok(plan(alloc, &mut file, &mut disks, rows, full))
}

// Joins pieces, and adds what came.
fn put_joined(
    alloc: Global,
    case: &Case,
    rows: &PieceRows,
    pieces: &[Bytes],
    parts: &mut Vec<Part>,
) -> Result<(), CasesRefusal>
    requires rows { AreRows rows.now }
{
    let mut disks = disks_of(alloc, case, pieces)?;
    let mut out = new_disk(alloc, case, "out")?;
    if disks.len() != rows.len() {
        return Err(CasesRefusal::Missing);
    }
    let joined = join(alloc, &mut disks, rows, &mut out);
    add_joined(alloc, parts, joined, bytes_on(alloc, &mut out)?)
}

// Copies a part of the file, and adds what came.
fn put_copied(
    alloc: Global,
    case: &Case,
    start: u64,
    end: u64,
    parts: &mut Vec<Part>,
) -> Result<Option<(PieceRow, Bytes)>, CasesRefusal> {
    let bytes = case.bytes(alloc, "file")?;
    let len = bytes.len() as u64;
    let mut file = disk_of(alloc, case, "source", bytes)?;
    let mut piece = new_disk(alloc, case, "new")?;
    if end < start || len < end {
        return Err(CasesRefusal::Missing);
    }
    match copy(alloc, &mut file, start, end, &mut piece) {
        Ok(md5) => {
            let copied = bytes_on(alloc, &mut piece)?;
            add_bytes(alloc, parts, "copied", copied.copy()?)?;
            add_digest(alloc, parts, &md5)?;
            let name = Text::from_str(alloc, "R.new")?;
            let row = PieceRow {
                name,
                start,
                end,
                md5,
            };
            Ok(Some((row, copied)))
        }
        Err(refusal) => {
            let words = refusal_words(alloc, &refusal)?;
            add_words(alloc, parts, "copied", words.as_str())?;
            Ok(None)
        }
    }
}

// Makes the further piece, writes the index with it, and joins the pieces of that.
fn put_further(
    alloc: Global,
    case: &Case,
    range: (u64, u64),
    mut rows: PieceRows,
    mut pieces: Vec<Bytes>,
    parts: &mut Vec<Part>,
) -> Result<(), CasesRefusal> {
    let Some((row, copied)) = put_copied(alloc, case, range.0, range.1, parts)? else {
        return Ok(());
    };
    rows.push(row)?;
    pieces.push(copied)?;
    let text = write_index(alloc, &rows)?;
    let again = rows_of(alloc, text.as_slice())?;
    add_bytes(alloc, parts, "next", text)?;
    match again {
        Ok(rows) => put_joined(alloc, case, &rows, &pieces, parts),
        Err(line) => add_number(alloc, parts, "bad", line),
    }
}

// Makes the backup of the case over these rows and pieces.
fn run_over(
    alloc: Global,
    case: &Case,
    rows: PieceRows,
    pieces: Vec<Bytes>,
    parts: &mut Vec<Part>,
) -> Result<(), CasesRefusal>
    requires rows { AreRows rows }
{
    let plan = match planned(alloc, case, &rows, &pieces)? {
        Ok(plan) => plan,
        Err(refusal) => {
            let words = refusal_words(alloc, &refusal)?;
            return add_words(alloc, parts, "plan", words.as_str());
        }
    };
    add_words(alloc, parts, "plan", plan_words(alloc, plan)?.as_str())?;
    match plan {
        BackupPlan::Nothing => Ok(()),
        BackupPlan::More(start, end) => {
            put_further(alloc, case, (start, end), rows, pieces, parts)
        }
        BackupPlan::Full(end) => {
            let none = PieceRows::new(alloc);
            put_further(alloc, case, (0, end), none, Vec::new(alloc), parts)
        }
    }
}

impl Runner for BackupRuns {
    fn knows(&self, key: &str) -> bool {
        key == "file" || key == "index" || key == "held" || key == "full" || key == "failing"
    }

    fn run(&self, alloc: Global, case: &Case) -> Result<Vec<Part>, CasesRefusal> {
        let mut parts = Vec::new(alloc);
        let text = case.bytes(alloc, "index")?;
        match rows_of(alloc, text.as_slice())? {
            Ok(rows) => {
                let pieces = held(alloc, case)?;
                add_number(alloc, &mut parts, "rows", rows.len() as u64)?;
                add_bytes(alloc, &mut parts, "written", write_index(alloc, &rows)?)?;
                put_joined(alloc, case, &rows, &pieces, &mut parts)?;
                run_over(alloc, case, rows, pieces, &mut parts)?;
            }
            Err(line) => {
                add_number(alloc, &mut parts, "bad", line)?;
                run_over(
                    alloc,
                    case,
                    PieceRows::new(alloc),
                    Vec::new(alloc),
                    &mut parts,
                )?;
            }
        }
        Ok(parts)
    }
}
