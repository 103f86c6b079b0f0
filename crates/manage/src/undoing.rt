ghost use Rattle.std.specs.Prelude.{◌≡◌, ◌++◌, IfOk, OnOk, flat_map, reverse};
ghost use Rattle.zbase.specs.Query.{run, Answers};
ghost use Rattle.evaluator.specs.Cells.{read_hex16};
ghost use Rattle.evaluator.specs.Facts.{EachOnce, look};
ghost use Rattle.fs_undo.specs.Undo.{IsFar};
ghost use Rattle.manage.specs.Calling.{told};
ghost use Rattle.manage.specs.Fields.{Gives, scalar_text};
ghost use Rattle.manage.specs.Undoing as spec;

use crate::changes::Change;
use crate::field::{scalar_text, value_of};
use crate::refusal::{FieldName, ManageRefusal};
use evaluator::{Facts, LogRow, LogRows, cells_have_one_text};
use form_fields::{FieldValue, Fields, Scalar};
use fs_undo::Far;
use std::alloc::Global;
use zbase::{Memory, Text, Tid, read_hex16};

/// How many transactions the log page shows.
pub const MOST_SHOWN: usize = 20;

// The number of which a text is the 16 digits: as a request of cells has one text, so has the id in it.
fn id_in(digits: &[u8]) -> Option<u64>
    ensures { result ≡ read_hex16 digits.now }
{
    cells_have_one_text();
    let id = read_hex16(digits)?;
    Some(id)
}

fn id_or_bad(id: Option<u64>) -> Result<Tid, ManageRefusal>
    ensures { Gives (λ tid. tid) result (spec.id_or_bad id) }
{
    match id {
        Some(id) => Ok(Tid(id)),
        None => Err(ManageRefusal::BadField(FieldName::Tid)),
    }
}

fn id_of(alloc: Global, scalar: &Scalar) -> Result<Tid, ManageRefusal>
    ensures { Gives (λ tid. tid) result (spec.id_or_bad (read_hex16 (scalar_text scalar.now))) }
{
    let text = scalar_text(alloc, scalar)?;
    id_or_bad(id_in(text.as_bytes()))
}

/// The id of the transaction that a form says is to be undone.
pub(crate) fn undone_id(alloc: Global, fields: &Fields) -> Result<Tid, ManageRefusal>
    ensures { Gives (λ tid. tid) result (spec.undone_id fields.now) }
{
    match value_of(FieldName::Tid, fields) {
        Some(FieldValue::One(scalar)) => id_of(alloc, scalar),
        Some(FieldValue::List(_)) => Err(ManageRefusal::BadField(FieldName::Tid)),
        None => Err(ManageRefusal::Missing(FieldName::Tid)),
    }
}

/// What undoes a transaction, by what is known: an entry for each of its objects. The transaction is asked for first, then
/// the present value of each of its objects in their order; only then are they compared. It goes on from where it came to
/// over fewer facts, and keeps how far it came now.
///
/// Zope Developer's Guide, "Undo".
#[tactic(auto, using(crate::proofs::Undone::is_undone, crate::proofs::Undone::is_refused), unfolding(crate::specs::Undoing::undone))]
pub fn undo_from(
    alloc: Global,
    facts: &Facts,
    tid: Tid,
    far: &mut Far,
) -> Result<Change, ManageRefusal>
    requires once { EachOnce facts.now }
    requires far { IsFar tid (look facts.now) far.old }
    ensures change { Answers told (λ change. change.entries) result (run (look facts.now) (spec.undone tid)) }
    ensures far { IsFar tid (look facts.now) far.new }
{
    let entries = fs_undo::undo_from(alloc, facts, tid, far)?;
    Ok(Change { entries })
}

fn put_lossy(alloc: Global, out: &mut Text, bytes: &[u8]) -> Result<(), Memory>
    ensures { OnOk result (out.new ≡ out.old ++ spec.lossy bytes.now) }
{
    let text = String::from_utf8_lossy(alloc, bytes)?;
    out.push_str(text.as_str())
}

fn put_row(alloc: Global, out: &mut Text, row: &LogRow) -> Result<(), Memory>
    ensures { OnOk result (out.new ≡ out.old ++ spec.row_text row.now) }
{
    out.push_hex16(row.tid.0)?;
    out.push_str(" ")?;
    put_lossy(alloc, out, row.user.as_slice())?;
    out.push_str(" ")?;
    put_lossy(alloc, out, row.description.as_slice())?;
    out.push_str("\n")
}

// The newest first, of rows that stand oldest first.
#[tactic(auto, using(crate::proofs::Undone::one_more_row))]
fn put_rows(alloc: Global, out: &mut Text, rows: &[LogRow]) -> Result<(), Memory>
    ensures { OnOk result (out.new ≡ out.old ++ flat_map spec.row_text (reverse rows.now)) }
{
    let mut left = rows.len();
    while left > 0 {
        left -= 1;
        put_row(alloc, out, &rows[left])?;
    }
    Ok(())
}

fn newest(rows: &[LogRow]) -> &[LogRow]
    ensures { result.now ≡ spec.newest rows.now }
{
    rows.split_at(rows.len().saturating_sub(MOST_SHOWN)).1
}

/// The page of a log, whose rows stand oldest first: its newest 20 transactions, one a line, the newest first, each with
/// its id, user and description. A log without rows is an empty page.
#[tactic(auto, unfolding(crate::specs::Undoing::log_text))]
pub fn log_page(alloc: Global, rows: &LogRows) -> Result<Text, Memory>
    ensures { IfOk result (λ text. text ≡ spec.log_text rows.now) }
{
    let mut text = Text::new(alloc);
    put_rows(alloc, &mut text, newest(rows.as_slice()))?;
    Ok(text)
}
