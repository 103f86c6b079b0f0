ghost use Rattle.std.specs.Prelude.{◌≡◌, ℕ, List, IfOk, length};
ghost use Rattle.zbase.specs.History.{Value};
ghost use Rattle.fs_pack.specs.Chosen.{marks_of};
ghost use Rattle.fs_pack.specs.Marked.{is_in};
ghost use Rattle.fs_pack.specs.Numbered.{AreNumbered, marked_at, oids_of};

use crate::marks::Marks;
use fs_index::Index;
use std::alloc::Global;
use zbase::Memory;

/// Sets the mark of the record with this number, counted from 1.
fn mark(marks: &mut Vec<bool>, number: Option<u64>)
    ensures { marks.new.items ≡ marked_at number marks.old.items }
{
    if let Some(number) = number {
        let at = number.saturating_sub(1) as usize;
        if at < marks.len() {
            marks[at] = true;
        }
    }
}

/// A mark for each of so many records, set where the record is the last one of an object that is kept, by the numbers of
/// these.
pub(crate) fn draw(
    alloc: Global,
    newest: &Index,
    records: u64,
    kept: &Marks,
) -> Result<Vec<bool>, Memory>
    ensures { IfOk result (λ marks. (rs : List (ℕ × Value)) → records ≡ length (oids_of rs) → AreNumbered newest.now (oids_of rs)
        → marks.items ≡ marks_of (is_in kept.now) rs) }
{
    let mut marks = vec![in alloc; false; records as usize]?;
    let mut next = 0;
    'kept: while next < kept.len() {
        let oid = kept.get(next);
        let number = newest.get(oid);
        mark(&mut marks, number);
        next += 1;
    }
    Ok(marks)
}
