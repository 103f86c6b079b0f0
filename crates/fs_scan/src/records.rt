ghost use Rattle.std.specs.Prelude.{◌≡◌, ◌+◌, ◌-◌, ℕ, IfOk, IfSome, IsErrOf, MatchOption, OnOk, length};
ghost use Rattle.std.specs.Option.{ForSome};
ghost use Rattle.zdisk.specs.Disk.{content};
ghost use Rattle.fs_record.specs.declared.damage.Damage.{Damage as Kind};
ghost use Rattle.fs_scan.specs.Ahead.{IsAhead};
ghost use Rattle.fs_scan.specs.Extent.{FrameFits, area_at};
ghost use Rattle.fs_scan.specs.Keeping.{KeepsOn, rows_on};
ghost use Rattle.fs_scan.specs.Marked.{NoRecords, Read};
ghost use Rattle.fs_scan.specs.OnlyReads.{OnlyReads};
ghost use Rattle.fs_scan.specs.Pacing.{IsPiece, Paces};
ghost use Rattle.fs_scan.specs.Rising.{RiseWithin};

use crate::ScanRefusal;
use crate::ahead::Ahead;
use crate::data::data_at;
use crate::extent::Frame;
use crate::judging::{Marks, judged};
use crate::kept::Kept;
use fs_record::BACK_RECORD_LEN;
use zbase::{Row, Rows};
use zdisk::Disk;

/// Judges the data records of a transaction in a disk's file of this length, and adds where each stands to the rows; `None`
/// where they don't end exactly where its second length begins.
///
/// They are judged against the records before their transaction. Of each its head is looked at and its back pointer, never
/// its data. One device call for each piece that is read ahead, and one for each record that points back.
pub fn read_records<D: Disk>(
    kept: &Kept,
    rows: &mut Rows,
    ahead: &mut Ahead,
    disk: &mut D,
    len: u64,
    frame: &Frame,
) -> Result<Option<Marks>, ScanRefusal>
    requires len { ForSome (D.told disk.old) (λ told. len ≡ length (content told)) }
    requires ahead { IsAhead (D.told disk.old) ahead.old }
    requires keeps { IfSome (D.told disk.old) (λ told. KeepsOn (content told) kept.now) }
    requires fits { FrameFits frame.now.place (len - frame.now.place) frame.now }
    ensures ahead { IsAhead (D.told disk.old) ahead.new }
    ensures read { IfOk result (λ found. IfSome (D.told disk.old) (λ told. MatchOption found (NoRecords (area_at frame.now (content told)))
        (λ marks. Read (area_at frame.now (content told)) (rows_on (content told) kept.now.places) rows.old rows.new (frame.now.place + frame.now.from)
        frame.now.head.tid frame.now.place marks))) }
    ensures rise { IfOk result (λ found. IfSome found (λ _. (begin : ℕ) → RiseWithin begin (frame.now.place + frame.now.from) rows.old
        → RiseWithin begin (frame.now.place + frame.now.long) rows.new)) }
    ensures piece { OnOk result (IsPiece len (frame.now.place + frame.now.from) ahead.old → IsPiece len (frame.now.place + frame.now.long) ahead.new) }
    ensures paces { IsPiece len (frame.now.place + frame.now.from) ahead.old
        → Paces (D.told disk.old) (frame.now.place + frame.now.from) (frame.now.place + frame.now.long) ahead.old ahead.new
        (D.counter disk.old).calls (D.counter disk.new).calls }
    ensures undamaged { (kind : Kind) (place : ℕ) → IsErrOf result (ScanRefusal.Damaged kind place) → ⊥ }
    ensures only_reads { OnlyReads D.Disk disk.old disk.new (IsErrOf result ScanRefusal.Disk) }
{
    let end = frame.place + frame.long;
    let mut at = frame.place + frame.from;
    let mut marks = Marks::all();
    'records: while at < end {
        let left = end - at;
        let size = left.min(BACK_RECORD_LEN as u64);
        ahead.show(disk, len, at, size)?;
        let found = match data_at(ahead.piece(at, size), left) {
            Some(found) => found,
            None => return Ok(None),
        };
        let one = judged(kept, disk, &found, frame.head.tid, frame.place)?;
        marks = marks.and(one);
        rows.push(Row {
            oid: found.head.oid,
            place: at,
        })?;
        at += found.size;
    }
    Ok(Some(marks))
}
