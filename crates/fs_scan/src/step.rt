ghost use Rattle.std.specs.Prelude.{◌≡◌, ◌≢◌, ◌+◌, ◌-◌, ◌++◌, ◌<◌, ◌≤◌, ◌^◌, ℕ, List, IfOk, IfSome, IsErrOf, OnOk, drop, length};
ghost use Rattle.std.specs.Option.{ForSome};
ghost use Rattle.zbase.specs.Numbers.{be64};
ghost use Rattle.zbase.specs.declared.ids.Row.{Row};
ghost use Rattle.zdisk.specs.Disk.{content};
ghost use Rattle.fs_record.specs.declared.damage.Damage.{Damage as Kind};
ghost use Rattle.fs_scan.specs.Ahead.{IsAhead};
ghost use Rattle.fs_scan.specs.Extent.{FrameFits, FramesFit, IsFrame, PartsSay};
ghost use Rattle.fs_scan.specs.Keeping.{Keeping, KeepsOn, PlacesWithin};
ghost use Rattle.fs_scan.specs.OnlyReads.{OnlyReads};
ghost use Rattle.fs_scan.specs.Pacing.{Forward, IsPiece, Paces};
ghost use Rattle.fs_scan.specs.Stepped.{LeadsOn, StepFits, StepsOn, gone};
ghost use Rattle.fs_scan.specs.Taking.{StepLeads, fault_by};

use crate::ScanRefusal;
use crate::ahead::Ahead;
use crate::extent::{Extent, Frame, Parts, frame_at};
use crate::judging::Marks;
use crate::kept::Kept;
use crate::records::read_records;
use fs_record::{Damage, STATUS_COUNTED, STATUS_PACKED, STATUS_UNDONE, TAIL_LEN, TXN_HEAD_LEN};
use zbase::{Rows, Tid, u64_at};
use zdisk::Disk;

/// What stands behind a file's transactions.
#[derive(Clone, Copy)]
pub enum Step {
    /// Nothing, or a torn rest.
    End,
    /// A transaction with this damage.
    Damaged(Damage),
    /// A right transaction.
    Right(Extent),
}

/// The first damage of a transaction whose records have these marks. Its first length is `long`, its second `tail`,
/// and the id of the transaction before it is `last`.
fn fault(last: Tid, tid: Tid, status: u8, tail: u64, long: u64, marks: Marks) -> Option<Damage>
    ensures { result ≡ fault_by last tid status tail long marks }
{
    if tid.0 <= last.0 || !marks.own {
        return Some(Damage::BadTid);
    }
    if !marks.prev {
        return Some(Damage::BadPrev);
    }
    if !marks.back {
        return Some(Damage::BadBack);
    }
    if status != STATUS_COUNTED && status != STATUS_PACKED {
        return Some(Damage::BadStatus);
    }
    if tail != long {
        return Some(Damage::BadTail);
    }
    if !marks.version {
        return Some(Damage::BadVersion);
    }
    None
}

// The number of eight bytes that stands at a place in a disk's file of this length: one device call at most.
fn tail_at<D: Disk>(ahead: &mut Ahead, disk: &mut D, len: u64, at: u64) -> Result<u64, ScanRefusal>
    requires len { ForSome (D.told disk.old) (λ told. len ≡ length (content told)) }
    requires ahead { IsAhead (D.told disk.old) ahead.old }
    requires within { at + TAIL_LEN ≤ len }
    ensures ahead { IsAhead (D.told disk.old) ahead.new }
    ensures tail { IfOk result (λ tail. IfSome (D.told disk.old) (λ told. drop at (content told) ≡ be64 tail ++ drop (at + TAIL_LEN) (content told))) }
    ensures bound { IfOk result (λ tail. tail < 2 ^ 64) }
    ensures piece { OnOk result (IsPiece len at ahead.old → IsPiece len at ahead.new) }
    ensures forward { IsPiece len at ahead.old → Forward at ahead.old ahead.new (D.counter disk.old).calls (D.counter disk.new).calls }
    ensures undamaged { (kind : Kind) (place : ℕ) → IsErrOf result (ScanRefusal.Damaged kind place) → ⊥ }
    ensures only_reads { OnlyReads D.Disk disk.old disk.new (IsErrOf result ScanRefusal.Disk) }
{
    let size = TAIL_LEN as u64;
    ahead.show(disk, len, at, size)?;
    Ok(u64_at(ahead.piece(at, size), 0))
}

// Takes a transaction that isn't undone, down to its second length. Its records are added where it is right, and not before
// all of them are judged: they are judged against the records before it.
fn take_records<D: Disk>(
    kept: &mut Kept,
    ahead: &mut Ahead,
    disk: &mut D,
    len: u64,
    frame: &Frame,
    last: Tid,
) -> Result<Step, ScanRefusal>
    requires len { ForSome (D.told disk.old) (λ told. len ≡ length (content told)) }
    requires ahead { IsAhead (D.told disk.old) ahead.old }
    requires keeps { IfSome (D.told disk.old) (λ told. KeepsOn (content told) kept.old) }
    requires before { PlacesWithin 0 frame.now.place kept.old.places }
    requires fits { FrameFits frame.now.place (len - frame.now.place) frame.now }
    requires frame { IfSome (D.told disk.old) (λ told. IsFrame (drop frame.now.place (content told)) frame.now) }
    requires read { frame.now.head.status ≢ STATUS_UNDONE }
    ensures ahead { IsAhead (D.told disk.old) ahead.new }
    ensures leads { IfOk result (λ s. IfSome (D.told disk.old) (λ told. LeadsOn (content told) frame.now.place last kept.old kept.new s)) }
    ensures fits { IfOk result (λ s. StepFits len frame.now.place last kept.old kept.new s) }
    ensures piece { OnOk result (IsPiece len frame.now.place ahead.old → frame.now.place ≤ len → IsPiece len (gone len frame.now.place result) ahead.new) }
    ensures paces { IsPiece len frame.now.place ahead.old → frame.now.place ≤ len
        → Paces (D.told disk.old) frame.now.place (gone len frame.now.place result) ahead.old ahead.new (D.counter disk.old).calls (D.counter disk.new).calls }
    ensures undamaged { (kind : Kind) (place : ℕ) → IsErrOf result (ScanRefusal.Damaged kind place) → ⊥ }
    ensures only_reads { OnlyReads D.Disk disk.old disk.new (IsErrOf result ScanRefusal.Disk) }
{
    let head = frame.head;
    let mut rows = Rows::new(kept.alloc());
    let read = read_records(kept, &mut rows, ahead, disk, len, frame)?;
    let tail = tail_at(ahead, disk, len, frame.place + frame.long)?;
    let marks = match read {
        Some(marks) => marks,
        None => return Ok(Step::Damaged(Damage::BadLength)),
    };
    match fault(last, head.tid, head.status, tail, head.length, marks) {
        Some(kind) => Ok(Step::Damaged(kind)),
        None => {
            kept.add(rows.as_slice())?;
            Ok(Step::Right(frame.with_tail(tail)))
        }
    }
}

// Takes a transaction that was undone in the old manner: its records aren't read.
fn skip_records<D: Disk>(
    ahead: &mut Ahead,
    disk: &mut D,
    len: u64,
    frame: &Frame,
) -> Result<Step, ScanRefusal>
    requires len { ForSome (D.told disk.old) (λ told. len ≡ length (content told)) }
    requires ahead { IsAhead (D.told disk.old) ahead.old }
    requires fits { FrameFits frame.now.place (len - frame.now.place) frame.now }
    requires frame { IfSome (D.told disk.old) (λ told. IsFrame (drop frame.now.place (content told)) frame.now) }
    requires undone { frame.now.head.status ≡ STATUS_UNDONE }
    ensures ahead { IsAhead (D.told disk.old) ahead.new }
    ensures leads { IfOk result (λ s. IfSome (D.told disk.old) (λ told. (last : ℕ) (rows : List Row)
        → StepLeads (drop frame.now.place (content told)) frame.now.place last rows rows s)) }
    ensures fits { IfOk result (λ s. (last : ℕ) (kept : Keeping) → PlacesWithin 0 frame.now.place kept.places → StepFits len frame.now.place last kept kept s) }
    ensures piece { OnOk result (IsPiece len frame.now.place ahead.old → frame.now.place ≤ len → IsPiece len (gone len frame.now.place result) ahead.new) }
    ensures paces { IsPiece len frame.now.place ahead.old → frame.now.place ≤ len
        → Paces (D.told disk.old) frame.now.place (gone len frame.now.place result) ahead.old ahead.new (D.counter disk.old).calls (D.counter disk.new).calls }
    ensures undamaged { (kind : Kind) (place : ℕ) → IsErrOf result (ScanRefusal.Damaged kind place) → ⊥ }
    ensures only_reads { OnlyReads D.Disk disk.old disk.new (IsErrOf result ScanRefusal.Disk) }
{
    let tail = tail_at(ahead, disk, len, frame.place + frame.long)?;
    if tail != frame.head.length {
        return Ok(Step::Damaged(Damage::BadTail));
    }
    Ok(Step::Right(frame.with_tail(tail)))
}

// What stands at a place in a disk's file of this length, as its head says.
fn frame_in<D: Disk>(
    ahead: &mut Ahead,
    disk: &mut D,
    len: u64,
    at: u64,
) -> Result<Parts, ScanRefusal>
    requires len { ForSome (D.told disk.old) (λ told. len ≡ length (content told)) }
    requires ahead { IsAhead (D.told disk.old) ahead.old }
    ensures ahead { IsAhead (D.told disk.old) ahead.new }
    ensures says { IfOk result (λ parts. IfSome (D.told disk.old) (λ told. PartsSay (drop at (content told)) parts)) }
    ensures fits { IfOk result (FramesFit at (len - at)) }
    ensures piece { OnOk result (IsPiece len at ahead.old → IsPiece len at ahead.new) }
    ensures forward { IsPiece len at ahead.old → Forward at ahead.old ahead.new (D.counter disk.old).calls (D.counter disk.new).calls }
    ensures undamaged { (kind : Kind) (place : ℕ) → IsErrOf result (ScanRefusal.Damaged kind place) → ⊥ }
    ensures only_reads { OnlyReads D.Disk disk.old disk.new (IsErrOf result ScanRefusal.Disk) }
{
    if len < at {
        return Ok(Parts::End);
    }
    let left = len - at;
    let size = left.min(TXN_HEAD_LEN as u64);
    ahead.show(disk, len, at, size)?;
    Ok(frame_at(ahead.piece(at, size), left, at))
}

/// Takes what stands at a place in a disk's file of this length, whose records before it are kept and whose last transaction
/// has the id `last`. The records of a right transaction are added; of one undone in the old manner they aren't read. Where
/// the disk failed, or for want of memory, some of its records may be added, of which none may be used. One device call for
/// each piece that is read ahead, and one for each record that points back.
pub fn take_one<D: Disk>(
    kept: &mut Kept,
    ahead: &mut Ahead,
    disk: &mut D,
    len: u64,
    at: u64,
    last: Tid,
) -> Result<Step, ScanRefusal>
    requires len { ForSome (D.told disk.old) (λ told. len ≡ length (content told)) }
    requires ahead { IsAhead (D.told disk.old) ahead.old }
    requires keeps { IfSome (D.told disk.old) (λ told. KeepsOn (content told) kept.old) }
    requires before { PlacesWithin 0 at kept.old.places }
    ensures ahead { IsAhead (D.told disk.old) ahead.new }
    ensures says { IfOk result (λ s. IfSome (D.told disk.old) (λ told. StepsOn (content told) at last kept.old kept.new s)) }
    ensures fits { IfOk result (λ s. StepFits len at last kept.old kept.new s) }
    ensures piece { OnOk result (IsPiece len at ahead.old → at ≤ len → IsPiece len (gone len at result) ahead.new) }
    ensures paces { IsPiece len at ahead.old → at ≤ len → Paces (D.told disk.old) at (gone len at result) ahead.old ahead.new
        (D.counter disk.old).calls (D.counter disk.new).calls }
    ensures undamaged { (kind : Kind) (place : ℕ) → IsErrOf result (ScanRefusal.Damaged kind place) → ⊥ }
    ensures only_reads { OnlyReads D.Disk disk.old disk.new (IsErrOf result ScanRefusal.Disk) }
{
    let frame = match frame_in(ahead, disk, len, at)? {
        Parts::End => return Ok(Step::End),
        Parts::Bad => return Ok(Step::Damaged(Damage::BadLength)),
        Parts::Whole(frame) => frame,
    };
    if frame.head.status == STATUS_UNDONE {
        return skip_records(ahead, disk, len, &frame);
    }
    take_records(kept, ahead, disk, len, &frame, last)
}
