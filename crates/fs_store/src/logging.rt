ghost use Rattle.std.specs.Prelude.{◌≡◌, ◌++◌, ◌∷◌, ◌+◌, ◌≤◌, [], if◌then◌else◌, ℕ, List, OnOk, IfOk, IfSome, IsErrOf, drop, length, map};
ghost use Rattle.std.specs.Option.{ForSome};
ghost use Rattle.zbase.specs.Values.{upto};
ghost use Rattle.zdisk.specs.Disk.{content};
ghost use Rattle.evaluator.specs.Facts.{log_row, unpacked};
ghost use Rattle.fs_record.specs.Opening.{Stands};
ghost use Rattle.fs_record.specs.Spelling.{Block, txn_head_of};
ghost use Rattle.fs_scan.specs.Ahead.{IsAhead};
ghost use Rattle.fs_scan.specs.OnlyReads.{OnlyReads};
ghost use Rattle.fs_store.specs.Fronts.{history_at};
ghost use Rattle.fs_store.specs.Knowing.{IsKnown};
ghost use Rattle.fs_store.specs.Parts.{CostsLog, behind, is_logged, row_of};

use crate::LoadRefusal;
use crate::file::OpenFile;
use crate::seeking::TxnRecord;
use evaluator::{LogRow, LogRows};
use fs_record::{MAGIC_LEN, STATUS_UNDONE, TAIL_LEN, TxnHead, TxnTexts};
use fs_scan::Ahead;
use std::alloc::Global;
use zbase::Tid;
use zdisk::Disk;

// Where the transaction begins that stands behind one with this head.
fn behind(place: u64, head: &TxnHead) -> u64
    ensures { result ≡ behind place head.now }
{
    place
        .saturating_add(head.length)
        .saturating_add(TAIL_LEN as u64)
}

// The transactions that a log shows: those above the floor and up to one.
#[derive(Drop)]
struct Span {
    floor: Tid,
    at: Tid,
}

// Whether the transaction counts and is one of the span.
fn is_logged(head: &TxnHead, span: &Span) -> bool
    ensures { result ≡ is_logged span.now.floor span.now.at head.now }
{
    if head.status == STATUS_UNDONE {
        return false;
    }
    span.floor.0 < head.tid.0 && head.tid.0 <= span.at.0
}

// Adds the row of a transaction, where it counts and is one of the span.
fn add_row<D: Disk>(
    disk: &mut D,
    len: u64,
    txn: &TxnRecord,
    span: &Span,
    ahead: &mut Ahead,
    rows: &mut LogRows,
) -> Result<(), LoadRefusal>
    requires len { ForSome (D.told disk.old) (λ told. len ≡ length (content told)) }
    requires ahead { IsAhead (D.told disk.old) ahead.old }
    ensures ahead { IsAhead (D.told disk.old) ahead.new }
    ensures added { OnOk result (IfSome (D.told disk.old)
        (λ told. (b : Block) (more : List ℕ) → Stands b (drop txn.now.place (content told)) more → txn.now.head ≡ txn_head_of b
        → rows.new ≡ rows.old ++ (if is_logged span.now.floor span.now.at txn.now.head then row_of b ∷ [] else []))) }
    ensures reads { (D.counter disk.new).calls ≤ (D.counter disk.old).calls + 1 }
    ensures only_reads { OnlyReads D.Disk disk.old disk.new (IsErrOf result LoadRefusal.Disk) }
{
    if !is_logged(&txn.head, span) {
        return Ok(());
    }
    let Some(texts) = ahead.texts_at(disk, len, txn.place, &txn.head)? else {
        // only where the disk tells nothing
        return Ok(());
    };
    let TxnTexts {
        user,
        description,
        extension: _,
    } = texts;
    rows.push(LogRow {
        tid: txn.head.tid,
        user,
        description,
    })?;
    Ok(())
}

impl OpenFile {
    /// The log of the transactions above the floor and up to one, by their heads and texts, which are read ahead: no value
    /// is looked at, but those that stand between. At most two device calls for each transaction; of small ones, one for
    /// each 64 KiB.
    pub(crate) fn log<D: Disk>(
        &self,
        alloc: Global,
        disk: &mut D,
        at: Tid,
    ) -> Result<LogRows, LoadRefusal>
        requires { IsKnown (D.told disk.old) self.now }
        ensures rows { IfOk result (λ rows. IfSome (D.told disk.old) (λ told. rows ≡ map log_row (unpacked (upto (history_at told self.now.end) at)))) }
        ensures reads { OnOk result (IfSome (D.told disk.old) (λ told. CostsLog told self.now.end (D.counter disk.old).calls (D.counter disk.new).calls)) }
        ensures only_reads { OnlyReads D.Disk disk.old disk.new (IsErrOf result LoadRefusal.Disk) }
    {
        let span = Span {
            floor: self.floor,
            at,
        };
        let mut rows = LogRows::new(alloc);
        let mut ahead = Ahead::new(alloc);
        let end = self.end;
        let mut place = MAGIC_LEN as u64;
        'each: while place < end {
            let Some(head) = ahead.head_at(disk, self.len, place)? else {
                // only where the disk tells nothing
                return Ok(rows);
            };
            let txn = TxnRecord { place, head };
            add_row(disk, self.len, &txn, &span, &mut ahead, &mut rows)?;
            place = behind(place, &head);
        }
        Ok(rows)
    }
}
