ghost use Rattle.std.specs.Prelude.{◌≡◌, ◌+◌, ◌<◌, ◌≤◌, ℕ, length, IfOk, IfSome, IsErr, Some};
ghost use Rattle.std.specs.Option.{ForSome};
ghost use Rattle.zdisk.specs.Disk.{content};
ghost use Rattle.fs_record.specs.Spelling.{Block, txn_head_of};
ghost use Rattle.fs_scan.specs.OnlyReads.{OnlyReads};
ghost use Rattle.fs_store.specs.Knowing.{IsKnown};
ghost use Rattle.fs_store.specs.Parts.{is_passed, is_with};
ghost use Rattle.fs_store.specs.Seeking.{CostsWalk, EndsAt, SoughtIn};

use crate::file::OpenFile;
use fs_record::{MAGIC_LEN, STATUS_UNDONE, TAIL_LEN, TxnHead};
use fs_scan::read_txn;
use zbase::{Failed, u64_at};
use zdisk::Disk;

/// A transaction record: its place and its head.
#[derive(Clone, Copy)]
pub(crate) struct TxnRecord {
    pub(crate) place: u64,
    pub(crate) head: TxnHead,
}

// Whether the transaction counts and has this id.
fn is_with(head: &TxnHead, tid: u64) -> bool
    ensures { result ≡ is_with tid head.now }
{
    if head.status == STATUS_UNDONE {
        return false;
    }
    head.tid.0 == tid
}

// Whether the transaction doesn't count, or is later than this id.
fn is_passed(head: &TxnHead, tid: u64) -> bool
    ensures { result ≡ is_passed tid head.now }
{
    if head.status == STATUS_UNDONE {
        return true;
    }
    tid < head.tid.0
}

// The length of the transaction record that ends there, as it stands at its end, in a disk's file of this length: one
// device call at most, and no memory. None only where no record can end there.
fn length_before<D: Disk>(disk: &mut D, len: u64, end: u64) -> Result<Option<u64>, Failed>
    requires { ForSome (D.told disk.old) (λ told. len ≡ length (content told)) }
    ensures length { IfOk result (λ long. IfSome (D.told disk.old)
        (λ told. (b : Block) (place : ℕ) → EndsAt (content told) place end b → long ≡ Some b.tail)) }
    ensures reads { (D.counter disk.new).calls ≤ (D.counter disk.old).calls + 1 }
    ensures only_reads { OnlyReads D.Disk disk.old disk.new (IsErr result) }
{
    if end < TAIL_LEN as u64 || len < end {
        return Ok(None);
    }
    let mut bytes = [0u8; TAIL_LEN];
    disk.read_at(end - TAIL_LEN as u64, &mut bytes)?;
    Ok(Some(u64_at(&bytes, 0)))
}

// The transaction record that ends there, in a disk's file of this length: two device calls at most, and no memory. None
// only where no record ends there.
fn txn_before<D: Disk>(disk: &mut D, len: u64, end: u64) -> Result<Option<TxnRecord>, Failed>
    requires { ForSome (D.told disk.old) (λ told. len ≡ length (content told)) }
    ensures found { IfOk result (λ found. IfSome (D.told disk.old) (λ told. (b : Block) (place : ℕ) → EndsAt (content told) place end b
        → found ≡ Some (record { place = place; head = txn_head_of b }))) }
    ensures before { IfOk result (λ found. IfSome found (λ f. f.place < end)) }
    ensures reads { (D.counter disk.new).calls ≤ (D.counter disk.old).calls + 2 }
    ensures only_reads { OnlyReads D.Disk disk.old disk.new (IsErr result) }
{
    let Some(long) = length_before(disk, len, end)? else {
        return Ok(None);
    };
    let size = long.saturating_add(TAIL_LEN as u64);
    if end < size {
        return Ok(None);
    }
    let place = end - size;
    match read_txn(disk, len, place)? {
        Some(head) => Ok(Some(TxnRecord { place, head })),
        None => Ok(None),
    }
}

impl OpenFile {
    /// The transaction with this id, where there is one: the file is gone back from its end, by two device calls for each
    /// transaction record that is met, and no further than to the first that is as old. Takes no memory.
    ///
    /// FileStorage format notes: a transaction's length stands once more, in eight bytes, at its end.
    pub(crate) fn seek<D: Disk>(&self, disk: &mut D, tid: u64) -> Result<Option<TxnRecord>, Failed>
        requires { IsKnown (D.told disk.old) self.now }
        ensures found { IfOk result (λ found. IfSome (D.told disk.old) (λ told. SoughtIn told self.now.end tid found)) }
        ensures reads { IfSome (D.told disk.old) (λ told. CostsWalk told self.now.end tid (D.counter disk.old).calls (D.counter disk.new).calls) }
        ensures only_reads { OnlyReads D.Disk disk.old disk.new (IsErr result) }
    {
        let mut end = self.end;
        'back: while end > MAGIC_LEN as u64 {
            let Some(found) = txn_before(disk, self.len, end)? else {
                // only where the disk tells nothing
                return Ok(None);
            };
            if is_with(&found.head, tid) {
                return Ok(Some(found));
            }
            if !is_passed(&found.head, tid) {
                return Ok(None);
            }
            end = found.place;
        }
        Ok(None)
    }
}
