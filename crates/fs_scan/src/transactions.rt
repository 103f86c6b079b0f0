ghost use Rattle.std.specs.Prelude.{◌≡◌, ◌+◌, ◌<◌, ◌≤◌, ℕ, List, IfOk, IfSome, IsErr, IsErrOf, MatchOption, OnOk, Some, drop, length, true};
ghost use Rattle.std.specs.Option.{ForSome, option_map};
ghost use Rattle.std.specs.List.{list_all};
ghost use Rattle.zdisk.specs.Disk.{bytes_at, content};
ghost use Rattle.fs_record.specs.declared.damage.Damage.{Damage as Kind};
ghost use Rattle.fs_record.specs.File.{Earlier, has_body, rows, values_of};
ghost use Rattle.fs_record.specs.Opening.{Stands};
ghost use Rattle.fs_record.specs.Spelling.{Block, Data, Records, txn_head_of};
ghost use Rattle.fs_scan.specs.Backs.{CostsBodies};
ghost use Rattle.fs_scan.specs.OnlyReads.{OnlyReads};
ghost use Rattle.fs_scan.specs.Present.{AllStand};
ghost use Rattle.fs_scan.specs.Wholes.{records_in};

use crate::texts::copy_texts;
use crate::valued::read_values;
use crate::window::read_range;
use crate::{OidValues, ScanRefusal};
use fs_record::{TXN_HEAD_LEN, TxnHead, TxnTexts, read_txn_head, texts_end};
use std::alloc::Global;
use zbase::Failed;
use zdisk::Disk;

/// The head of the transaction at a place, in a disk's file of this length: one device call at most, and no memory. None
/// only where no transaction can stand there.
pub fn read_txn<D: Disk>(disk: &mut D, len: u64, at: u64) -> Result<Option<TxnHead>, Failed>
    requires { ForSome (D.told disk.old) (λ told. len ≡ length (content told)) }
    ensures head { IfOk result (λ head. IfSome (D.told disk.old)
        (λ told. (b : Block) (more : List ℕ) → Stands b (drop at (content told)) more → head ≡ Some (txn_head_of b))) }
    ensures reads { (D.counter disk.new).calls ≤ (D.counter disk.old).calls + 1 }
    ensures only_reads { OnlyReads D.Disk disk.old disk.new (IsErr result) }
{
    let left = len.saturating_sub(at);
    if left < TXN_HEAD_LEN as u64 {
        return Ok(None);
    }
    let mut bytes = [0u8; TXN_HEAD_LEN];
    disk.read_at(at, &mut bytes)?;
    match read_txn_head(&bytes) {
        Ok(head) => Ok(Some(head)),
        Err(_) => unreachable!(),
    }
}

// So many bytes at a place, in a disk's file of this length; none where the file is shorter.
fn read_piece<D: Disk>(
    alloc: Global,
    disk: &mut D,
    len: u64,
    at: u64,
    size: u64,
) -> Result<Option<Vec<u8>>, ScanRefusal>
    requires { ForSome (D.told disk.old) (λ told. len ≡ length (content told)) }
    ensures piece { IfOk result (λ piece. IfSome (D.told disk.old)
        (λ told. MatchOption piece (length (content told) < at + size) (λ bytes. bytes.items ≡ bytes_at told at size))) }
    ensures size { IfOk result (λ piece. IfSome piece (λ bytes. length bytes.items ≡ size)) }
    ensures undamaged { (kind : Kind) (place : ℕ) → IsErrOf result (ScanRefusal.Damaged kind place) → ⊥ }
    ensures reads { (D.counter disk.new).calls ≤ (D.counter disk.old).calls + 1 }
    ensures only_reads { OnlyReads D.Disk disk.old disk.new (IsErrOf result ScanRefusal.Disk) }
{
    if len < at {
        return Ok(None);
    }
    if len - at < size {
        return Ok(None);
    }
    let bytes = read_range(alloc, disk, at, size)?;
    Ok(Some(bytes))
}

/// The texts of the transaction with this head at a place, in a disk's file of this length: one device call at most. None
/// only where no such transaction stands there.
pub fn texts_at<D: Disk>(
    alloc: Global,
    disk: &mut D,
    len: u64,
    at: u64,
    head: &TxnHead,
) -> Result<Option<TxnTexts>, ScanRefusal>
    requires { ForSome (D.told disk.old) (λ told. len ≡ length (content told)) }
    ensures texts { IfOk result (λ texts. IfSome (D.told disk.old)
        (λ told. (b : Block) (more : List ℕ) → Stands b (drop at (content told)) more → head.now ≡ txn_head_of b → texts ≡ Some b.texts)) }
    ensures undamaged { (kind : Kind) (place : ℕ) → IsErrOf result (ScanRefusal.Damaged kind place) → ⊥ }
    ensures reads { (D.counter disk.new).calls ≤ (D.counter disk.old).calls + 1 }
    ensures only_reads { OnlyReads D.Disk disk.old disk.new (IsErrOf result ScanRefusal.Disk) }
{
    let end = texts_end(head) as u64;
    let Some(front) = read_piece(alloc, disk, len, at, end)? else {
        return Ok(None);
    };
    let texts = copy_texts(alloc, &front, head)?;
    Ok(Some(texts))
}

/// The values that the transaction with this head at a place gives, in a disk's file of this length, back pointers
/// followed. None only where no such transaction stands there. One device call at most for all its records, and for each
/// back pointer what it costs to follow it.
pub fn values_at<D: Disk>(
    alloc: Global,
    disk: &mut D,
    len: u64,
    at: u64,
    head: &TxnHead,
) -> Result<Option<OidValues>, ScanRefusal>
    requires { ForSome (D.told disk.old) (λ told. len ≡ length (content told)) }
    ensures values { IfOk result (λ found. IfSome (D.told disk.old)
        (λ told. (b : Block) (ds : List Data) (more : List ℕ) (records : List Earlier) → Stands b (drop at (content told)) more
        → b.inside ≡ Records ds → head.now ≡ txn_head_of b → AllStand (content told) records → list_all (has_body (rows records)) ds ≡ true
        → option_map records_in found ≡ Some (values_of records ds))) }
    ensures reads { OnOk result (IfSome (D.told disk.old)
        (λ told. (b : Block) (ds : List Data) (more : List ℕ) (records : List Earlier) → Stands b (drop at (content told)) more
        → b.inside ≡ Records ds → head.now ≡ txn_head_of b → AllStand (content told) records → list_all (has_body (rows records)) ds ≡ true
        → CostsBodies (content told) ds ((D.counter disk.old).calls + 1) (D.counter disk.new).calls)) }
    ensures undamaged { (kind : Kind) (place : ℕ) → IsErrOf result (ScanRefusal.Damaged kind place) → ⊥ }
    ensures only_reads { OnlyReads D.Disk disk.old disk.new (IsErrOf result ScanRefusal.Disk) }
{
    let from = texts_end(head) as u64;
    if head.length < from {
        return Ok(None);
    }
    let place = at.saturating_add(from);
    let Some(area) = read_piece(alloc, disk, len, place, head.length - from)? else {
        return Ok(None);
    };
    let values = read_values(alloc, disk, len, &area)?;
    Ok(values)
}
