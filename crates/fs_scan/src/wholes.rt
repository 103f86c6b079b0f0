ghost use Rattle.std.specs.Prelude.{◌≡◌, ℕ, IfOk, IfSome, IsErrOf, MatchOption, length};
ghost use Rattle.std.specs.Option.{ForSome};
ghost use Rattle.zdisk.specs.Disk.{content};
ghost use Rattle.fs_record.specs.declared.damage.Damage.{Damage as Kind};
ghost use Rattle.fs_scan.specs.Ahead.{IsAhead};
ghost use Rattle.fs_scan.specs.Followed.{MeansWhole, StandsNone};
ghost use Rattle.fs_scan.specs.OnlyReads.{OnlyReads};

use crate::ScanRefusal;
use crate::ahead::Ahead;
use crate::extent::Extent;
use crate::transactions::values_at;
use fs_record::TxnTexts;
use std::alloc::Global;
use zbase::{Items, Oid, Tid, Value};
use zdisk::Disk;

/// An object and the value that a transaction gave it.
#[derive(Debug, Drop)]
pub struct OidValue {
    pub oid: Oid,
    pub value: Value,
}

/// Objects and values, in the file's order.
pub type OidValues = Items<OidValue>;

/// A transaction that counts, with all its values.
#[derive(Debug, Drop)]
pub struct Whole {
    /// Where it begins, in bytes from the file's start.
    pub place: u64,
    /// Space for committed, `p` for committed and packed.
    pub status: u8,
    pub tid: Tid,
    pub texts: TxnTexts,
    pub values: OidValues,
}

/// Transactions, from the oldest to the newest.
pub type Wholes = Items<Whole>;

/// The transaction at a place in a disk's file of this length, of which this is known, with its texts and its values. None only
/// where no such transaction stands there.
pub(crate) fn read_whole<D: Disk>(
    alloc: Global,
    ahead: &mut Ahead,
    disk: &mut D,
    len: u64,
    place: u64,
    extent: &Extent,
) -> Result<Option<Whole>, ScanRefusal>
    requires len { ForSome (D.told disk.old) (λ told. len ≡ length (content told)) }
    requires ahead { IsAhead (D.told disk.old) ahead.old }
    ensures ahead { IsAhead (D.told disk.old) ahead.new }
    ensures means { IfOk result (λ found. MatchOption found (StandsNone (D.told disk.old) place extent.now) (MeansWhole (D.told disk.old) place extent.now)) }
    ensures undamaged { (kind : Kind) (place : ℕ) → IsErrOf result (ScanRefusal.Damaged kind place) → ⊥ }
    ensures only_reads { OnlyReads D.Disk disk.old disk.new (IsErrOf result ScanRefusal.Disk) }
{
    let head = &extent.head;
    let Some(texts) = ahead.texts_at(disk, len, place, head)? else {
        return Ok(None);
    };
    let Some(values) = values_at(alloc, disk, len, place, head)? else {
        return Ok(None);
    };
    Ok(Some(Whole {
        place,
        status: head.status,
        tid: head.tid,
        texts,
        values,
    }))
}
