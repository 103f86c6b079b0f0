ghost use Rattle.std.specs.Prelude.{◌≡◌, ◌+◌, ◌<◌, ◌≤◌, ℕ, List, IfOk, IfSome, IsErrOf, MatchOption, OnOk, length, true};
ghost use Rattle.std.specs.List.{list_all};
ghost use Rattle.std.specs.Option.{ForSome};
ghost use Rattle.zdisk.specs.Disk.{content};
ghost use Rattle.fs_record.specs.declared.damage.Damage.{Damage as Kind};
ghost use Rattle.fs_record.specs.File.{Earlier, has_body, rows, value_of};
ghost use Rattle.fs_record.specs.Spelling.{Data};
ghost use Rattle.fs_scan.specs.Backs.{CostsBodies, CostsBody};
ghost use Rattle.fs_scan.specs.Followed.{MeansValues};
ghost use Rattle.fs_scan.specs.Found.{data_in};
ghost use Rattle.fs_scan.specs.Marked.{AreRecords, NoRecords};
ghost use Rattle.fs_scan.specs.OnlyReads.{OnlyReads};
ghost use Rattle.fs_scan.specs.Present.{AllStand};

use crate::data::{Found, data_at};
use crate::following::follow;
use crate::{OidValue, OidValues, ScanRefusal};
use fs_record::{BACK_RECORD_LEN, DATA_HEAD_LEN};
use std::alloc::Global;
use zbase::{Bytes, Value};
use zdisk::Disk;

// The value of a data record that stands at the front: its data, or what its back pointer leads to.
fn value_at_front<D: Disk>(
    alloc: Global,
    disk: &mut D,
    len: u64,
    rest: &[u8],
    found: &Found,
) -> Result<Value, ScanRefusal>
    requires within { (DATA_HEAD_LEN < found.now.size) × (found.now.size ≤ length rest.now) }
    requires full { 0 < found.now.head.length → found.now.size ≡ DATA_HEAD_LEN + found.now.head.length }
    requires whole { ForSome (D.told disk.old) (λ told. len ≡ length (content told)) }
    ensures value { IfOk result (λ value. IfSome (D.told disk.old)
        (λ told. (records : List Earlier) → AllStand (content told) records → has_body (rows records) (data_in found.now rest.now) ≡ true
        → value ≡ value_of records (data_in found.now rest.now).body)) }
    ensures reads { IfSome (D.told disk.old) (λ told. (records : List Earlier) → AllStand (content told) records
        → has_body (rows records) (data_in found.now rest.now) ≡ true
        → CostsBody (content told) (data_in found.now rest.now).body (D.counter disk.old).calls (D.counter disk.new).calls) }
    ensures undamaged { (kind : Kind) (place : ℕ) → IsErrOf result (ScanRefusal.Damaged kind place) → ⊥ }
    ensures only_reads { OnlyReads D.Disk disk.old disk.new (IsErrOf result ScanRefusal.Disk) }
{
    if found.head.length != 0 {
        return Ok(Some(Bytes::from_slice(alloc, &rest[DATA_HEAD_LEN..found.size as usize])?));
    }
    if found.back == 0 {
        return Ok(None);
    }
    follow(alloc, disk, len, found.back)
}

/// The values of an area's data records, in a disk's file of this length, back pointers followed; none where the records
/// don't end exactly with the area.
pub fn read_values<D: Disk>(
    alloc: Global,
    disk: &mut D,
    len: u64,
    area: &[u8],
) -> Result<Option<OidValues>, ScanRefusal>
    requires { ForSome (D.told disk.old) (λ told. len ≡ length (content told)) }
    ensures values { IfOk result (λ found. MatchOption found (NoRecords area.now) (MeansValues (D.told disk.old) area.now)) }
    ensures reads { OnOk result (IfSome (D.told disk.old) (λ told. (ds : List Data) (records : List Earlier) → AreRecords area.now ds
        → AllStand (content told) records → list_all (has_body (rows records)) ds ≡ true
        → CostsBodies (content told) ds (D.counter disk.old).calls (D.counter disk.new).calls)) }
    ensures undamaged { (kind : Kind) (place : ℕ) → IsErrOf result (ScanRefusal.Damaged kind place) → ⊥ }
    ensures only_reads { OnlyReads D.Disk disk.old disk.new (IsErrOf result ScanRefusal.Disk) }
{
    let mut values = OidValues::new(alloc);
    let mut at = 0;
    while at < area.len() {
        let rest = &area[at..];
        let front = &rest[..rest.len().min(BACK_RECORD_LEN)];
        let Some(found) = data_at(front, rest.len() as u64) else {
            return Ok(None);
        };
        let value = value_at_front(alloc, disk, len, rest, &found)?;
        values.push(OidValue {
            oid: found.head.oid,
            value,
        })?;
        at += found.size as usize;
    }
    Ok(Some(values))
}
