ghost use Rattle.std.specs.Prelude.{◌≡◌, ◌+◌, ◌<◌, ◌≤◌, ◌++◌, ℕ, List, IfOk, IfSome, IsErr, IsErrOf, Some, drop, length};
ghost use Rattle.std.specs.Option.{ForSome, option_map};
ghost use Rattle.zdisk.specs.Disk.{content};
ghost use Rattle.fs_record.specs.declared.damage.Damage.{Damage as Kind};
ghost use Rattle.fs_record.specs.declared.body.Body.TheVariants.{Back};
ghost use Rattle.fs_record.specs.File.{Earlier, value_at};
ghost use Rattle.fs_record.specs.Fits.{FitsData};
ghost use Rattle.fs_record.specs.Spelling.{Data, data_spelling, head_of};
ghost use Rattle.fs_record.specs.Standing.{IsPlace};
ghost use Rattle.fs_scan.specs.Backs.{CostsBacks, CostsBody, HasDataOf};
ghost use Rattle.fs_scan.specs.OnlyReads.{OnlyReads};
ghost use Rattle.fs_scan.specs.Present.{AllStand};

use crate::ScanRefusal;
use crate::window::read_range;
use fs_record::{BACK_LEN, BACK_RECORD_LEN, Body, DATA_HEAD_LEN, DataHead, read_data_head};
use std::alloc::Global;
use zbase::{Bytes, Failed, Value, u64_at};
use zdisk::Disk;

/// The head of the data record at a place, in a disk's file of this length: one device call at most, and no memory.
/// None only where no record can stand there.
pub fn read_head<D: Disk>(disk: &mut D, len: u64, at: u64) -> Result<Option<DataHead>, Failed>
    requires { ForSome (D.told disk.old) (λ told. len ≡ length (content told)) }
    ensures head { IfOk result (λ head. IfSome (D.told disk.old)
        (λ told. (d : Data) (more : List ℕ) → FitsData d → drop at (content told) ≡ data_spelling d ++ more → head ≡ Some (head_of d))) }
    ensures reads { (D.counter disk.new).calls ≤ (D.counter disk.old).calls + 1 }
    ensures only_reads { OnlyReads D.Disk disk.old disk.new (IsErr result) }
{
    let left = len.saturating_sub(at);
    if left < DATA_HEAD_LEN as u64 {
        return Ok(None);
    }
    let mut bytes = [0u8; DATA_HEAD_LEN];
    disk.read_at(at, &mut bytes)?;
    match read_data_head(&bytes) {
        Ok(head) => Ok(Some(head)),
        Err(_) => unreachable!(),
    }
}

// What the data record with this head has behind it, data or a back pointer: one device call at most. None only where
// no such record stands at the place.
fn body_behind<D: Disk>(
    alloc: Global,
    disk: &mut D,
    len: u64,
    at: u64,
    head: &DataHead,
) -> Result<Option<Body>, ScanRefusal>
    requires { ForSome (D.told disk.old) (λ told. len ≡ length (content told)) }
    ensures body { IfOk result (λ body. IfSome (D.told disk.old)
        (λ told. (d : Data) (more : List ℕ) → FitsData d → drop at (content told) ≡ data_spelling d ++ more → head.now ≡ head_of d → body ≡ Some d.body)) }
    ensures undamaged { (kind : Kind) (place : ℕ) → IsErrOf result (ScanRefusal.Damaged kind place) → ⊥ }
    ensures reads { (D.counter disk.new).calls ≤ (D.counter disk.old).calls + 1 }
    ensures only_reads { OnlyReads D.Disk disk.old disk.new (IsErrOf result ScanRefusal.Disk) }
{
    let left = len.saturating_sub(at);
    if left < DATA_HEAD_LEN as u64 {
        return Ok(None);
    }
    let size = if head.length == 0 {
        BACK_LEN as u64
    } else {
        head.length
    };
    if left - (DATA_HEAD_LEN as u64) < size {
        return Ok(None);
    }
    let behind = read_range(alloc, disk, at + DATA_HEAD_LEN as u64, size)?;
    if head.length == 0 {
        return Ok(Some(Body::Back(u64_at(&behind, 0))));
    }
    Ok(Some(Body::Full(Bytes::from_vec(behind))))
}

/// The value that the data record with this head at a place means, in a disk's file of this length: its own data, or
/// that of the record to which it points back. One device call for its own body, and two for each back pointer.
///
/// FileStorage format notes: a back pointer names an earlier record of the object, and 0 means no value.
pub fn follow_from<D: Disk>(
    alloc: Global,
    disk: &mut D,
    len: u64,
    place: u64,
    head: &DataHead,
) -> Result<Value, ScanRefusal>
    requires len { ForSome (D.told disk.old) (λ told. len ≡ length (content told)) }
    requires head { IfSome (D.told disk.old) (λ told. (d : Data) (more : List ℕ) → FitsData d → drop place (content told) ≡ data_spelling d ++ more
        → head.now ≡ head_of d) }
    ensures value { IfOk result (λ value. IfSome (D.told disk.old)
        (λ told. (records : List Earlier) (oid : ℕ) → AllStand (content told) records → IsPlace records oid place → value ≡ value_at place records)) }
    ensures undamaged { (kind : Kind) (place : ℕ) → IsErrOf result (ScanRefusal.Damaged kind place) → ⊥ }
    ensures reads { IfSome (D.told disk.old) (λ told. (records : List Earlier) (oid : ℕ) → AllStand (content told) records → IsPlace records oid place
        → CostsBacks (content told) place (D.counter disk.old).calls (D.counter disk.new).calls) }
    ensures only_reads { OnlyReads D.Disk disk.old disk.new (IsErrOf result ScanRefusal.Disk) }
{
    let mut at = place;
    let mut head = *head;
    'back: loop {
        match body_behind(alloc, disk, len, at, &head)? {
            Some(Body::Full(bytes)) => return Ok(Some(bytes)),
            Some(Body::Back(back)) => {
                // an earlier place, since the file was judged: a disk that tells nothing may say what it likes
                if back == 0 || back >= at {
                    return Ok(None);
                }
                let Some(earlier) = read_head(disk, len, back)? else {
                    return Ok(None);
                };
                head = earlier;
                at = back;
            }
            None => return Ok(None),
        }
    }
}

// Where the data record with this head, which has no data, points back to: one device call at most. None only where no
// such record stands at the place.
fn back_behind<D: Disk>(
    disk: &mut D,
    len: u64,
    at: u64,
    head: &DataHead,
) -> Result<Option<u64>, Failed>
    requires len { ForSome (D.told disk.old) (λ told. len ≡ length (content told)) }
    requires no_data { head.now.length ≡ 0 }
    ensures back { IfOk result (λ back. IfSome (D.told disk.old)
        (λ told. (d : Data) (more : List ℕ) → FitsData d → drop at (content told) ≡ data_spelling d ++ more → head.now ≡ head_of d
        → option_map Back back ≡ Some d.body)) }
    ensures reads { (D.counter disk.new).calls ≤ (D.counter disk.old).calls + 1 }
    ensures only_reads { OnlyReads D.Disk disk.old disk.new (IsErr result) }
{
    let left = len.saturating_sub(at);
    if left < BACK_RECORD_LEN as u64 {
        return Ok(None);
    }
    let mut behind = [0u8; BACK_LEN];
    disk.read_at(at + DATA_HEAD_LEN as u64, &mut behind)?;
    Ok(Some(u64_at(&behind, 0)))
}

/// Where the data stands that the record with this head at a place means, in a disk's file of this length: there, or at
/// the record to which its back pointers lead; 0 where they lead to none. Two device calls for each back pointer, and no
/// memory.
pub fn data_place<D: Disk>(
    disk: &mut D,
    len: u64,
    place: u64,
    head: &DataHead,
) -> Result<u64, Failed>
    requires len { ForSome (D.told disk.old) (λ told. len ≡ length (content told)) }
    requires head { IfSome (D.told disk.old) (λ told. (d : Data) (more : List ℕ) → FitsData d → drop place (content told) ≡ data_spelling d ++ more
        → head.now ≡ head_of d) }
    ensures data_stands { IfOk result (λ at. IfSome (D.told disk.old)
        (λ told. (records : List Earlier) (oid : ℕ) → AllStand (content told) records → IsPlace records oid place → 0 < place
        → HasDataOf (content told) records oid place at)) }
    ensures reads { IfSome (D.told disk.old) (λ told. (records : List Earlier) (oid : ℕ) → AllStand (content told) records → IsPlace records oid place
        → CostsBacks (content told) place (D.counter disk.old).calls (D.counter disk.new).calls) }
    ensures only_reads { OnlyReads D.Disk disk.old disk.new (IsErr result) }
{
    let mut at = place;
    let mut head = *head;
    'back: while head.length == 0 {
        let Some(back) = back_behind(disk, len, at, &head)? else {
            return Ok(0);
        };
        // an earlier place, since the file was judged: a disk that tells nothing may say what it likes
        if back == 0 || back >= at {
            return Ok(0);
        }
        let Some(earlier) = read_head(disk, len, back)? else {
            return Ok(0);
        };
        head = earlier;
        at = back;
    }
    Ok(at)
}

/// The value that the data record at a place means, as `follow_from`: two device calls for it, and two for each back
/// pointer.
pub fn follow<D: Disk>(
    alloc: Global,
    disk: &mut D,
    len: u64,
    place: u64,
) -> Result<Value, ScanRefusal>
    requires { ForSome (D.told disk.old) (λ told. len ≡ length (content told)) }
    ensures value { IfOk result (λ value. IfSome (D.told disk.old)
        (λ told. (records : List Earlier) (oid : ℕ) → AllStand (content told) records → IsPlace records oid place → value ≡ value_at place records)) }
    ensures undamaged { (kind : Kind) (place : ℕ) → IsErrOf result (ScanRefusal.Damaged kind place) → ⊥ }
    ensures reads { IfSome (D.told disk.old) (λ told. (records : List Earlier) (oid : ℕ) → AllStand (content told) records → IsPlace records oid place
        → CostsBody (content told) (Back place) (D.counter disk.old).calls (D.counter disk.new).calls) }
    ensures only_reads { OnlyReads D.Disk disk.old disk.new (IsErrOf result ScanRefusal.Disk) }
{
    match read_head(disk, len, place)? {
        Some(head) => follow_from(alloc, disk, len, place, &head),
        None => Ok(None),
    }
}
