ghost use Rattle.std.specs.Prelude.{◌≡◌, ◌++◌, ℕ, List, None, drop, filter, length, IfOk, IfSome, IsErr, IsErrOf, true};
ghost use Rattle.std.specs.Option.{ForSome};
ghost use Rattle.zdisk.specs.Disk.{content};
ghost use Rattle.fs_record.specs.declared.damage.Damage.{Damage as Kind};
ghost use Rattle.fs_record.specs.File.{Earlier, rows};
ghost use Rattle.fs_record.specs.Fits.{FitsData};
ghost use Rattle.fs_record.specs.Opening.{Damaged};
ghost use Rattle.fs_record.specs.Spelling.{Data, data_spelling};
ghost use Rattle.fs_record.specs.Standing.{IsPlace};
ghost use Rattle.fs_scan.specs.Ahead.{IsAhead};
ghost use Rattle.fs_scan.specs.Checked.{Checks};
ghost use Rattle.fs_scan.specs.OnlyReads.{OnlyReads};
ghost use Rattle.fs_scan.specs.Keeping.{PlacesRise, row_on, rows_on};
ghost use Rattle.fs_scan.specs.Present.{AllStand, back_in, is_present, means_value};

use crate::ahead::Ahead;
use crate::kept::Kept;
use crate::opening::{ScanRefusal, go_over};
use crate::walk::Walk;
use fs_record::{BACK_RECORD_LEN, DATA_HEAD_LEN, DATA_LENGTH_AT};
use std::alloc::Global;
use zbase::{Failed, Oid, Tid, u64_at};
use zdisk::Disk;

/// The numbers of a file that opens.
#[derive(Clone, Copy, Debug, PartialEq, Eq)]
pub struct Checked {
    /// The number of transactions that count.
    pub transactions: u64,
    /// The number of objects that have a value.
    pub objects: u64,
    /// The id of the last transaction, 0 for none.
    pub last: Tid,
    /// Where the last whole transaction ends, in bytes from the file's start.
    pub end: u64,
    /// The number of bytes behind that, which a write that was broken off left.
    pub torn: u64,
}

/// Where the data record at a place points back to, none where it has data; in a disk's file of this length. One device
/// call at most, and no memory.
fn back_at<D: Disk>(disk: &mut D, len: u64, at: u64) -> Result<Option<u64>, Failed>
    requires { ForSome (D.told disk.old) (λ told. len ≡ length (content told)) }
    ensures back { IfOk result (λ back. IfSome (D.told disk.old)
        (λ told. (d : Data) (more : List ℕ) → FitsData d → drop at (content told) ≡ data_spelling d ++ more → back ≡ back_in d.body)) }
    ensures only_reads { OnlyReads D.Disk disk.old disk.new (IsErr result) }
{
    // a back pointer ends a record of so many bytes, so one with less behind it has data
    if len.saturating_sub(at) < BACK_RECORD_LEN as u64 {
        return Ok(None);
    }
    let mut front = [0u8; BACK_RECORD_LEN];
    disk.read_at(at, &mut front)?;
    if u64_at(&front, DATA_LENGTH_AT) != 0 {
        return Ok(None);
    }
    Ok(Some(u64_at(&front, DATA_HEAD_LEN)))
}

/// Whether the data record at this place means a value: it has data, or points back to a record that means one. One device
/// call for each record on the way.
fn has_value<D: Disk>(disk: &mut D, len: u64, place: u64) -> Result<bool, Failed>
    requires { ForSome (D.told disk.old) (λ told. len ≡ length (content told)) }
    ensures value { IfOk result (λ has. IfSome (D.told disk.old) (λ told. (records : List Earlier) (oid : ℕ) → AllStand (content told) records
        → IsPlace records oid place → has ≡ means_value records place)) }
    ensures only_reads { OnlyReads D.Disk disk.old disk.new (IsErr result) }
{
    let mut at = place;
    'back: loop {
        let Some(back) = back_at(disk, len, at)? else {
            return Ok(true);
        };
        // an earlier place, since the file was judged: a disk that tells nothing may say what it likes
        if back == 0 || back >= at {
            return Ok(false);
        }
        at = back;
    }
}

/// Whether the data record at a place has data, in a disk's file of this length: one device call at most, and none where it was
/// read ahead.
fn is_full<D: Disk>(ahead: &mut Ahead, disk: &mut D, len: u64, at: u64) -> Result<bool, ScanRefusal>
    requires len { ForSome (D.told disk.old) (λ told. len ≡ length (content told)) }
    requires ahead { IsAhead (D.told disk.old) ahead.old }
    ensures ahead { IsAhead (D.told disk.old) ahead.new }
    ensures full { IfOk result (λ yes. yes ≡ true → IfSome (D.told disk.old)
        (λ told. (d : Data) (more : List ℕ) → FitsData d → drop at (content told) ≡ data_spelling d ++ more → None ≡ back_in d.body)) }
    ensures undamaged { (kind : Kind) (place : ℕ) → IsErrOf result (ScanRefusal.Damaged kind place) → ⊥ }
    ensures only_reads { OnlyReads D.Disk disk.old disk.new (IsErrOf result ScanRefusal.Disk) }
{
    let size = BACK_RECORD_LEN as u64;
    // a back pointer ends a record of so many bytes, so one with less behind it has data
    if len.saturating_sub(at) < size {
        return Ok(true);
    }
    ahead.show(disk, len, at, size)?;
    if u64_at(ahead.piece(at, size), DATA_LENGTH_AT) != 0 {
        return Ok(true);
    }
    Ok(false)
}

/// Whether the data record at a place is its object's last one, and means a value. Its id and whether it has data are read
/// ahead; of one that points back the way is followed, by one device call for each record on it.
fn is_present<D: Disk>(
    kept: &Kept,
    ahead: &mut Ahead,
    disk: &mut D,
    len: u64,
    place: u64,
) -> Result<bool, ScanRefusal>
    requires len { ForSome (D.told disk.old) (λ told. len ≡ length (content told)) }
    requires ahead { IsAhead (D.told disk.old) ahead.old }
    ensures ahead { IsAhead (D.told disk.old) ahead.new }
    ensures present { IfOk result (λ yes. IfSome (D.told disk.old) (λ told. (records : List Earlier) → AllStand (content told) records
        → IsPlace records (row_on (content told) place).oid place → yes ≡ is_present records kept.now.newest (row_on (content told) place))) }
    ensures undamaged { (kind : Kind) (at : ℕ) → IsErrOf result (ScanRefusal.Damaged kind at) → ⊥ }
    ensures only_reads { OnlyReads D.Disk disk.old disk.new (IsErrOf result ScanRefusal.Disk) }
{
    if len.saturating_sub(place) < 8 {
        return Ok(false);
    }
    ahead.show(disk, len, place, 8)?;
    let oid = Oid(u64_at(ahead.piece(place, 8), 0));
    if kept.last_place(oid) != place {
        return Ok(false);
    }
    if is_full(ahead, disk, len, place)? {
        return Ok(true);
    }
    let has = has_value(disk, len, place)?;
    Ok(has)
}

/// How many objects have a value: how many of the data records are their objects' last ones, and mean a value. It goes over
/// their heads in the file's order, by 64 KiB at a time.
fn count_present<D: Disk>(kept: &Kept, disk: &mut D, len: u64) -> Result<u64, ScanRefusal>
    requires len { ForSome (D.told disk.old) (λ told. len ≡ length (content told)) }
    ensures count { IfOk result (λ count. IfSome (D.told disk.old) (λ told. (records : List Earlier) → AllStand (content told) records
        → rows records ≡ rows_on (content told) kept.now.places → count ≡ length (filter (is_present records kept.now.newest) (rows records)))) }
    ensures rise { PlacesRise 0 kept.now.places }
    ensures undamaged { (kind : Kind) (at : ℕ) → IsErrOf result (ScanRefusal.Damaged kind at) → ⊥ }
    ensures only_reads { OnlyReads D.Disk disk.old disk.new (IsErrOf result ScanRefusal.Disk) }
{
    let mut ahead = Ahead::new(kept.alloc());
    let mut count = 0;
    'records: for number in 0..kept.count() {
        let place = match kept.place(number) {
            Some(place) => place,
            None => unreachable!(),
        };
        if is_present(kept, &mut ahead, disk, len, place)? {
            count += 1;
        }
    }
    Ok(count)
}

/// The numbers of the file of a disk, or what is wrong with it and where. It holds no more of the file than a scan does, and
/// changes nothing.
///
/// FileStorage format notes.
pub fn check<D: Disk>(alloc: Global, disk: &mut D) -> Result<Checked, ScanRefusal>
    ensures told { IfOk result (λ checked. IfSome (D.told disk.old) (λ told. Checks (content told) checked)) }
    ensures damaged { (kind : Kind) (place : ℕ) → IsErrOf result (ScanRefusal.Damaged kind place)
        → IfSome (D.told disk.old) (λ told. Damaged (content told) place kind) }
    ensures only_reads { OnlyReads D.Disk disk.old disk.new (IsErrOf result ScanRefusal.Disk) }
{
    let len = disk.len()?;
    let mut walk = Walk::new(alloc);
    let tally = go_over(&mut walk, disk, len)?;
    let objects = count_present(walk.kept(), disk, len)?;
    Ok(Checked {
        transactions: tally.count,
        objects,
        last: tally.last,
        end: tally.at,
        torn: len.saturating_sub(tally.at),
    })
}
