ghost use Rattle.std.specs.Prelude.{◌≡◌, ◌+◌, ◌≤◌, ◌==◌, ◌&&◌, ℕ, List, IfOk, IfSome, IsErr, true};
ghost use Rattle.std.specs.Option.{ForSome};
ghost use Rattle.zdisk.specs.Disk.{content};
ghost use Rattle.fs_index.specs.Places.{place_of};
ghost use Rattle.fs_record.specs.File.{is_right_body};
ghost use Rattle.fs_scan.specs.Found.{body_in};
ghost use Rattle.fs_scan.specs.Keeping.{Readable, rows_on};
ghost use Rattle.fs_scan.specs.Newest.{place_in};
ghost use Rattle.fs_scan.specs.OnlyReads.{OnlyReads};

use crate::data::Found;
use crate::kept::Kept;
use zbase::{Failed, Tid};
use zdisk::Disk;

/// What data records have right, judged against the records before their transaction.
#[derive(Clone, Copy)]
pub struct Marks {
    /// They have their transaction's id and start.
    pub own: bool,
    /// Their previous places are those of the objects' last records.
    pub prev: bool,
    /// Their back pointers are 0 or places of records of the objects.
    pub back: bool,
    /// Their two zero bytes are zero.
    pub version: bool,
}

// Whether data stands, or a back pointer that is 0 or the place of a record of the object: one device call for a back pointer,
// and none for data.
fn is_right_back<D: Disk>(kept: &Kept, disk: &mut D, found: &Found) -> Result<bool, Failed>
    requires { ForSome (D.told disk.old) (λ told. Readable (content told) kept.now.places) }
    ensures right { IfOk result (λ right. IfSome (D.told disk.old) (λ told. (behind : List ℕ)
        → right ≡ is_right_body (rows_on (content told) kept.now.places) found.now.head.oid (body_in found.now.head.length found.now.back behind))) }
    ensures reads { (D.counter disk.new).calls ≤ (D.counter disk.old).calls + 1 }
    ensures spares { (found.now.head.length ≡ 0 → found.now.back ≡ 0) → (D.counter disk.new).calls ≤ (D.counter disk.old).calls }
    ensures only_reads { OnlyReads D.Disk disk.old disk.new (IsErr result) }
{
    if found.head.length > 0 {
        return Ok(true);
    }
    if found.back == 0 {
        return Ok(true);
    }
    kept.has(disk, found.head.oid, found.back)
}

/// What one record has right, given the records before its transaction, the transaction's id and its start. One device call where
/// it points back, and none where it has data.
pub fn judged<D: Disk>(
    kept: &Kept,
    disk: &mut D,
    found: &Found,
    tid: Tid,
    start: u64,
) -> Result<Marks, Failed>
    requires { ForSome (D.told disk.old) (λ told. Readable (content told) kept.now.places) }
    ensures own { IfOk result (λ marks. marks.own ≡ ((found.now.head.tid == tid) && (found.now.head.start == start))) }
    ensures prev { IfOk result (λ marks. marks.prev ≡ (found.now.head.prev == place_in (place_of kept.now.newest found.now.head.oid))) }
    ensures back { IfOk result (λ marks. IfSome (D.told disk.old) (λ told. (behind : List ℕ)
        → marks.back ≡ is_right_body (rows_on (content told) kept.now.places) found.now.head.oid (body_in found.now.head.length found.now.back behind))) }
    ensures version { IfOk result (λ marks. marks.version ≡ (found.now.head.version == 0)) }
    ensures reads { (D.counter disk.new).calls ≤ (D.counter disk.old).calls + 1 }
    ensures spares { (found.now.head.length ≡ 0 → found.now.back ≡ 0) → (D.counter disk.new).calls ≤ (D.counter disk.old).calls }
    ensures only_reads { OnlyReads D.Disk disk.old disk.new (IsErr result) }
{
    let back = is_right_back(kept, disk, found)?;
    Ok(Marks {
        own: found.head.tid == tid && found.head.start == start,
        prev: found.head.prev == kept.last_place(found.head.oid),
        back,
        version: found.head.version == 0,
    })
}

impl Marks {
    /// The marks of no records.
    pub fn all() -> Marks
        ensures own { result.own ≡ true }
        ensures prev { result.prev ≡ true }
        ensures back { result.back ≡ true }
        ensures version { result.version ≡ true }
    {
        Marks {
            own: true,
            prev: true,
            back: true,
            version: true,
        }
    }

    /// What both have right.
    pub fn and(self, other: Marks) -> Marks
        ensures own { result.own ≡ (self.own && other.own) }
        ensures prev { result.prev ≡ (self.prev && other.prev) }
        ensures back { result.back ≡ (self.back && other.back) }
        ensures version { result.version ≡ (self.version && other.version) }
    {
        Marks {
            own: self.own && other.own,
            prev: self.prev && other.prev,
            back: self.back && other.back,
            version: self.version && other.version,
        }
    }
}
