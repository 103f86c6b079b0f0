ghost use Rattle.std.specs.Prelude.{◌≡◌, ℕ, List, IfOk, IfSome, IsErrOf, length};
ghost use Rattle.std.specs.Option.{ForSome};
ghost use Rattle.zdisk.specs.Disk.{content};
ghost use Rattle.fs_index.specs.Places.{place_of};
ghost use Rattle.fs_record.specs.declared.damage.Damage.{Damage as Kind};
ghost use Rattle.fs_record.specs.File.{Earlier};
ghost use Rattle.fs_scan.specs.OnlyReads.{OnlyReads};
ghost use Rattle.fs_scan.specs.Present.{AllStand};
ghost use Rattle.packing.specs.Reachable.{links_in, spells_none};
ghost use Rattle.fs_pack.specs.Marked.{Leading, all_added, broken_by, meant};
ghost use Rattle.fs_pack.specs.Numbered.{AreLast, placed_by};

use crate::marks::Marks;
use fs_index::Index;
use fs_scan::{ScanRefusal, Walk, follow_from, read_head};
use packing::Links;
use std::alloc::Global;
use zbase::{Memory, Oid, Value};
use zdisk::Disk;

/// Adds what a value leads to, and tells whether it is bytes that spell no object.
pub(crate) fn lead<L: Links>(links: &L, value: &Value, marks: &mut Marks) -> Result<bool, Memory>
    ensures none { IfOk result (λ none. none ≡ spells_none L.linked value.now) }
    ensures added { IfOk result (λ _. marks.new ≡ all_added (links_in L.linked value.now) marks.old) }
{
    let bytes = match value {
        Some(bytes) => bytes,
        None => return Ok(false),
    };
    match links.links(bytes.as_slice())? {
        Some(oids) => {
            marks.add_all(oids.as_slice())?;
            Ok(false)
        }
        None => Ok(true),
    }
}

/// Where the object's last record stands, by its number.
fn last_place(walk: &Walk, newest: &Index, oid: Oid) -> Option<u64>
    ensures { result ≡ placed_by walk.now.kept.places (place_of newest.now oid) }
{
    match newest.get(oid) {
        Some(number) => walk.record_place(number.saturating_sub(1) as usize),
        None => None,
    }
}

/// The value that the object's last record means, in a disk's file of this length.
fn last_value<D: Disk>(
    alloc: Global,
    disk: &mut D,
    len: u64,
    walk: &Walk,
    newest: &Index,
    oid: Oid,
) -> Result<Value, ScanRefusal>
    requires { ForSome (D.told disk.old) (λ told. len ≡ length (content told)) }
    ensures value { IfOk result (λ value. IfSome (D.told disk.old) (λ told. (records : List Earlier) → AllStand (content told) records
        → AreLast walk.now.kept.places newest.now records → value ≡ meant records oid)) }
    ensures undamaged { (kind : Kind) (place : ℕ) → IsErrOf result (ScanRefusal.Damaged kind place) → ⊥ }
    ensures only_reads { OnlyReads D.Disk disk.old disk.new (IsErrOf result ScanRefusal.Disk) }
{
    let place = match last_place(walk, newest, oid) {
        Some(place) => place,
        None => return Ok(None),
    };
    let head = match read_head(disk, len, place)? {
        Some(head) => head,
        None => return Ok(None),
    };
    follow_from(alloc, disk, len, place, &head)
}

pub(crate) fn broken_by(broken: bool, oid: Oid, before: Option<Oid>) -> Option<Oid>
    ensures { result ≡ broken_by broken oid before }
{
    if !broken {
        return before;
    }
    match before {
        Some(other) if other.0 < oid.0 => Some(other),
        _ => Some(oid),
    }
}

/// Adds what the objects lead to by their last records, and what these lead to, until nothing is added. It answers the
/// least object whose last value is bytes that spell no object. Each object's value is read once, of a disk's file over which
/// the walk has gone.
pub(crate) fn lead_on<D: Disk, L: Links>(
    alloc: Global,
    disk: &mut D,
    walk: &Walk,
    newest: &Index,
    links: &L,
    marks: &mut Marks,
) -> Result<Option<Oid>, ScanRefusal>
    ensures leads { IfOk result (λ broken. IfSome (D.told disk.old) (λ told. (records : List Earlier) → AllStand (content told) records
        → AreLast walk.now.kept.places newest.now records → Leading L.linked (meant records) marks.old marks.new broken)) }
    ensures undamaged { (kind : Kind) (place : ℕ) → IsErrOf result (ScanRefusal.Damaged kind place) → ⊥ }
    ensures only_reads { OnlyReads D.Disk disk.old disk.new (IsErrOf result ScanRefusal.Disk) }
{
    let len = disk.len()?;
    let mut next = 0;
    let mut broken = None;
    'marks: while next < marks.len() {
        let oid = marks.get(next);
        let value = last_value(alloc, disk, len, walk, newest, oid)?;
        let none = lead(links, &value, marks)?;
        broken = broken_by(none, oid, broken);
        next += 1;
    }
    Ok(broken)
}
