ghost use Rattle.std.specs.Prelude.{◌≡◌, ◌+◌, ◌==◌, ◌<◌, ◌≤◌, ◌^◌, ℕ, length, IfOk, IfSome, IsErrOf, if◌then◌else◌};
ghost use Rattle.std.specs.Option.{ForSome};
ghost use Rattle.zdisk.specs.Disk.{content};
ghost use Rattle.fs_record.specs.declared.damage.Damage.{Damage as Kind};
ghost use Rattle.fs_record.specs.Opening.{Damaged};
ghost use Rattle.fs_scan.specs.OnlyReads.{OnlyReads};
ghost use Rattle.fs_scan.specs.Pacing.{Spends};
ghost use Rattle.fs_scan.specs.Scanned.{CostsScan, Reaches, Tells};
ghost use Rattle.fs_scan.specs.Walked.{IsFresh};
ghost use Rattle.fs_scan.specs.declared.opening.ScanRefusal.TheVariants as refusals;

use crate::extent::{Extent, last_behind};
use crate::step::Step;
use crate::walk::Walk;
use fs_index::Index;
use fs_record::{Damage, MAGIC_LEN, STATUS_PACKED, STATUS_UNDONE, TAIL_LEN};
use std::alloc::{AllocError, Global};
use zbase::{Failed, Memory, Oid, Tid};
use zdisk::Disk;

/// What a file that opens has.
#[derive(Drop)]
pub struct Scanned {
    /// Where its last whole transaction ends, in bytes from the file's start.
    pub end: u64,
    /// The number of bytes behind that, which a write that was broken off left.
    pub torn: u64,
    /// The greatest id of an object with a data record.
    pub greatest: Option<Oid>,
    /// The id of the last transaction, 0 for none.
    pub last: Tid,
    /// The id of the last packed transaction, 0 for none.
    pub floor: Tid,
    /// The number of transactions that count.
    pub count: u64,
    /// Where each object's last data record stands.
    pub newest: Index,
}

/// Why a file isn't scanned.
#[derive(Clone, Copy, Debug, PartialEq, Eq)]
pub enum ScanRefusal {
    /// The file has this damage, in the transaction at that place.
    Damaged(Damage, u64),
    /// The disk failed.
    Disk,
    /// Want of memory.
    Memory,
}

impl From<Memory> for ScanRefusal {
    ghost from_gives = { λ _ refusal. refusal ≡ refusals.Memory };

    fn from(_: Memory) -> ScanRefusal {
        ScanRefusal::Memory
    }
}

impl From<AllocError> for ScanRefusal {
    ghost from_gives = { λ _ refusal. refusal ≡ refusals.Memory };

    fn from(_: AllocError) -> ScanRefusal {
        ScanRefusal::Memory
    }
}

impl From<Failed> for ScanRefusal {
    ghost from_gives = { λ _ refusal. refusal ≡ refusals.Disk };

    fn from(_: Failed) -> ScanRefusal {
        ScanRefusal::Disk
    }
}

/// What a scan has counted of the transactions that it passed.
#[derive(Clone, Copy)]
pub struct Tally {
    /// Where they end.
    pub at: u64,
    /// The id of the last one.
    pub last: Tid,
    /// The id of the last packed one.
    pub floor: Tid,
    /// How many count.
    pub count: u64,
}

impl Tally {
    /// That of no transaction: it ends behind the magic.
    fn new() -> Tally
        ensures { result ≡ record { at = MAGIC_LEN; last = 0; floor = 0; count = 0 } }
    {
        Tally {
            at: MAGIC_LEN as u64,
            last: Tid(0),
            floor: Tid(0),
            count: 0,
        }
    }

    /// That behind one transaction more. One undone in the old manner doesn't count, and its id isn't looked at.
    fn behind(self, extent: &Extent) -> Tally
        requires place { self.at + extent.now.long + TAIL_LEN < 2 ^ 64 }
        requires few { self.count ≤ self.at }
        ensures at { result.at ≡ self.at + (extent.now.long + TAIL_LEN) }
        ensures last { result.last ≡ (if extent.now.head.status == STATUS_UNDONE then self.last else extent.now.head.tid) }
        ensures floor { result.floor ≡ (if extent.now.head.status == STATUS_PACKED then extent.now.head.tid else self.floor) }
        ensures count { result.count ≡ (if extent.now.head.status == STATUS_UNDONE then self.count else self.count + 1) }
        ensures few { result.count ≤ result.at }
    {
        let status = extent.head.status;
        let counts = if status == STATUS_UNDONE { 0 } else { 1 };
        Tally {
            at: self.at + extent.size(),
            last: last_behind(extent, self.last),
            floor: if status == STATUS_PACKED {
                extent.head.tid
            } else {
                self.floor
            },
            count: self.count + counts,
        }
    }

    /// What is told where the file ends here, and so many bytes stand behind it.
    fn told(self, torn: u64, greatest: Option<Oid>, newest: Index) -> Scanned
        ensures { result ≡ record {
          end = self.at;
          torn = torn;
          greatest = greatest;
          last = self.last;
          floor = self.floor;
          count = self.count;
          newest = newest;
        } }
    {
        Scanned {
            end: self.at,
            torn,
            greatest,
            last: self.last,
            floor: self.floor,
            count: self.count,
            newest,
        }
    }
}

/// Goes over the transactions of a disk's file of this length, from the first on, by a walk that hasn't begun; what is told of
/// them where they end. Where the disk tells nothing, the walk may be anywhere behind it.
pub(crate) fn go_over<D: Disk>(
    walk: &mut Walk,
    disk: &mut D,
    len: u64,
) -> Result<Tally, ScanRefusal>
    requires fresh { IsFresh walk.old }
    requires len { ForSome (D.told disk.old) (λ told. len ≡ length (content told)) }
    ensures reached { IfOk result (λ tally. IfSome (D.told disk.old) (λ told. Reaches (content told) tally walk.new.kept)) }
    ensures damaged { (kind : Kind) (place : ℕ) → IsErrOf result (ScanRefusal.Damaged kind place)
        → IfSome (D.told disk.old) (λ told. Damaged (content told) place kind) }
    ensures spends { IfSome (D.told disk.old)
        (λ told. Spends (content told) 0 len 0 len ((D.counter disk.old).calls + 1) (D.counter disk.new).calls) }
    ensures only_reads { OnlyReads D.Disk disk.old disk.new (IsErrOf result ScanRefusal.Disk) }
{
    let mut tally = Tally::new();
    walk.enter(disk, len)?;
    'each: loop {
        match walk.step(disk, len, tally.at)? {
            Step::End => return Ok(tally),
            Step::Damaged(kind) => return Err(ScanRefusal::Damaged(kind, tally.at)),
            Step::Right(extent) => tally = tally.behind(&extent),
        }
    }
}

/// What the file of a disk has: its end, its torn rest, each object's last data record; or what is wrong with it
/// and where. It goes over the file once, by 64 KiB at a time, holds no text and no value of it, and changes nothing.
///
/// FileStorage format notes: a file is read forward from its start, and a write that was broken off ends it.
pub fn scan<D: Disk>(alloc: Global, disk: &mut D) -> Result<Scanned, ScanRefusal>
    ensures told { IfOk result (λ scanned. IfSome (D.told disk.old) (λ told. Tells (content told) scanned)) }
    ensures damaged { (kind : Kind) (place : ℕ) → IsErrOf result (ScanRefusal.Damaged kind place)
        → IfSome (D.told disk.old) (λ told. Damaged (content told) place kind) }
    ensures reads { IfSome (D.told disk.old) (λ told. CostsScan (content told) (D.counter disk.old).calls (D.counter disk.new).calls) }
    ensures only_reads { OnlyReads D.Disk disk.old disk.new (IsErrOf result ScanRefusal.Disk) }
{
    let len = disk.len()?;
    let mut walk = Walk::new(alloc);
    let tally = go_over(&mut walk, disk, len)?;
    let torn = len.saturating_sub(tally.at);
    let greatest = walk.greatest();
    Ok(tally.told(torn, greatest, walk.into_index()))
}
