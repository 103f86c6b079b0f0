ghost use Rattle.std.specs.Prelude.{◌≡◌, ◌⊎◌, ◌↔◌, ◌+◌, ◌≤◌, ◌^◌, ℕ, false, true, drop, length, IfErr, IfOk, IfSome, IsErr, IsErrOf, IsSome, None, OnOk, OnErr};
ghost use Rattle.std.specs.Option.{ForSome};
ghost use Rattle.zbase.specs.Faults.{Counts};
ghost use Rattle.zdisk.specs.Crashes.{LeavesFrom};
ghost use Rattle.zdisk.specs.Disk.{content};
ghost use Rattle.fs_record.specs.declared.damage.Damage.{Damage as Kind};
ghost use Rattle.fs_record.specs.Opening.{Damaged};
ghost use Rattle.fs_scan.specs.OnlyReads.{OnlyReads};
ghost use Rattle.fs_scan.specs.Scanned.{CostsScan};
ghost use Rattle.fs_store.specs.Opened.{BringsNot, CostsOpening, CutOffFailed, CutsOff, IsRefusedFor, LeavesDisk, MayNotStay, Readies, StaysTorn, Tidies, waiting_from};
ghost use Rattle.fs_store.specs.FileReads.{Reads, above, of_scan};
ghost use Rattle.fs_store.specs.Fronts.{history_where, records_where};
ghost use Rattle.fs_store.specs.Kept.{IsKept};
ghost use Rattle.fs_store.specs.Seeing.{ReadOn};
ghost use Rattle.fs_store.specs.Staleness.{EitherOf, IsUnsettled, SettlesOn};
ghost use Rattle.fs_store.specs.Stores.{most_length};
ghost use Rattle.fs_store.specs.declared.reads.Loaded.{Loaded};
ghost use Rattle.fs_store.specs.declared.opening.OpenRefusal.{OpenRefusal};
ghost use Rattle.fs_store.specs.declared.opening.OpenRefusal.TheVariants as refusals;

use crate::file::OpenFile;
use crate::waiting::Waiting;
use fs_record::{Damage, MAX_LENGTH, STATUS_AT, STATUS_WAITING, TXN_HEAD_LEN};
use fs_scan::{ScanRefusal, Scanned, scan};
use std::alloc::Global;
use zbase::{Failed, Memory, Oid};
use zdisk::Disk;

/// Why a store isn't opened.
#[derive(Clone, Copy, Debug, PartialEq, Eq)]
pub enum OpenRefusal {
    /// The file has this damage, in the transaction at that place.
    Damaged(Damage, u64),
    /// The disk failed.
    Disk,
    /// The file has so many bytes, more than a file may have.
    TooLong(u64),
    /// Want of memory.
    Memory,
}

impl From<ScanRefusal> for OpenRefusal {
    ghost from_gives = { λ refusal e. e ≡ of_scan refusal };

    fn from(refusal: ScanRefusal) -> OpenRefusal {
        match refusal {
            ScanRefusal::Damaged(kind, place) => OpenRefusal::Damaged(kind, place),
            ScanRefusal::Disk => OpenRefusal::Disk,
            ScanRefusal::Memory => OpenRefusal::Memory,
        }
    }
}

impl From<Memory> for OpenRefusal {
    ghost from_gives = { λ _ refusal. refusal ≡ refusals.Memory };

    fn from(_: Memory) -> OpenRefusal {
        OpenRefusal::Memory
    }
}

impl From<Failed> for OpenRefusal {
    ghost from_gives = { λ _ refusal. refusal ≡ refusals.Disk };

    fn from(_: Failed) -> OpenRefusal {
        OpenRefusal::Disk
    }
}

/// What a file says that opens.
#[derive(Drop)]
pub(crate) struct FileRead {
    /// What is known of it once what stands behind its end is cut off.
    pub(crate) file: OpenFile,
    /// The number of bytes behind its end.
    pub(crate) torn: u64,
}

// One more than the greatest object id, 0 where there is none.
fn above(greatest: Option<Oid>) -> u128
    ensures next { result ≡ above greatest }
    ensures bound { result ≤ 2 ^ 64 }
{
    match greatest {
        Some(oid) => u128::from(oid.0) + 1,
        None => 0,
    }
}

// What the disk's file says, by a scan, whose index it takes over.
fn read_file<D: Disk>(alloc: Global, disk: &mut D) -> Result<FileRead, ScanRefusal>
    ensures reads { IfOk result (λ read. IfSome (D.told disk.old) (λ told. Reads (content told) read)) }
    ensures bound { IfOk result (λ read. read.file.next ≤ 2 ^ 64) }
    ensures long { IfOk result (λ read. read.file.len ≡ read.file.end) }
    ensures damaged { (kind : Kind) (place : ℕ) → IsErrOf result (ScanRefusal.Damaged kind place)
        → IfSome (D.told disk.old) (λ told. Damaged (content told) place kind) }
    ensures costs { IfSome (D.told disk.old) (λ told. CostsScan (content told) (D.counter disk.old).calls (D.counter disk.new).calls) }
    ensures only_reads { OnlyReads D.Disk disk.old disk.new (IsErrOf result ScanRefusal.Disk) }
{
    let Scanned {
        end,
        torn,
        greatest,
        last,
        floor,
        count,
        newest,
    } = scan(alloc, disk)?;
    let next = above(greatest);
    Ok(FileRead {
        file: OpenFile {
            index: newest,
            end,
            len: end,
            last,
            floor,
            next,
            count,
        },
        torn,
    })
}

// Whether the rest behind the file's end has no whole head, or the status `c` or 0.
fn stays_torn<D: Disk>(disk: &mut D, end: u64, torn: u64) -> Result<bool, Failed>
    requires rest { ForSome (D.told disk.old) (λ told. (end + torn ≡ length (content told)) × (length (content told) ≤ most_length)) }
    ensures stays { IfOk result (λ stays. IfSome (D.told disk.old) (λ told. (stays ≡ true) ↔ StaysTorn (drop end (content told)))) }
    ensures long { IfOk result (λ stays. (stays ≡ false) → TXN_HEAD_LEN ≤ torn) }
    ensures costs { (D.counter disk.new).calls ≤ (D.counter disk.old).calls + 1 }
    ensures only_reads { OnlyReads D.Disk disk.old disk.new (IsErr result) }
{
    if torn < TXN_HEAD_LEN as u64 {
        return Ok(true);
    }
    let mut status = [0];
    disk.read_at(end.saturating_add(STATUS_AT as u64), &mut status)?;
    Ok(status[0] == STATUS_WAITING || status[0] == 0)
}

// Sees to it that the rest behind the file's end is torn whichever of its bytes are lost: else it gets the status `c`,
// and that is synced.
fn ready<D: Disk>(disk: &mut D, end: u64, torn: u64) -> Result<(), Failed>
    requires rest { ForSome (D.told disk.old) (λ told. (end + torn ≡ length (content told)) × (length (content told) ≤ most_length)) }
    requires room { (4 ≤ D.spare_calls disk.old) × (1 ≤ D.spare_bytes disk.old) }
    ensures ready { OnOk result (Readies (D.told disk.old) (D.told disk.new) end) }
    ensures failed { OnErr result ((D.told disk.new ≡ D.told disk.old)
        ⊎ (MayNotStay (D.told disk.old) end × BringsNot (waiting_from end) (D.told disk.old) (D.told disk.new))) }
    ensures room { 2 ≤ D.spare_calls disk.new }
    ensures costs { (D.counter disk.new).calls ≤ (D.counter disk.old).calls + 3 }
    ensures counts { Counts (D.counter disk.old) (D.counter disk.new) (IsErr result) }
{
    if stays_torn(disk, end, torn)? {
        return Ok(());
    }
    disk.write_at(end.saturating_add(STATUS_AT as u64), b"c")?;
    disk.sync()
}

// Cuts off what stands behind the file's end, and syncs.
fn cut_off<D: Disk>(disk: &mut D, end: u64, torn: u64) -> Result<(), Failed>
    requires rest { ForSome (D.told disk.old) (λ told. (end + torn ≡ length (content told)) × (length (content told) ≤ most_length)) }
    requires room { (4 ≤ D.spare_calls disk.old) × (1 ≤ D.spare_bytes disk.old) }
    ensures cut { OnOk result (CutsOff (D.told disk.old) (D.told disk.new) end) }
    ensures failed { OnErr result (CutOffFailed (D.told disk.old) (D.told disk.new) end) }
    ensures costs { (D.counter disk.new).calls ≤ (D.counter disk.old).calls + 5 }
    ensures counts { Counts (D.counter disk.old) (D.counter disk.new) (IsErr result) }
{
    ready(disk, end, torn)?;
    disk.cut(end)?;
    disk.sync()
}

/// Opens the disk's file: syncs it before anything else is asked of it, reads it, and cuts off what stands behind its end. A
/// stop at any moment leaves a file that opens to the same history.
pub(crate) fn open_file<D: Disk>(alloc: Global, disk: &mut D) -> Result<FileRead, OpenRefusal>
    ensures reads { IfOk result (λ read. IfSome (D.told disk.old) (λ told. (length (content told) ≤ most_length) × Reads (content told) read)) }
    ensures bound { IfOk result (λ read. read.file.next ≤ 2 ^ 64) }
    ensures long { IfOk result (λ read. read.file.len ≡ read.file.end) }
    ensures tidies { IfOk result (λ read. Tidies (D.told disk.old) (D.told disk.new) read.file.end read.torn) }
    ensures refused { IfErr result (IsRefusedFor (D.told disk.old)) }
    ensures left { IfErr result (LeavesDisk (D.told disk.old) (D.told disk.new)) }
    ensures costs { IfSome (D.told disk.old) (λ told. CostsOpening (content told) (D.counter disk.old).calls (D.counter disk.new).calls) }
    ensures counts { Counts (D.counter disk.old) (D.counter disk.new) (IsErrOf result OpenRefusal.Disk) }
{
    disk.reserve(5, 1)?;
    disk.sync()?;
    let len = disk.len()?;
    if len > MAX_LENGTH {
        return Err(OpenRefusal::TooLong(len));
    }
    let read = read_file(alloc, disk)?;
    if read.torn == 0 {
        return Ok(read);
    }
    cut_off(disk, read.file.end, read.torn)?;
    Ok(read)
}

impl OpenFile {
    /// Opens a stale store's disk again, by one scan. What it knows is then the history that was known, or that and the
    /// undecided transaction. A stop at any moment leaves a file that opens to one of the two.
    ///
    /// Where the disk tells it meets no damage, and no file that is too long.
    pub(crate) fn open_again<D: Disk>(
        &mut self,
        alloc: Global,
        disk: &mut D,
        limit: u64,
        undecided: &Option<Waiting>,
    ) -> Result<(), OpenRefusal>
        requires unsettled { IfSome (D.told disk.old) (IsUnsettled self.old.end undecided.now) }
        ensures kept { OnOk result (IsKept (D.told disk.new) self.new limit None (D.spare_calls disk.new) (D.spare_bytes disk.new)) }
        ensures settled { OnOk result (IfSome (D.told disk.old) (λ told. SettlesOn told self.old.end undecided.now (D.told disk.new) self.new.end)) }
        ensures undamaged { IfErr result (λ refusal. IfSome (D.told disk.old) (λ _. (refusal ≡ OpenRefusal.Disk) ⊎ (refusal ≡ OpenRefusal.Memory))) }
        ensures stays { OnErr result (self.new.end ≡ self.old.end) }
        ensures unsettled { OnErr result (IfSome (D.told disk.new) (IsUnsettled self.old.end undecided.now)) }
        ensures history { OnErr result (history_where (D.told disk.new) self.old.end ≡ history_where (D.told disk.old) self.old.end) }
        ensures records { OnErr result (records_where (D.told disk.new) self.old.end ≡ records_where (D.told disk.old) self.old.end) }
        ensures read { (oid : ℕ) (loaded : Loaded) → ReadOn (D.told disk.old) self.old.end oid loaded → ReadOn (D.told disk.new) self.new.end oid loaded }
        ensures tells { IsSome (D.told disk.old) ↔ IsSome (D.told disk.new) }
        ensures costs { IfSome (D.told disk.old) (λ told. CostsOpening (content told) (D.counter disk.old).calls (D.counter disk.new).calls) }
        ensures any_moment { LeavesFrom (D.told disk.old) (D.told disk.new) (λ file image. EitherOf (D.told disk.old) self.old.end undecided.now image) }
        ensures counts { Counts (D.counter disk.old) (D.counter disk.new) (IsErrOf result OpenRefusal.Disk) }
    {
        // what is undecided is said of the file alone
        let _ = undecided;
        let FileRead {
            file: again,
            torn: _,
        } = open_file(alloc, disk)?;
        *self = again;
        Ok(())
    }
}
