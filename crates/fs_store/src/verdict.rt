ghost use Rattle.std.specs.Prelude.{◌≡◌, ◌<◌, ◌≤◌, ◌^◌, ◌==◌, All, ℕ, false, min, IfOk, IfSome, IsErr, None, Some};
ghost use Rattle.zbase.specs.Limits.{greatest_number};
ghost use Rattle.evaluator.specs.Change.{is_new, made, named};
ghost use Rattle.evaluator.specs.Settle.{size, size_of_entry};
ghost use Rattle.fs_scan.specs.OnlyReads.{OnlyReads};
ghost use Rattle.fs_store.specs.Fronts.{history_at};
ghost use Rattle.fs_store.specs.Knowing.{IsKnown};
ghost use Rattle.fs_store.specs.Seeing.{SeenOn};
ghost use Rattle.fs_store.specs.Stores.{IsDraft};
ghost use Rattle.fs_store.specs.declared.refusal.VoteRefusal.{VoteRefusal};
ghost use Rattle.fs_store.specs.Verdicts.{IsFree, clash_among, clash_at, spent_at, tid_after, validation_at};

use crate::file::OpenFile;
use crate::reads::Seen;
use crate::{Spent, VoteRefusal};
use evaluator::{Draft, Entry, Name};
use fs_record::{BACK_RECORD_LEN, BARE_TXN_LEN, DATA_HEAD_LEN};
use fs_scan::read_head;
use zbase::{Clash, Failed, Tid};
use zdisk::Disk;

// The clash of an object that was read with this later serial.
fn clash_with(seen: &Seen, found: Tid) -> Clash
    ensures { result ≡ record { oid = seen.now.oid; seen = seen.now.serial; found = found } }
{
    Clash {
        oid: seen.oid.0,
        seen: seen.serial.0,
        found: found.0,
    }
}

impl OpenFile {
    // The clash of an object that was read. Where its newest record stands where it stood then there is none; else the
    // record's head has its serial.
    fn clash_at<D: Disk>(&self, disk: &mut D, seen: &Seen) -> Result<Option<Clash>, Failed>
        requires known { IsKnown (D.told disk.old) self.now }
        requires seen { SeenOn (D.told disk.old) self.now.end seen.now }
        ensures calls { IfOk result (λ clash. clash ≡ None → (D.counter disk.new).calls ≡ (D.counter disk.old).calls) }
        ensures clash { IfOk result (λ clash. IfSome (D.told disk.old) (λ told. clash ≡ clash_at (history_at told self.now.end) seen.now)) }
        ensures only_reads { OnlyReads D.Disk disk.old disk.new (IsErr result) }
    {
        let place = self.place(seen.oid);
        if place == seen.place {
            return Ok(None);
        }
        match read_head(disk, self.len, place)? {
            Some(head) => Ok(Some(clash_with(seen, head.tid))),
            // only where the disk tells nothing
            None => Ok(Some(clash_with(seen, self.last))),
        }
    }

    // The clash of the first object that has a later serial than the one seen: no device call where there is none, and one
    // where there is.
    fn clash_among<D: Disk>(&self, disk: &mut D, reads: &[Seen]) -> Result<Option<Clash>, Failed>
        requires known { IsKnown (D.told disk.old) self.now }
        requires seen { All (SeenOn (D.told disk.old) self.now.end) reads.now }
        ensures calls { IfOk result (λ clash. clash ≡ None → (D.counter disk.new).calls ≡ (D.counter disk.old).calls) }
        ensures clash { IfOk result (λ clash. IfSome (D.told disk.old) (λ told. clash ≡ clash_among (history_at told self.now.end) reads.now)) }
        ensures only_reads { OnlyReads D.Disk disk.old disk.new (IsErr result) }
    {
        for seen in reads {
            if let Some(clash) = self.clash_at(disk, seen)? {
                return Ok(Some(clash));
            }
        }
        Ok(None)
    }
}

// Whether the entry makes a new object.
fn is_new(entry: &Entry) -> bool
    ensures { result ≡ is_new (named entry.now) }
{
    match entry {
        Entry::Write { name, .. } => match name {
            Name::New(_) => true,
            Name::Old(_) => false,
        },
        Entry::Restore { .. } => false,
    }
}

// How many new objects the draft makes.
fn made_by(draft: &Draft) -> u32
    requires { IsDraft draft.now }
    ensures { result ≡ made draft.now }
{
    let mut made = 0;
    for entry in draft.entries.as_slice() {
        if is_new(entry) {
            made += 1;
        }
    }
    made
}

// The size of the entry's data record, or the greatest number.
fn size_of_entry(entry: &Entry) -> u64
    ensures { result ≡ min (size_of_entry entry.now) greatest_number }
{
    match entry {
        Entry::Write { bytes, .. } => (DATA_HEAD_LEN as u64).saturating_add(bytes.len() as u64),
        Entry::Restore { .. } => BACK_RECORD_LEN as u64,
    }
}

/// The size of the draft's transaction record, or the greatest number.
pub(crate) fn size_of(draft: &Draft) -> u64
    ensures { result ≡ min (size draft.now) greatest_number }
{
    let mut size = (BARE_TXN_LEN as u64)
        .saturating_add(draft.user.len() as u64)
        .saturating_add(draft.description.len() as u64);
    for entry in draft.entries.as_slice() {
        size = size.saturating_add(size_of_entry(entry));
    }
    size
}

impl OpenFile {
    // The first thing that is spent: transaction ids, object ids or the file's room.
    fn spent(&self, limit: u64, draft: &Draft) -> Option<VoteRefusal>
        requires rules { IsDraft draft.now }
        requires bound { self.now.next ≤ 2 ^ 64 }
        ensures { result ≡ spent_at self.now.last self.now.next self.now.end limit draft.now }
    {
        if self.last.0 == u64::MAX {
            return Some(VoteRefusal::Spent(Spent::Tids));
        }
        let made = made_by(draft);
        if made > 0 && self.next + u128::from(made) > u128::from(u64::MAX) {
            let greatest = (self.next - 1) as u64;
            return Some(VoteRefusal::Spent(Spent::Oids {
                greatest,
                new: made,
            }));
        }
        let need = self.end.saturating_add(size_of(draft));
        if limit < need {
            return Some(VoteRefusal::Spent(Spent::Full { need, limit }));
        }
        None
    }
}

/// The transaction id that a vote takes: the clock's stamp, or the next one where the clock stands still.
pub(crate) fn tid_after(last: Tid, now: Tid) -> Tid
    requires { (last == greatest_number) ≡ false }
    ensures tid { result ≡ tid_after last now }
    ensures later { last < result }
{
    if last.0 < now.0 { now } else { Tid(last.0 + 1) }
}

impl OpenFile {
    /// The first refusal of a vote that applies where no vote is out, none where the vote stands open. No device call is made
    /// but where an object that was read has a later serial.
    pub(crate) fn refusal<D: Disk>(
        &self,
        disk: &mut D,
        limit: u64,
        draft: &Draft,
        reads: &[Seen],
    ) -> Result<Option<VoteRefusal>, Failed>
        requires known { IsKnown (D.told disk.old) self.now }
        requires bound { self.now.next ≤ 2 ^ 64 }
        requires rules { IsDraft draft.now }
        requires seen { All (SeenOn (D.told disk.old) self.now.end) reads.now }
        ensures refusal { IfOk result (λ refusal. IfSome (D.told disk.old)
            (λ told. refusal ≡ validation_at (history_at told self.now.end) self.now.end limit draft.now
            (clash_among (history_at told self.now.end) reads.now))) }
        ensures free { IfOk result (λ refusal. refusal ≡ None → IsFree self.now.last self.now.next self.now.end limit draft.now) }
        ensures calls { IfOk result (λ refusal. refusal ≡ None → (D.counter disk.new).calls ≡ (D.counter disk.old).calls) }
        ensures own { IfOk result (λ refusal. (refusal ≡ Some VoteRefusal.Memory → ⊥) × (refusal ≡ Some VoteRefusal.Disk → ⊥)
            × ((w : ℕ) → refusal ≡ Some (VoteRefusal.Busy w) → ⊥)) }
        ensures only_reads { OnlyReads D.Disk disk.old disk.new (IsErr result) }
    {
        match self.clash_among(disk, reads)? {
            Some(clash) => Ok(Some(VoteRefusal::Conflict(clash))),
            None => Ok(self.spent(limit, draft)),
        }
    }
}
