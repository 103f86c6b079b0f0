ghost use Rattle.std.specs.Prelude.{◌≡◌, ◌⊎◌, ◌++◌, ◌+◌, ◌<◌, ◌≤◌, ◌^◌, All, ℕ, None, Some, length, IfErr, IfOk, IfSome, OnOk, OnErr, IsErrAnd, IsErrOf};
ghost use Rattle.std.specs.Option.{ForSome};
ghost use Rattle.zbase.specs.Faults.{Counts, Twice};
ghost use Rattle.zdisk.specs.Crashes.{Becomes, IsSynced, IsTorn, LeavesFrom};
ghost use Rattle.zdisk.specs.Disk.{content, counted};
ghost use Rattle.fs_index.specs.Places.{HasRoom, place_of};
ghost use Rattle.fs_record.specs.Spelling.{block_spelling};
ghost use Rattle.fs_record.specs.Written.{HasBody, IsWritable, transaction};
ghost use Rattle.evaluator.specs.Settle.{settle, size};
ghost use Rattle.fs_store.specs.Drafts.{LooksForNothing};
ghost use Rattle.fs_store.specs.Fronts.{history_at, history_where};
ghost use Rattle.fs_store.specs.Kept.{IsKept, IsVoted, out_of};
ghost use Rattle.fs_store.specs.Moments.{OpensTo};
ghost use Rattle.fs_store.specs.Pointing.{PointsToData};
ghost use Rattle.fs_store.specs.Seeing.{ReadOn, SeenOn};
ghost use Rattle.fs_store.specs.Staleness.{IsUnsettled};
ghost use Rattle.fs_store.specs.Stores.{IsDraft, most_length};
ghost use Rattle.fs_store.specs.Verdicts.{IsFree, clash_among, validation_at};
ghost use Rattle.fs_store.specs.declared.reads.Loaded.{Loaded};
ghost use Rattle.fs_store.specs.declared.refusal.VoteRefusal.{VoteRefusal};

use crate::file::OpenFile;
use crate::settling::Settled;
use crate::verdict::{size_of, tid_after};
use crate::waiting::Waiting;
use crate::{LoadRefusal, Seen, VoteRefusal};
use evaluator::Draft;
use fs_index::Index;
use fs_record::{Item, STATUS_WAITING, TxnTexts, write_txn};
use std::alloc::Global;
use zbase::{Bytes, Memory, Tid};
use zdisk::{Disk, append_and_sync};

// Keeps room for each item's object.
fn reserve_all(index: &mut Index, items: &[Item]) -> Result<(), Memory>
    ensures places { (o : ℕ) → place_of index.new o ≡ place_of index.old o }
    ensures room { OnOk result (All (λ item. HasRoom index.new item.oid) items.now) }
{
    for item in items {
        index.reserve(&[item.oid])?;
    }
    Ok(())
}

// Writes the transaction behind the file with status `c`, and syncs; there is room then for what finishes or aborts it.
// These are two device calls, the first behind all that takes memory.
fn write_behind<D: Disk>(
    alloc: Global,
    disk: &mut D,
    end: u64,
    tid: Tid,
    texts: &TxnTexts,
    items: &[Item],
) -> Result<(), LoadRefusal>
    requires synced { ForSome (D.told disk.old) (λ told. IsSynced told × (end ≡ length (content told))) }
    requires user { length texts.now.user < 2 ^ 16 }
    requires description { length texts.now.description < 2 ^ 16 }
    requires extension { length texts.now.extension < 2 ^ 16 }
    requires bodies { All HasBody items.now }
    requires fits { end + length (block_spelling (transaction end tid STATUS_WAITING texts.now items.now)) < 2 ^ 63 }
    ensures any_moment { LeavesFrom (D.told disk.old) (D.told disk.new)
        (λ file image. IsTorn file (block_spelling (transaction end tid STATUS_WAITING texts.now items.now)) image) }
    ensures written { OnOk result (Becomes (D.told disk.old) (D.told disk.new)
        (λ file. file ++ block_spelling (transaction end tid STATUS_WAITING texts.now items.now))) }
    ensures writable { OnOk result (IsWritable end tid STATUS_WAITING texts.now items.now) }
    ensures spare { OnOk result ((2 ≤ D.spare_calls disk.new) × (1 ≤ D.spare_bytes disk.new)) }
    ensures calls { OnOk result ((D.counter disk.new).calls ≡ counted (counted (D.counter disk.old).calls)) }
    ensures twice { OnOk result (Twice (D.counter disk.old) (D.counter disk.new)) }
    ensures memory { IsErrOf result LoadRefusal.Memory → D.told disk.new ≡ D.told disk.old }
    ensures counts { Counts (D.counter disk.old) (D.counter disk.new) (IsErrOf result LoadRefusal.Disk) }
{
    let mut piece = Bytes::new(alloc);
    write_txn(&mut piece, end, tid, STATUS_WAITING, texts, items)?;
    disk.reserve(4, piece.len() as u64 + 1)?;
    append_and_sync(disk, end, piece.as_slice())?;
    Ok(())
}

/// A draft that a worker votes for, at this stamp of the clock.
#[derive(Drop)]
pub(crate) struct Ballot {
    pub(crate) holder: u32,
    pub(crate) draft: Draft,
    pub(crate) now: Tid,
}

impl OpenFile {
    /// Votes for a draft where no other vote is out: refuses it, or lets it wait behind the file with all that it needs to be
    /// finished or aborted. What is judged comes back; behind that the draft is moved to the record.
    pub(crate) fn vote_on<D: Disk>(
        &mut self,
        alloc: Global,
        disk: &mut D,
        limit: u64,
        ballot: Ballot,
        reads: &[Seen],
    ) -> Result<Waiting, (VoteRefusal, Option<Draft>)>
        requires limit { limit ≤ most_length }
        requires kept { IsKept (D.told disk.old) self.old limit None (D.spare_calls disk.old) (D.spare_bytes disk.old) }
        requires rules { IsDraft ballot.draft }
        requires seen { All (SeenOn (D.told disk.old) self.old.end) reads.now }
        ensures kept { IfOk result (λ w. IsKept (D.told disk.new) self.new limit (Some w) (D.spare_calls disk.new) (D.spare_bytes disk.new)) }
        ensures holder { IfOk result (λ w. w.holder ≡ ballot.holder) }
        ensures direct { OnOk result (IfSome (D.told disk.new) (λ told. PointsToData (content told) self.new.end)) }
        ensures voted { IfOk result (λ w. IfSome (D.told disk.old)
            (λ told. IsVoted (D.told disk.new) (history_at told self.old.end) self.new limit ballot.holder ballot.draft reads.now ballot.now w)) }
        ensures refused { IfErr result (λ (refusal, _). IfSome (D.told disk.old)
            (λ told. (refusal ≡ VoteRefusal.Memory)
            ⊎ ((refusal ≡ VoteRefusal.Disk) ⊎ (validation_at (history_at told self.old.end) self.old.end limit ballot.draft
            (clash_among (history_at told self.old.end) reads.now) ≡ Some refusal)))) }
        ensures own { IfErr result (λ (refusal, _). (w : ℕ) → refusal ≡ VoteRefusal.Busy w → ⊥) }
        ensures back { IfErr result (λ (refusal, back). (back ≡ Some ballot.draft)
            ⊎ ((back ≡ None) × ((refusal ≡ VoteRefusal.Memory) ⊎ (refusal ≡ VoteRefusal.Disk)))) }
        ensures stays { IfErr result (λ (refusal, _). (refusal ≡ VoteRefusal.Disk → ⊥)
            → IsKept (D.told disk.new) self.new limit None (D.spare_calls disk.new) (D.spare_bytes disk.new) × (D.told disk.new ≡ D.told disk.old)) }
        ensures unsettled { OnErr result (IfSome (D.told disk.new) (IsUnsettled self.new.end None)) }
        ensures end { self.new.end ≡ self.old.end }
        ensures history { history_where (D.told disk.new) self.old.end ≡ history_where (D.told disk.old) self.old.end }
        ensures read { (oid : ℕ) (loaded : Loaded) → ReadOn (D.told disk.old) self.old.end oid loaded → ReadOn (D.told disk.new) self.new.end oid loaded }
        ensures any_moment { LeavesFrom (D.told disk.old) (D.told disk.new)
            (λ file image. OpensTo image (history_where (D.told disk.old) self.old.end) self.old.end) }
        ensures calls { OnOk result (LooksForNothing ballot.draft → (D.counter disk.new).calls ≡ counted (counted (D.counter disk.old).calls)) }
        ensures twice { OnOk result (Twice (D.counter disk.old) (D.counter disk.new)) }
        ensures counts { Counts (D.counter disk.old) (D.counter disk.new) (IsErrAnd result (λ (refusal, _). refusal ≡ VoteRefusal.Disk)) }
    {
        let Ballot { holder, draft, now } = ballot;
        match self.refusal(disk, limit, &draft, reads) {
            Ok(None) => {}
            Ok(Some(refusal)) => return Err((refusal, Some(draft))),
            Err(_) => return Err((VoteRefusal::Disk, Some(draft))),
        }
        let tid = tid_after(self.last, now);
        match self.wait_on(alloc, disk, limit, holder, draft, tid) {
            Ok(waiting) => Ok(waiting),
            Err(LoadRefusal::Disk) => Err((VoteRefusal::Disk, None)),
            Err(LoadRefusal::Memory) => Err((VoteRefusal::Memory, None)),
        }
    }

    // Lets a draft wait behind the file, with this id.
    fn wait_on<D: Disk>(
        &mut self,
        alloc: Global,
        disk: &mut D,
        limit: u64,
        holder: u32,
        draft: Draft,
        tid: Tid,
    ) -> Result<Waiting, LoadRefusal>
        requires limit { limit ≤ most_length }
        requires kept { IsKept (D.told disk.old) self.old limit None (D.spare_calls disk.old) (D.spare_bytes disk.old) }
        requires rules { IsDraft draft }
        requires free { IsFree self.old.last self.old.next self.old.end limit draft }
        requires later { self.old.last < tid }
        ensures kept { IfOk result (λ w. IsKept (D.told disk.new) self.new limit (Some w) (D.spare_calls disk.new) (D.spare_bytes disk.new)) }
        ensures holder { IfOk result (λ w. w.holder ≡ holder) }
        ensures direct { OnOk result (IfSome (D.told disk.new) (λ told. PointsToData (content told) self.new.end)) }
        ensures waits { IfOk result (λ w. IfSome (D.told disk.old)
            (λ told. out_of (D.told disk.new) self.new.end w
            ≡ record { holder = holder; transaction = settle (history_at told self.old.end) draft tid; size = size draft })) }
        ensures stays { IsErrOf result LoadRefusal.Memory
            → IsKept (D.told disk.new) self.new limit None (D.spare_calls disk.new) (D.spare_bytes disk.new) × (D.told disk.new ≡ D.told disk.old) }
        ensures unsettled { OnErr result (IfSome (D.told disk.new) (IsUnsettled self.new.end None)) }
        ensures end { self.new.end ≡ self.old.end }
        ensures history { history_where (D.told disk.new) self.old.end ≡ history_where (D.told disk.old) self.old.end }
        ensures read { (oid : ℕ) (loaded : Loaded) → ReadOn (D.told disk.old) self.old.end oid loaded → ReadOn (D.told disk.new) self.new.end oid loaded }
        ensures any_moment { LeavesFrom (D.told disk.old) (D.told disk.new)
            (λ file image. OpensTo image (history_where (D.told disk.old) self.old.end) self.old.end) }
        ensures calls { OnOk result (LooksForNothing draft → (D.counter disk.new).calls ≡ counted (counted (D.counter disk.old).calls)) }
        ensures twice { OnOk result (Twice (D.counter disk.old) (D.counter disk.new)) }
        ensures counts { Counts (D.counter disk.old) (D.counter disk.new) (IsErrOf result LoadRefusal.Disk) }
    {
        let size = size_of(&draft);
        let Settled { texts, items } = self.settle(alloc, disk, draft)?;
        reserve_all(&mut self.index, items.as_slice())?;
        write_behind(alloc, disk, self.end, tid, &texts, items.as_slice())?;
        self.len = self.end.saturating_add(size);
        Ok(Waiting {
            holder,
            tid,
            texts,
            items,
            size,
        })
    }
}
