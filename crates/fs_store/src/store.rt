ghost use Rattle.std.specs.Prelude.{◌≡◌, ◌⊎◌, ◌+◌, ◌<◌, ◌≤◌, All, List, ℕ, false, true, IfErr, IfOk, IfSome, IsErr, IsErrOf, IsOk, None, OnErr, OnOk, Some, length, map};
ghost use Rattle.std.specs.Option.{option_map};
ghost use Rattle.zbase.specs.Faults.{Counts, Twice};
ghost use Rattle.zbase.specs.History.{IsHistory};
ghost use Rattle.zbase.specs.Values.{last, serial, upto, value};
ghost use Rattle.zdisk.specs.Crashes.{IsSynced};
ghost use Rattle.zdisk.specs.Disk.{content, counted};
ghost use Rattle.zdisk.specs.Images.{IsImage};
ghost use Rattle.evaluator.specs.Facts.{log_row, parts_of, unpacked, unpacked_at};
ghost use Rattle.fs_store.specs.Drafts.{LooksForNothing};
ghost use Rattle.fs_store.specs.Finding.{CostsLoad};
ghost use Rattle.fs_store.specs.Moments.{IsWhole, KeepsGiven, KeepsOpening, OpensAsBefore, OpensAsKnown, OpensToEither};
ghost use Rattle.fs_store.specs.Opened.{CostsOpening, IsRefusedFor, LeavesDisk, Opens};
ghost use Rattle.fs_store.specs.Parts.{CostsLog};
ghost use Rattle.fs_store.specs.Pointing.{PointsToData};
ghost use Rattle.fs_store.specs.Seeing.{IsSeen};
ghost use Rattle.fs_store.specs.Seeking.{CostsParts};
ghost use Rattle.fs_store.specs.Stores.{IsDraft, IsTold, IsVoteOf, Loses, Out, Settles, Stands, Stays, finished, idle, most_length, on_disk, staled, unsettled, voting};
ghost use Rattle.fs_store.specs.Verdicts.{tid_at, verdict, voted_out};
ghost use Rattle.fs_store.specs.declared.opening.OpenRefusal.{OpenRefusal};
ghost use Rattle.fs_store.specs.declared.refusal.FinishRefusal.{FinishRefusal};
ghost use Rattle.fs_store.specs.declared.refusal.LoadRefusal.{LoadRefusal};
ghost use Rattle.fs_store.specs.declared.reads.Seen.{Seen};
ghost use Rattle.fs_store.specs.declared.refusal.VoteRefusal.{VoteRefusal};

use crate::file::OpenFile;
use crate::opening::{FileRead, open_file};
use crate::recent::Recent;
use crate::voting::Ballot;
use crate::waiting::Waiting;
use crate::{
    AbortRefusal, FinishRefusal, LoadRefusal, Loaded, OpenRefusal, Seen, VoteRefusal, Voted,
};
use evaluator::{Draft, LogRows, Parts};
use std::alloc::Global;
use std::marker::Model;
use zbase::{Bytes, Oid, Tid};
use zdisk::Disk;

/// The history of a disk's file, which grows by voted transactions. It is read where it stands.
#[derive(Drop)]
pub struct Store<D: Disk + Drop> {
    alloc: Global,
    pub(crate) disk: D,
    file: OpenFile,
    /// The records that were loaded last, so that they aren't read again.
    recent: Recent,
    limit: u64,
    out: Option<Waiting>,
    /// The transaction of a finish that failed, until the disk is opened again.
    undecided: Option<Waiting>,
    stale: bool,
}

impl<D: Disk + Drop> Model for Store<D> {
    ghost use Rattle.std.specs.Prelude.{◌≡◌, ◌≤◌, IfSome, None, false, true};
    ghost use Rattle.std.specs.Option.{option_map};
    ghost use Rattle.fs_store.specs.Fronts.{history_where};
    ghost use Rattle.fs_store.specs.Kept.{IsKept, out_of};
    ghost use Rattle.fs_store.specs.Recent.{AreRead};
    ghost use Rattle.fs_store.specs.Staleness.{IsUnsettled};
    ghost use Rattle.fs_store.specs.Stores.{StoreView, most_length};

    ghost Value = { StoreView };

    ghost view = { λ store. record {
      history = history_where
          (D.told store.disk) store.file.end;
      end = store.file.end;
      limit = store.limit;
      out = option_map
          (out_of (D.told store.disk) store.file.end) store.out;
      undecided = option_map
          (out_of (D.told store.disk) store.file.end) store.undecided;
      stale = store.stale;
      disk = record
          { told = D.told store.disk; counter = D.counter store.disk; spare_calls = D.spare_calls store.disk; spare_bytes = D.spare_bytes store.disk };
    } };

    ghost invariant = { λ store. (store.limit ≤ most_length)
        × (store.stale ≡ false → (store.undecided ≡ None)
        × IsKept (D.told store.disk) store.file store.limit store.out (D.spare_calls store.disk) (D.spare_bytes store.disk))
        × (store.stale ≡ true → (store.out ≡ None) × IfSome (D.told store.disk) (IsUnsettled store.file.end store.undecided))
        × AreRead (D.told store.disk) store.file.end store.recent };
}

impl<D: Disk + Drop> Store<D> {
    /// The store of the history to which the disk's file opens, which may have `limit` bytes. The file is synced; a
    /// torn rest is cut off, and the file synced again. The file is scanned once. With `Err` the disk comes back. Where each image of the given
    /// disk opens to one history, a stop at any moment leaves a file that opens to it.
    ///
    /// FileStorage format notes: a file is read forward from its start, and what a write left that was broken off is
    /// cut off its end.
    pub fn open(alloc: Global, disk: D, limit: u64) -> Result<Store<D>, (OpenRefusal, D)>
        requires limit { limit ≤ most_length }
        ensures opened { IfOk result (Opens (D.told disk) limit) }
        ensures calm { IfOk result (λ store. Counts (D.counter disk) store.disk.counter ⊥) }
        ensures refused { IfErr result (λ (refusal, _). IsRefusedFor (D.told disk) refusal) }
        ensures left { IfErr result (λ (refusal, back). LeavesDisk (D.told disk) (D.told back) refusal) }
        ensures any_moment { IfOk result (λ store. KeepsGiven (D.told disk) store.disk.told) }
        ensures any_moment_refused { IfErr result (λ (_, back). KeepsGiven (D.told disk) (D.told back)) }
        ensures reads { IfOk result (λ store. IfSome (D.told disk) (λ told. CostsOpening (content told) (D.counter disk).calls store.disk.counter.calls)) }
        ensures reads_refused { IfErr result (λ (_, back). IfSome (D.told disk)
            (λ told. CostsOpening (content told) (D.counter disk).calls (D.counter back).calls)) }
        ensures counts { IfErr result (λ (refusal, back). Counts (D.counter disk) (D.counter back) (refusal ≡ OpenRefusal.Disk)) }
    {
        let mut disk = disk;
        match open_file(alloc, &mut disk) {
            Ok(opened) => {
                let FileRead { file, torn: _ } = opened;
                Ok(Store {
                    alloc,
                    disk,
                    file,
                    recent: Recent::new(alloc),
                    limit,
                    out: None,
                    undecided: None,
                    stale: false,
                })
            }
            Err(refusal) => Err((refusal, disk)),
        }
    }

    /// Where the disk tells, ids of transactions rise from above 0, and that of a vote that is out, or of an undecided
    /// transaction, is above the last. Each image of the disk opens to the history, or to that and the undecided
    /// transaction; a store that isn't stale has one image, which is what reads give, and where no vote is out it is a
    /// file of the history.
    pub fn is_sound(&self)
        ensures undecided { self.now.stale ≡ false → self.now.undecided ≡ None }
        ensures idle { self.now.stale ≡ true → self.now.out ≡ None }
        ensures history { IsTold self.now → IsHistory self.now.history }
        ensures later { IsTold self.now → (o : Out) → self.now.out ≡ Some o → last self.now.history < o.transaction.tid }
        ensures later_undecided { IsTold self.now → (o : Out) → self.now.undecided ≡ Some o → last self.now.history < o.transaction.tid }
        ensures images { IfSome self.now.disk.told (λ told. (image : List ℕ) → IsImage told.now image → OpensAsKnown self.now image) }
        ensures image { self.now.stale ≡ false → IfSome self.now.disk.told (λ told. IsSynced told × OpensAsBefore self.now (content told)) }
        ensures whole { self.now.stale ≡ false → self.now.out ≡ None → IfSome self.now.disk.told (λ told. IsWhole self.now (content told)) }
    {
        let _ = &self.file;
    }

    /// Whether the disk has failed in a vote, a finish or an abort since it was opened.
    pub fn is_stale(&self) -> bool
        ensures { result ≡ self.now.stale }
    {
        self.stale
    }

    /// Opens a stale store's disk again; a store that isn't stale stays as it was. With `Ok` the store isn't stale: its
    /// history is the one that was known, or that and the undecided transaction. With `Err` it is stale as before. The file is
    /// scanned once, as by `open`: by two device calls for each transaction at most, and a few more.
    pub fn refresh(&mut self) -> Result<(), LoadRefusal>
        ensures nothing { self.old.stale ≡ false → self.new ≡ self.old }
        ensures no_refusal { self.old.stale ≡ false → IsOk result }
        ensures fresh { OnOk result (self.new.stale ≡ false) }
        ensures settled { OnOk result (IsTold self.old → Settles self.old self.new) }
        ensures stands { OnErr result (self.new ≡ on_disk self.old self.new.disk) }
        ensures out { self.new.out ≡ self.old.out }
        ensures limit { self.new.limit ≡ self.old.limit }
        ensures tells { IsTold self.old → IsTold self.new }
        ensures seen { (seen : Seen) → IsSeen self.old seen → IsSeen self.new seen }
        ensures any_moment { KeepsOpening self.old self.new }
        ensures reads { IfSome self.old.disk.told (λ told. CostsOpening (content told) self.old.disk.counter.calls self.new.disk.counter.calls) }
        ensures counts { Counts self.old.disk.counter self.new.disk.counter (IsErrOf result LoadRefusal.Disk) }
    {
        if !self.stale {
            return Ok(());
        }
        self.recent.clear();
        self.file
            .open_again(self.alloc, &mut self.disk, self.limit, &self.undecided)?;
        self.undecided = None;
        self.stale = false;
        Ok(())
    }

    /// The number of transactions.
    pub fn len(&self) -> u64
        requires fresh { self.now.stale ≡ false }
        ensures { IsTold self.now → result ≡ length self.now.history.transactions }
    {
        self.file.count
    }

    /// The id of the last transaction, 0 where there is none. Takes no memory.
    pub fn last(&self) -> Tid
        requires fresh { self.now.stale ≡ false }
        ensures { IsTold self.now → result ≡ last self.now.history }
    {
        self.file.last
    }

    /// What the object was up to the transaction `at`. It costs at most two device calls for its last record, two for each
    /// later one that is passed, and two for each back pointer that is followed; none where that is the object's newest record
    /// and is kept, as those are that were loaded last. A stale store is opened again first, which costs what an opening costs.
    pub fn load(&mut self, oid: Oid, at: Tid) -> Result<Loaded, LoadRefusal>
        ensures value { IfOk result (λ loaded. IsTold self.new
            → (loaded.value ≡ value (upto self.new.history at) oid) × (loaded.serial ≡ serial (upto self.new.history at) oid)) }
        ensures read { IfOk result (λ loaded. IsSeen self.new (record { oid = oid; serial = loaded.serial; place = loaded.place })) }
        ensures fresh { OnOk result (self.new.stale ≡ false) }
        ensures settled { OnOk result (IsTold self.old → Settles self.old self.new) }
        ensures stands { OnErr result (IsTold self.old → Stands self.old self.new) }
        ensures same { self.old.stale ≡ false → Stays self.old self.new }
        ensures out { self.new.out ≡ self.old.out }
        ensures limit { self.new.limit ≡ self.old.limit }
        ensures tells { IsTold self.old → IsTold self.new }
        ensures seen { (seen : Seen) → IsSeen self.old seen → IsSeen self.new seen }
        ensures any_moment { KeepsOpening self.old self.new }
        ensures reads { self.old.stale ≡ false → IfSome self.old.disk.told
            (λ told. CostsLoad told self.old.end oid at self.old.disk.counter.calls self.new.disk.counter.calls) }
        ensures reads_again { IfSome self.old.disk.told
            (λ told. (calls : ℕ) × CostsOpening (content told) self.old.disk.counter.calls calls
            × IfSome self.new.disk.told (λ now. CostsLoad now self.new.end oid at calls self.new.disk.counter.calls)) }
        ensures counts { Counts self.old.disk.counter self.new.disk.counter (IsErrOf result LoadRefusal.Disk) }
    {
        self.refresh()?;
        self.file
            .recall(self.alloc, &mut self.disk, &mut self.recent, oid, at)
    }

    /// What the transaction did, where there is one with this id above the floor and up to the transaction `at`. The file is
    /// gone back from its end: it costs two device calls for each transaction that isn't older, one for its records, and for
    /// each of its parts what it costs to load the value before; back pointers cost what following them costs. A stale store
    /// is opened again first, which costs what an opening costs.
    pub fn transaction(&mut self, tid: Tid, at: Tid) -> Result<Option<Parts>, LoadRefusal>
        ensures parts { IfOk result (λ parts. IsTold self.new
            → parts ≡ option_map (parts_of (upto self.new.history at)) (unpacked_at (upto self.new.history at) tid)) }
        ensures fresh { OnOk result (self.new.stale ≡ false) }
        ensures settled { OnOk result (IsTold self.old → Settles self.old self.new) }
        ensures stands { OnErr result (IsTold self.old → Stands self.old self.new) }
        ensures same { self.old.stale ≡ false → Stays self.old self.new }
        ensures out { self.new.out ≡ self.old.out }
        ensures limit { self.new.limit ≡ self.old.limit }
        ensures tells { IsTold self.old → IsTold self.new }
        ensures seen { (seen : Seen) → IsSeen self.old seen → IsSeen self.new seen }
        ensures any_moment { KeepsOpening self.old self.new }
        ensures reads { self.old.stale ≡ false → IfOk result (λ parts. IfSome self.old.disk.told
            (λ told. CostsParts told self.old.end tid parts self.old.disk.counter.calls self.new.disk.counter.calls)) }
        ensures reads_again { IfOk result (λ parts. IfSome self.old.disk.told
            (λ told. (calls : ℕ) × CostsOpening (content told) self.old.disk.counter.calls calls
            × IfSome self.new.disk.told (λ now. CostsParts now self.new.end tid parts calls self.new.disk.counter.calls))) }
        ensures counts { Counts self.old.disk.counter self.new.disk.counter (IsErrOf result LoadRefusal.Disk) }
    {
        self.refresh()?;
        self.file
            .transaction(self.alloc, &mut self.disk, tid.0, at.0)
    }

    /// Who did what, above the floor and up to the transaction `at`: all rows, by the heads and texts of the whole file, which
    /// are read ahead by 64 KiB at a time. It costs at most two device calls for each transaction. A stale store is opened
    /// again first, which costs what an opening costs.
    pub fn log(&mut self, at: Tid) -> Result<LogRows, LoadRefusal>
        ensures rows { IfOk result (λ rows. IsTold self.new → rows ≡ map log_row (unpacked (upto self.new.history at))) }
        ensures fresh { OnOk result (self.new.stale ≡ false) }
        ensures settled { OnOk result (IsTold self.old → Settles self.old self.new) }
        ensures stands { OnErr result (IsTold self.old → Stands self.old self.new) }
        ensures same { self.old.stale ≡ false → Stays self.old self.new }
        ensures out { self.new.out ≡ self.old.out }
        ensures limit { self.new.limit ≡ self.old.limit }
        ensures tells { IsTold self.old → IsTold self.new }
        ensures seen { (seen : Seen) → IsSeen self.old seen → IsSeen self.new seen }
        ensures any_moment { KeepsOpening self.old self.new }
        ensures reads { self.old.stale ≡ false → OnOk result (IfSome self.old.disk.told
            (λ told. CostsLog told self.old.end self.old.disk.counter.calls self.new.disk.counter.calls)) }
        ensures reads_again { OnOk result (IfSome self.old.disk.told
            (λ told. (calls : ℕ) × CostsOpening (content told) self.old.disk.counter.calls calls
            × IfSome self.new.disk.told (λ now. CostsLog now self.new.end calls self.new.disk.counter.calls))) }
        ensures counts { Counts self.old.disk.counter self.new.disk.counter (IsErrOf result LoadRefusal.Disk) }
    {
        self.refresh()?;
        self.file.log(self.alloc, &mut self.disk, at)
    }

    /// The bytes of the disk's file, by one device call, where no vote is out: a file of the history, which is all that the disk
    /// reads. A stale store is opened again first, which costs what an opening costs.
    pub fn bytes(&mut self) -> Result<Bytes, LoadRefusal>
        requires idle { self.old.out ≡ None }
        ensures content { IfOk result (λ bytes. IfSome self.new.disk.told (λ told. bytes ≡ content told)) }
        ensures whole { IfOk result (λ bytes. IsTold self.new → IsWhole self.new bytes) }
        ensures long { IfOk result (λ bytes. length bytes ≡ self.new.end) }
        ensures fresh { OnOk result (self.new.stale ≡ false) }
        ensures settled { OnOk result (IsTold self.old → Settles self.old self.new) }
        ensures stands { IsTold self.old → Stands self.old self.new }
        ensures same { self.old.stale ≡ false → Stays self.old self.new }
        ensures out { self.new.out ≡ self.old.out }
        ensures limit { self.new.limit ≡ self.old.limit }
        ensures tells { IsTold self.old → IsTold self.new }
        ensures seen { (seen : Seen) → IsSeen self.old seen → IsSeen self.new seen }
        ensures any_moment { KeepsOpening self.old self.new }
        ensures reads { self.old.stale ≡ false → self.new.disk.counter.calls ≤ self.old.disk.counter.calls + 1 }
        ensures counts { Counts self.old.disk.counter self.new.disk.counter (IsErrOf result LoadRefusal.Disk) }
    {
        self.refresh()?;
        self.file.bytes(self.alloc, &mut self.disk)
    }

    /// Votes for a draft that rests on these reads, for a worker, where no vote is out; a stale store is opened again
    /// first. With `Ok` the vote is out: its transaction stands behind the file, doesn't count yet, and counts once it is
    /// finished, and never if it is aborted. All memory that these two need is taken here. What is put back points to the
    /// record that has the data, or to none. The draft's values are moved to the record and not copied: with `Err` the draft
    /// comes back, but where memory was wanting or the disk failed once nothing spoke against it. Where the disk failed the
    /// store is stale. The record is written and synced by exactly two device calls, behind those that open a stale store and
    /// those that find what is put back.
    pub fn vote(
        &mut self,
        holder: u32,
        draft: Draft,
        reads: &[Seen],
        now: Tid,
    ) -> Result<Voted, (VoteRefusal, Option<Draft>)>
        requires rules { IsDraft draft }
        requires seen { All (IsSeen self.old) reads.now }
        ensures settled { IfOk result (λ _. IsTold self.old → Settles self.old (idle self.new)) }
        ensures free { IfOk result (λ _. (self.old.out ≡ None) × (IsTold self.old → verdict (idle self.new) reads.now draft ≡ None)) }
        ensures tid { IfOk result (λ voted. IsTold self.old → voted ≡ tid_at self.new.history now) }
        ensures out { IfOk result (λ voted. IsTold self.old → self.new.out ≡ Some (voted_out (idle self.new) holder draft voted)) }
        ensures held { IfOk result (λ voted. IsVoteOf self.new voted × (self.new.stale ≡ false)) }
        ensures direct { IfOk result (λ _. IfSome self.new.disk.told (λ told. PointsToData (content told) self.new.end)) }
        ensures holder { IfOk result (λ _. (o : Out) → self.new.out ≡ Some o → o.holder ≡ holder) }
        ensures refused { IfErr result (λ (refusal, _). IsTold self.old
            → (refusal ≡ VoteRefusal.Memory) ⊎ ((refusal ≡ VoteRefusal.Disk)
            ⊎ (Settles self.old self.new × (verdict self.new reads.now draft ≡ Some refusal)))) }
        // A vote that is refused since another is out takes no memory and no device call.
        ensures busy { IfErr result (λ (refusal, _). (refusal ≡ VoteRefusal.Memory) ⊎ (refusal ≡ VoteRefusal.Disk) → self.old.out ≡ None) }
        ensures busy_with { IfErr result (λ (refusal, _). (o : Out) → self.old.out ≡ Some o → (refusal ≡ VoteRefusal.Busy o.holder) × (self.new ≡ self.old)) }
        ensures busy_by { IfErr result (λ (refusal, _). (w : ℕ) → refusal ≡ VoteRefusal.Busy w → (o : Out) × (self.old.out ≡ Some o) × (o.holder ≡ w)) }
        ensures still { IfErr result (λ _. self.new.out ≡ self.old.out) }
        ensures back { IfErr result (λ (refusal, back). (back ≡ Some draft)
            ⊎ ((back ≡ None) × ((refusal ≡ VoteRefusal.Memory) ⊎ (refusal ≡ VoteRefusal.Disk)))) }
        ensures stands { IfErr result (λ (refusal, _). (refusal ≡ VoteRefusal.Disk → ⊥) → IsTold self.old → Stands self.old self.new) }
        ensures stays { IfErr result (λ (refusal, _). (refusal ≡ VoteRefusal.Disk → ⊥) → self.old.stale ≡ false
            → (self.new ≡ on_disk self.old self.new.disk) × (self.new.disk.told ≡ self.old.disk.told)) }
        ensures stale { IfErr result (λ (refusal, _). refusal ≡ VoteRefusal.Disk → (self.new.stale ≡ true) × (self.new.out ≡ None)) }
        ensures lost { IfErr result (λ (refusal, _). refusal ≡ VoteRefusal.Disk → IsTold self.old → Loses self.old self.new) }
        ensures limit { self.new.limit ≡ self.old.limit }
        ensures tells { IsTold self.old → IsTold self.new }
        ensures seen { (seen : Seen) → IsSeen self.old seen → IsSeen self.new seen }
        ensures any_moment { KeepsOpening self.old self.new }
        ensures calls { IfOk result (λ _. self.old.stale ≡ false → LooksForNothing draft
            → self.new.disk.counter.calls ≡ counted (counted self.old.disk.counter.calls)) }
        ensures twice { IfOk result (λ _. Twice self.old.disk.counter self.new.disk.counter) }
        ensures counts { IfOk result (λ _. Counts self.old.disk.counter self.new.disk.counter ⊥) }
        ensures fault { IfErr result (λ (refusal, _). Counts self.old.disk.counter self.new.disk.counter (refusal ≡ VoteRefusal.Disk)) }
    {
        if let Some(waiting) = &self.out {
            return Err((VoteRefusal::Busy(waiting.holder), Some(draft)));
        }
        match self.refresh() {
            Ok(()) => {}
            Err(LoadRefusal::Disk) => return Err((VoteRefusal::Disk, Some(draft))),
            Err(LoadRefusal::Memory) => return Err((VoteRefusal::Memory, Some(draft))),
        }
        let ballot = Ballot { holder, draft, now };
        let voted = self
            .file
            .vote_on(self.alloc, &mut self.disk, self.limit, ballot, reads);
        match voted {
            Ok(waiting) => {
                let tid = waiting.tid;
                self.out = Some(waiting);
                Ok(Voted::new(tid))
            }
            Err((refusal, back)) => {
                self.stale = refusal == VoteRefusal::Disk;
                Err((refusal, back))
            }
        }
    }

    /// The voted transaction counts from now on. Takes no memory, and makes exactly two device calls. Where one of them
    /// failed the store is stale, and whether the transaction counts is undecided until the disk is opened again.
    pub fn finish(&mut self, voted: Voted) -> Result<Tid, FinishRefusal>
        requires vote { IsVoteOf self.old voted }
        ensures tid { IfOk result (λ tid. tid ≡ voted) }
        ensures stands { OnOk result (IsTold self.old → self.new ≡ finished self.old self.old.out self.new.disk) }
        ensures done { OnOk result ((self.new.out ≡ None) × (self.new.stale ≡ false)) }
        ensures every_image { OnOk result (IfSome self.new.disk.told (λ told. (image : List ℕ) → IsImage told.now image → OpensAsBefore self.new image)) }
        ensures unknown { IfErr result (λ refusal. refusal ≡ FinishRefusal.Unknown voted) }
        ensures stale { OnErr result (self.new ≡ unsettled self.old self.new.disk) }
        ensures seen { (seen : Seen) → IsSeen self.old seen → IsSeen self.new seen }
        ensures limit { self.new.limit ≡ self.old.limit }
        ensures tells { IsTold self.old → IsTold self.new }
        ensures any_moment { (o : Out) → self.old.out ≡ Some o → OpensToEither self.old self.new o }
        ensures calls { OnOk result (self.new.disk.counter.calls ≡ counted (counted self.old.disk.counter.calls)) }
        ensures twice { OnOk result (Twice self.old.disk.counter self.new.disk.counter) }
        ensures counts { Counts self.old.disk.counter self.new.disk.counter (IsErr result) }
    {
        let tid = voted.spend();
        match self.out.take() {
            Some(waiting) => {
                match self.file.finish_on(&mut self.disk, self.limit, &waiting) {
                    Ok(()) => Ok(tid),
                    Err(_) => {
                        self.undecided = Some(waiting);
                        self.stale = true;
                        Err(FinishRefusal::Unknown(tid))
                    }
                }
            }
            None => unreachable!(),
        }
    }

    /// The voted transaction never counts: its record is cut off. Takes no memory, and makes exactly two device calls.
    /// Where one of them failed the store is stale.
    pub fn abort(&mut self, voted: Voted) -> Result<(), AbortRefusal>
        requires vote { IsVoteOf self.old voted }
        ensures gone { OnOk result (self.new ≡ voting self.old None self.new.disk) }
        ensures stale { OnErr result (self.new ≡ staled self.old self.new.disk) }
        ensures seen { (seen : Seen) → IsSeen self.old seen → IsSeen self.new seen }
        ensures limit { self.new.limit ≡ self.old.limit }
        ensures tells { IsTold self.old → IsTold self.new }
        ensures any_moment { KeepsOpening self.old self.new }
        ensures calls { OnOk result (self.new.disk.counter.calls ≡ counted (counted self.old.disk.counter.calls)) }
        ensures twice { OnOk result (Twice self.old.disk.counter self.new.disk.counter) }
        ensures counts { Counts self.old.disk.counter self.new.disk.counter (IsErr result) }
    {
        let _ = voted.spend();
        match self.out.take() {
            Some(waiting) => match self.file.abort_on(&mut self.disk, self.limit, waiting) {
                Ok(()) => Ok(()),
                Err(_) => {
                    self.stale = true;
                    Err(AbortRefusal::Disk)
                }
            },
            None => unreachable!(),
        }
    }

    /// The disk under the store. Each of its images opens to the store's history, or to that and the undecided transaction.
    /// Where the store isn't stale, the one image is what reads give, a file of the store's history.
    pub fn into_disk(self) -> D
        requires { self.out ≡ None }
        ensures told { D.told result ≡ self.disk.told }
        ensures images { IfSome (D.told result) (λ told. (image : List ℕ) → IsImage told.now image → OpensAsKnown self image) }
        ensures whole { self.stale ≡ false → IfSome (D.told result) (λ told. IsSynced told × IsWhole self (content told)) }
        ensures counter { D.counter result ≡ self.disk.counter }
        ensures spare { (D.spare_calls result ≡ self.disk.spare_calls) × (D.spare_bytes result ≡ self.disk.spare_bytes) }
    {
        let Store {
            alloc: _,
            disk,
            file: _,
            recent: _,
            limit: _,
            out: _,
            undecided: _,
            stale: _,
        } = self;
        disk
    }
}
