ghost use Rattle.std.specs.Prelude.{◌≡◌, ◌⊎◌, ◌+◌, ◌<◌, ◌≤◌, ◌^◌, All, ℕ, None, Some, if◌then◌else◌, min, IfSome, OnOk, OnErr, IsErr};
ghost use Rattle.std.specs.Result.{is_ok};
ghost use Rattle.zbase.specs.Faults.{Counts, Twice};
ghost use Rattle.zbase.specs.Limits.{greatest_number};
ghost use Rattle.zdisk.specs.Crashes.{LeavesFrom};
ghost use Rattle.zdisk.specs.Disk.{counted};
ghost use Rattle.fs_index.specs.Places.{HasRoom, place_of};
ghost use Rattle.fs_record.specs.File.{last_place};
ghost use Rattle.fs_record.specs.Sizes.{records_size};
ghost use Rattle.fs_scan.specs.Newest.{place_in};
ghost use Rattle.zbase.specs.History.{added};
ghost use Rattle.fs_store.specs.Fronts.{history_at, history_where, records_where};
ghost use Rattle.fs_store.specs.Kept.{IsKept, Knowable, out_of};
ghost use Rattle.fs_store.specs.Moments.{OpensTo};
ghost use Rattle.fs_store.specs.Placed.{first_at, item_rows, next_with};
ghost use Rattle.fs_store.specs.Seeing.{ReadOn};
ghost use Rattle.fs_store.specs.Staleness.{IsUnsettled};
ghost use Rattle.fs_store.specs.Stores.{most_length};
ghost use Rattle.fs_store.specs.declared.reads.Loaded.{Loaded};

use crate::file::OpenFile;
use crate::waiting::Waiting;
use fs_index::Index;
use fs_record::{Item, STATUS_AT, STATUS_COUNTED, TXN_HEAD_LEN, record_size, texts_size};
use zbase::Failed;
use zdisk::{Disk, cut_and_sync, overwrite_and_sync};

// Puts the places of the items' records, of which the first stands there. Takes no memory.
fn put_all(index: &mut Index, first: u64, items: &[Item])
    requires room { All (λ item. HasRoom index.old item.oid) items.now }
    requires fits { first + records_size items.now < 2 ^ 48 }
    ensures { (o : ℕ) → place_in (place_of index.new o) ≡ last_place o (place_in (place_of index.old o)) (item_rows first items.now) }
{
    let mut place = first;
    for item in items {
        index.put(item.oid, place);
        place += record_size(item) as u64;
    }
}

// One more than the greatest object id, where it was this before the items.
fn next_with(next: u128, items: &[Item]) -> u128
    requires { next ≤ 2 ^ 64 }
    ensures next { result ≡ next_with next items.now }
    ensures bound { result ≤ 2 ^ 64 }
{
    let mut next = next;
    for item in items {
        next = next.max(u128::from(item.oid.0) + 1);
    }
    next
}

impl OpenFile {
    /// The transaction that waits counts: its status byte is overwritten and synced, and the store knows it from then on.
    /// Takes no memory.
    pub(crate) fn finish_on<D: Disk>(
        &mut self,
        disk: &mut D,
        limit: u64,
        waiting: &Waiting,
    ) -> Result<(), Failed>
        requires limit { limit ≤ most_length }
        requires kept { IsKept (D.told disk.old) self.old limit (Some waiting.now) (D.spare_calls disk.old) (D.spare_bytes disk.old) }
        ensures kept { OnOk result (IsKept (D.told disk.new) self.new limit None (D.spare_calls disk.new) (D.spare_bytes disk.new)) }
        ensures end { self.new.end ≡ (if is_ok result then self.old.end + waiting.now.size else self.old.end) }
        ensures stands { OnOk result (IfSome (D.told disk.old)
            (λ told. history_where (D.told disk.new) self.new.end
            ≡ added (history_at told self.old.end) (out_of (D.told disk.old) self.old.end waiting.now).transaction)) }
        ensures untold { D.told disk.old ≡ None → D.told disk.new ≡ None }
        ensures unsettled { OnErr result (IfSome (D.told disk.new) (IsUnsettled self.old.end (Some waiting.now))) }
        ensures records { OnErr result (records_where (D.told disk.new) self.old.end ≡ records_where (D.told disk.old) self.old.end) }
        ensures history { OnErr result (history_where (D.told disk.new) self.old.end ≡ history_where (D.told disk.old) self.old.end) }
        ensures read { (oid : ℕ) (loaded : Loaded) → ReadOn (D.told disk.old) self.old.end oid loaded → ReadOn (D.told disk.new) self.new.end oid loaded }
        ensures any_moment { LeavesFrom (D.told disk.old) (D.told disk.new)
            (λ file image. OpensTo image (history_where (D.told disk.old) self.old.end) self.old.end
            ⊎ OpensTo image (added (history_where (D.told disk.old) self.old.end) (out_of (D.told disk.old) self.old.end waiting.now).transaction)
            (self.old.end + waiting.now.size)) }
        ensures calls { OnOk result ((D.counter disk.new).calls ≡ counted (counted (D.counter disk.old).calls)) }
        ensures twice { OnOk result (Twice (D.counter disk.old) (D.counter disk.new)) }
        ensures counts { Counts (D.counter disk.old) (D.counter disk.new) (IsErr result) }
    {
        overwrite_and_sync(disk, self.end + STATUS_AT as u64, STATUS_COUNTED)?;
        self.know(waiting);
        Ok(())
    }

    // The store knows the transaction that waited.
    fn know(&mut self, waiting: &Waiting)
        requires waits { Knowable self.old waiting.now }
        ensures numbers { (self.new.end ≡ self.old.end + waiting.now.size) × (self.new.last ≡ waiting.now.tid) }
        ensures next { (self.new.next ≡ next_with self.old.next waiting.now.items) × (self.new.next ≤ 2 ^ 64) }
        ensures floor { self.new.floor ≡ self.old.floor }
        ensures len { self.new.len ≡ self.old.len }
        ensures count { self.new.count ≡ min (self.old.count + 1) greatest_number }
        ensures index { (o : ℕ) → place_in (place_of self.new.index o)
            ≡ last_place o (place_in (place_of self.old.index o)) (item_rows (first_at self.old.end waiting.now.texts) waiting.now.items) }
    {
        let first = self.end + (TXN_HEAD_LEN + texts_size(&waiting.texts)) as u64;
        put_all(&mut self.index, first, waiting.items.as_slice());
        self.next = next_with(self.next, waiting.items.as_slice());
        self.last = waiting.tid;
        self.end += waiting.size;
        self.count = self.count.saturating_add(1);
    }

    /// The transaction that waits never counts: it is cut off, and that is synced. Takes no memory.
    pub(crate) fn abort_on<D: Disk>(
        &mut self,
        disk: &mut D,
        limit: u64,
        waiting: Waiting,
    ) -> Result<(), Failed>
        requires { IsKept (D.told disk.old) self.old limit (Some waiting) (D.spare_calls disk.old) (D.spare_bytes disk.old) }
        ensures kept { OnOk result (IsKept (D.told disk.new) self.new limit None (D.spare_calls disk.new) (D.spare_bytes disk.new)) }
        ensures unsettled { OnErr result (IfSome (D.told disk.new) (IsUnsettled self.old.end None)) }
        ensures end { self.new.end ≡ self.old.end }
        ensures history { history_where (D.told disk.new) self.old.end ≡ history_where (D.told disk.old) self.old.end }
        ensures read { (oid : ℕ) (loaded : Loaded) → ReadOn (D.told disk.old) self.old.end oid loaded → ReadOn (D.told disk.new) self.new.end oid loaded }
        ensures any_moment { LeavesFrom (D.told disk.old) (D.told disk.new)
            (λ file image. OpensTo image (history_where (D.told disk.old) self.old.end) self.old.end) }
        ensures calls { OnOk result ((D.counter disk.new).calls ≡ counted (counted (D.counter disk.old).calls)) }
        ensures twice { OnOk result (Twice (D.counter disk.old) (D.counter disk.new)) }
        ensures counts { Counts (D.counter disk.old) (D.counter disk.new) (IsErr result) }
    {
        let _ = waiting;
        cut_and_sync(disk, self.end)?;
        self.len = self.end;
        Ok(())
    }
}
