ghost use Rattle.std.specs.Prelude.{◌≡◌, ◌+◌, ◌<◌, ◌^◌, ℕ, None, Some, [], All, IfOk, IfSome, IsErrOf, OnOk, drop, is_some, length, true};
ghost use Rattle.std.specs.Option.{ForSome};
ghost use Rattle.zbase.specs.Faults.{Counts};
ghost use Rattle.zdisk.specs.Crashes.{IsSynced};
ghost use Rattle.zdisk.specs.Disk.{content};
ghost use Rattle.fs_index.specs.Places.{place_of};
ghost use Rattle.fs_record.specs.declared.damage.Damage.{Damage as Kind};
ghost use Rattle.fs_record.specs.Spelling.{block_spelling, body_spelling};
ghost use Rattle.fs_record.specs.Sizes.{record_size};
ghost use Rattle.fs_record.specs.Written.{HasBody};
ghost use Rattle.fs_scan.specs.OnlyReads.{OnlyReads};
ghost use Rattle.fs_scan.specs.Walked.{IsOn, Walks, place_on};
ghost use Rattle.fs_scan.specs.Wholes.{records_in};
ghost use Rattle.packing.specs.Reachable.{Linking};
ghost use Rattle.fs_pack.specs.Entries.{entry_of};
ghost use Rattle.fs_pack.specs.Chosen.{chosen};
ghost use Rattle.fs_pack.specs.Output.{Appends, GrowsBy, HasTexts, IsSettled, WritesOn, block_with, item_with, items_with, noted};
ghost use Rattle.fs_pack.specs.Refusals.{IsFrom};
ghost use Rattle.fs_pack.specs.Spelled.{IsValue};
ghost use Rattle.fs_pack.specs.declared.refusal.PackRefusal.{PackRefusal as Refusal};
ghost use Rattle.fs_pack.specs.Plans.{IsPacked, StandsFor};

use crate::tallying::plus_whole;
use crate::{PackRefusal, Packed, Plan, PutRefusal};
use fs_index::Index;
use fs_record::{
    BACK_LEN, Body, DATA_HEAD_LEN, Item, MAGIC_LEN, MAX_LENGTH, TXN_HEAD_LEN, TxnTexts, texts_size,
    write_txn,
};
use fs_scan::{OidValue, OidValues, ScanRefusal, Walk, Whole};
use std::alloc::Global;
use zbase::{Bytes, Items, Memory, Value};
use zdisk::Disk;

/// What was written of a packed file.
#[derive(Drop)]
pub(crate) struct Output {
    /// Where it ends.
    end: u64,
    /// Where each object's last record stands.
    newest: Index,
}

/// Whether a record's value may be written: it is none, or some bytes.
fn has_body(value: &Value) -> bool
    ensures { result ≡ true → IsValue value.now }
{
    match value {
        Some(bytes) => !bytes.is_empty(),
        None => true,
    }
}

/// Whether the lengths of a transaction's texts have two bytes, as in every file.
fn has_texts(texts: &TxnTexts) -> bool
    ensures { result ≡ true → HasTexts texts.now }
{
    texts.user.len() < 65536 && texts.description.len() < 65536 && texts.extension.len() < 65536
}

/// How many bytes a body takes in a record.
fn body_size(body: &Body) -> u64
    ensures { result ≡ length (body_spelling body.now) }
{
    match body {
        Body::Full(bytes) => bytes.len() as u64,
        Body::Back(_) => BACK_LEN as u64,
    }
}

/// The place behind an item that stands at a place.
fn behind(place: u64, item: &Item) -> Result<u64, Memory>
    ensures { IfOk result (λ at. at ≡ place + record_size item.now) }
{
    let Some(at) = place.checked_add(DATA_HEAD_LEN as u64) else {
        return Err(Memory);
    };
    match at.checked_add(body_size(&item.body)) {
        Some(at) => Ok(at),
        None => Err(Memory),
    }
}

/// Notes where items stand, the first of them at a place. For want of memory some of them may be noted; so it is where a
/// place has more than six bytes, as none of a file has that may be opened.
fn note(newest: &mut Index, first: u64, items: &[Item]) -> Result<(), Memory>
    ensures { OnOk result ((o : ℕ) → place_of newest.new o ≡ noted o (place_of newest.old o) first items.now) }
{
    let mut place = first;
    for item in items {
        if place > MAX_LENGTH {
            return Err(Memory);
        }
        newest.reserve(&[item.oid])?;
        newest.put(item.oid, place);
        place = behind(place, item)?;
    }
    Ok(())
}

/// Writes bytes behind a file.
#[tactic(auto, using(crate::proofs::Tells::follows_tells))]
fn put<N: Disk>(to: &mut N, end: u64, bytes: &[u8]) -> Result<(), PutRefusal>
    requires { IfSome (N.told to.old) (λ told. end ≡ length (content told)) }
    ensures grows { OnOk result (GrowsBy (N.told to.old) (N.told to.new) bytes.now) }
    ensures tells { is_some (N.told to.new) ≡ is_some (N.told to.old) }
    ensures counts { Counts (N.counter to.old) (N.counter to.new) (IsErrOf result PutRefusal.Failed) }
{
    to.reserve(1, bytes.len() as u64)?;
    to.write_at(end, bytes)?;
    Ok(())
}

impl Output {
    fn new(alloc: Global) -> Output
        ensures end { result.end ≡ 4 }
        ensures newest { (o : ℕ) → place_of result.newest o ≡ None }
    {
        Output {
            end: MAGIC_LEN as u64,
            newest: Index::new(alloc),
        }
    }

    // A record of this value, which names the place of the object's last one.
    fn item_of(&self, value: OidValue) -> Item
        requires { IsValue value.value }
        ensures item { result ≡ item_with (place_of self.now.newest) (value.oid, value.value) }
        ensures body { HasBody result }
    {
        let OidValue { oid, value } = value;
        let prev = match self.newest.get(oid) {
            Some(place) => place,
            None => 0,
        };
        let body = match value {
            Some(bytes) => Body::Full(bytes),
            None => Body::Back(0),
        };
        Item { oid, prev, body }
    }

    // Records of these values.
    fn items_of(&self, values: OidValues) -> Result<Items<Item>, Memory>
        ensures items { IfOk result (λ items. items ≡ items_with (place_of self.now.newest) (records_in values)) }
        ensures bodies { IfOk result (λ items. All HasBody items) }
    {
        let mut items = Items::new(values.alloc());
        for value in values.into_vec() {
            if !has_body(&value.value) {
                return Err(Memory);
            }
            items.push(self.item_of(value))?;
        }
        Ok(items)
    }

    // Writes a transaction behind the others.
    fn append<N: Disk>(&mut self, alloc: Global, to: &mut N, whole: Whole) -> Result<(), PutRefusal>
        requires { IfSome (N.told to.old) (λ told. self.old.end ≡ length (content told)) }
        ensures appends { OnOk result (Appends (entry_of whole) self.old self.new) }
        ensures grows { OnOk result (GrowsBy (N.told to.old) (N.told to.new)
            (block_spelling (block_with self.old.end (place_of self.old.newest) (entry_of whole)))) }
        ensures tells { is_some (N.told to.new) ≡ is_some (N.told to.old) }
        ensures counts { Counts (N.counter to.old) (N.counter to.new) (IsErrOf result PutRefusal.Failed) }
    {
        let end = match plus_whole(Some(self.end), &whole) {
            Some(end) => end,
            None => return Err(PutRefusal::Memory),
        };
        let Whole {
            place: _,
            status,
            tid,
            texts,
            values,
        } = whole;
        if !has_texts(&texts) {
            return Err(PutRefusal::Memory);
        }
        let items = self.items_of(values)?;
        let mut bytes = Bytes::new(alloc);
        write_txn(&mut bytes, self.end, tid, status, &texts, items.as_slice())?;
        put(to, self.end, bytes.as_slice())?;
        let first = self.end + TXN_HEAD_LEN as u64 + texts_size(&texts) as u64;
        note(&mut self.newest, first, items.as_slice())?;
        self.end = end;
        Ok(())
    }
}

/// The next transaction of the file that is packed. Of a file that was planned only a disk that tells nothing can say that it
/// is damaged.
fn next_of<D: Disk>(walk: &mut Walk, disk: &mut D) -> Result<Option<Whole>, PackRefusal>
    requires { ForSome (D.told disk.old) (λ told. IsOn (content told) walk.old) }
    ensures walked { IfOk result (λ found. IfSome (D.told disk.old) (λ told. Walks (content told) walk.old walk.new found)) }
    ensures on { IfSome (D.told disk.old) (λ told. IsOn (content told) walk.new) }
    ensures rises { IfOk result (λ found. IfSome found (λ _. (place_on walk.old.place < place_on walk.new.place) × (place_on walk.new.place < 2 ^ 64))) }
    ensures refused { (refusal : Refusal) → IsErrOf result refusal → IsFrom refusal }
    ensures only_reads { OnlyReads D.Disk disk.old disk.new (IsErrOf result PackRefusal.From) }
{
    match walk.next(disk) {
        Ok(found) => Ok(found),
        Err(ScanRefusal::Disk) => Err(PackRefusal::From),
        Err(_) => Err(PackRefusal::Memory),
    }
}

/// Syncs a file.
#[tactic(auto, using(crate::proofs::Tells::follows_tells))]
fn settle<N: Disk>(to: &mut N) -> Result<(), PutRefusal>
    ensures synced { OnOk result (IsSettled (N.told to.old) (N.told to.new)) }
    ensures tells { is_some (N.told to.new) ≡ is_some (N.told to.old) }
    ensures counts { Counts (N.counter to.old) (N.counter to.new) (IsErrOf result PutRefusal.Failed) }
{
    to.reserve(1, 0)?;
    to.sync()?;
    Ok(())
}

/// Writes what a plan chooses of a transaction whose first record has this number.
fn write_chosen<N: Disk>(
    alloc: Global,
    to: &mut N,
    output: &mut Output,
    plan: &Plan,
    number: usize,
    whole: Whole,
) -> Result<(), PutRefusal>
    requires { IfSome (N.told to.old) (λ told. output.old.end ≡ length (content told)) }
    ensures written { OnOk result (WritesOn (chosen plan.now.before plan.now.until (drop number plan.now.marks) (entry_of whole))
        output.old output.new (N.told to.old) (N.told to.new)) }
    ensures tells { is_some (N.told to.new) ≡ is_some (N.told to.old) }
    ensures counts { Counts (N.counter to.old) (N.counter to.new) (IsErrOf result PutRefusal.Failed) }
{
    match plan.chosen(number, whole)? {
        Some(left) => output.append(alloc, to, left),
        None => Ok(()),
    }
}

/// Writes what a plan chooses into an empty file, and syncs it. It changes nothing of the file that is packed.
pub fn write<D: Disk, N: Disk>(
    alloc: Global,
    disk: &mut D,
    plan: &Plan,
    to: &mut N,
) -> Result<Packed, PackRefusal>
    requires planned { ForSome (D.told disk.old) (λ told. (links : Linking) × StandsFor links (content told) plan.now) }
    requires empty { ForSome (N.told to.old) (λ told. IsSynced told × (content told ≡ [])) }
    ensures packed { IfOk result (λ done. IfSome (D.told disk.old) (λ from. (links : Linking) (s : StandsFor links (content from) plan.now)
        → IfSome (N.told to.new) (λ told. IsSynced told × IsPacked s.packs (content told) done))) }
    ensures synced { IfOk result (λ _. IfSome (N.told to.new) IsSynced) }
    ensures undamaged { (kind : Kind) (place : ℕ) → IsErrOf result (PackRefusal.Damaged kind place) → ⊥ }
    ensures readable { (o : ℕ) → IsErrOf result (PackRefusal.Unreadable o) → ⊥ }
    ensures fits { (need limit : ℕ) → IsErrOf result (PackRefusal.Full need limit) → ⊥ }
    // Whatever happens, the packed file's disk tells as before.
    ensures tells { is_some (N.told to.new) ≡ is_some (N.told to.old) }
    ensures only_reads { OnlyReads D.Disk disk.old disk.new (IsErrOf result PackRefusal.From) }
    ensures counts { Counts (N.counter to.old) (N.counter to.new) (IsErrOf result PackRefusal.To) }
{
    put(to, 0, b"FS21")?;
    let mut output = Output::new(alloc);
    let mut walk = Walk::new(alloc);
    'each: loop {
        let number = walk.record_count();
        match next_of(&mut walk, disk)? {
            Some(whole) => write_chosen(alloc, to, &mut output, plan, number, whole)?,
            None => {
                settle(to)?;
                return Ok(plan.packed(output.end));
            }
        }
    }
}
