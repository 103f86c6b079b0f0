ghost use Rattle.std.specs.Prelude.{◌≡◌, ◌+◌, ◌++◌, ◌<◌, ◌≤◌, [], true, All, drop, length, take, IfOk, IfSome, IsErr, IsErrOf};
ghost use Rattle.std.specs.Int.{to_be_bytes, w64};
ghost use Rattle.std.specs.List.{AllByRecursion};
ghost use Rattle.zbase.specs.History.{History};
ghost use Rattle.zbase.specs.Values.{next, upto, value};
ghost use Rattle.evaluator.specs.Settle.{filled, oid_of, record_of, size_of_entry};
ghost use Rattle.fs_record.specs.declared.body.Body.{Body};
ghost use Rattle.fs_record.specs.File.{is_right_body, rows, value_of};
ghost use Rattle.fs_record.specs.Sizes.{record_size, records_size};
ghost use Rattle.fs_record.specs.Written.{HasBody};
ghost use Rattle.fs_store.specs.Drafts.{FitsEntries, FitsEntry, FitsHole, FitsName, LooksForNothing, NeedsNoLook, sizes_of};
ghost use Rattle.fs_store.specs.Fronts.{history_at, records_at};
ghost use Rattle.zdisk.specs.Disk.{content};
ghost use Rattle.fs_scan.specs.OnlyReads.{OnlyReads};
ghost use Rattle.fs_store.specs.Knowing.{IsKnown};
ghost use Rattle.fs_store.specs.Pointing.{IsDirect};
ghost use Rattle.fs_store.specs.Settled.{AreOf, IsRight, IsSettled, SettlesAs, in_order, says};

use crate::LoadRefusal;
use crate::file::OpenFile;
use byteorder::{BigEndian, ByteOrder};
use evaluator::{Draft, Entries, Entry, Hole, Name};
use fs_record::{Body, Item, NUMBER_LEN, TxnTexts};
use fs_scan::data_place;
use std::alloc::Global;
use zbase::{Bytes, Failed, Items, Memory, Oid, Text, Tid};
use zdisk::Disk;

/// What is written of a draft: its texts, and its data records by rising object ids.
#[derive(Drop)]
pub(crate) struct Settled {
    pub(crate) texts: TxnTexts,
    pub(crate) items: Items<Item>,
}

// Puts an id into the eight bytes at a place.
fn put_id(bytes: &mut [u8], at: usize, id: u64)
    requires { at + NUMBER_LEN ≤ length bytes.old }
    ensures { bytes.new ≡ take at bytes.old ++ to_be_bytes w64 id ++ drop (at + NUMBER_LEN) bytes.old }
{
    BigEndian::write_u64(&mut bytes[at..at + NUMBER_LEN], id);
}

// The bytes with the ids of the new objects in the holes; the first new object has the id `first`. Takes no memory.
fn filled(bytes: Bytes, holes: &[Hole], first: u128) -> Bytes
    requires { AllByRecursion (FitsHole first (length bytes)) holes.now }
    ensures filled { result ≡ filled first bytes holes.now }
    ensures long { length result ≡ length bytes }
{
    let mut filled = bytes.into_vec();
    for hole in holes {
        let id = first + u128::from(hole.new);
        put_id(filled.as_mut_slice(), hole.at as usize, id as u64);
    }
    Bytes::from_vec(filled)
}

// The id of the object that a name names.
fn oid_of(name: Name, first: u128) -> u64
    requires { FitsName first name }
    ensures { (h : History) → first ≡ next h → result ≡ oid_of h name }
{
    match name {
        Name::Old(oid) => oid.0,
        Name::New(number) => (first + u128::from(number)) as u64,
    }
}

impl OpenFile {
    // Where the record stands that has the data that is put back, 0 where the object had none. To put none back nothing is
    // looked for.
    fn place_of<D: Disk>(&self, disk: &mut D, oid: Oid, to: Tid) -> Result<u64, Failed>
        requires { IsKnown (D.told disk.old) self.now }
        ensures value { IfOk result (λ place. IfSome (D.told disk.old)
            (λ told. value_of (records_at told self.now.end) (Body.Back place) ≡ value (upto (history_at told self.now.end) to) oid)) }
        ensures right { IfOk result (λ place. IfSome (D.told disk.old)
            (λ told. is_right_body (rows (records_at told self.now.end)) oid (Body.Back place) ≡ true)) }
        ensures direct { IfOk result (λ place. IfSome (D.told disk.old) (λ told. IsDirect (content told) (Body.Back place))) }
        ensures calls { to ≡ 0 → (D.counter disk.new).calls ≡ (D.counter disk.old).calls }
        ensures only_reads { OnlyReads D.Disk disk.old disk.new (IsErr result) }
    {
        if to.0 == 0 {
            return Ok(0);
        }
        match self.find(disk, oid, to)? {
            None => Ok(0),
            Some(found) => data_place(disk, self.len, found.place, &found.head),
        }
    }

    // The data record of an entry, to which its value is moved. What is put back isn't written again: a back pointer leads to
    // the record that has it.
    fn item_of<D: Disk>(&self, disk: &mut D, entry: Entry) -> Result<Item, Failed>
        requires known { IsKnown (D.told disk.old) self.now }
        requires fits { FitsEntry self.now.next entry }
        ensures said { IfOk result (λ item. IfSome (D.told disk.old)
            (λ told. says (records_at told self.now.end) item ≡ record_of (history_at told self.now.end) entry)) }
        ensures right { IfOk result (λ item. IfSome (D.told disk.old) (λ told. IsRight (records_at told self.now.end) item)) }
        ensures direct { IfOk result (λ item. IfSome (D.told disk.old) (λ told. IsDirect (content told) item.body)) }
        ensures body { IfOk result HasBody }
        ensures size { IfOk result (λ item. record_size item ≡ size_of_entry entry) }
        ensures calls { NeedsNoLook entry → (D.counter disk.new).calls ≡ (D.counter disk.old).calls }
        ensures only_reads { OnlyReads D.Disk disk.old disk.new (IsErr result) }
    {
        match entry {
            Entry::Write { name, bytes, holes } => {
                let oid = Oid(oid_of(name, self.next));
                let value = filled(bytes, holes.as_slice(), self.next);
                Ok(Item {
                    oid,
                    prev: self.place(oid),
                    body: Body::Full(value),
                })
            }
            Entry::Restore { oid, to } => {
                let place = self.place_of(disk, oid, to)?;
                Ok(Item {
                    oid,
                    prev: self.place(oid),
                    body: Body::Back(place),
                })
            }
        }
    }

    // The data records of the entries, in the entries' order.
    fn items_of<D: Disk>(
        &self,
        alloc: Global,
        disk: &mut D,
        entries: Entries,
    ) -> Result<Vec<Item>, LoadRefusal>
        requires known { IsKnown (D.told disk.old) self.now }
        requires fits { FitsEntries self.now.next entries }
        ensures are { IfOk result (λ items. IfSome (D.told disk.old) (λ told. AreOf told self.now.end entries items.items)) }
        ensures direct { IfOk result (λ items. IfSome (D.told disk.old) (λ told. All (λ item. IsDirect (content told) item.body) items.items)) }
        ensures bodies { IfOk result (λ items. All HasBody items.items) }
        ensures size { IfOk result (λ items. records_size items.items ≡ sizes_of entries) }
        ensures calls { AllByRecursion NeedsNoLook entries → (D.counter disk.new).calls ≡ (D.counter disk.old).calls }
        ensures only_reads { OnlyReads D.Disk disk.old disk.new (IsErrOf result LoadRefusal.Disk) }
    {
        let mut items = Vec::with_capacity(alloc, entries.len())?;
        for entry in entries.into_vec() {
            let item = self.item_of(disk, entry)?;
            items.push(item)?;
        }
        Ok(items)
    }
}

// The items by rising ids. Of two of an object the one of the later entry comes first.
fn by_oid(items: Vec<Item>) -> Result<Vec<Item>, Memory>
    ensures { IfOk result (λ sorted. sorted.items ≡ in_order items.items) }
{
    let mut items = items;
    items.reverse();
    items.sort_by_key(|item| item.oid.0)?;
    Ok(items)
}

// The texts of a transaction.
fn texts_of(alloc: Global, user: &Text, description: &Text) -> Result<TxnTexts, Memory>
    ensures { IfOk result (λ texts. texts ≡ record { user = user.now; description = description.now; extension = [] }) }
{
    Ok(TxnTexts {
        user: Bytes::from_slice(alloc, user.as_bytes())?,
        description: Bytes::from_slice(alloc, description.as_bytes())?,
        extension: Bytes::new(alloc),
    })
}

impl OpenFile {
    /// What is written of a draft behind the file: its values are moved there. Only what is put back is looked for on the disk.
    pub(crate) fn settle<D: Disk>(
        &self,
        alloc: Global,
        disk: &mut D,
        draft: Draft,
    ) -> Result<Settled, LoadRefusal>
        requires known { IsKnown (D.told disk.old) self.now }
        requires fits { FitsEntries self.now.next draft.entries }
        ensures settles { IfOk result (λ settled. IfSome (D.told disk.old) (λ told. SettlesAs told self.now.end draft settled)) }
        ensures settled { IfOk result (λ settled. IsSettled draft settled) }
        ensures calls { LooksForNothing draft → (D.counter disk.new).calls ≡ (D.counter disk.old).calls }
        ensures only_reads { OnlyReads D.Disk disk.old disk.new (IsErrOf result LoadRefusal.Disk) }
    {
        let Draft {
            user,
            description,
            entries,
        } = draft;
        let items = self.items_of(alloc, disk, entries)?;
        let items = by_oid(items)?;
        let texts = texts_of(alloc, &user, &description)?;
        Ok(Settled {
            texts,
            items: Items::from_vec(items),
        })
    }
}
