ghost use Rattle.std.specs.Prelude.{◌≡◌, ◌+◌, ◌≤◌, ℕ, [], Contains, IfOk, IfSome};
ghost use Rattle.fs_store.specs.Recent.{Fits, IsWith, bytes_in, most_bytes, most_value, total};
ghost use Rattle.fs_store.specs.declared.reads.Loaded.{Loaded};

use crate::Loaded;
use lru::LruCache;
use std::alloc::Global;
use std::marker::Model;
use std::num::NonZeroUsize;
use zbase::{Memory, Oid, Tid, Value};

/// How many records are kept at most.
const MOST_RECORDS: usize = 256;

/// How many bytes the value of a record that is kept has at most.
const MOST_VALUE: usize = 1_048_576;

/// How many bytes the values that are kept have together at most.
const MOST_BYTES: usize = 16_777_216;

/// The records that were used last, each by its object.
///
/// A record of a file stays where it is and what it is, so what was read of it once is right as long as its file is.
#[derive(Drop)]
pub(crate) struct Recent {
    alloc: Global,
    records: Option<LruCache<u64, Loaded>>,
    /// How many bytes the values have together, or more.
    bytes: usize,
}

impl Model for Recent {
    ghost use Rattle.std.specs.Prelude.{ℕ, List};
    ghost use Rattle.fs_store.specs.Recent.{Fits, HasCap, kept_in, most_records};
    ghost use Rattle.fs_store.specs.declared.reads.Loaded.{Loaded};

    ghost Value = { List (ℕ × Loaded) };

    ghost view = { λ r. kept_in r.records };

    ghost invariant = { λ r. Fits (kept_in r.records) r.bytes × HasCap most_records r.records };
}

// How many bytes a value has.
fn bytes_in(value: &Value) -> usize
    ensures { result ≡ bytes_in value.now }
{
    match value {
        Some(bytes) => bytes.len(),
        None => 0,
    }
}

// A copy of a record, where it stands at that place and its transaction isn't later than `at`.
fn copy_at(loaded: &Loaded, place: u64, at: Tid) -> Result<Option<Loaded>, Memory>
    ensures { IfOk result (λ copy. IfSome copy (λ c. (c ≡ loaded.now) × (c.place ≡ place) × (c.serial ≤ at))) }
{
    if loaded.place != place || loaded.serial.0 > at.0 {
        return Ok(None);
    }
    Ok(Some(loaded.copy()?))
}

// What is kept for the object, and it is the one that was used last from then on.
fn found(
    records: &mut LruCache<u64, Loaded>,
    oid: Oid,
    place: u64,
    at: Tid,
) -> Result<Option<Loaded>, Memory>
    ensures found { IfOk result (λ found. IfSome found (λ loaded. Contains records.old.entries (oid, loaded) × (loaded.place ≡ place) × (loaded.serial ≤ at))) }
    ensures stays { (e : ℕ × Loaded) → Contains records.new.entries e → Contains records.old.entries e }
    ensures total { total records.new.entries ≡ total records.old.entries }
    ensures cap { records.new.cap ≡ records.old.cap }
{
    records.promote(&oid.0);
    match records.peek(&oid.0) {
        Some(loaded) => copy_at(loaded, place, at),
        None => Ok(None),
    }
}

// Lets go of what is kept for the object. Its values have together so many bytes or more, and what is returned is so of what
// is left.
fn remove(records: &mut LruCache<u64, Loaded>, oid: Oid, bytes: usize) -> usize
    requires { total records.old.entries ≤ bytes }
    ensures total { (total records.new.entries ≤ result) × (result ≤ bytes) }
    ensures stays { (e : ℕ × Loaded) → Contains records.new.entries e → Contains records.old.entries e }
    ensures cap { records.new.cap ≡ records.old.cap }
{
    match records.pop_entry(&oid.0) {
        Some((_, loaded)) => bytes - bytes_in(&loaded.value),
        None => bytes,
    }
}

// Lets go of records, of the one that was used longest ago first, until there is room for one more whose value is so long.
fn make_room(records: &mut LruCache<u64, Loaded>, bytes: usize, length: usize) -> usize
    requires total { total records.old.entries ≤ bytes }
    requires bytes { bytes ≤ most_bytes }
    requires length { length ≤ most_value }
    ensures total { total records.new.entries ≤ result }
    ensures room { result + length ≤ most_bytes }
    ensures stays { (e : ℕ × Loaded) → Contains records.new.entries e → Contains records.old.entries e }
    ensures cap { records.new.cap ≡ records.old.cap }
{
    let mut bytes = bytes;
    while records.len() >= MOST_RECORDS || bytes > MOST_BYTES - length {
        match records.pop_lru() {
            Some((_, loaded)) => bytes -= bytes_in(&loaded.value),
            None => return 0,
        }
    }
    bytes
}

// Keeps a record in the place of what was kept of its object, and of as many others as have to go for it. The values of those
// that are kept have together so many bytes or more, and as many as is returned then.
fn put_in(
    records: &mut LruCache<u64, Loaded>,
    bytes: usize,
    oid: Oid,
    loaded: Loaded,
    length: usize,
) -> usize
    requires fits { Fits records.old.entries bytes }
    requires length { length ≡ bytes_in loaded.value }
    requires short { length ≤ most_value }
    ensures fits { Fits records.new.entries result }
    ensures with { IsWith records.old.entries oid loaded records.new.entries }
    ensures cap { records.new.cap ≡ records.old.cap }
{
    let left = remove(records, oid, bytes);
    let room = make_room(records, left, length);
    match records.put(oid.0, loaded) {
        Ok(_) => room + length,
        // there is no memory for it
        Err(_) => room,
    }
}

impl Recent {
    /// None is kept yet. Takes no memory.
    pub(crate) fn new(alloc: Global) -> Recent
        ensures { result ≡ [] }
    {
        Recent {
            alloc,
            records: None,
            bytes: 0,
        }
    }

    /// Lets go of all. Takes no memory.
    pub(crate) fn clear(&mut self)
        ensures { self.new ≡ [] }
    {
        self.records = None;
        self.bytes = 0;
    }

    /// What is kept of the object, where it is the record at that place and its transaction isn't later than `at`.
    pub(crate) fn get(&mut self, oid: Oid, place: u64, at: Tid) -> Result<Option<Loaded>, Memory>
        ensures found { IfOk result (λ found. IfSome found (λ loaded. Contains self.old (oid, loaded) × (loaded.place ≡ place) × (loaded.serial ≤ at))) }
        ensures stays { (e : ℕ × Loaded) → Contains self.new e → Contains self.old e }
    {
        match &mut self.records {
            Some(records) => found(records, oid, place, at),
            None => Ok(None),
        }
    }

    /// Keeps what was loaded of an object, in the place of what was kept of it, where it is the record at that place and its
    /// value isn't too long.
    pub(crate) fn keep(&mut self, oid: Oid, place: u64, loaded: &Loaded) -> Result<(), Memory>
        ensures { IsWith self.old oid loaded.now self.new }
    {
        let length = bytes_in(&loaded.value);
        if place == 0 || loaded.place != place || length > MOST_VALUE {
            return Ok(());
        }
        let copy = loaded.copy()?;
        match &mut self.records {
            Some(records) => self.bytes = put_in(records, self.bytes, oid, copy, length),
            None => {
                let most = NonZeroUsize::new(MOST_RECORDS).unwrap_or(NonZeroUsize::MIN);
                let mut records = LruCache::sparse(self.alloc, most)?;
                self.bytes = put_in(&mut records, 0, oid, copy, length);
                self.records = Some(records);
            }
        }
        Ok(())
    }
}
