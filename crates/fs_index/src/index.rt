ghost use Rattle.std.specs.Prelude.{◌≡◌, ◌==◌, ◌++◌, ◌<◌, ◌%◌, ◌^◌, if◌then◌else◌, ℕ, All, IfOk, None, Some, OnOk, false, true};
ghost use Rattle.std.specs.List.Sorted.{IsStrictlySortedBy};
ghost use Rattle.std.specs.Map.{keys_of};
ghost use Rattle.std.specs.BTreeMap.Range.{IsLeBy, IsLtBy, entries_between};
ghost use Rattle.std.specs.Range.Bound.{IsForward};
ghost use Rattle.std.specs.Ordering.{nat_cmp};
ghost use Rattle.std.specs.declared.ops.Bound.TheVariants.{Included};
ghost use Rattle.fs_index.specs.Listed.{Lists, known_rows};
ghost use Rattle.fs_index.specs.Places.{is_in_row, Keeps, known};

use crate::place::Place;
use crate::row::{ROW, Row, add_known};
use std::alloc::Global;
use std::collections::BTreeMap;
use std::marker::Model;
use std::ops::Bound;
use zbase::{Memory, Oid, Rows};

/// How many objects of a row's ids there are when it begins.
const FEW: usize = 32;

/// How many numbers a row may have: the first six bytes of an id.
const PREFIXES: u64 = 1 << 48;

/// Places by object, counted in bytes from the file's start. An object may be there without a place: then room is kept
/// for it.
///
/// Ids are given out one after another, so the places of nearly all objects stand in rows of the ids that have the first
/// six bytes in common, each at the number that the last two bytes are. One is found at once, however many there are. Ids
/// that are far from the others, as of a file from elsewhere, are in a tree. Where there are enough objects for a row that
/// reaches these, it takes them over, some with each object that comes.
#[derive(Drop)]
pub struct Index {
    alloc: Global,
    /// By the first six bytes of their ids. In a row stands 0 where only room is kept, as FileStorage itself writes 0 for no
    /// record: there stands the file's magic.
    rows: BTreeMap<u64, Row>,
    /// The places of ids that are in no row, alike.
    few: BTreeMap<u64, Place>,
}

impl Model for Index {
    ghost use Rattle.fs_index.specs.Places.{Slots};

    ghost Value = { Slots };

    ghost view = { λ index. record { rows = index.rows.entries; few = index.few.entries } };
}

// The number of an id in its row.
fn number_of(id: u64) -> usize
    ensures { result ≡ id % 65536 }
{
    (id % ROW) as usize
}

impl Index {
    ghost use Rattle.fs_index.specs.Places.{HasRoom, is_in_row, Keeps, place_of, slot_of};

    /// No object has a place. Takes no memory.
    #[tactic(auto, unfolding(crate::specs::Places::slot_of))]
    pub fn new(alloc: Global) -> Index
        ensures { (o : ℕ) → place_of result o ≡ None }
    {
        Index {
            alloc,
            rows: BTreeMap::new(alloc),
            few: BTreeMap::new(alloc),
        }
    }

    /// The object's place. Takes no memory.
    pub fn get(&self, oid: Oid) -> Option<u64>
        ensures { result ≡ place_of self.now oid }
    {
        match self.slot(oid.0) {
            Some(place) => known(place),
            None => None,
        }
    }

    // The object's place, 0 where only room is kept.
    #[tactic(auto, unfolding(crate::specs::Places::slot_of))]
    fn slot(&self, id: u64) -> Option<u64>
        ensures { result ≡ slot_of self.now id }
    {
        if let Some(row) = self.rows.get(&(id / ROW)) {
            if let Some(place) = row.get(number_of(id)) {
                return Some(place);
            }
        }
        self.few.get(&id).map(|place| place.number())
    }

    // Whether the object's place stands in a row.
    #[tactic(auto, unfolding(crate::specs::Places::is_in_row))]
    fn is_in_row(&self, id: u64) -> bool
        ensures { result ≡ is_in_row self.now id }
    {
        match self.rows.get(&(id / ROW)) {
            Some(row) => number_of(id) < row.len(),
            None => false,
        }
    }

    /// Keeps room for these objects. Their places stay, and for want of memory the room that there was.
    pub fn reserve(&mut self, oids: &[Oid]) -> Result<(), Memory>
        ensures places { (o : ℕ) → place_of self.new o ≡ place_of self.old o }
        ensures room { OnOk result (All (λ o. HasRoom self.new o) oids.now) }
        ensures keeps { (o : ℕ) → HasRoom self.old o → HasRoom self.new o }
    {
        for oid in oids {
            self.reserve_one(*oid)?;
        }
        Ok(())
    }

    fn reserve_one(&mut self, oid: Oid) -> Result<(), Memory>
        ensures places { (o : ℕ) → place_of self.new o ≡ place_of self.old o }
        ensures room { OnOk result (HasRoom self.new oid) }
        ensures keeps { (o : ℕ) → HasRoom self.old o → HasRoom self.new o }
    {
        let id = oid.0;
        if self.slot(id).is_some() {
            return Ok(());
        }
        self.lengthen(id)?;
        self.add_few(id)?;
        self.begin_row(id)
    }

    // Makes the row of an id longer towards it, where there is one, and enough objects in it.
    fn lengthen(&mut self, id: u64) -> Result<(), Memory>
        ensures { Keeps self.old self.new }
    {
        let number = id / ROW;
        match self.rows.get_mut(&number) {
            Some(row) => row.lengthen(&mut self.few, number, number_of(id)),
            None => Ok(()),
        }
    }

    // Keeps room in the tree for an object that has none, neither there nor in a row.
    #[tactic(auto, unfolding(crate::specs::Places::slot_of))]
    fn add_few(&mut self, id: u64) -> Result<(), Memory>
        ensures places { (o : ℕ) → place_of self.new o ≡ place_of self.old o }
        ensures room { OnOk result (HasRoom self.new id) }
        ensures keeps { (o : ℕ) → HasRoom self.old o → HasRoom self.new o }
    {
        if self.slot(id).is_some() {
            return Ok(());
        }
        match self.few.insert(id, Place::new(0)) {
            Ok(_) => Ok(()),
            Err(_) => Err(Memory),
        }
    }

    // Whether the tree has enough ids for a row of this number.
    fn are_enough(&self, number: u64) -> bool
        requires { number < 2 ^ 48 }
    {
        let first = number * ROW;
        let mut left = FEW;
        for _ in self.few.range(first..=first + (ROW - 1)) {
            if left <= 1 {
                return true;
            }
            left -= 1;
        }
        false
    }

    // Begins the row of an id, where there is none, and there are enough objects for it.
    fn begin_row(&mut self, id: u64) -> Result<(), Memory>
        ensures { Keeps self.old self.new }
    {
        let number = id / ROW;
        match self.rows.get(&number) {
            Some(_) => return Ok(()),
            None => {}
        }
        if !self.are_enough(number) {
            return Ok(());
        }
        match self.rows.insert(number, Row::new(self.alloc, FEW)) {
            Ok(_) => Ok(()),
            Err(_) => Err(Memory),
        }
    }

    /// Puts an object at a place, in the stead of its earlier one; at 0 it has none. It takes no memory and can't fail,
    /// since the object is there, or room is kept for it.
    pub fn put(&mut self, oid: Oid, place: u64)
        requires room { HasRoom self.old oid }
        requires fits { place < 2 ^ 48 }
        ensures places { (o : ℕ) → place_of self.new o ≡ (if oid == o then known place else place_of self.old o) }
        ensures keeps { (o : ℕ) → HasRoom self.old o → HasRoom self.new o }
    {
        if self.is_in_row(oid.0) {
            self.put_in_row(oid.0, place);
        } else {
            self.put_few(oid.0, place);
        }
    }

    // Puts a place in its row.
    fn put_in_row(&mut self, id: u64, place: u64)
        requires row { is_in_row self.old id ≡ true }
        requires fits { place < 2 ^ 48 }
        ensures { (o : ℕ) → slot_of self.new o ≡ (if id == o then Some place else slot_of self.old o) }
    {
        match self.rows.get_mut(&(id / ROW)) {
            Some(row) => row.put(number_of(id), place),
            None => unreachable!(),
        }
    }

    // Puts a place in the tree.
    #[tactic(auto, unfolding(crate::specs::Places::slot_of, crate::specs::Places::is_in_row))]
    fn put_few(&mut self, id: u64, place: u64)
        requires row { is_in_row self.old id ≡ false }
        requires room { HasRoom self.old id }
        requires fits { place < 2 ^ 48 }
        ensures { (o : ℕ) → slot_of self.new o ≡ (if id == o then Some place else slot_of self.old o) }
    {
        match self.few.insert(id, Place::new(place)) {
            Ok(_) => {}
            Err(_) => unreachable!(),
        }
    }

    // Adds the places that the tree has from an id on and before a bound.
    fn list_few(&self, rows: &mut Rows, from: u64, to: Bound<u64>) -> Result<(), Memory>
        requires { IsForward (IsLeBy nat_cmp) (IsLtBy nat_cmp) (Included from) to }
        ensures listed { OnOk result (rows.new ≡ rows.old ++ known_rows (entries_between nat_cmp (Included from) to self.now.few)) }
        ensures ordered { IsStrictlySortedBy nat_cmp (keys_of self.now.few) }
    {
        for (id, place) in self.few.range((Bound::Included(from), to)) {
            add_known(rows, *id, place.number())?;
        }
        Ok(())
    }

    /// Each object's place, by rising id. It goes over the index once.
    pub fn rows(&self) -> Result<Rows, Memory>
        ensures { IfOk result (Lists self.now) }
    {
        let mut rows = Rows::new(self.alloc);
        let mut from = 0;
        for (number, row) in self.rows.range(0..PREFIXES) {
            let first = *number * ROW;
            self.list_few(&mut rows, from, Bound::Excluded(first))?;
            row.list(&mut rows, first)?;
            // none where the row ends with the last id
            match first.checked_add(row.reach()) {
                Some(behind) => from = behind,
                None => return Ok(rows),
            }
        }
        self.list_few(&mut rows, from, Bound::Included(u64::MAX))?;
        Ok(rows)
    }
}

fn known(place: u64) -> Option<u64>
    ensures { result ≡ known place }
{
    if place == 0 { None } else { Some(place) }
}
