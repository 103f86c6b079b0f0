ghost use Rattle.std.specs.Prelude.{◌≡◌, ◌+◌, ◌++◌, ◌∷◌, ◌<◌, ◌≤◌, ◌^◌, [], get_or, length, None, OnOk, OnErr, Some, set, take, true};
ghost use Rattle.fs_index.specs.Listed.{known_rows, numbered, row_if};
ghost use Rattle.fs_index.specs.Places.{Keeps, alone, known, or_zero, slot_in};
ghost use Rattle.std.specs.BTreeMap.{is_at};
ghost use Rattle.std.specs.Map.{lookup};
ghost use Rattle.std.specs.Ordering.{nat_cmp};

use crate::place::Place;
use std::alloc::Global;
use std::collections::BTreeMap;
use std::marker::Model;
use zbase::{Memory, Oid, Row as Listed, Rows};

/// How many slots at most a row has for each object of its ids, so that a few objects don't take much.
const SPREAD: usize = 4;

/// By how many places at most a row grows with an object, so that none has to wait till a long tree is taken over.
const STRIDE: usize = 16;

/// How many ids have all but their last two bytes in common.
pub(crate) const ROW: u64 = 65_536;

/// The places of ids that have all but their last two bytes in common, from the first of them on.
#[derive(Drop)]
pub(crate) struct Row {
    places: Vec<Place>,
    /// How many of these ids have an object, here and elsewhere, as far as it is known.
    taken: usize,
}

// The place that the tree keeps of an id, or 0.
fn place_among(few: &BTreeMap<u64, Place>, id: u64) -> u64
    ensures place { result ≡ or_zero (lookup (is_at (nat_cmp id)) few.now.entries) }
    ensures bound { result < 2 ^ 48 }
{
    match few.get(&id) {
        Some(place) => place.number(),
        None => 0,
    }
}

/// Adds an object behind others, where a record stands at its place.
pub(crate) fn add_known(rows: &mut Rows, id: u64, place: u64) -> Result<(), Memory>
    ensures { OnOk result (rows.new ≡ rows.old ++ row_if id (known place)) }
{
    if place > 0 {
        rows.push(Listed {
            oid: Oid(id),
            place,
        })?;
    }
    Ok(())
}

impl Model for Row {
    ghost use Rattle.std.specs.Prelude.{List, ℕ};

    ghost Value = { List ℕ };

    ghost view = { λ row. row.places.items };
}

impl Row {
    /// No place, of so many objects. Takes no memory.
    pub(crate) fn new(alloc: Global, taken: usize) -> Row
        ensures { result ≡ [] }
    {
        Row {
            places: Vec::new(alloc),
            taken,
        }
    }

    /// How many places it has.
    pub(crate) fn len(&self) -> usize
        ensures { result ≡ length self.now }
    {
        self.places.len()
    }

    /// The place at this number.
    pub(crate) fn get(&self, number: usize) -> Option<u64>
        ensures { result ≡ slot_in (Some self.now) number None }
    {
        match self.places.get(number) {
            Some(place) => Some(place.number()),
            None => None,
        }
    }

    /// Puts a place at this number.
    pub(crate) fn put(&mut self, number: usize, place: u64)
        requires within { number < length self.old }
        requires fits { place < 2 ^ 48 }
        ensures { self.new ≡ set self.old number place }
    {
        self.places[number] = Place::new(place);
    }

    /// Adds a place behind all others. For want of memory the row stays as it was.
    pub(crate) fn push(&mut self, place: u64) -> Result<(), Memory>
        requires { place < 2 ^ 48 }
        ensures ok { OnOk result (self.new ≡ self.old ++ place ∷ []) }
        ensures err { OnErr result (self.new ≡ self.old) }
    {
        self.places.push(Place::new(place))?;
        Ok(())
    }

    /// How many ids it reaches.
    pub(crate) fn reach(&self) -> u64
        ensures { result ≡ length (take ROW self.now) }
    {
        (self.len() as u64).min(ROW)
    }

    /// Adds the places that stand here, of the ids from the first one on.
    pub(crate) fn list(&self, rows: &mut Rows, first: u64) -> Result<(), Memory>
        requires { first + ROW ≤ 2 ^ 64 }
        ensures { OnOk result (rows.new ≡ rows.old ++ known_rows (numbered first (take ROW self.now))) }
    {
        for number in 0..self.reach() {
            add_known(rows, first + number, self.places[number as usize].number())?;
        }
        Ok(())
    }

    // Whether it doesn't reach a number yet and has enough objects to be longer.
    fn is_short_of(&self, number: usize) -> bool
        ensures { result ≡ true → length self.now ≤ number }
    {
        number >= self.places.len() && self.places.len() / SPREAD < self.taken
    }

    // Makes the row with this number longer by the next id, whose place comes out of the tree.
    fn take_over(&mut self, few: &mut BTreeMap<u64, Place>, number: u64) -> Result<(), Memory>
        requires number { number < 2 ^ 48 }
        requires short { length self.old < 65536 }
        ensures keeps { Keeps (alone number self.old few.old.entries) (alone number self.new few.new.entries) }
    {
        let id = number * ROW + self.len() as u64;
        self.push(place_among(few, id))?;
        let _ = few.remove(&id);
        Ok(())
    }

    /// Counts an object more with this number in the row, and makes the row longer towards it where it has enough of them.
    /// What it reaches comes out of the tree.
    pub(crate) fn lengthen(
        &mut self,
        few: &mut BTreeMap<u64, Place>,
        number: u64,
        towards: usize,
    ) -> Result<(), Memory>
        requires number { number < 2 ^ 48 }
        requires towards { towards < 65536 }
        ensures { Keeps (alone number self.old few.old.entries) (alone number self.new few.new.entries) }
    {
        self.taken = self.taken.saturating_add(1);
        for _ in 0..STRIDE {
            if !self.is_short_of(towards) {
                return Ok(());
            }
            self.take_over(few, number)?;
        }
        Ok(())
    }
}
