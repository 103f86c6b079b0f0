ghost use Rattle.std.specs.Prelude.{◌≡◌, ◌<◌, [], get_or, length, OnErr, OnOk};
ghost use Rattle.fs_pack.specs.Marked.{added, all_added, is_in};

use fs_index::Index;
use std::alloc::Global;
use std::marker::Model;
use zbase::{Memory, Oid};

/// Objects, each once, in the order in which they were added.
#[derive(Drop)]
pub(crate) struct Marks {
    order: Vec<Oid>,
    /// Those that were added have a place here.
    seen: Index,
}

impl Model for Marks {
    ghost use Rattle.std.specs.Prelude.{◌≡◌, ℕ, List};
    ghost use Rattle.std.specs.Option.{is_some};
    ghost use Rattle.fs_index.specs.Places.{place_of};
    ghost use Rattle.fs_pack.specs.Marked.{is_in};

    ghost Value = { List ℕ };

    ghost view = { λ marks. marks.order.items };

    ghost invariant = { λ marks. (o : ℕ) → is_some (place_of marks.seen o) ≡ is_in marks.order.items o };
}

impl Marks {
    /// None. Takes no memory.
    pub fn new(alloc: Global) -> Marks
        ensures { result ≡ [] }
    {
        Marks {
            order: Vec::new(alloc),
            seen: Index::new(alloc),
        }
    }

    /// How many they are.
    pub fn len(&self) -> usize
        ensures { result ≡ length self.now }
    {
        self.order.len()
    }

    /// The one with this number.
    pub fn get(&self, number: usize) -> Oid
        requires { number < length self.now }
        ensures { result ≡ get_or self.now number 0 }
    {
        self.order[number]
    }

    /// Whether the object is one of them.
    pub fn has(&self, oid: Oid) -> bool
        ensures { result ≡ is_in self.now oid }
    {
        self.seen.get(oid).is_some()
    }

    /// Adds an object that may be one of them. For want of memory they stay as they were.
    pub fn add(&mut self, oid: Oid) -> Result<(), Memory>
        ensures ok { OnOk result (self.new ≡ added oid self.old) }
        ensures err { OnErr result (self.new ≡ self.old) }
    {
        if self.has(oid) {
            return Ok(());
        }
        self.order.reserve(1)?;
        self.seen.reserve(&[oid])?;
        self.seen.put(oid, 1);
        match self.order.push(oid) {
            Ok(()) => Ok(()),
            Err(_) => unreachable!(),
        }
    }

    /// Adds objects, one after another. For want of memory some of them may be added.
    pub fn add_all(&mut self, oids: &[Oid]) -> Result<(), Memory>
        ensures { OnOk result (self.new ≡ all_added oids.now self.old) }
    {
        for oid in oids {
            self.add(*oid)?;
        }
        Ok(())
    }
}
