ghost use Rattle.std.specs.Prelude.{◌≡◌, ◌==◌, ℕ, Some, None, if◌then◌else◌, OnOk, OnErr};
ghost use Rattle.zobject.specs.Shapes.{child_in as child_in_form, form_of};
ghost use Rattle.zknown.specs.declared.kept.Kept.TheVariants as kept;
ghost use Rattle.zknown.specs.Seen as seen;

use crate::entry::{Entry, FEW};
use crate::kept::{Got, Kept};
use std::alloc::Global;
use std::collections::BTreeMap;
use std::marker::Model;
use zbase::{Memory, Oid};
use zobject::{CodecRefusal, Object, Part2, child_in};

/// What is known of the objects of one request. It is kept from one evaluation to the next, so that each object is
/// read once. A child of a folder with many children is found without a search among all of them.
#[derive(Drop)]
pub struct Known {
    alloc: Global,
    kept: BTreeMap<u64, Entry>,
}

impl Model for Known {
    ghost use Rattle.std.specs.Prelude.{ℕ, List};
    ghost use Rattle.zknown.specs.declared.kept.Kept.{Kept};

    ghost Value = { List (ℕ × Kept) };

    ghost view = { λ known. known.kept.entries };
}

impl Known {
    /// Nothing is known. Takes no memory.
    #[tactic(auto, unfolding(crate::specs::Seen::last_added))]
    pub fn new(alloc: Global) -> Known
        ensures { (o : ℕ) → seen.last_added result o ≡ None }
    {
        Known {
            alloc,
            kept: BTreeMap::new(alloc),
        }
    }

    /// Adds what an object's fact came to: none where it has no value, or how its bytes were read. It comes in the
    /// stead of what was added before. For want of memory, also in reading, all stays as it was: an object that couldn't
    /// be read for it is never taken for one whose bytes are no record.
    pub fn add(
        &mut self,
        oid: Oid,
        object: Option<Result<Object, CodecRefusal>>,
    ) -> Result<(), Memory>
        ensures added { OnOk result (seen.Added oid object self.old self.new) }
        ensures stays { OnErr result ((o : ℕ) → seen.last_added self.new o ≡ seen.last_added self.old o) }
    {
        match object {
            None => self.put(oid, Kept::Absent),
            Some(Ok(object)) => self.put(oid, Kept::Here(object)),
            Some(Err(CodecRefusal::BadRecord(_))) => self.put(oid, Kept::Unreadable),
            Some(Err(CodecRefusal::Memory)) => Err(Memory),
        }
    }

    #[tactic(auto, unfolding(crate::specs::Seen::last_added))]
    fn put(&mut self, oid: Oid, kept: Kept) -> Result<(), Memory>
        ensures added { OnOk result ((o : ℕ) → seen.last_added self.new o ≡ (if oid == o then Some kept else seen.last_added self.old o)) }
        ensures stays { OnErr result ((o : ℕ) → seen.last_added self.new o ≡ seen.last_added self.old o) }
    {
        match self.kept.insert(oid.0, Entry::new(self.alloc, kept)) {
            Ok(_) => Ok(()),
            Err(_) => Err(Memory),
        }
    }

    /// What was last added of the object; unknown exactly where nothing was. Takes no memory.
    #[tactic(auto, unfolding(crate::specs::Seen::last_added))]
    pub fn get(&self, oid: Oid) -> Got<'_>
        ensures { seen.Gives (seen.last_added self.now oid) result }
    {
        let Some(entry) = self.kept.get(&oid.0) else {
            return Got::Unknown;
        };
        match entry.kept() {
            Kept::Here(object) => Got::Here(object),
            Kept::Absent => Got::Absent,
            Kept::Unreadable => Got::Unreadable,
        }
    }

    /// The id of the child of that name, where the object, which was last added under its id, is a folder that lists one.
    /// Takes no memory.
    #[tactic(auto, unfolding(crate::specs::Seen::last_added))]
    pub fn child(&self, oid: Oid, object: &Object, name: &str) -> Option<Oid>
        requires { seen.last_added self.now oid ≡ Some (kept.Here object.now) }
        ensures { result ≡ child_in_form name.now (form_of object.now.part) }
    {
        match &object.part {
            Part2::Folder(children) if children.len() > FEW => match self.kept.get(&oid.0) {
                Some(entry) => entry.child(name),
                None => None,
            },
            part => child_in(name, part),
        }
    }
}
