ghost use Rattle.std.specs.Prelude.{◌≡◌, ◌++◌, ◌∷◌, ℕ, [], take, true, false, nat_eq, OnOk, OnErr};
ghost use Rattle.std.specs.BTreeSet.{contains};
ghost use Rattle.std.specs.List.{list_any};
ghost use Rattle.std.specs.Ordering.{nat_cmp};
ghost use Rattle.evaluator.specs.declared.reply.Shown.{Shown as ShownObject};
ghost use Rattle.permissions.specs.declared.who.Who.{Who as User};
ghost use Rattle.namespace.specs.Looks as looks;
ghost use Rattle.namespace.specs.Once.{AreOnce};
ghost use Rattle.namespace.specs.Told.{OnlyAnswers};

use evaluator::{Shown, ShownList};
use permissions::GrantedRole;
use std::alloc::Global;
use std::collections::BTreeSet;
use std::marker::Model;
use std::mem;
use zbase::{Memory, Oid};

/// The objects that a page shows, each once, in the order of their first uses. A set tells whether one is among them, so
/// that a page of many objects doesn't look through all of them at each use.
#[derive(Debug, Drop)]
pub(crate) struct Showing {
    list: ShownList,
    oids: BTreeSet<u64>,
}

impl Model for Showing {
    ghost use Rattle.std.specs.Prelude.{◌≡◌, ℕ, List, [], nat_eq};
    ghost use Rattle.std.specs.List.{list_any};
    ghost use Rattle.std.specs.Ordering.{nat_cmp};
    ghost use Rattle.std.specs.BTreeSet.{contains};
    ghost use Rattle.evaluator.specs.declared.reply.Shown.{Shown as ShownObject};
    ghost use Rattle.namespace.specs.Once.{AreOnce};

    ghost Value = { List ShownObject };

    ghost view = { λ s. s.list };

    ghost invariant = { λ s. ((o : ℕ) → contains nat_cmp s.oids o ≡ list_any (λ (x : ShownObject). nat_eq x.oid o) s.list)
        × AreOnce [] s.list };
}

// Adds an object to a list.
fn push_shown(
    alloc: Global,
    list: &mut ShownList,
    oid: Oid,
    role: GrantedRole,
) -> Result<(), Memory>
    ensures added { OnOk result (list.new ≡ list.old ++ record { oid = oid; role = role } ∷ []) }
    ensures kept { OnErr result (list.new ≡ list.old) }
{
    let role = role.into_text(alloc)?;
    list.push(Shown { oid, role })
}

// Takes away the last objects, so that so many are left, and their ids.
fn cut_back(list: &mut Vec<Shown>, oids: &mut BTreeSet<u64>, count: usize)
    requires are { (o : ℕ) → contains nat_cmp oids.old o ≡ list_any (λ (x : ShownObject). nat_eq x.oid o) list.old.items }
    requires once { AreOnce [] list.old.items }
    ensures list { list.new.items ≡ take count list.old.items }
    ensures are { (o : ℕ) → contains nat_cmp oids.new o ≡ list_any (λ (x : ShownObject). nat_eq x.oid o) list.new.items }
    ensures once { AreOnce [] list.new.items }
{
    'list: while list.len() > count {
        if let Some(last) = list.pop() {
            oids.remove(&last.oid.0);
        }
    }
}

impl Showing {
    /// Nothing was shown. Takes no memory.
    pub(crate) fn new(alloc: Global) -> Showing
        ensures { result ≡ [] }
    {
        Showing {
            list: ShownList::new(alloc),
            oids: BTreeSet::new(alloc),
        }
    }

    /// The objects. Takes no memory.
    pub(crate) fn list(&self) -> &ShownList
        ensures { result.now ≡ self.now }
    {
        &self.list
    }

    /// The objects, handed out. Takes no memory.
    pub(crate) fn into_list(self) -> ShownList
        ensures { result ≡ self }
    {
        self.list
    }

    // Whether the object is the one that was shown last: it is mostly the one whose next name is asked for.
    fn is_newest(&self, oid: Oid) -> bool
        ensures { result ≡ true → list_any (λ (s : ShownObject). nat_eq s.oid oid) self.now ≡ true }
    {
        match self.list.as_slice().split_last() {
            Some((newest, _)) => newest.oid == oid,
            None => false,
        }
    }

    /// An object is shown by a role; its first use counts. For want of memory all stays as it was.
    pub(crate) fn take(&mut self, alloc: Global, oid: Oid, role: GrantedRole) -> Result<(), Memory>
        ensures taken { OnOk result ((who : User) → self.new ≡ looks.taken who oid role self.old) }
        ensures shown { OnlyAnswers self.old self.new result }
    {
        if self.is_newest(oid) || !self.oids.insert(oid.0)? {
            return Ok(());
        }
        let added = push_shown(alloc, &mut self.list, oid, role);
        if added.is_err() {
            self.oids.remove(&oid.0);
        }
        added
    }

    /// Forgets all objects but the first ones, so many. Takes no memory.
    pub(crate) fn forget(&mut self, count: usize)
        ensures { self.new ≡ take count self.old }
    {
        let empty = ShownList::new(self.list.alloc());
        let mut list = mem::replace(&mut self.list, empty).into_vec();
        cut_back(&mut list, &mut self.oids, count);
        self.list = ShownList::from_vec(list);
    }
}
