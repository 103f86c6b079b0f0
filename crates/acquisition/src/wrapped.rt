ghost use Rattle.std.specs.Prelude.{◌≡◌, ◌++◌, ◌∷◌, [], ℕ, List, IfOk, IfErr, OnOk};
ghost use Rattle.zbase.specs.Query.{run, Answers};
ghost use Rattle.zobject.specs.Shapes.{shape_of};
ghost use Rattle.zknown.specs.Seen.{shapes, objects};
ghost use Rattle.acquisition.specs.declared.refusal.AqRefusal.TheVariants as refusal;
ghost use Rattle.acquisition.specs.Acquiring as acquiring;
ghost use Rattle.acquisition.specs.Acquiring.{IsOnce};

use crate::join::{join, list_of};
use crate::limits::MOST_ON_PATH;
use crate::refusal::AqRefusal;
use std::alloc::Global;
use std::marker::Model;
use zbase::{Items, Memory, Oid, Oids};
use zknown::{Got, Known};
use zobject::Object;

/// An object, reached through others: the objects from left to right, each at its first place alone.
///
/// Zope Developer's Guide, "Acquisition".
#[derive(Debug, Drop)]
pub struct Wrapped {
    order: Oids,
}

impl Model for Wrapped {
    ghost use Rattle.std.specs.Prelude.{ℕ, List};
    ghost use Rattle.acquisition.specs.Acquiring.{IsOnce};

    ghost Value = { List ℕ };

    ghost view = { λ wrapped. wrapped.order };

    ghost invariant = { λ wrapped. IsOnce wrapped.order };
}

/// The object, where it is here. Takes no memory.
#[tactic(auto, unfolding(zknown::specs::Seen::last_added))]
pub fn here(known: &Known, oid: Oid) -> Result<&Object, AqRefusal>
    ensures shape { Answers acquiring.told (λ o. shape_of o.now) result (run (shapes known.now) (acquiring.here oid)) }
    ensures whole { Answers acquiring.told (λ o. o.now) result (run (objects known.now) (acquiring.here oid)) }
    ensures sure { IfErr result (λ e. e ≡ refusal.Memory → ⊥) }
{
    match known.get(oid) {
        Got::Here(object) => Ok(object),
        Got::Absent | Got::Unreadable => Err(AqRefusal::Broken(oid)),
        Got::Unknown => Err(AqRefusal::Need(oid)),
    }
}

/// The object and its containers, up to the root, each once.
#[tactic(auto, using(crate::proofs::Steps::goes_up), unfolding(crate::specs::Acquiring::containers, zobject::specs::Shapes::shape_of))]
pub fn containers(alloc: Global, known: &Known, oid: Oid) -> Result<Oids, AqRefusal>
    ensures { Answers acquiring.told (λ path. path) result (run (shapes known.now) (acquiring.containers oid)) }
{
    let mut path = Items::new(alloc);
    let mut at = oid;
    for _ in 0..MOST_ON_PATH {
        let object = here(known, at)?;
        path.push(at)?;
        if at == Oid(0) {
            return Ok(path);
        }
        at = object.parent;
    }
    Err(AqRefusal::TooDeep)
}

impl Wrapped {
    /// The root.
    pub fn root(alloc: Global) -> Result<Wrapped, Memory>
        ensures { IfOk result (λ wrapped. wrapped ≡ 0 ∷ []) }
    {
        let mut order = Items::new(alloc);
        order.push(Oid(0))?;
        Ok(Wrapped { order })
    }

    /// The object itself. Takes no memory.
    pub fn oid(&self) -> Oid
        ensures { result ≡ acquiring.first self.now }
    {
        match self.order.as_slice() {
            [oid, ..] => *oid,
            [] => Oid(0),
        }
    }

    /// The objects, from left to right. Takes no memory.
    pub fn order(&self) -> &[Oid]
        ensures { result.now ≡ self.now }
    {
        self.order.as_slice()
    }

    /// The same wrapper once more.
    pub fn copy(&self) -> Result<Wrapped, Memory>
        ensures { IfOk result (λ wrapped. wrapped ≡ self.now) }
    {
        let order = list_of(self.order.alloc(), self.order.as_slice())?;
        Ok(Wrapped { order })
    }

    /// An object, reached through this one.
    #[tactic(auto, using(crate::proofs::Steps::goes, crate::proofs::Steps::passes), unfolding(crate::specs::Acquiring::reached))]
    pub fn reach(&self, known: &Known, oid: Oid) -> Result<Wrapped, AqRefusal>
        ensures { Answers acquiring.told (λ wrapped. wrapped) result (run (shapes known.now) (acquiring.reached self.now oid)) }
    {
        let alloc = self.order.alloc();
        let path = containers(alloc, known, oid)?;
        let order = join(alloc, path, self.order.as_slice())?;
        Ok(Wrapped { order })
    }

    #[tactic(auto, using(crate::specs::HereLaws::here_added), unfolding(crate::specs::Acquiring::searched, zobject::specs::Shapes::shape_of))]
    fn search(&self, known: &Known, name: &str) -> Result<Option<Oid>, AqRefusal>
        ensures { Answers acquiring.told (λ child. child) result (run (shapes known.now) (acquiring.searched self.now name.now)) }
    {
        for oid in self.order.as_slice() {
            let object = here(known, *oid)?;
            if let Some(child) = known.child(*oid, object, name) {
                return Ok(Some(child));
            }
        }
        Ok(None)
    }

    #[tactic(auto, using(crate::proofs::Steps::goes, crate::proofs::Steps::passes))]
    fn reach_if(&self, known: &Known, child: Option<Oid>) -> Result<Option<Wrapped>, AqRefusal>
        ensures { Answers acquiring.told (λ wrapped. wrapped) result (run (shapes known.now) (acquiring.reached_if self.now child)) }
    {
        let Some(child) = child else {
            return Ok(None);
        };
        let wrapped = self.reach(known, child)?;
        Ok(Some(wrapped))
    }

    /// The child of that name of the first object that has one, reached through this one; none exactly where no object
    /// has one.
    #[tactic(auto, using(crate::proofs::Steps::goes_so, crate::proofs::Steps::passes), unfolding(crate::specs::Acquiring::found))]
    pub fn find(&self, known: &Known, name: &str) -> Result<Option<Wrapped>, AqRefusal>
        ensures { Answers acquiring.told (λ wrapped. wrapped) result (run (shapes known.now) (acquiring.found self.now name.now)) }
    {
        let child = self.search(known, name)?;
        self.reach_if(known, child)
    }
}
