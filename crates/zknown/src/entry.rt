ghost use Rattle.std.specs.Prelude.{◌≡◌};
ghost use Rattle.zobject.specs.declared.object.Object.{Object as ObjectValue};
ghost use Rattle.zobject.specs.Shapes.{child_in as child_in_form, form_of};
ghost use Rattle.zknown.specs.declared.kept.Kept.TheVariants as kept;
ghost use Rattle.zknown.specs.Spots.{AreSpotsOf};

use crate::kept::Kept;
use crate::spots::{child_by, spots_of};
use std::alloc::Global;
use std::marker::Model;
use zbase::Oid;
use zobject::{Part2, child_in};

/// Among so many children one is looked for from the first on.
pub(crate) const FEW: usize = 32;

// So many children's places fit into 31 bits.
const MOST: usize = 0x7fff_ffff;

/// What is kept of an object's fact. Of a folder with many children it is kept too where they stand by a number of their
/// names, where there is memory for it.
#[derive(Drop)]
pub(crate) struct Entry {
    kept: Kept,
    spots: Vec<u32>,
}

impl Model for Entry {
    ghost use Rattle.zknown.specs.declared.kept.Kept.{Kept};
    ghost use Rattle.zknown.specs.Spots.{AreSpotsOf};

    ghost Value = { Kept };

    ghost view = { λ e. e.kept };

    ghost invariant = { λ e. AreSpotsOf e.kept e.spots.items };
}

// Where the children of a folder stand, if it has many.
fn spots_in(alloc: Global, kept: &Kept) -> Vec<u32>
    ensures { AreSpotsOf kept.now result.items }
{
    if let Kept::Here(object) = kept
        && let Part2::Folder(children) = &object.part
        && children.len() > FEW
        && children.len() < MOST
        && let Ok(spots) = spots_of(alloc, children.as_slice())
    {
        return spots;
    }
    Vec::new(alloc)
}

impl Entry {
    /// What is kept. For want of memory alone nothing more is kept with it.
    pub(crate) fn new(alloc: Global, kept: Kept) -> Entry
        ensures { result ≡ kept }
    {
        let spots = spots_in(alloc, &kept);
        Entry { kept, spots }
    }

    /// What is kept. Takes no memory.
    pub(crate) fn kept(&self) -> &Kept
        ensures { result.now ≡ self.now }
    {
        &self.kept
    }

    /// The id of the child of that name, where the object is a folder that lists one. Takes no memory.
    pub(crate) fn child(&self, name: &str) -> Option<Oid>
        ensures { (object : ObjectValue) → self.now ≡ kept.Here object → result ≡ child_in_form name.now (form_of object.part) }
    {
        let Kept::Here(object) = &self.kept else {
            return None;
        };
        match &object.part {
            Part2::Folder(children) if !self.spots.is_empty() => {
                child_by(self.spots.as_slice(), children.as_slice(), name.as_bytes())
            }
            part => child_in(name, part),
        }
    }
}
