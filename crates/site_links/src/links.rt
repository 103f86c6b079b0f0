ghost use Rattle.std.specs.Prelude.{◌≡◌, Some, None, IfOk};
ghost use Rattle.zobject.specs.declared.object.Object.{Object as AnObject};
ghost use Rattle.zcodec.specs.Record.{Spells};
ghost use Rattle.site_links.specs.Linked.{children_in, linked, links_of};

use packing::Links;
use std::alloc::Global;
use zbase::{Memory, Oids};
use zcodec::decode;
use zobject::{Child, CodecRefusal, Object, Part2};

// What a folder holds; nothing where the object is no folder.
fn children_in(part: &Part2) -> &[Child]
    ensures { result.now ≡ children_in part.now }
{
    match part {
        Part2::Folder(children) => children.as_slice(),
        Part2::Method { .. } | Part2::Document { .. } | Part2::UserFolder(_) => &[],
    }
}

// To which objects an object leads.
fn links_of(alloc: Global, object: &Object) -> Result<Oids, Memory>
    ensures { IfOk result (λ oids. oids ≡ links_of object.now) }
{
    let children = children_in(&object.part);
    let mut oids = Vec::with_capacity(alloc, children.len().saturating_add(1))?;
    oids.push(object.parent)?;
    for child in children {
        oids.push(child.oid)?;
    }
    Ok(Oids::from_vec(oids))
}

/// The links of a site's objects: an object leads to the folder that holds it and, where it is one, to its children.
#[derive(Debug, Drop)]
pub struct SiteLinks {
    alloc: Global,
}

impl SiteLinks {
    /// Takes no memory.
    pub fn new(alloc: Global) -> SiteLinks {
        SiteLinks { alloc }
    }

    /// The parent and then the children, in the folder's order, of the object whose record the bytes are, in either
    /// version; none exactly where they are no object's record.
    ///
    /// The one error is want of memory.
    pub fn links_in(&self, bytes: &[u8]) -> Result<Option<Oids>, Memory>
        ensures linked { IfOk result (λ found. found ≡ linked bytes.now) }
        ensures spelled { (o : AnObject) → Spells o bytes.now → IfOk result (λ found. found ≡ Some (links_of o)) }
        ensures none { IfOk result (λ found. found ≡ None → (o : AnObject) → Spells o bytes.now → ⊥) }
    {
        match decode(self.alloc, bytes) {
            Ok(object) => Ok(Some(links_of(self.alloc, &object)?)),
            Err(CodecRefusal::BadRecord(_)) => Ok(None),
            Err(CodecRefusal::Memory) => Err(Memory),
        }
    }
}

impl Links for SiteLinks {
    ghost linked = { linked };

    fn links(&self, bytes: &[u8]) -> Result<Option<Oids>, Memory>
        ensures { IfOk result (λ found. found ≡ linked bytes.now) }
    {
        self.links_in(bytes)
    }
}
