ghost use Rattle.std.specs.Prelude.{◌≡◌, ℕ, List, Ok, Option, IfErr, IfOk, IfSome};
ghost use Rattle.zbase.specs.Query.{Told};
ghost use Rattle.evaluator.specs.declared.reply.Shown.{Shown};
ghost use Rattle.zobject.specs.declared.object.Object.{Object};
ghost use Rattle.zknown.specs.Seen.{Seen};
ghost use Rattle.dtml_parse.specs.Views.{view};
ghost use Rattle.dtml_parse.specs.TreeReading.{template};
ghost use Rattle.namespace.specs.Looks.{looked};
ghost use Rattle.namespace.specs.Names.{Scope};
ghost use Rattle.dtml_values.specs.Values.{Left};
ghost use Rattle.dtml_values.specs.Told.{told};
ghost use Rattle.dtml_render.specs.Rendering as rendering;

use crate::reading::read_source;
use dtml_parse::Tree;
use dtml_values::RenderRefusal;
use lru::LruCache;
use std::alloc::Global;
use std::marker::Model;
use std::num::NonZeroUsize;
use std::rc::Rc;
use zbase::{Memory, Oid, Text};

/// How many templates are kept.
const MOST_KEPT: usize = 64;

/// A source, and the template that it is.
#[derive(Drop)]
struct Template {
    source: Text,
    tree: Rc<Tree>,
}

// Contracts see the source; the template is its by the invariant.
impl Model for Template {
    ghost use Rattle.std.specs.Prelude.{◌≡◌, ℕ, List, Ok};
    ghost use Rattle.dtml_parse.specs.TreeReading.{template};
    ghost use Rattle.dtml_parse.specs.Views.{view as tree_view};

    ghost Value = { List ℕ };

    ghost view = { λ t. t.source };

    ghost invariant = { λ t. template t.source ≡ Ok (tree_view t.tree.value) };
}

/// The templates that were used last, each by the object whose source it is.
///
/// A template is used where the object's source is still the one that it was read of, so that a page is what it would be
/// without it.
#[derive(Drop)]
pub struct Templates {
    alloc: Global,
    kept: Option<LruCache<u64, Template>>,
}

fn shared(alloc: Global, tree: Tree) -> Result<Rc<Tree>, Memory>
    ensures { IfOk result (λ shared. shared.value ≡ tree) }
{
    Ok(Rc::new(alloc, tree)?)
}

// The template of a source, where it is that one's.
fn tree_of(kept: &Template, source: &str) -> Result<Option<Rc<Tree>>, Memory>
    ensures { IfOk result (λ found. IfSome found (λ tree. template source.now ≡ Ok (view tree.value))) }
{
    if kept.source.as_str() != source {
        return Ok(None);
    }
    Ok(Some(kept.tree.clone()?))
}

// What is kept for an object.
fn kept_for(
    kept: &mut LruCache<u64, Template>,
    oid: Oid,
    source: &str,
) -> Result<Option<Rc<Tree>>, Memory>
    ensures { IfOk result (λ found. IfSome found (λ tree. template source.now ≡ Ok (view tree.value))) }
{
    match kept.get(&oid.0) {
        Some(kept) => tree_of(kept, source),
        None => Ok(None),
    }
}

impl Templates {
    /// None is kept yet. Takes no memory.
    pub fn new(alloc: Global) -> Templates {
        Templates { alloc, kept: None }
    }

    /// The allocator. Takes no memory.
    pub fn alloc(&self) -> Global {
        self.alloc
    }

    fn found(&mut self, oid: Oid, source: &str) -> Result<Option<Rc<Tree>>, Memory>
        ensures { IfOk result (λ found. IfSome found (λ tree. template source.now ≡ Ok (view tree.value))) }
    {
        match &mut self.kept {
            Some(kept) => kept_for(kept, oid, source),
            None => Ok(None),
        }
    }

    // Keeps a template. Where memory runs out, it isn't kept.
    fn keep(&mut self, oid: Oid, source: &str, tree: &Rc<Tree>) -> Result<(), Memory>
        requires { template source.now ≡ Ok (view tree.now.value) }
    {
        let template = Template {
            source: Text::from_str(self.alloc, source)?,
            tree: tree.clone()?,
        };
        if self.kept.is_none() {
            let most = NonZeroUsize::new(MOST_KEPT).unwrap_or(NonZeroUsize::MIN);
            self.kept = Some(LruCache::new(self.alloc, most)?);
        }
        if let Some(kept) = &mut self.kept {
            let _ = kept.put(oid.0, template);
        }
        Ok(())
    }

    /// The template that an object's source is, or why a page with it has no text.
    pub fn read(&mut self, oid: Oid, source: &str) -> Result<Rc<Tree>, RenderRefusal>
        ensures read { IfOk result (λ tree. template source.now ≡ Ok (view tree.value)) }
        ensures refused { IfErr result (λ e. (k : ℕ → Option (Seen Object)) (shown : List Shown) (renders : ℕ) (scope : Scope) (left : Left)
            → Told (told e) (looked k shown (rendering.source_text renders scope oid source.now left))) }
    {
        if let Some(tree) = self.found(oid, source)? {
            return Ok(tree);
        }
        let read = read_source(self.alloc, oid, source)?;
        let tree = shared(self.alloc, read)?;
        let _ = self.keep(oid, source, &tree);
        Ok(tree)
    }
}
