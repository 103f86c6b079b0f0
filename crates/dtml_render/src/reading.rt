ghost use Rattle.std.specs.Prelude.{◌≡◌, ℕ, List, Option, Ok, IfErr, IfOk};
ghost use Rattle.zbase.specs.Query.{Told};
ghost use Rattle.evaluator.specs.declared.reply.Shown.{Shown};
ghost use Rattle.zobject.specs.declared.object.Object.{Object};
ghost use Rattle.zknown.specs.Seen.{Seen};
ghost use Rattle.dtml_parse.specs.Views.{view};
ghost use Rattle.dtml_parse.specs.TreeReading.{template};
ghost use Rattle.namespace.specs.Looks.{looked};
ghost use Rattle.namespace.specs.Names.{Scope};
ghost use Rattle.dtml_values.specs.Values.{Left};
ghost use Rattle.dtml_values.specs.Told.{told};
ghost use Rattle.dtml_render.specs.Rendering as rendering;

use dtml_lex::DtmlRefusal;
use dtml_parse::{Tree, parse, template_reader_agrees};
use dtml_values::RenderRefusal;
use std::alloc::Global;
use zbase::Oid;
use zobject::Part2;

/// The source of a method or a document; of any other object there is none.
pub fn source_of(part: &Part2) -> &str
    ensures { result.now ≡ rendering.source_of part.now }
{
    match part {
        Part2::Method { source, .. } | Part2::Document { source, .. } => source.as_str(),
        Part2::Folder(_) | Part2::UserFolder(_) => "",
    }
}

/// The template that an object's source is, or why a page with it has no text.
#[tactic(auto, using(crate::proofs::Steps::refused_so))]
pub(crate) fn read_source(alloc: Global, oid: Oid, source: &str) -> Result<Tree, RenderRefusal>
    ensures read { IfOk result (λ tree. template source.now ≡ Ok (view tree)) }
    ensures refused { IfErr result (λ e. (k : ℕ → Option (Seen Object)) (shown : List Shown) (renders : ℕ) (scope : Scope) (left : Left)
        → Told (told e) (looked k shown (rendering.source_text renders scope oid source.now left))) }
{
    template_reader_agrees();
    match parse(alloc, source) {
        Ok(tree) => Ok(tree),
        Err(DtmlRefusal::Memory) => Err(RenderRefusal::Memory),
        Err(refusal) => Err(RenderRefusal::BadSource(oid, refusal)),
    }
}
