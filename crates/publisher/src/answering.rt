ghost use Rattle.std.specs.Prelude.{◌≡◌};
ghost use Rattle.zbase.specs.Query.{Answers};
ghost use Rattle.zknown.specs.Seen.{objects};
ghost use Rattle.acquisition.specs.Acquiring.{first};
ghost use Rattle.manage.specs.Calls.{call_named};
ghost use Rattle.manage.specs.Changing.{KeepRules};
ghost use Rattle.traverse.specs.declared.target.TravRefusal.TheVariants as paths;
ghost use Rattle.publisher.specs.declared.refusal.SiteRefusal.TheVariants as refusals;
ghost use Rattle.publisher.specs.Faults.{told, comes_to};
ghost use Rattle.publisher.specs.Site as spec;
ghost use Rattle.publisher.specs.Underway.{IsRead, IsStage, Meets};

use crate::answer::Answer;
use crate::asking::target;
use crate::calling::{SentCall, call_on};
use crate::page::{begin, go_on};
use crate::reading::{Read, read_request};
use crate::refusal::SiteRefusal;
use crate::stage::{Met, Stage};
use acquisition::Wrapped;
use dtml_render::Templates;
use http_in::Request;
use manage::{Call, call_named};
use std::alloc::Global;
use std::mem;
use traverse::{Target, TravRefusal};
use zbase::Text;
use zknown::Known;

fn not_found(name: Text) -> SiteRefusal
    ensures { result ≡ refusals.Path (paths.NotFound name) }
{
    SiteRefusal::Path(TravRefusal::NotFound(name))
}

fn call_of(name: &Text) -> Option<Call>
    ensures { result ≡ call_named name.now }
{
    call_named(name.as_str())
}

fn called(
    alloc: Global,
    request: &Request,
    read: &Read,
    name: Text,
    on: &Wrapped,
    known: &Known,
) -> Result<Answer, SiteRefusal>
    requires lawful { KeepRules (objects known.now) }
    ensures { Answers told (λ a. a) result (comes_to known.now (spec.called request.now read.now.fields read.now.credentials
        name (first on.now) (call_named name))) }
{
    let Some(call) = call_of(&name) else {
        return Err(not_found(name));
    };
    let sent = SentCall {
        request,
        read,
        call,
        on,
    };
    call_on(alloc, &sent, known)
}

fn answered(
    templates: &mut Templates,
    request: &Request,
    read: &Read,
    target: Target,
    known: &Known,
) -> Result<Met, SiteRefusal>
    requires lawful { KeepRules (objects known.now) }
    ensures { Meets known.now result (spec.answered request.now read.now.fields read.now.credentials target) }
{
    match target {
        Target::Page { object, client } => {
            let underway = begin(templates, request, read, object.oid(), client, known)?;
            Ok(Met::Begun(underway))
        }
        Target::Call { name, on } => {
            let answer = called(templates.alloc(), request, read, name, &on, known)?;
            Ok(Met::Answered(answer))
        }
    }
}

// What a message meets behind what was read of it.
#[tactic(auto, using(crate::proofs::Stages::goes_meets, crate::proofs::Steps::passes), unfolding(crate::specs::Site::with_credentials))]
fn behind(
    templates: &mut Templates,
    request: &Request,
    read: &Read,
    known: &Known,
) -> Result<Met, SiteRefusal>
    requires lawful { KeepRules (objects known.now) }
    ensures { Meets known.now result (spec.with_credentials request.now read.now.fields read.now.credentials) }
{
    let target = target(templates.alloc(), known, request)?;
    answered(templates, request, read, target, known)
}

// What a message comes to behind what was read of it, which is kept until its page begins.
fn with_read(
    templates: &mut Templates,
    request: &Request,
    read: Read,
    known: &Known,
    stage: &mut Stage,
) -> Result<Answer, SiteRefusal>
    requires lawful { KeepRules (objects known.now) }
    requires read { IsRead read request.now }
    requires stage { IsStage (objects known.now) stage.old request.now }
    ensures answers { Answers told (λ a. a) result (comes_to known.now (spec.request request.now)) }
    ensures stage { IsStage (objects known.now) stage.new request.now }
{
    match behind(templates, request, &read, known) {
        Ok(Met::Answered(answer)) => Ok(answer),
        Ok(Met::Begun(underway)) => go_on(templates, underway, known, stage),
        Err(refusal) => {
            *stage = Stage::Read(read);
            Err(refusal)
        }
    }
}

/// What a whole message comes to, from the stage on to which its answer came.
pub(crate) fn answer(
    templates: &mut Templates,
    request: &Request,
    known: &Known,
    stage: &mut Stage,
) -> Result<Answer, SiteRefusal>
    requires lawful { KeepRules (objects known.now) }
    requires stage { IsStage (objects known.now) stage.old request.now }
    ensures answers { Answers told (λ a. a) result (comes_to known.now (spec.request request.now)) }
    ensures stage { IsStage (objects known.now) stage.new request.now }
{
    match mem::replace(stage, Stage::Fresh) {
        Stage::Fresh => {
            let read = read_request(templates.alloc(), request)?;
            with_read(templates, request, read, known, stage)
        }
        Stage::Read(read) => with_read(templates, request, read, known, stage),
        Stage::Page(underway) => go_on(templates, underway, known, stage),
    }
}
