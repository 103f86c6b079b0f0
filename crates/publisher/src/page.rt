ghost use Rattle.std.specs.Prelude.{◌≡◌, [], IfOk};
ghost use Rattle.zbase.specs.Query.{Answers};
ghost use Rattle.zobject.specs.Shapes.{shape_of};
ghost use Rattle.zknown.specs.Seen.{objects};
ghost use Rattle.permissions.specs.Verdicts.{proxy_user};
ghost use Rattle.dtml_values.specs.Told as values;
ghost use Rattle.dtml_values.specs.Told.{left_of};
ghost use Rattle.namespace.specs.Looks.{looked};
ghost use Rattle.namespace.specs.Names as names;
ghost use Rattle.namespace.specs.Requests as requests;
ghost use Rattle.namespace.specs.Told.{Shows};
ghost use Rattle.form_fields.specs.Cookies.{cookies_of};
ghost use Rattle.http_in.specs.declared.message.Request.{Request as RequestValue};
ghost use Rattle.dtml_render.specs.Frames.{IsStanding};
ghost use Rattle.publisher.specs.Faults.{told, comes_to};
ghost use Rattle.publisher.specs.Pages as pages;
ghost use Rattle.publisher.specs.Site as spec;
ghost use Rattle.publisher.specs.Underway.{Begins, IsStage, IsUnderway, PageBegins, is_need, place, rest_answer};

use crate::answer::Answer;
use crate::asking::user;
use crate::reading::Read;
use crate::refusal::SiteRefusal;
use crate::replies::page_reply;
use crate::stage::{Stage, Underway};
use acquisition::Wrapped;
use dtml_render::{Budget, Page, RenderRefusal, Source, Templates, source_of};
use evaluator::permission::VIEW;
use form_fields::{Fields, cookies};
use http_in::Request;
use namespace::{Names, Stack, request_names};
use permissions::{Who, acting};
use std::alloc::Global;
use zbase::{Memory, Oid, Text};
use zknown::Known;
use zobject::Object;

/// How many tags a page may evaluate.
const MOST_TAGS: u32 = 10_000;

/// How many renderings may stand inside that of the published object.
const MOST_INSIDE: u32 = 31;

/// How many bytes of text a page may make.
const MOST_OUTPUT: u32 = 1_048_576;

// What is left to a page that has begun.
fn whole_budget() -> Budget
    ensures renders { result.renders ≡ 31 }
    ensures left { left_of result ≡ pages.whole_budget }
{
    Budget {
        tags: MOST_TAGS,
        renders: MOST_INSIDE,
        output: MOST_OUTPUT,
    }
}

// The page of the published object's source begins.
fn source_page(
    templates: &mut Templates,
    oid: Oid,
    object: &Object,
    stack: &mut Stack<'_>,
) -> Result<Page<'static>, RenderRefusal>
    ensures begins { PageBegins stack.old stack.new result (pages.source_page stack.old.scope oid object.now) }
    ensures known { stack.new.known ≡ stack.old.known }
{
    let alloc = templates.alloc();
    let acting = acting(alloc, object)?;
    let _former = stack.act(acting);
    let tree = templates.read(oid, source_of(&object.part))?;
    let page = Page::new(alloc, Source::Read(tree), stack, whole_budget())?;
    Ok(page)
}

// The object, which its user must be granted to view.
#[tactic(auto, using(dtml_values::specs::StepLaws::named_told))]
fn open<'k>(oid: Oid, stack: &mut Stack<'k>) -> Result<&'k Object, RenderRefusal>
    ensures is { Shows values.told (λ o. o.now) stack.new.shown result
        (looked (objects stack.old.known) stack.old.shown (names.viewing (names.whose stack.old.scope) oid)) }
    ensures known { stack.new.known ≡ stack.old.known }
    ensures scope { stack.new.scope ≡ stack.old.scope }
{
    let object = stack.open(oid)?;
    Ok(object)
}

// The page of an object begins.
fn scope_page(
    templates: &mut Templates,
    oid: Oid,
    stack: &mut Stack<'_>,
) -> Result<Page<'static>, RenderRefusal>
    ensures begins { PageBegins stack.old stack.new result (pages.scope_page stack.old.scope oid) }
    ensures known { stack.new.known ≡ stack.old.known }
{
    let object = open(oid, stack)?;
    source_page(templates, oid, object, stack)
}

// The page of an object begins in the scope of a stack on which nothing was shown.
fn begin_in(templates: &mut Templates, oid: Oid, stack: Stack<'_>) -> Result<Underway, SiteRefusal>
    requires none_shown { stack.shown ≡ [] }
    ensures { Begins stack.entry.known result (spec.scope_answer stack.entry.scope oid) }
{
    let mut stack = stack;
    let page = scope_page(templates, oid, &mut stack)?;
    Ok(Underway {
        page,
        resting: stack.rest(),
    })
}

// The names of a request by a user.
fn page_names(
    alloc: Global,
    request: &Request,
    fields: &Fields,
    user: &Who,
) -> Result<Names, Memory>
    ensures { IfOk result (λ names. names ≡ requests.request_names request.now user.now fields.now (cookies_of request.now)) }
{
    let cookies = cookies(alloc, request)?;
    request_names(alloc, request, user, fields, &cookies)
}

// The page of an object begins for a user.
fn begin_for(
    templates: &mut Templates,
    request: &Request,
    fields: &Fields,
    oid: Oid,
    client: Wrapped,
    known: &Known,
    user: Who,
) -> Result<Underway, SiteRefusal>
    ensures { Begins known.now result (spec.page_for request.now fields.now oid client user) }
{
    let alloc = templates.alloc();
    let names = page_names(alloc, request, fields, &user)?;
    let stack = Stack::new(alloc, known, user, client, names);
    begin_in(templates, oid, stack)
}

/// The page of a published object begins.
#[tactic(auto, using(crate::proofs::Stages::goes_begins, crate::proofs::Steps::passes), unfolding(crate::specs::Site::page))]
pub(crate) fn begin(
    templates: &mut Templates,
    request: &Request,
    read: &Read,
    oid: Oid,
    client: Wrapped,
    known: &Known,
) -> Result<Underway, SiteRefusal>
    ensures { Begins known.now result (spec.page request.now read.now.fields read.now.credentials oid client) }
{
    let user = user(templates.alloc(), known, read, oid, VIEW)?;
    begin_for(templates, request, &read.fields, oid, client, known, user)
}

// Whether a page is refused for want of an object that isn't known.
fn is_need(refusal: &RenderRefusal) -> bool
    ensures { result ≡ is_need refusal.now }
{
    match refusal {
        RenderRefusal::Need(_) => true,
        _ => false,
    }
}

/// The page goes on over what is known. Where it wants an object that isn't known, it is kept.
pub(crate) fn go_on(
    templates: &mut Templates,
    underway: Underway,
    known: &Known,
    stage: &mut Stage,
) -> Result<Answer, SiteRefusal>
    requires stands { IsStanding (place underway) }
    ensures answers { Answers told (λ a. a) result (comes_to known.now (rest_answer underway)) }
    ensures stage { (q : RequestValue) → IsStage (objects known.now) stage.old q → IsUnderway (objects known.now) underway (spec.request q)
        → IsStage (objects known.now) stage.new q }
{
    let mut page = underway.page;
    let mut stack = underway.resting.on(known);
    match page.go_on(templates, &mut stack) {
        Ok(text) => Ok(Answer::Page(page_reply(text, stack.into_shown()))),
        Err(refusal) => {
            if is_need(&refusal) {
                let resting = stack.rest();
                *stage = Stage::Page(Underway { page, resting });
            }
            Err(SiteRefusal::Page(refusal))
        }
    }
}
