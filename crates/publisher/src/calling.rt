ghost use Rattle.std.specs.Prelude.{◌≡◌, ◌++◌, codes, IfOk, OnOk};
ghost use Rattle.zbase.specs.Query.{Answers};
ghost use Rattle.zknown.specs.Seen.{objects};
ghost use Rattle.acquisition.specs.Acquiring.{first};
ghost use Rattle.http_in.specs.Paths as paths;
ghost use Rattle.manage.specs.Changing.{KeepRules};
ghost use Rattle.publisher.specs.Faults.{told, comes_to};
ghost use Rattle.publisher.specs.declared.answer.Answer.TheVariants as answers;
ghost use Rattle.publisher.specs.Replies as replies;
ghost use Rattle.publisher.specs.Site as spec;

use crate::answer::Answer;
use crate::asking::{change_on, permission, user_on, verdict};
use crate::reading::Read;
use crate::refusal::SiteRefusal;
use crate::replies::line;
use acquisition::Wrapped;
use evaluator::{Draft, Entries, Reply};
use http_in::Request;
use manage::{Call, Called, Change};
use permissions::{Verdict, Who};
use std::alloc::Global;
use zbase::{Memory, Text};
use zknown::Known;

// The segments of a path, each behind a slash: what describes a change.
fn path_text(alloc: Global, path: &[Text]) -> Result<Text, Memory>
    ensures { IfOk result (λ text. text ≡ paths.path_text path.now) }
{
    let mut text = Text::new(alloc);
    for segment in path {
        text.push_str("/")?;
        text.push_str(segment.as_str())?;
    }
    Ok(text)
}

fn user_name(alloc: Global, user: &Who) -> Result<Text, Memory>
    ensures { IfOk result (λ name. name ≡ spec.user_name user.now) }
{
    match user {
        Who::Anonymous => Ok(Text::new(alloc)),
        Who::Known { name, .. } => name.copy(),
    }
}

/// What a request writes, told as its user's.
pub(crate) fn drafted(
    alloc: Global,
    request: &Request,
    user: Text,
    entries: Entries,
) -> Result<Draft, Memory>
    ensures { IfOk result (λ draft. draft ≡ spec.drafted request.now user entries) }
{
    Ok(Draft {
        user,
        description: path_text(alloc, request.path.as_slice())?,
        entries,
    })
}

/// The reply to a request whose change is made.
pub(crate) fn done(alloc: Global) -> Result<Reply, Memory>
    ensures { IfOk result (λ reply. reply ≡ replies.done) }
{
    line(alloc, 200, "done")
}

fn written(alloc: Global, request: &Request, user: Text, change: Change) -> Result<Answer, Memory>
    ensures { IfOk result (λ answer. answer ≡ answers.Change replies.done (spec.drafted request.now user change.entries)) }
{
    let draft = drafted(alloc, request, user, change.entries)?;
    Ok(Answer::Change(done(alloc)?, draft))
}

fn changed(alloc: Global, request: &Request, user: &Who, made: Called) -> Result<Answer, Memory>
    ensures { IfOk result (λ answer. answer ≡ spec.answer_of request.now user.now made) }
{
    match made {
        Called::Writes(change) => written(alloc, request, user_name(alloc, user)?, change),
        Called::Undoes(tid) => Ok(Answer::Undo(user_name(alloc, user)?, tid)),
        Called::Lists => Ok(Answer::Log),
    }
}

/// A call on an object, with the request that names it and what was read of that.
#[derive(Clone, Copy)]
pub(crate) struct SentCall<'a> {
    pub request: &'a Request,
    pub read: &'a Read,
    pub call: Call,
    pub on: &'a Wrapped,
}

// The call's change on an object.
#[tactic(auto, using(crate::proofs::Steps::goes, crate::proofs::Steps::passes), unfolding(crate::specs::Site::change_by))]
fn change_by(
    alloc: Global,
    sent: &SentCall<'_>,
    known: &Known,
    user: &Who,
) -> Result<Answer, SiteRefusal>
    requires lawful { KeepRules (objects known.now) }
    ensures { Answers told (λ a. a) result (comes_to known.now
        (spec.change_by sent.now.request.now sent.now.read.now.fields sent.now.call (first sent.now.on.now) user.now)) }
{
    let made = change_on(alloc, sent.call, sent.on, known, &sent.read.fields)?;
    let answer = changed(alloc, sent.request, user, made)?;
    Ok(answer)
}

fn where_granted(
    alloc: Global,
    sent: &SentCall<'_>,
    permission: u8,
    known: &Known,
    user: &Who,
    verdict: Verdict,
) -> Result<Answer, SiteRefusal>
    requires lawful { KeepRules (objects known.now) }
    ensures { Answers told (λ a. a) result (comes_to known.now (spec.where_granted (first sent.now.on.now) permission
        (spec.change_by sent.now.request.now sent.now.read.now.fields sent.now.call (first sent.now.on.now) user.now) verdict)) }
{
    match verdict {
        Verdict::Granted(_) => change_by(alloc, sent, known, user),
        Verdict::Denied(_) => Err(SiteRefusal::Denied(sent.on.oid(), permission)),
    }
}

// The user's change, where he is granted the permission on the object.
#[tactic(auto, using(crate::proofs::Steps::goes_so, crate::proofs::Steps::passes), unfolding(crate::specs::Site::change_for))]
fn change_for(
    alloc: Global,
    sent: &SentCall<'_>,
    permission: u8,
    known: &Known,
    user: &Who,
) -> Result<Answer, SiteRefusal>
    requires lawful { KeepRules (objects known.now) }
    ensures { Answers told (λ a. a) result (comes_to known.now
        (spec.change_for sent.now.request.now sent.now.read.now.fields sent.now.call (first sent.now.on.now) permission user.now)) }
{
    let verdict = verdict(alloc, known, user, sent.on, permission)?;
    where_granted(alloc, sent, permission, known, user, verdict)
}

// The user to whom the permission of a call is granted, and his change.
#[tactic(auto, using(crate::proofs::Steps::goes_so, crate::proofs::Steps::passes), unfolding(crate::specs::Site::call_with))]
fn call_with(
    alloc: Global,
    sent: &SentCall<'_>,
    permission: u8,
    known: &Known,
) -> Result<Answer, SiteRefusal>
    requires lawful { KeepRules (objects known.now) }
    ensures { Answers told (λ a. a) result (comes_to known.now (spec.call_with sent.now.request.now sent.now.read.now.fields
        sent.now.read.now.credentials sent.now.call (first sent.now.on.now) permission)) }
{
    let user = user_on(alloc, known, sent.read, sent.on, permission)?;
    change_for(alloc, sent, permission, known, &user)
}

/// What a call on an object comes to.
#[tactic(auto, using(crate::proofs::Steps::goes_so, crate::proofs::Steps::passes), unfolding(crate::specs::Site::call_on))]
pub(crate) fn call_on(
    alloc: Global,
    sent: &SentCall<'_>,
    known: &Known,
) -> Result<Answer, SiteRefusal>
    requires lawful { KeepRules (objects known.now) }
    ensures { Answers told (λ a. a) result (comes_to known.now (spec.call_on sent.now.request.now sent.now.read.now.fields
        sent.now.read.now.credentials sent.now.call (first sent.now.on.now))) }
{
    let permission = permission(known, sent.call, sent.request.method, sent.on)?;
    call_with(alloc, sent, permission, known)
}
