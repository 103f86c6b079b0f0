ghost use Rattle.std.specs.Prelude.{◌≡◌, ◌==◌, ◌&&◌, ℕ, Option, IfOk, nat_lt};
ghost use Rattle.zbase.specs.Query.{run};
ghost use Rattle.zobject.specs.declared.object.Object.{Object};
ghost use Rattle.zknown.specs.Seen.{Seen, objects};
ghost use Rattle.evaluator.specs.declared.outcome.Outcome.{Outcome as OutcomeValue};
ghost use Rattle.evaluator.specs.Counting.{judged};
ghost use Rattle.evaluator.specs.Exec.{IsTrail, most_asks};
ghost use Rattle.evaluator.specs.Facts.{EachOnce, look};
ghost use Rattle.evaluator.specs.Questions.{most_bytes, outcome};
ghost use Rattle.fs_undo.specs.Undo.{IsFar};
ghost use Rattle.http_in.specs.Messages.{one_message};
ghost use Rattle.http_in.specs.declared.message.Request.{Request as RequestValue};
ghost use Rattle.manage.specs.Changing.{KeepRules};
ghost use Rattle.publisher.specs.Comes.{made_of};
ghost use Rattle.publisher.specs.Faults.{comes_to};
ghost use Rattle.publisher.specs.Halting as halting;
ghost use Rattle.publisher.specs.Keeping as keeping;
ghost use Rattle.publisher.specs.Replies as replies;
ghost use Rattle.publisher.specs.Site as spec;
ghost use Rattle.publisher.specs.Underway.{IsProgress, IsProgressOf, IsStage, IsUndoing};
ghost use Rattle.publisher.specs.ChangeLaws.{site_changes};
ghost use Rattle.publisher.specs.SiteLaws.{site_asks_few, site_is_lawful, site_replies};

use crate::answer::Answer;
use crate::answering::answer;
use crate::finishing::{listed, refused, undo_by};
use crate::learned::Learned;
use crate::replies::{by_verb, halt_of, line, message_reply};
use crate::stage::{Progress, Stage, Undoing};
use crate::state::SiteState;
use dtml_render::Templates;
use evaluator::{Evaluator, Facts, Outcome};
use fs_undo::Far;
use http_in::{Message, Request, Verb, take_message};
use std::alloc::Global;
use std::mem;
use zbase::Memory;
use zknown::Known;

/// The most bytes of values that an evaluation meets.
const MOST_BYTES: usize = 67_108_864;

/// The most asks of an evaluation.
const MOST_ASKS: usize = 12_000;

/// A site: it answers whole messages with pages under the security policy, and changes what a call may change.
///
/// Zope Developer's Guide, "Object Publishing" and "Security".
#[derive(Drop)]
pub struct Site {
    alloc: Global,
    templates: Templates,
}

// What an undo that is under way comes to; it stays under way.
#[tactic(auto, using(crate::proofs::Undoing::undoing_on))]
fn undo_on(
    alloc: Global,
    request: &Request,
    facts: &Facts,
    mut undoing: Undoing,
    progress: &mut Progress,
) -> Result<Outcome, Memory>
    requires once { EachOnce facts.now }
    requires far { IsFar undoing.tid (look facts.now) undoing.far }
    ensures value { IfOk result (λ it. it ≡ outcome (run (look facts.now) (spec.undo_by request.now undoing.user undoing.tid))) }
    ensures progress { (known : ℕ → Option (Seen Object)) (q : RequestValue) → IsUndoing known (look facts.now) undoing q
        → IsProgress known (look facts.now) progress.new q }
{
    let outcome = undo_by(alloc, request, facts, &mut undoing);
    *progress = Progress::Undoing(undoing);
    outcome
}

// What a whole message comes to, from the stage on to which its answer came.
#[tactic(auto, using(crate::proofs::Limiting::paged, crate::proofs::Limiting::changes_to, crate::proofs::Limiting::undoes_to, crate::proofs::Limiting::lists_to, crate::proofs::Limiting::halts_at, crate::proofs::Undoing::nothing_far))]
fn answer_on(
    templates: &mut Templates,
    request: &Request,
    facts: &Facts,
    known: &Known,
    mut stage: Stage,
    progress: &mut Progress,
) -> Result<Outcome, Memory>
    requires lawful { KeepRules (objects known.now) }
    requires once { EachOnce facts.now }
    requires stage { IsStage (objects known.now) stage request.now }
    requires progress { IsProgress (objects known.now) (look facts.now) progress.old request.now }
    ensures value { IfOk result (λ it. it ≡ outcome (made_of (look facts.now) request.now (comes_to known.now (spec.request request.now)))) }
    ensures progress { IsProgress (objects known.now) (look facts.now) progress.new request.now }
{
    let alloc = templates.alloc();
    match answer(templates, request, known, &mut stage) {
        Ok(Answer::Page(reply)) => Ok(Outcome::Answer(by_verb(request.method, reply))),
        Ok(Answer::Change(reply, draft)) => {
            Ok(Outcome::Change(by_verb(request.method, reply), draft))
        }
        Ok(Answer::Undo(user, tid)) => {
            let far = Far::new();
            undo_on(alloc, request, facts, Undoing { user, tid, far }, progress)
        }
        Ok(Answer::Log) => listed(alloc, request, facts),
        Err(cause) => {
            *progress = Progress::Answering(stage);
            let halted = halt_of(alloc, &cause)?;
            Ok(refused(request.method, halted))
        }
    }
}

// What a whole message comes to, without limits.
#[tactic(auto, using(crate::proofs::Undoing::undoing_comes))]
fn outcome_of(
    templates: &mut Templates,
    request: &Request,
    facts: &Facts,
    known: &Known,
    progress: &mut Progress,
) -> Result<Outcome, Memory>
    requires lawful { KeepRules (objects known.now) }
    requires once { EachOnce facts.now }
    requires progress { IsProgress (objects known.now) (look facts.now) progress.old request.now }
    ensures value { IfOk result (λ it. it ≡ outcome (made_of (look facts.now) request.now (comes_to known.now (spec.request request.now)))) }
    ensures progress { IsProgress (objects known.now) (look facts.now) progress.new request.now }
{
    match mem::replace(progress, Progress::Answering(Stage::Fresh)) {
        Progress::Answering(stage) => answer_on(templates, request, facts, known, stage, progress),
        Progress::Undoing(undoing) => undo_on(templates.alloc(), request, facts, undoing, progress),
    }
}

fn runaway(alloc: Global, verb: Verb) -> Result<Outcome, Memory>
    ensures { IfOk result (λ it. it ≡ OutcomeValue.Answer (replies.by_verb verb replies.runaway_facts)) }
{
    let reply = line(alloc, 500, "runaway: facts")?;
    Ok(Outcome::Answer(by_verb(verb, reply)))
}

fn is_need(outcome: &Outcome) -> bool
    ensures { result ≡ halting.is_need outcome.now }
{
    match outcome {
        Outcome::Need(_) => true,
        Outcome::Answer(_) | Outcome::Change(_, _) => false,
    }
}

// Whether one ask more is needed behind the most.
fn asks_more(asks: usize, outcome: &Outcome) -> bool
    ensures { result ≡ ((asks == most_asks) && halting.is_need outcome.now) }
{
    asks == MOST_ASKS && is_need(outcome)
}

fn has_too_many_bytes(learned: &Learned) -> bool
    ensures { result ≡ nat_lt most_bytes learned.now.bytes }
{
    MOST_BYTES < learned.bytes()
}

// What a whole message comes to over the facts that were taken over.
#[tactic(auto, using(crate::proofs::Limiting::over_bytes, crate::proofs::Limiting::over_asks, crate::proofs::Limiting::within_both))]
fn limited(
    templates: &mut Templates,
    learned: &Learned,
    progress: &mut Progress,
    facts: &Facts,
    request: &Request,
) -> Result<Outcome, Memory>
    requires holds { keeping.Holds learned.now facts.now }
    requires once { EachOnce facts.now }
    requires progress { IsProgress (objects learned.now.known) (look facts.now) progress.old request.now }
    ensures value { IfOk result (λ it. it ≡ outcome (judged (replies.by_verb request.now.method replies.runaway_facts) facts.now
        (made_of (look facts.now) request.now (comes_to learned.now.known (spec.request request.now))))) }
    ensures progress { IsProgress (objects learned.now.known) (look facts.now) progress.new request.now }
{
    let alloc = templates.alloc();
    if has_too_many_bytes(learned) {
        let runaway = runaway(alloc, request.method)?;
        return Ok(runaway);
    }
    let outcome = outcome_of(templates, request, facts, learned.known(), progress)?;
    if asks_more(facts.len(), &outcome) {
        let runaway = runaway(alloc, request.method)?;
        return Ok(runaway);
    }
    Ok(outcome)
}

// What a message comes to over a trail of facts that were taken over.
#[tactic(auto, using(crate::proofs::Limiting::site_whole))]
fn evaluated(
    templates: &mut Templates,
    learned: &Learned,
    progress: &mut Progress,
    facts: &Facts,
    message: &Message,
) -> Result<Outcome, Memory>
    requires holds { keeping.Holds learned.now facts.now }
    requires trail { IsTrail (λ known. spec.site (look known) message.now) facts.now }
    requires progress { IsProgressOf (objects learned.now.known) (look facts.now) progress.old message.now }
    ensures value { IfOk result (λ it. it ≡ spec.site (look facts.now) message.now) }
    ensures progress { IsProgressOf (objects learned.now.known) (look facts.now) progress.new message.now }
{
    match message {
        Message::Refused(cause) => {
            let reply = message_reply(templates.alloc(), *cause)?;
            Ok(Outcome::Answer(reply))
        }
        Message::Whole(request) => {
            let outcome = limited(templates, learned, progress, facts, request)?;
            Ok(outcome)
        }
    }
}

impl Site {
    /// A site. Takes no memory.
    pub fn new(alloc: Global) -> Site {
        Site {
            alloc,
            templates: Templates::new(alloc),
        }
    }
}

impl Evaluator for Site {
    type Request = Message;

    type State = SiteState;

    ghost takes = { one_message };

    ghost meaning = { spec.site };

    ghost fits = { keeping.Fits };

    fn take(&self, bytes: &[u8]) -> Result<Option<Message>, Memory> {
        take_message(self.alloc, bytes)
    }

    fn fresh(&self) -> SiteState {
        SiteState::new(self.alloc)
    }

    #[tactic(auto, using(crate::proofs::Undoing::progress_further, crate::proofs::Undoing::progress_grows))]
    fn eval(
        &mut self,
        state: &mut SiteState,
        known: &Facts,
        request: &Message,
    ) -> Result<Outcome, Memory> {
        state.learned.learn(self.alloc, known)?;
        let outcome = evaluated(
            &mut self.templates,
            &state.learned,
            &mut state.progress,
            known,
            request,
        )?;
        Ok(outcome)
    }

    ghost lawful = { site_is_lawful };

    ghost few_asks = { site_asks_few };

    ghost changes = { site_changes };

    ghost replies = { site_replies };
}
