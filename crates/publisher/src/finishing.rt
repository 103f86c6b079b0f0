ghost use Rattle.std.specs.Prelude.{◌≡◌, ◌∷◌, [], IfOk};
ghost use Rattle.zbase.specs.Query.{run};
ghost use Rattle.evaluator.specs.declared.fact.LogRow.{LogRow};
ghost use Rattle.evaluator.specs.declared.outcome.Outcome.{Outcome as OutcomeValue};
ghost use Rattle.evaluator.specs.Facts.{EachOnce, look};
ghost use Rattle.evaluator.specs.Questions.{outcome};
ghost use Rattle.fs_undo.specs.Undo.{IsFar};
ghost use Rattle.publisher.specs.declared.answer.Answer.TheVariants as answers;
ghost use Rattle.publisher.specs.Halting as halting;
ghost use Rattle.publisher.specs.Replies as replies;
ghost use Rattle.publisher.specs.Site as spec;

use crate::calling::{done, drafted};
use crate::halted::Halted;
use crate::refusal::SiteRefusal;
use crate::replies::{by_verb, halt_of, log_reply};
use crate::stage::Undoing;
use evaluator::{Ask, Fact, Facts, LogRows, Outcome, look};
use http_in::{Request, Verb};
use manage::{Change, ManageRefusal, undo_from};
use std::alloc::Global;
use zbase::{Memory, Text};

/// What a refusal comes to, to a message of that method.
pub(crate) fn refused(verb: Verb, halted: Halted) -> Outcome
    ensures { result ≡ halting.outcome_of verb halted }
{
    match halted {
        Halted::Need(ask) => Outcome::Need(ask),
        Halted::Refused(reply) => Outcome::Answer(by_verb(verb, reply)),
    }
}

fn undone_so(
    alloc: Global,
    request: &Request,
    user: Text,
    change: Change,
) -> Result<Outcome, Memory>
    ensures { IfOk result (λ it. it ≡ OutcomeValue.Change (replies.by_verb request.now.method replies.done) (spec.drafted request.now user change.entries)) }
{
    let draft = drafted(alloc, request, user, change.entries)?;
    Ok(Outcome::Change(by_verb(request.method, done(alloc)?), draft))
}

fn not_undone(alloc: Global, request: &Request, cause: ManageRefusal) -> Result<Outcome, Memory>
    ensures { IfOk result (λ it. halting.IsRefusal request.now.method cause it) }
{
    let halted = halt_of(alloc, &SiteRefusal::Call(cause))?;
    Ok(refused(request.method, halted))
}

/// What an undo that is under way comes to.
pub(crate) fn undo_by(
    alloc: Global,
    request: &Request,
    facts: &Facts,
    undoing: &mut Undoing,
) -> Result<Outcome, Memory>
    requires once { EachOnce facts.now }
    requires far { IsFar undoing.old.tid (look facts.now) undoing.old.far }
    ensures value { IfOk result (λ it. it ≡ outcome (run (look facts.now) (spec.undo_by request.now undoing.old.user undoing.old.tid))) }
    ensures far { IsFar undoing.new.tid (look facts.now) undoing.new.far }
    ensures user { undoing.new.user ≡ undoing.old.user }
    ensures tid { undoing.new.tid ≡ undoing.old.tid }
{
    match undo_from(alloc, facts, undoing.tid, &mut undoing.far) {
        Ok(change) => Ok(undone_so(alloc, request, undoing.user.copy()?, change)?),
        Err(cause) => Ok(not_undone(alloc, request, cause)?),
    }
}

fn listed_rows(alloc: Global, request: &Request, rows: &LogRows) -> Result<Outcome, Memory>
    ensures { IfOk result (λ it. it ≡ OutcomeValue.Answer (replies.by_verb request.now.method (replies.log_reply rows.now))) }
{
    let reply = log_reply(alloc, rows)?;
    Ok(Outcome::Answer(by_verb(request.method, reply)))
}

/// What the log comes to.
#[tactic(auto, using(crate::proofs::Limiting::needs_log, crate::proofs::Limiting::lists_rows, crate::proofs::Limiting::no_log))]
pub(crate) fn listed(alloc: Global, request: &Request, facts: &Facts) -> Result<Outcome, Memory>
    ensures { IfOk result (λ it. it ≡ outcome (run (look facts.now) (spec.finished request.now answers.Log))) }
{
    match look(facts, Ask::Log) {
        Some(Fact::Log(rows)) => listed_rows(alloc, request, rows),
        Some(Fact::Object { .. } | Fact::Transaction { .. }) => {
            listed_rows(alloc, request, &LogRows::new(alloc))
        }
        None => Ok(Outcome::Need(Ask::Log)),
    }
}
