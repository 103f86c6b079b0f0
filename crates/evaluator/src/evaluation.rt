ghost use Rattle.std.specs.Prelude.{◌≡◌, ◌≤◌, ◌≢◌, ◌+◌, AllPairs, IfOk, filter, length};
ghost use Rattle.zbase.specs.History.{History};
ghost use Rattle.evaluator.specs.declared.ask.Ask.{Ask};
ghost use Rattle.evaluator.specs.declared.draft.Draft.{Draft};
ghost use Rattle.evaluator.specs.declared.outcome.Outcome.TheVariants.{Answer, Change};
ghost use Rattle.evaluator.specs.declared.reply.Reply.{Reply};
ghost use Rattle.evaluator.specs.Change.{IsChange, IsReply};
ghost use Rattle.evaluator.specs.Exec.{IsDecided, IsTrail, WasTaken, exec, is_lasting, most_asks};
ghost use Rattle.evaluator.specs.Facts.{TrueOf, ask_of, fact, look};

use crate::{Ask, Evaluator, Fact, Facts, Outcome};
use std::alloc::Global;
use zbase::Memory;

/// What tells the facts of one history.
pub trait Snapshot {
    /// The history whose facts are told.
    ghost history: { Self → History };

    /// What the history answers to an ask.
    fn fact(&self, ask: Ask) -> Result<Fact, Memory>
        ensures { IfOk result (λ told. told ≡ fact (history self.now) ask) };
}

/// An evaluation that came to its end.
#[derive(Debug, Drop)]
pub struct Evaluated {
    /// The facts that were asked for, one after another.
    pub facts: Facts,
    /// An answer or a change.
    pub outcome: Outcome,
}

/// Evaluates a request over the facts of a history, each of which it asks for, until it asks for nothing more.
///
/// The facts rest on the history alone: each is true, none is asked for twice, and there are at most 12,000, so
/// that the evaluation ends. What it comes to is what the request comes to where the whole history is known. A
/// change comes from the lasting facts alone, without the log and absent transactions. Replies keep their rules, and
/// so do changes of a request that was taken.
pub fn outcome_over<E: Evaluator, S: Snapshot>(
    alloc: Global,
    evaluator: &mut E,
    snapshot: &S,
    request: &E::Request,
) -> Result<Evaluated, Memory>
    ensures whole { IfOk result (λ it. it.outcome ≡ exec E.meaning (S.history snapshot.now) request.now) }
    ensures decided { IfOk result (λ it. IsDecided it.outcome) }
    ensures told { IfOk result (λ it. it.outcome ≡ E.meaning (look it.facts) request.now) }
    ensures trail { IfOk result (λ it. IsTrail (λ known. E.meaning (look known) request.now) it.facts) }
    ensures true_facts { IfOk result (λ it. TrueOf it.facts (S.history snapshot.now)) }
    ensures few { IfOk result (λ it. length it.facts ≤ most_asks) }
    ensures once { IfOk result (λ it. AllPairs (λ f g. ask_of f ≢ ask_of g) it.facts) }
    ensures lasting { IfOk result (λ it. (reply : Reply) (draft : Draft) → it.outcome ≡ Change reply draft
        → E.meaning (look (filter is_lasting it.facts)) request.now ≡ Change reply draft) }
    ensures change { IfOk result (λ it. (reply : Reply) (draft : Draft) → WasTaken E.takes request.now → it.outcome ≡ Change reply draft
        → IsChange (look it.facts) draft × IsReply reply) }
    ensures reply { IfOk result (λ it. (reply : Reply) → it.outcome ≡ Answer reply → IsReply reply) }
{
    let mut state = evaluator.fresh();
    let mut facts = Facts::new(alloc);
    'asking: loop {
        let outcome = evaluator.eval(&mut state, &facts, request)?;
        let Outcome::Need(ask) = outcome else {
            return Ok(Evaluated { facts, outcome });
        };
        facts.push(snapshot.fact(ask)?)?;
    }
}
