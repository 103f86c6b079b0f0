ghost use Rattle.std.specs.Prelude.{◌≡◌, ◌≤◌, ℕ, List, ◌++◌, length, IfOk, Option};
ghost use Rattle.evaluator.specs.declared.ask.Ask.{Ask};
ghost use Rattle.evaluator.specs.declared.draft.Draft.{Draft};
ghost use Rattle.evaluator.specs.declared.fact.Fact.{Fact};
ghost use Rattle.evaluator.specs.declared.outcome.Outcome.{Outcome};
ghost use Rattle.evaluator.specs.declared.outcome.Outcome.TheVariants.{Answer, Change};
ghost use Rattle.evaluator.specs.declared.reply.Reply.{Reply};
ghost use Rattle.evaluator.specs.Change.{IsChange, IsReply};
ghost use Rattle.evaluator.specs.Exec.{Eval, IsLawful, IsTrail, WasTaken, most_asks};
ghost use Rattle.evaluator.specs.Facts.{look};

use crate::{Facts, Outcome};
use zbase::Memory;

/// What makes replies and changes of requests.
///
/// Its meaning is a function of what is known and of the request: whatever an evaluator or a state keeps between
/// two evaluations, as decoded objects or parsed templates, the outcome is as without it.
pub trait Evaluator: Drop {
    /// A request that was read.
    type Request: Drop;

    /// What is kept for one request between its evaluations.
    type State: Drop;

    /// The request that bytes are: none where they aren't one whole message with nothing after it.
    ghost takes: { List ℕ → Option Self.Request };

    /// What an evaluation comes to.
    ghost meaning: { Eval Self.Request };

    /// The state may be used for this request with these facts.
    ghost fits: { Self.State → List Fact → Self.Request → Type 0 };

    /// Reads a request.
    fn take(&self, bytes: &[u8]) -> Result<Option<Self::Request>, Memory>
        ensures { IfOk result (λ request. request ≡ takes bytes.now) };

    /// A state for any request. Takes no memory.
    fn fresh(&self) -> Self::State
        ensures { (known : List Fact) (request : Self.Request) → fits result known request };

    /// Evaluates a request over the facts that were asked for, one after another, so far.
    fn eval(
        &mut self,
        state: &mut Self::State,
        known: &Facts,
        request: &Self::Request,
    ) -> Result<Outcome, Memory>
        requires fits { fits state.old known.now request.now }
        requires trail { IsTrail (λ facts. meaning (look facts) request.now) known.now }
        ensures value { IfOk result (λ outcome. outcome ≡ meaning (look known.now) request.now) }
        ensures fits { (more : List Fact) → fits state.new (known.now ++ more) request.now };

    /// The laws on which the order of transactions rests.
    ghost lawful: { IsLawful meaning };

    /// No evaluation asks for more than 12,000 facts.
    ghost few_asks: { (facts : List Fact) (request : Self.Request) → IsTrail (λ known. meaning (look known) request) facts → length facts ≤ most_asks };

    /// Every change of a request that was taken keeps the rules of a change, and its reply those of a reply. It is promised
    /// for lists of facts, each of which tells of what it was asked for, and not for what might be told of one object by
    /// another's fact.
    ghost changes: { (facts : List Fact) (request : Self.Request) (reply : Reply) (draft : Draft)
        → WasTaken takes request → meaning (look facts) request ≡ Change reply draft → IsChange (look facts) draft × IsReply reply };

    /// Every answer keeps the rules of a reply.
    ghost replies: { (known : Ask → Option Fact) (request : Self.Request) (reply : Reply) → meaning known request ≡ Answer reply → IsReply reply };
}
