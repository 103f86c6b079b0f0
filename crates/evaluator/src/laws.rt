ghost use Rattle.std.specs.Prelude.{◌≡◌, ◌≤◌, ℕ, List, length, Option, Result, Some, None, Ok, Err};
ghost use Rattle.zbase.specs.Query.{Query, Halt, Need, ◌>>=◌ as ◌>>>◌, Grows, IsDecided, IsWithin, Told, and_then, or_else, run};
ghost use Rattle.zbase.specs.QueryLaws.{worded};
ghost use Rattle.evaluator.specs.declared.ask.Ask.{Ask};
ghost use Rattle.evaluator.specs.declared.cells.CellRequest.{CellRequest};
ghost use Rattle.evaluator.specs.declared.fact.Fact.{Fact};
ghost use Rattle.evaluator.specs.declared.reply.Reply.{Reply};
ghost use Rattle.evaluator.specs.Cells.{HasIds, cell_text, takes_cell};
ghost use Rattle.evaluator.specs.Counting.{judged};
ghost use Rattle.evaluator.specs.Exec.{IsLawful, IsTrail, most_asks};
ghost use Rattle.evaluator.specs.Facts.{look};
ghost use Rattle.evaluator.specs.Questions.{Evaluation, IsCareful, as_ask, meaning_of, objects_of, outcome, over_facts, within_limits};

/// What a question comes to, a value or a cause, it comes to wherever more is known; and what it needs isn't known.
pub fn questions_rest_on_what_is_known<P, R, E, A>()
    ensures more { (first later : P → Option R) (q : Query P R E A) → Grows first later → IsDecided (run first q) → run later q ≡ run first q }
    ensures needs { (known : P → Option R) (q : Query P R E A) (wanted : P) → run known q ≡ Err (Need wanted) → known wanted ≡ None }
{}

/// The run of two questions, one after the other, is the run of the second over the value of the first; what stops
/// the first stops both.
pub fn questions_follow_one_another<P, R, E, A, B>()
    ensures then { (known : P → Option R) (q : Query P R E A) (next : A → Query P R E B)
        → run known (q >>> next) ≡ and_then (run known q) (λ x. run known (next x)) }
    ensures goes { (known : P → Option R) (q : Query P R E A) (next : A → Query P R E B) (x : A) → run known q ≡ Ok x
        → run known (q >>> next) ≡ run known (next x) }
    ensures passes { (known : P → Option R) (q : Query P R E A) (next : A → Query P R E B) (halt : Option (Halt P E)) → Told halt (run known q)
        → Told halt (run known (q >>> next)) }
{}

/// A question with its causes in other words has the same value; what stops it is said in the other words.
pub fn causes_are_reworded<P, R, E, F, A>()
    ensures goes { (known : P → Option R) (reword : E → F) (q : Query P R E A) (x : A) → run known q ≡ Ok x → run known (or_else reword q) ≡ Ok x }
    ensures passes { (known : P → Option R) (reword : E → F) (q : Query P R E A) (halt : Option (Halt P E)) → Told halt (run known q)
        → Told (worded reword halt) (run known (or_else reword q)) }
{}

/// An evaluator whose evaluations are questions keeps the laws of an evaluator, as long as a change asks for nothing
/// that passes; and no trail of its facts is longer than a way through the question.
pub fn questions_are_lawful<R>()
    ensures lawful { (evaluation : R → Evaluation) → ((q : R) → IsCareful (evaluation q)) → IsLawful (meaning_of evaluation) }
    ensures few_asks { (evaluation : R → Evaluation) (q : R) (n : ℕ) (facts : List Fact) → IsWithin n (evaluation q)
        → IsTrail (λ known. meaning_of evaluation (look known) q) facts → length facts ≤ n }
{}

/// Over objects alone a question asks for nothing that passes, and comes to what it comes to over the objects that
/// the facts show.
pub fn objects_last<R, E, A>()
    ensures careful { (seen : Fact → R) (q : Query ℕ R Reply A) (next : A → Evaluation) → ((x : A) → IsCareful (next x))
        → IsCareful (over_facts seen q >>> next) }
    ensures run { (seen : Fact → R) (known : Ask → Option Fact) (q : Query ℕ R E A) → run known (over_facts seen q) ≡ as_ask (run (objects_of seen known) q) }
{}

/// The limits of an evaluation: at most 12,000 asks on each way through it, with a change that asks for nothing that
/// passes as without them; and over a trail they are counts of the facts and of their bytes.
pub fn limits_are_counts()
    ensures within { (runaway : Reply) (q : Evaluation) → IsWithin most_asks (within_limits runaway q) }
    ensures careful { (runaway : Reply) (q : Evaluation) → IsCareful q → IsCareful (within_limits runaway q) }
    ensures counted { (runaway : Reply) (q : Evaluation) (facts : List Fact)
        → IsTrail (λ known. outcome (run (look known) (within_limits runaway q))) facts
        → run (look facts) (within_limits runaway q) ≡ judged runaway facts (run (look facts) q) }
{}

/// Each request of cells is read from its text, and from no other.
pub fn cells_have_one_text()
    ensures read { (q : CellRequest) → HasIds q → takes_cell (cell_text q) ≡ Some q }
    ensures text { (bytes : List ℕ) (q : CellRequest) → takes_cell bytes ≡ Some q → bytes ≡ cell_text q }
    ensures ids { (bytes : List ℕ) (q : CellRequest) → takes_cell bytes ≡ Some q → HasIds q }
{}
