ghost use Rattle.std.specs.Prelude.{◌≡◌, ◌⊎◌, ◌+◌, ◌<◌, ◌++◌, ◌∷◌, ℕ, List, [], map, replicate, false, true, length};
ghost use Rattle.std.specs.List.{AllByRecursion};
ghost use Rattle.zbase.specs.Faults.{Arms, hit};
ghost use Rattle.zbase.specs.History.{History, IsHistory, IsPrefixOf};
ghost use Rattle.zbase.specs.Limits.{greatest_number};
ghost use Rattle.zbase.specs.Values.{upto};
ghost use Rattle.evaluator.specs.Exec.{IsDecided, IsLawful, exec};
ghost use Rattle.evaluator.specs.declared.draft.Draft.{Draft};
ghost use Rattle.evaluator.specs.declared.outcome.Outcome.{Outcome};
ghost use Rattle.evaluator.specs.declared.reply.Reply.{Reply};
ghost use Rattle.schedule.specs.declared.item.Item2.{Item2};
ghost use Rattle.schedule.specs.declared.line.Line.{Line};
ghost use Rattle.schedule.specs.Alone.{IsSerial};
ghost use Rattle.schedule.specs.Armed.{IsArmed, Queue};
ghost use Rattle.schedule.specs.ArmedRuns.{Licenses};
ghost use Rattle.schedule.specs.AskLaws.{NoneTwice};
ghost use Rattle.schedule.specs.Asks.{asks_at};
ghost use Rattle.schedule.specs.BadLines.{IsBadAt};
ghost use Rattle.schedule.specs.Counted.{AreCounted, ExplainedByCount, printed};
ghost use Rattle.schedule.specs.Courses.{Place, Course, items_of};
ghost use Rattle.schedule.specs.Entries.{entries, faults};
ghost use Rattle.schedule.specs.Explained.{report, Explained, history_lines};
ghost use Rattle.schedule.specs.Items.{IsSchedule};
ghost use Rattle.schedule.specs.Moments.{Terms, Moment, start};
ghost use Rattle.schedule.specs.Openings.{Leaves, OpeningsOf};
ghost use Rattle.schedule.specs.Queues.{IsQueueOf, resumed};
ghost use Rattle.schedule.specs.Right.{AreRight, ends_section, history_after};
ghost use Rattle.schedule.specs.Sections.{ExplainsInOne, IsNoPack, IsRightWithin};
ghost use Rattle.schedule.specs.Stepping.{Opening, opening_line};
ghost use Rattle.schedule.specs.Unhindered.{GoTogether, GoesUnhindered, steps_of, whole_steps};
ghost use Rattle.schedule.specs.Untroubled.{Untroubled};

use evaluator::Evaluator;

/// The run law: what a loop shows item by item makes the whole report explained.
///
/// Each course of moments from the opened history, over every lawful evaluator, is a run of the requests one by
/// one in the order of their transactions: each commit has the reply and the objects of running its request on
/// the transactions before it, each read those of a prefix, and each restart keeps what was acknowledged. It is
/// explained by that very course.
pub fn runs_are_serial<E: Evaluator>()
    ensures { (terms : Terms E.Request) (h0 : History) (trace : List (Place E.Request)) (end : Moment E.Request) →
        IsLawful terms.eval → IsHistory h0 → Course terms (start terms h0) trace end → IsArmed trace →
        (e : Explained terms h0 (items_of trace) (report h0 trace end)) × (e.trace ≡ trace) × (e.end ≡ end) }
{}

/// The run law over a disk that was handed in: what a server shows step by step makes its report explained by the disk's
/// count of faults. Where the count didn't rise and no item arms anything, the report is one that a replay of the same items may print.
pub fn served_runs_are_serial<E: Evaluator>()
    ensures serial { (terms : Terms E.Request) (h0 : History) (old new : ℕ) (trace : List (Place E.Request)) (end : Moment E.Request) →
        IsLawful terms.eval → IsHistory h0 → Course terms (start terms h0) trace end → AreCounted old (printed trace) new →
        (e : ExplainedByCount terms old new h0 (items_of trace) (report h0 trace end)) × (e.trace ≡ trace) × (e.end ≡ end) }
    ensures replays { (terms : Terms E.Request) (h0 : History) (s : List Item2) (r : List Line) (n : ℕ) → n < greatest_number →
        entries s ≡ [] → ExplainedByCount terms n n h0 s r → Explained terms h0 s r }
{}

/// A tape replays to the very report: what a server's run over a disk that was handed in printed, and what a replay of the same
/// items over the same history prints, are the same, where neither tells of want of memory, a fault or a stop.
pub fn served_runs_replay<E: Evaluator>()
    ensures same { (terms : Terms E.Request) (h0 : History) (s : List Item2) (r q : List Line) (old new : ℕ)
        (served : ExplainedByCount terms old new h0 s r) (replayed : Explained terms h0 s q) →
        Untroubled served.trace → Untroubled replayed.trace → q ≡ r }
{}

/// A schedule without `pack` items may have a report exactly where the report is one section: where all of it is right by the
/// history that it prints last. Another report's first section is right by the history that its first pack prints, and what the
/// pack leaves begins the next.
pub fn reports_fall_into_sections<E: Evaluator>()
    ensures in_one { (terms : Terms E.Request) (h0 : History) (s : List Item2) (r : List Line) → AllByRecursion IsNoPack s
        → Explained terms h0 s r → ExplainsInOne terms IsArmed h0 s r }
    ensures from_one { (terms : Terms E.Request) (h0 : History) (s : List Item2) (r : List Line) → AllByRecursion IsNoPack s
        → ExplainsInOne terms IsArmed h0 s r → Explained terms h0 s r }
    ensures first { (terms : Terms E.Request) (before : List (Place E.Request)) (p : Place E.Request) (behind : List (Place E.Request))
        (end : Moment E.Request) → AllByRecursion (λ (q : Place E.Request). ends_section q.item q.lines ≡ false) before
        → ends_section p.item p.lines ≡ true → AreRight terms (before ++ p ∷ behind) end
        → AllByRecursion (IsRightWithin terms p.before.standing) before × IsPrefixOf p.after.standing (history_after behind end)
        × AreRight terms behind end }
{}

/// A pack that is done hits no entry and leaves all that is armed, with the calls that are left to the first; a pack that a failure
/// or a stop meets takes the first entry, of its kind.
pub fn packs_leave_what_is_armed()
    ensures done { (k : Queue) (t floor n : ℕ) (h : History) → Licenses k (Item2.Pack t) (history_lines h ++ Line.Packed floor n ∷ []) k }
    ensures none { (floor n : ℕ) (h : History) → faults (history_lines h ++ Line.Packed floor n ∷ []) ≡ 0 }
    ensures failed { (k : Queue) (old new : Arms) → IsQueueOf k old → old.stopped ≡ false → (old.queue ≡ [] → ⊥) → new ≡ hit old
        → new.stopped ≡ false → Leaves k (Line.PackFault ∷ []) new }
    ensures stopped { (k : Queue) (old new b : Arms) (os : List Opening) (t n : ℕ) → IsQueueOf k old → old.stopped ≡ false
        → (old.queue ≡ [] → ⊥) → new ≡ hit old → new.stopped ≡ true → OpeningsOf (resumed new) os b
        → Leaves k (Line.Stop ∷ (map opening_line os ++ Line.Restart t n ∷ [])) b }
{}

/// What a loop keeps that runs requests alone: the items so far and a piece behind them, and what was run of each.
pub fn serial_runs_join()
    ensures pieces { (items more run rest : List Item2) → IsSerial items run → IsSerial more rest → IsSerial (items ++ more) (run ++ rest) }
    ensures request { (w n : ℕ) (bytes : List ℕ) →
        IsSerial (Item2.Request w bytes ∷ []) (Item2.Request w bytes ∷ replicate n (Item2.Step w)) }
{}

/// **A request that meets nothing comes to its reply by its worker's own steps alone**: in f + 2 of them where it reads,
/// and in f + 4 where it writes, f being the number of asks of its evaluation at its snapshot, of which none stands
/// twice.
///
/// From the item that gives the request on, as long as the report has no stop, and for the worker no fault, want of
/// memory, wait for another's vote, conflict or number that is spent, the worker's steps print `begin`, a `fetch` for each of
/// these asks, and the reply, or before it `computed` and `vote`. What other workers do meanwhile changes nothing of this.
pub fn requests_keep_pace<E: Evaluator>()
    ensures steps { (terms : Terms E.Request) (h0 : History) (s : List Item2) (r : List Line) (e : Explained terms h0 s r)
        → terms.eval ≡ E.meaning → IsHistory h0 → (w : ℕ) (q : E.Request) (during : List (Place E.Request))
        (u : GoesUnhindered terms e.trace w q during) → (at tid : ℕ)
        × GoTogether (whole_steps terms (history_after (during ++ u.after) e.end) w at tid q) (steps_of w during) }
    ensures reads { (terms : Terms E.Request) (h : History) (w at tid : ℕ) (q : E.Request) (x : Reply) → exec terms.eval (upto h at) q ≡ Outcome.Answer x →
        length (whole_steps terms h w at tid q) ≡ length (asks_at terms.eval (upto h at) q) + 2 }
    ensures writes { (terms : Terms E.Request) (h : History) (w at tid : ℕ) (q : E.Request) (x : Reply) (d : Draft)
        → exec terms.eval (upto h at) q ≡ Outcome.Change x d →
        length (whole_steps terms h w at tid q) ≡ length (asks_at terms.eval (upto h at) q) + 4 }
    ensures one_or_other { (h : History) (q : E.Request) → IsDecided (exec E.meaning h q) }
    ensures once { (h : History) (q : E.Request) → NoneTwice (asks_at E.meaning h q) }
{}

/// A text spells one schedule.
pub fn one_schedule()
    ensures { (text : List ℕ) (a b : List Item2) → IsSchedule text a → IsSchedule text b → a ≡ b }
{}

/// A text is a schedule or has one first bad line, and never both.
pub fn one_bad_line()
    ensures either { (text : List ℕ) → ((items : List Item2) × IsSchedule text items) ⊎ ((n : ℕ) × IsBadAt text n) }
    ensures not_both { (text : List ℕ) (items : List Item2) (n : ℕ) → IsSchedule text items → IsBadAt text n → ⊥ }
    ensures number { (text : List ℕ) (m n : ℕ) → IsBadAt text m → IsBadAt text n → m ≡ n }
{}
