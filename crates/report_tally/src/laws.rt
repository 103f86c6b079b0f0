ghost use Rattle.std.specs.Prelude.{◌≡◌, List};
ghost use Rattle.zbase.specs.History.{History};
ghost use Rattle.schedule.specs.declared.item.Item2.{Item2};
ghost use Rattle.schedule.specs.declared.line.Line.{Line};
ghost use Rattle.schedule.specs.Explained.{Explained};
ghost use Rattle.schedule.specs.Moments.{Terms};
ghost use Rattle.report_tally.specs.Tidy.{AreTidy};

use evaluator::Evaluator;

/// The lines of an explained report are told apart by their text, since each role that a reply shows keeps the rule of roles.
pub fn explained_reports_are_tidy<E: Evaluator>()
    ensures { (terms : Terms E.Request) (h : History) (items : List Item2) (report : List Line) →
        terms.takes ≡ E.takes → terms.eval ≡ E.meaning → Explained terms h items report → AreTidy report }
{}
