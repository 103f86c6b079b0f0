ghost use Rattle.std.specs.Prelude.{ℕ, List, Option, ◌++◌};
ghost use Rattle.zbase.specs.Faults.{Arms};
ghost use Rattle.zdisk.specs.Disk.{Told};
ghost use Rattle.schedule.specs.declared.item.Item2.{Item2};
ghost use Rattle.packing.specs.Reachable.{Linking};
ghost use Rattle.schedule.specs.Courses.{Place};
ghost use Rattle.schedule.specs.Right.{history_after};
ghost use Rattle.schedule.specs.Unhindered.{GoTogether, GoesUnhindered, steps_of, whole_steps};
ghost use Rattle.replay.specs.Printed.{terms_of};
ghost use Rattle.replay.specs.Replayed.{Replays};

use evaluator::Evaluator;
use schedule::requests_keep_pace;

/// Of what `replay` prints, the steps of a request that meets nothing are those of its evaluation at its snapshot, as
/// `requests_keep_pace` says of every explained report.
pub fn replayed_requests_keep_pace<E: Evaluator>()
    ensures { (links : Linking) (limit : ℕ) (bytes : List ℕ) (items : List Item2) (disk : Option Told) (arms : Arms)
        (old new : Option (List ℕ)) (ran : Replays E.takes E.meaning links limit bytes items disk arms old new)
        (w : ℕ) (q : E.Request) (during : List (Place E.Request))
        (u : GoesUnhindered (terms_of E.takes E.meaning links limit ran.end) ran.explained.trace w q during) →
        (at tid : ℕ) × GoTogether (whole_steps (terms_of E.takes E.meaning links limit ran.end)
        (history_after (during ++ u.after) ran.explained.end) w at tid q) (steps_of w during) }
{
    requests_keep_pace::<E>();
}
