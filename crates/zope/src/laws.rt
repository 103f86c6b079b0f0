ghost use Rattle.std.specs.Prelude.{◌≡◌, ℕ, List};
ghost use Rattle.zbase.specs.History.{History};
ghost use Rattle.http_in.specs.Messages.{one_message};
ghost use Rattle.packing.specs.Reachable.{Linking};
ghost use Rattle.schedule.specs.declared.item.Item2.{Item2};
ghost use Rattle.schedule.specs.declared.line.Line.{Line};
ghost use Rattle.schedule.specs.Counted.{ExplainedByCount};
ghost use Rattle.schedule.specs.Explained.{Explained};
ghost use Rattle.publisher.specs.Site.{site};
ghost use Rattle.replay.specs.Printed.{terms_of};
ghost use Rattle.zope.specs.Access.{AllGrowRightly, AllShowRightly};
ghost use Rattle.zope.specs.Ends.{Ends};
ghost use Rattle.zope.specs.Worked.{checking, untouched};

use fs_record::one_opening;
use publisher::{changes_are_granted, pages_show_rightly};
use repozo::{one_bad_line as one_bad_row, one_index};
use schedule::{one_bad_line, one_schedule};

/// A run that gives up at once isn't one that ends: over a file that opens, where nothing fails, no status but want of
/// memory may come with nothing written.
pub fn giving_up_is_refuted()
    ensures { (status : ℕ) → Ends checking untouched untouched status → status ≡ 7 }
{
    one_schedule();
    one_bad_line();
    one_opening();
    one_index();
    one_bad_row();
}

/// Of what a replay prints, also of one that is broken off at a line that can't be run, each reading reply and the lines
/// behind it are right. A page with status 200 shows each object whose title, source or property it uses, and each that it
/// shows was granted to the user who looked first, by the role that its line tells: to the page's user, or to someone who has
/// the proxy roles of an object that is shown before; all that it looked at was granted, or passed over where the source of an
/// object whose contents it saw before has a `dtml-in` with `skip_unauthorized`, for who acts in that source. A 401 to a whole
/// message has a `denied` line. What such a line names isn't granted to the request's own user there: for a page, to the user
/// whom the walk finds for the published object and `View`, or to someone who has the proxy roles of an object whose contents
/// the page saw before, and all that the page looked at before was granted or passed over so; for a call, to the user for the
/// object called on and the permission of that call.
/// All this by the objects of the history up to the transaction that the reply names. And each transaction by which its
/// history grew, acknowledged or not, is the change of a call whose permission its user was granted before it. That history is the one
/// that the next pack prints, or else the report's last one, whatever records lead to by which a pack goes; what a pack that is done
/// leaves begins the next history.
pub fn replays_keep_access()
    ensures shown { (links : Linking) (limit end : ℕ) (h : History) (items : List Item2) (report : List Line)
        (it : Explained (terms_of one_message site links limit end) h items report) → AllShowRightly it.trace it.end }
    ensures changed { (links : Linking) (limit end : ℕ) (h : History) (items : List Item2) (report : List Line)
        (it : Explained (terms_of one_message site links limit end) h items report) → AllGrowRightly it.trace it.end }
{
    pages_show_rightly();
    changes_are_granted();
}

/// The same of the report of what a server did, whose lines of faults its disk's count licenses. What such a report shows to a
/// user hangs on no contents that he may not view (`publisher`'s `contents_stay_apart`), since each reading reply in it is that
/// of an evaluation over a part of its history.
pub fn servers_keep_access()
    ensures shown { (links : Linking) (limit end old new : ℕ) (h : History) (items : List Item2) (report : List Line)
        (it : ExplainedByCount (terms_of one_message site links limit end) old new h items report) → AllShowRightly it.trace it.end }
    ensures changed { (links : Linking) (limit end old new : ℕ) (h : History) (items : List Item2) (report : List Line)
        (it : ExplainedByCount (terms_of one_message site links limit end) old new h items report) → AllGrowRightly it.trace it.end }
{
    pages_show_rightly();
    changes_are_granted();
}
