ghost use Rattle.std.specs.Prelude.{◌≡◌, ◌≤◌, ℕ, List, Option, codes, length};
ghost use Rattle.evaluator.specs.declared.ask.Ask.{Ask};
ghost use Rattle.evaluator.specs.declared.draft.Draft.{Draft};
ghost use Rattle.evaluator.specs.declared.fact.Fact.{Fact};
ghost use Rattle.evaluator.specs.declared.outcome.Outcome.{Outcome};
ghost use Rattle.evaluator.specs.declared.permission.TheConstants.{VIEW};
ghost use Rattle.evaluator.specs.declared.reply.Reply.{Reply};
ghost use Rattle.evaluator.specs.Change.{IsChange, IsReply};
ghost use Rattle.evaluator.specs.Exec.{IsLawful, IsTrail, WasTaken, most_asks};
ghost use Rattle.evaluator.specs.Facts.{look};
ghost use Rattle.http_in.specs.Messages.{one_message};
ghost use Rattle.http_in.specs.declared.message.Message.{Message};
ghost use Rattle.permissions.specs.declared.who.Who.TheVariants.{Anonymous};
ghost use Rattle.dtml_render.specs.Access.{RefusesRightly, SkipsInOne};
ghost use Rattle.publisher.specs.Access.{ChangesAreGranted, ContentsStayApart, DeniesRightly, PagesAreTheirUsersOwn, PagesShowRightly};
ghost use Rattle.publisher.specs.Access.{IsOfPage, RefusalsAreDenied, RefusalsAreNamed, ShowsRightly, StaysApart, UnmarkedPassNothingOver};
ghost use Rattle.publisher.specs.Site.{site};
ghost use Rattle.publisher.specs.Worked.{site as site_shown};
ghost use Rattle.publisher.specs.WrongSites.{for_anyone, front_page, listing_site, not_granted, open_page, past_an_item, private_page};
ghost use Rattle.publisher.specs.WrongSites.{renamed_site, site_with_proxy, with_a_title, with_anothers_roles};

use dtml_render::pages_are_for_their_users;

/// What a message means to a site keeps the laws of an evaluator: what is decided on true facts is decided so on the whole
/// history, a change rests on lasting facts alone, what is asked for isn't known, no message asks for more than 12,000
/// facts, replies keep their rules, and so do changes of messages that were taken from bytes.
pub fn messages_are_lawful()
    ensures lawful { IsLawful site }
    ensures few_asks { (facts : List Fact) (message : Message) → IsTrail (λ known. site (look known) message) facts → length facts ≤ most_asks }
    ensures changes { (facts : List Fact) (message : Message) (reply : Reply) (draft : Draft)
        → WasTaken one_message message → site (look facts) message ≡ Outcome.Change reply draft → IsChange (look facts) draft × IsReply reply }
    ensures replies { (known : Ask → Option Fact) (message : Message) (reply : Reply) → site known message ≡ Outcome.Answer reply → IsReply reply }
{}

/// Each 200 is a page that shows rightly, or the newest transactions of the log, shown by a call that is granted to its
/// user. A page shows rightly where what it shows are the first uses that it made, each granted to the user who looked, by
/// the role that is told: to the page's user, or to someone who has the proxy roles of an object that is shown before; where
/// each object whose title, source or property it uses is shown; and where all that it looked at was granted, or passed over
/// by a `dtml-in` with `skip_unauthorized`.
///
/// Each 401 names an object and a permission, and what it names isn't granted to the request's own user there. For a page
/// it is the object and the permission of its last look: the one who looked is the user whom the walk finds for the
/// published object and `View`, or has the proxy roles of an object whose contents the page saw before. All that it looked
/// at before was granted to such a one, or passed over by a `dtml-in` with `skip_unauthorized`. For a call it is the object
/// called on and the permission that the call needs there.
///
/// Something is passed over for those alone who act in the source of an object whose contents the page saw before, where a
/// `dtml-in` with that mark stands in that source: for the page's user, or for someone with that object's proxy roles, where it
/// has any. And only by one with that mark: where it hasn't got it, whether an item has its turn needs a view as all else does.
pub fn pages_show_rightly()
    ensures shown { PagesShowRightly }
    ensures named { RefusalsAreNamed }
    ensures denied { RefusalsAreDenied }
    ensures marked { UnmarkedPassNothingOver }
{
    pages_are_for_their_users();
}

/// Each change is that of a call on the object to which the path leads, or of the undo for which the call asks, by the
/// request's user, to whom the permission is granted that the call needs there.
pub fn changes_are_granted()
    ensures { ChangesAreGranted }
{}

/// Contents that a user may not view make no difference to his pages and to the log: over two histories with one log that
/// differ at their ends in such contents alone, a request for a page that views each object as its user, or for the log, has
/// one reply, unless one of both has too much to look at. A page views each object as its user wherever no object whose
/// title, source or property it uses has proxy roles.
pub fn contents_stay_apart()
    ensures apart { ContentsStayApart }
    ensures own { PagesAreTheirUsersOwn }
{
    pages_are_for_their_users();
}

/// A site that ignores credentials breaks the law on what is denied: what it answers to one who is granted the view.
pub fn ignored_credentials_are_refuted()
    ensures { DeniesRightly site_shown private_page not_granted → ⊥ }
{}

/// A site that shows every object for `Anonymous` breaks the law on what is shown.
pub fn one_role_for_all_is_refuted()
    ensures { ShowsRightly site_shown private_page for_anyone → ⊥ }
{}

/// And so does one that renders with the proxy roles of an object that the page doesn't render.
pub fn roles_of_another_are_refuted()
    ensures { ShowsRightly site_with_proxy front_page with_anothers_roles → ⊥ }
{}

/// A site that passes over an item of a `dtml-in` without `skip_unauthorized` breaks the law on what is denied: what its page
/// looks at before the object that it denies.
pub fn unasked_passing_is_refuted()
    ensures { RefusesRightly (IsOfPage listing_site Anonymous) (SkipsInOne listing_site Anonymous) listing_site 4 VIEW past_an_item → ⊥ }
{}

/// A site in which the title of an object that a user may not view changes his page lets contents not stay apart.
pub fn titles_of_others_are_refuted()
    ensures { StaysApart site_shown renamed_site open_page (with_a_title (codes "T")) (with_a_title (codes "U")) → ⊥ }
{
    pages_are_for_their_users();
}
