ghost use Rattle.std.specs.Prelude.{◌≡◌, ℕ, List, Option, Result, Ok, Err};
ghost use Rattle.zbase.specs.Query.{run, and_then, Cause};
ghost use Rattle.zobject.specs.declared.object.Object.{Object};
ghost use Rattle.zknown.specs.Seen.{Seen};
ghost use Rattle.evaluator.specs.declared.reply.Shown.{Shown};
ghost use Rattle.permissions.specs.declared.who.Who.{Who};
ghost use Rattle.namespace.specs.Looks.{Looks, Use, Unauthorized, looked, looked_by, without_users};
ghost use Rattle.namespace.specs.LookLaws.{IsFor, IsShown, Same, Views, forgotten};
ghost use Rattle.namespace.specs.Names.{Scope, named, whose};
ghost use Rattle.namespace.specs.Traces.{AreJudged, Came, IsRefused, ViewsAs, trace};

/// Each look of a page has the verdict that is told to its user. A page that came went on behind each of its looks, since
/// it was granted or passed over by a `dtml-in` with `skip_unauthorized`; and it shows the first use of each object whose
/// view some look was granted, with the user of that look and the role.
pub fn shown_are_granted<A>()
    ensures judged { (known : ℕ → Option (Seen Object)) (q : Looks A) → AreJudged known (trace known q) }
    ensures shown { (known : ℕ → Option (Seen Object)) (before : List Use) (q : Looks A) (x : A × List Use)
        → looked_by known before q ≡ Ok x → Came before (trace known q) x.1 }
{}

/// What a page shows is the same with the users of the first uses and without them.
pub fn first_uses_are_shown<A>()
    ensures { (known : ℕ → Option (Seen Object)) (before : List Use) (q : Looks A)
        → looked known (without_users before) q ≡ and_then (looked_by known before q) (λ x. Ok (forgotten x)) }
{}

/// A page that is refused for want of a permission names the object and the permission of its last look, which is the
/// first that isn't granted and isn't passed over.
pub fn refusals_are_denied<A>()
    ensures { (known : ℕ → Option (Seen Object)) (shown : List Shown) (q : Looks A) (o permission : ℕ)
        → looked known shown q ≡ Err (Cause (Unauthorized o permission)) → IsRefused o permission (trace known q) }
{}

/// Each object whose contents a page uses is shown.
pub fn viewed_are_shown<A>()
    ensures { (known : ℕ → Option (Seen Object)) (o : ℕ) (shown : List Shown) (q : Looks A) (x : A × List Shown) → Views known o q
        → looked known shown q ≡ Ok x → IsShown o x.1 }
{}

/// Contents that a user may not view make no difference to a page that views each object as that user.
pub fn contents_stay_apart<A>()
    ensures { (user : Who) (known other : ℕ → Option (Seen Object)) (shown : List Shown) (q : Looks A) → Same user known other
        → ViewsAs user (trace known q) → looked known shown q ≡ looked other shown q }
{}

/// What a name means in a stack is for the user of its verdicts alone, and passes nothing over.
pub fn names_are_for_their_user()
    ensures { (known : ℕ → Option (Seen Object)) (scope : Scope) (name : List ℕ) → IsFor (λ user. user ≡ whose scope) known (named scope name) }
{}
