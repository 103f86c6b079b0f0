ghost use Rattle.std.specs.Prelude.{◌≡◌, ◌≤◌, ◌+◌, ◌∷◌, ◌++◌, [], ℕ, suc, Bool, true, false, List, None, Option, Some, IfSome, Ok, Err, length};
ghost use Rattle.zbase.specs.Query.{Cause, Grows};
ghost use Rattle.zobject.specs.declared.object.Child.{Child};
ghost use Rattle.zobject.specs.declared.object.Object.{Object};
ghost use Rattle.zknown.specs.Seen.{Seen};
ghost use Rattle.evaluator.specs.declared.reply.Shown.{Shown};
ghost use Rattle.acquisition.specs.Acquiring.{first};
ghost use Rattle.permissions.specs.declared.who.Who.{Who};
ghost use Rattle.dtml_parse.specs.Trees.{Arg, Item, Items, Name, more, none};
ghost use Rattle.dtml_parse.specs.TreeReading.{template};
ghost use Rattle.namespace.specs.declared.val.Single.{Single};
ghost use Rattle.namespace.specs.declared.val.Single.TheVariants.{Obj};
ghost use Rattle.namespace.specs.declared.val.Val.{Val};
ghost use Rattle.namespace.specs.declared.val.Val.TheVariants.{Seq};
ghost use Rattle.namespace.specs.Looks.{Looks, Use, Unauthorized, looked, looked_by};
ghost use Rattle.namespace.specs.GoingOn.{GoesOn};
ghost use Rattle.namespace.specs.Locating.{Children, located};
ghost use Rattle.namespace.specs.LookLaws.{IsShown, Same, Views};
ghost use Rattle.namespace.specs.Names.{Scope, act, named, reaching, text, viewing, whose};
ghost use Rattle.namespace.specs.Traces.{AreGrantedBy, IsAlong, IsIn, ViewsAs, trace, viewed_in};
ghost use Rattle.dtml_values.specs.Values.{Left};
ghost use Rattle.dtml_render.specs.Access.{HasNoRoles, IsActing, IsSkipping, LooksRightly, RefusesRightly};
ghost use Rattle.dtml_render.specs.Rendering.{State, argument, item_scope, object_value, scope_in, source_of, source_text, sourced, state, tree_text};
ghost use Rattle.dtml_render.specs.Resuming as resuming;
ghost use Rattle.dtml_render.specs.Resuming.{Ask, Asking, Frame, Opening, Reaching, Rest, StandsIn, Turns, Value, Waiting, after, after_opening, asking, cut, item_opening, may_turn, name_in};

/// A page looks for the user of its request, for who acts in his place where it begins, and for those alone who have the
/// proxy roles of an object whose contents it saw before. It passes something over for those alone who act in its template, or
/// in the source of an object whose contents it saw before, where there is a `dtml-in` with `skip_unauthorized`.
///
/// Zope Book, "Users and Security": proxy roles; "Advanced DTML": `skip_unauthorized` of `dtml-in`.
pub fn pages_are_for_their_users()
    ensures { (known : ℕ → Option (Seen Object)) (renders : ℕ) (objects : List ℕ) (scope : Scope) (tree : Items) (left : Left)
        → IsAlong (IsActing known scope) (IsSkipping known scope tree) known objects (tree_text renders scope tree left) }
{}

/// Each object that a page shows was granted to the user of its first use, by the role that is told; each object whose
/// title, source or property a page uses is shown; and all that it looked at was granted, or passed over for who acts in a
/// source in which there is a `dtml-in` with `skip_unauthorized`. A page that is refused for want of a permission names what
/// wasn't granted to the user of its last look, and looked so at all before.
pub fn pages_show_what_is_granted()
    ensures granted { (known : ℕ → Option (Seen Object)) (renders : ℕ) (scope : Scope) (tree : Items) (left : Left) (before : List Use)
        (x : (List ℕ × Left) × List Use) → AreGrantedBy (IsActing known scope) known [] before
        → looked_by known before (tree_text renders scope tree left) ≡ Ok x → AreGrantedBy (IsActing known scope) known [] x.1 }
    ensures shown { (known : ℕ → Option (Seen Object)) (renders : ℕ) (scope : Scope) (tree : Items) (left : Left) (o : ℕ) (before : List Shown)
        (x : (List ℕ × Left) × List Shown) → Views known o (tree_text renders scope tree left)
        → looked known before (tree_text renders scope tree left) ≡ Ok x → IsShown o x.1 }
    ensures came { (known : ℕ → Option (Seen Object)) (renders : ℕ) (scope : Scope) (tree : Items) (left : Left) (before : List Use)
        (x : (List ℕ × Left) × List Use) → looked_by known before (tree_text renders scope tree left) ≡ Ok x
        → LooksRightly (IsActing known scope) (IsSkipping known scope tree) known (trace known (tree_text renders scope tree left)) }
    ensures denied { (known : ℕ → Option (Seen Object)) (renders : ℕ) (scope : Scope) (tree : Items) (left : Left) (before : List Shown)
        (o permission : ℕ) → looked known before (tree_text renders scope tree left) ≡ Err (Cause (Unauthorized o permission))
        → RefusesRightly (IsActing known scope) (IsSkipping known scope tree) known o permission (trace known (tree_text renders scope tree left)) }
{}

/// Where no object whose title, source or property a page uses has proxy roles, the page views each as the request's user;
/// and then contents that he may not view make no difference to it.
pub fn pages_are_their_users_own()
    ensures own { (known : ℕ → Option (Seen Object)) (renders : ℕ) (scope : Scope) (tree : Items) (left : Left) → scope.acting ≡ None
        → ((o : ℕ) → IsIn o (viewed_in [] (trace known (tree_text renders scope tree left))) → HasNoRoles known o)
        → ViewsAs scope.user (trace known (tree_text renders scope tree left)) }
    ensures apart { (known other : ℕ → Option (Seen Object)) (renders : ℕ) (scope : Scope) (tree : Items) (left : Left) (before : List Shown)
        → Same scope.user known other → ViewsAs scope.user (trace known (tree_text renders scope tree left))
        → looked known before (tree_text renders scope tree left) ≡ looked other before (tree_text renders scope tree left) }
{}

/// A page that stopped at an object that isn't known goes on where it stopped, once it is known: what was rendered stays,
/// and only what was still to come is rendered. A page on its way is a list of frames, and each step from one to the next
/// comes to the same wherever more is known. So a template goes on from its start; a node, an argument that has its value
/// and an item's turn are left behind, with what they open above the other frames; a name that means an object with a
/// source goes on with that source; and the children of a folder are reached one by one.
pub fn pages_go_on()
    ensures begins { (k : ℕ → Option (Seen Object)) (renders : ℕ) (scope : Scope) (tree : Items) (left : Left) (shown : List Shown)
        → GoesOn k shown (tree_text renders scope tree left) shown (after (Rest (length scope.layers) tree ∷ []) renders scope (state [] left)) }
    ensures further { (k : ℕ → Option (Seen Object)) (first second third : List Shown) (p q r : Looks (List ℕ × Left))
        → GoesOn k first p second q → GoesOn k second q third r → GoesOn k first p third r }
    ensures still { (k later : ℕ → Option (Seen Object)) (shown mid : List Shown) (p q : Looks (List ℕ × Left))
        → Grows k later → GoesOn k shown p mid q → GoesOn later shown p mid q }
    ensures node { (k : ℕ → Option (Seen Object)) (renders depth : ℕ) (frames : List Frame) (scope : Scope) (s : State) (shown mid : List Shown)
        (item : Item) (rest : Items) (o : Opening) → depth ≤ length scope.layers → looked k shown (item_opening item s) ≡ Ok (o, mid)
        → GoesOn k shown (after (Rest depth (more item rest) ∷ frames) renders scope s)
        mid (after_opening o (Rest depth rest ∷ frames) renders (cut depth scope)) }
    ensures argument { (k : ℕ → Option (Seen Object)) (renders depth : ℕ) (frames : List Frame) (scope : Scope) (s : State) (shown mid : List Shown)
        (a : Asking) (x : Option Val × Left) (one : List Shown) (o : Opening) → StandsIn frames (cut depth scope)
        → looked k shown (argument (source_text renders) (cut depth scope) a.at a.arg s.left) ≡ Ok (x, one)
        → looked k one (resuming.opening a.waiting s.out x) ≡ Ok (o, mid)
        → GoesOn k shown (after (Ask depth a ∷ frames) renders scope s) mid (after_opening o frames renders (cut depth scope)) }
    ensures source { (k : ℕ → Option (Seen Object)) (renders depth : ℕ) (frames : List Frame) (scope : Scope) (s : State) (shown mid : List Shown)
        (one two : List Shown) (at : ℕ) (name : List ℕ) (waiting : Waiting) (w : List ℕ) (object : Object) (tree : Items) → depth ≤ length scope.layers
        → looked k shown (named (cut depth scope) name) ≡ Ok (Some (object_value w), one) → looked k one (sourced w) ≡ Ok (true, two)
        → looked k two (viewing (whose (cut depth scope)) (first w)) ≡ Ok (object, mid) → template (source_of object.part) ≡ Ok tree
        → GoesOn k shown (after (Ask depth (asking at (Name name) waiting) ∷ frames) (suc renders) scope s)
        mid (after (Rest (length (scope_in w object (cut depth scope)).layers) tree ∷ Value depth scope.acting waiting s.out ∷ frames)
        renders (scope_in w object (cut depth scope)) (state [] s.left)) }
    ensures value { (k : ℕ → Option (Seen Object)) (renders depth : ℕ) (frames : List Frame) (scope : Scope) (s : State) (shown mid : List Shown)
        (acting : Option Who) (waiting : Waiting) (out : List ℕ) (o : Opening) → StandsIn frames (cut depth scope)
        → looked k shown (resuming.opening waiting out (Some (text s.out), s.left)) ≡ Ok (o, mid)
        → GoesOn k shown (after (Value depth acting waiting out ∷ frames) renders scope s)
        mid (after_opening o frames (suc renders) (act acting (cut depth scope))) }
    ensures children { (k : ℕ → Option (Seen Object)) (renders depth : ℕ) (frames : List Frame) (scope : Scope) (s : State) (shown mid : List Shown)
        (at : ℕ) (waiting : Waiting) (whole : List ℕ) (children : List Child) (arg : Arg)
        → IfSome (name_in arg) (λ name. looked k shown (located (cut depth scope) name) ≡ Ok (Some (Children whole children), mid)
        → GoesOn k shown (after (Ask depth (asking at arg waiting) ∷ frames) renders scope s)
        mid (after (Reaching depth whole [] children waiting ∷ frames) renders scope s)) }
    ensures child { (k : ℕ → Option (Seen Object)) (renders depth : ℕ) (frames : List Frame) (scope : Scope) (s : State) (shown mid : List Shown)
        (whole : List ℕ) (so_far : List Single) (child : Child) (rest : List Child) (waiting : Waiting) (found : List ℕ)
        → looked k shown (reaching whole child.oid) ≡ Ok (found, mid)
        → GoesOn k shown (after (Reaching depth whole so_far (child ∷ rest) waiting ∷ frames) renders scope s)
        mid (after (Reaching depth whole (so_far ++ Obj found ∷ []) rest waiting ∷ frames) renders scope s) }
    ensures reached { (k : ℕ → Option (Seen Object)) (renders depth : ℕ) (frames : List Frame) (scope : Scope) (s : State) (shown mid : List Shown)
        (whole : List ℕ) (items : List Single) (waiting : Waiting) (o : Opening) → StandsIn frames (cut depth scope)
        → looked k shown (resuming.opening waiting s.out (Some (Seq items), s.left)) ≡ Ok (o, mid)
        → GoesOn k shown (after (Reaching depth whole items [] waiting ∷ frames) renders scope s)
        mid (after_opening o frames renders (cut depth scope)) }
    ensures turn { (k : ℕ → Option (Seen Object)) (renders depth : ℕ) (frames : List Frame) (scope : Scope) (s : State) (shown mid : List Shown)
        (left : Left) (skip : Bool) (many i : ℕ) (item : Single) (items : List Single) (block : Items) → depth ≤ length scope.layers
        → looked k shown (may_turn (cut depth scope) skip item s.left) ≡ Ok ((true, left), mid)
        → GoesOn k shown (after (Turns depth skip many i (item ∷ items) block ∷ frames) renders scope s)
        mid (after (Rest (length (item_scope many i item (cut depth scope)).layers) block ∷ Turns depth skip many (i + 1) items block ∷ frames)
        renders (item_scope many i item (cut depth scope)) (state s.out left)) }
    ensures passed { (k : ℕ → Option (Seen Object)) (renders depth : ℕ) (frames : List Frame) (scope : Scope) (s : State) (shown mid : List Shown)
        (left : Left) (skip : Bool) (many i : ℕ) (item : Single) (items : List Single) (block : Items)
        → looked k shown (may_turn (cut depth scope) skip item s.left) ≡ Ok ((false, left), mid)
        → GoesOn k shown (after (Turns depth skip many i (item ∷ items) block ∷ frames) renders scope s)
        mid (after (Turns depth skip many (i + 1) items block ∷ frames) renders (cut depth scope) (state s.out left)) }
    ensures ends { (k : ℕ → Option (Seen Object)) (renders depth : ℕ) (frames : List Frame) (scope : Scope) (s : State) (shown : List Shown)
        (skip : Bool) (many i : ℕ) (block : Items)
        → (GoesOn k shown (after (Rest depth none ∷ frames) renders scope s) shown (after frames renders (cut depth scope) s))
        × (GoesOn k shown (after (Turns depth skip many i [] block ∷ frames) renders scope s) shown (after frames renders (cut depth scope) s)) }
{}
