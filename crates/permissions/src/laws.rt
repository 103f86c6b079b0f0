ghost use Rattle.std.specs.Prelude.{◌≡◌, ◌∷◌, ◌++◌, ◌||◌, ℕ, List, [], Option, Ok, Some, None, Bool, codes};
ghost use Rattle.std.specs.List.{list_any, AllByRecursion};
ghost use Rattle.zbase.specs.Query.{run};
ghost use Rattle.zobject.specs.declared.object.Setting.{Setting};
ghost use Rattle.zobject.specs.Rules.{comes_before};
ghost use Rattle.zobject.specs.Shapes.{Shape};
ghost use Rattle.zknown.specs.declared.kept.Kept.{Kept};
ghost use Rattle.zknown.specs.Seen.{Seen, shapes};
ghost use Rattle.acquisition.specs.Acquiring as acquiring;
ghost use Rattle.permissions.specs.declared.who.Who.{Who};
ghost use Rattle.permissions.specs.declared.who.Who.TheVariants as users;
ghost use Rattle.permissions.specs.Roles.{Role, common_roles, default_roles, has, roles};
ghost use Rattle.permissions.specs.Verdicts.{is_among, least_common, verdict_on};
ghost use Rattle.permissions.specs.Users.{Credentials, who};
ghost use Rattle.permissions.specs.Laws.{KeepsRules, Sets, is_local};

/// Verdicts, and users of requests, are the same where the shapes of objects are, whatever their titles, sources and
/// properties' values.
pub fn verdicts_look_at_shapes()
    ensures verdict { (rows others : List (ℕ × Kept)) → ((o : ℕ) → shapes rows o ≡ shapes others o) → (user : Who) (o permission : ℕ)
        → run (shapes rows) (verdict_on user o permission) ≡ run (shapes others) (verdict_on user o permission) }
    ensures user { (rows others : List (ℕ × Kept)) → ((o : ℕ) → shapes rows o ≡ shapes others o)
        → (credentials : Option Credentials) (o permission : ℕ)
        → run (shapes rows) (who credentials o permission) ≡ run (shapes others) (who credentials o permission) }
{}

/// Where no object on the path has a setting of the permission, the default decides.
pub fn default_decides()
    ensures { (known : ℕ → Option (Seen Shape)) (permission : ℕ) (path : List ℕ) → AllByRecursion (Sets known permission None) path
        → run known (roles permission path) ≡ Ok (default_roles permission) }
{}

/// A setting that doesn't acquire hides all above it: other objects there make no difference.
pub fn settings_hide_what_is_above()
    ensures { (known : ℕ → Option (Seen Shape)) (permission : ℕ) (below : List ℕ) (o : ℕ) (above others : List ℕ) (s : Setting)
        → Sets known permission (Some s) o → s.acquire ≡ Bool.false
        → run known (roles permission (below ++ o ∷ above)) ≡ run known (roles permission (below ++ o ∷ others)) }
{}

/// Where a user's home is on the path, a role is his there exactly where it is everyone's, his own, or a local role of his
/// name on an object of the path. Elsewhere he has neither local roles nor roles of his own.
pub fn local_roles_count_at_home()
    ensures home { (known : ℕ → Option (Seen Shape)) (name : List ℕ) (own : List Role) (home : ℕ) (path : List ℕ) (mine : List Role)
        → acquiring.has path home ≡ Bool.true → run known (has (users.Known name own home) path) ≡ Ok mine → (role : Role)
        → is_among mine role ≡ (is_among (common_roles name) role || is_among own role || list_any (is_local known name role) path) }
    ensures elsewhere { (known : ℕ → Option (Seen Shape)) (name : List ℕ) (own : List Role) (home : ℕ) (path : List ℕ)
        → acquiring.has path home ≡ Bool.false → run known (has (users.Known name own home) path) ≡ Ok (common_roles name) }
{}

/// Someone without a name, as a source with proxy roles acts for, has no local role, by the rules of objects: only
/// everyone's role and those that he was given.
pub fn proxy_roles_stand_alone()
    ensures { (known : ℕ → Option (Seen Shape)) (given : List Role) (path : List ℕ) → AllByRecursion (KeepsRules known) path
        → acquiring.has path 0 ≡ Bool.true → run known (has (users.Known [] given 0) path) ≡ Ok (codes "Anonymous" ∷ given) }
{}

/// What is granted is granted by a role that is given and that the user has, and none that is both comes before it; where
/// nothing is granted, no role is both.
pub fn least_common_role()
    ensures given { (mine given : List Role) (role : Role) → least_common mine given ≡ Some role → is_among given role ≡ Bool.true }
    ensures had { (mine given : List Role) (role : Role) → least_common mine given ≡ Some role → is_among mine role ≡ Bool.true }
    ensures least { (mine given : List Role) (role other : Role) → least_common mine given ≡ Some role → is_among given other ≡ Bool.true
        → is_among mine other ≡ Bool.true → comes_before other role ≡ Bool.false }
    ensures none { (mine given : List Role) (role : Role) → least_common mine given ≡ None → is_among given role ≡ Bool.true → is_among mine role ≡ Bool.false }
{}
