ghost use Rattle.std.specs.Prelude.{◌≡◌, ◌≤◌, ◌<◌, ◌^◌, ℕ, Bool, List, [], ◌∷◌, ◌++◌, length, Some, None};
ghost use Rattle.std.specs.List.{filter, AllByRecursion};
ghost use Rattle.zbase.specs.Roles.{IsRole};
ghost use Rattle.zobject.specs.declared.limits.TheConstants.{MOST_CHILDREN, MOST_COUNTED, MOST_LOCALS, MOST_PROPERTIES, MOST_USERS};
ghost use Rattle.zobject.specs.declared.object.Child.{Child};
ghost use Rattle.zobject.specs.declared.object.Local.{Local};
ghost use Rattle.zobject.specs.declared.object.Object.{Object};
ghost use Rattle.zobject.specs.declared.object.Part2.{Part2};
ghost use Rattle.zobject.specs.declared.object.Part2.TheVariants as parts;
ghost use Rattle.zobject.specs.declared.object.Property.{Property};
ghost use Rattle.zobject.specs.declared.object.Setting.{Setting};
ghost use Rattle.zobject.specs.declared.object.User.{User};
ghost use Rattle.zobject.specs.declared.version.Rule.{Rule};
ghost use Rattle.zobject.specs.declared.version.Rule.TheVariants.{Role, Source, StoredId, Title};
ghost use Rattle.zobject.specs.declared.version.Version.TheVariants.{Second};
ghost use Rattle.zobject.specs.Changes.{new_object, put, put_local, put_property, put_setting, put_user, with_id, with_locals, with_part, with_properties, with_settings, with_title, without_children};
ghost use Rattle.zobject.specs.Folders.{child_of};
ghost use Rattle.zobject.specs.Likely.{is_like, most_bytes};
ghost use Rattle.zobject.specs.Rules.{AreRoles, IsChild, IsLocal, IsObject, IsPart, IsProperty, IsSetting, IsUser, Keeps, comes_before, kind_of};
ghost use Rattle.zobject.specs.Sorting.{sorted};
ghost use Rattle.zobject.specs.Texts.{keeps};

/// Each role of an object is one that a reply may show.
pub fn roles_may_be_shown()
    ensures { (text : List ℕ) → keeps Role text ≡ Bool.true → IsRole text }
{}

/// What was just made keeps the rules of objects where its id, its title and what only its kind has keep theirs.
pub fn new_objects_keep_the_rules()
    ensures { (id : List ℕ) (parent : ℕ) (title : List ℕ) (part : Part2) → Keeps (StoredId (kind_of part)) id → parent < 2 ^ 64 → Keeps Title title
        → IsPart Second part → IsObject (new_object id parent title part) }
{}

/// An object with another id or another title keeps the rules where that text keeps its own.
pub fn names_may_change()
    ensures id { (o : Object) (id : List ℕ) → IsObject o → Keeps (StoredId (kind_of o.part)) id → IsObject (with_id id o) }
    ensures title { (o : Object) (title : List ℕ) → IsObject o → Keeps Title title → IsObject (with_title title o) }
{}

/// A folder keeps the rules with one child more, where none has that name and there are fewer than `MOST_CHILDREN`;
/// with any of its children left out; and with one that it has under another name, as the last one, where none has that
/// name.
pub fn children_may_change()
    ensures more { (o : Object) (cs : List Child) (c : Child) → IsObject o → o.part ≡ parts.Folder cs → IsChild c → child_of c.name cs ≡ None
        → length cs < MOST_CHILDREN → IsObject (with_part (parts.Folder (cs ++ c ∷ [])) o) }
    ensures fewer { (o : Object) (cs : List Child) (keep : Child → Bool) → IsObject o → o.part ≡ parts.Folder cs
        → IsObject (with_part (parts.Folder (filter keep cs)) o) }
    ensures renamed { (o : Object) (cs : List Child) (old : List ℕ) (oid : ℕ) (c : Child) → IsObject o → o.part ≡ parts.Folder cs
        → child_of old cs ≡ Some oid → IsChild c → child_of c.name cs ≡ None
        → IsObject (with_part (parts.Folder (without_children (old ∷ []) cs ++ c ∷ [])) o) }
{}

/// An object keeps the rules with a setting put among its settings, in place of that of the same permission, and with
/// any of them left out.
pub fn settings_may_change()
    ensures put { (o : Object) (s : Setting) → IsObject o → IsSetting Second s → IsObject (with_settings (put_setting s o.settings) o) }
    ensures fewer { (o : Object) (keep : Setting → Bool) → IsObject o → IsObject (with_settings (filter keep o.settings) o) }
{}

/// An object keeps the rules with a user's local roles put among them, in place of those that the user had, where there
/// are then at most `MOST_LOCALS` such users, and with those of any users left out.
pub fn local_roles_may_change()
    ensures put { (o : Object) (l : Local) → IsObject o → IsLocal l → length (put_local l o.locals) ≤ MOST_LOCALS
        → IsObject (with_locals (put_local l o.locals) o) }
    ensures fewer { (o : Object) (keep : Local → Bool) → IsObject o → IsObject (with_locals (filter keep o.locals) o) }
{}

/// An object keeps the rules with a property put among its properties, in place of that of the same name, where there are
/// then at most `MOST_PROPERTIES`, and with any of them left out.
pub fn properties_may_change()
    ensures put { (o : Object) (p : Property) → IsObject o → IsProperty Second p → length (put_property p o.properties) ≤ MOST_PROPERTIES
        → IsObject (with_properties (put_property p o.properties) o) }
    ensures fewer { (o : Object) (keep : Property → Bool) → IsObject o → IsObject (with_properties (filter keep o.properties) o) }
{}

/// A user folder keeps the rules with a user put among its users, in place of that of the same name, where there are then
/// at most `MOST_USERS`.
pub fn users_may_be_added()
    ensures { (o : Object) (users : List User) (u : User) → IsObject o → o.part ≡ parts.UserFolder users → IsUser u → length (put_user u users) ≤ MOST_USERS
        → IsObject (with_part (parts.UserFolder (put_user u users)) o) }
{}

/// Roles with one more put among them are roles, and at least one, where there are then at most `MOST_COUNTED`.
pub fn roles_may_be_added()
    ensures { (least : ℕ) (roles : List (List ℕ)) (role : List ℕ) → AreRoles least roles → Keeps Role role
        → length (put comes_before role roles) ≤ MOST_COUNTED → AreRoles 1 (put comes_before role roles) }
{}

/// A method or document keeps the rules with another source that keeps its own.
pub fn sources_may_change()
    ensures method { (o : Object) (source new : List ℕ) (proxy : List (List ℕ)) → IsObject o → o.part ≡ parts.Method source proxy → Keeps Source new
        → IsObject (with_part (parts.Method new proxy) o) }
    ensures document { (o : Object) (source new : List ℕ) (proxy : List (List ℕ)) → IsObject o → o.part ≡ parts.Document source proxy
        → Keeps Source new → IsObject (with_part (parts.Document new proxy) o) }
{}

/// A method or document keeps the rules with any other proxy roles, or none.
pub fn proxy_roles_may_change()
    ensures method { (o : Object) (source : List ℕ) (proxy new : List (List ℕ)) → IsObject o → o.part ≡ parts.Method source proxy → AreRoles 0 new
        → IsObject (with_part (parts.Method source new) o) }
    ensures document { (o : Object) (source : List ℕ) (proxy new : List (List ℕ)) → IsObject o → o.part ≡ parts.Document source proxy → AreRoles 0 new
        → IsObject (with_part (parts.Document source new) o) }
{}

/// A text that keeps its rule but for too many bytes, and hasn't too many, keeps it.
pub fn texts_keep_their_rules()
    ensures { (rule : Rule) (text : List ℕ) → is_like rule text ≡ Bool.true → length text ≤ most_bytes rule → Keeps rule text }
{}

/// Roles in any order, some of them twice, are roles of an object once they are sorted, where there are then at most
/// `MOST_COUNTED`; and at least one where there is one.
pub fn roles_may_be_sorted()
    ensures any { (texts : List (List ℕ)) → AllByRecursion (Keeps Role) texts → length (sorted texts) ≤ MOST_COUNTED → AreRoles 0 (sorted texts) }
    ensures some { (text : List ℕ) (texts : List (List ℕ)) → AllByRecursion (Keeps Role) (text ∷ texts) → length (sorted (text ∷ texts)) ≤ MOST_COUNTED
        → AreRoles 1 (sorted (text ∷ texts)) }
{}
