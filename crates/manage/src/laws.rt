ghost use Rattle.std.specs.Prelude.{◌≡◌, ℕ, Bool, List, Some, map};
ghost use Rattle.std.specs.List.{list_any, AllByRecursion};
ghost use Rattle.std.specs.Str.{bytes_eq};
ghost use Rattle.traverse.specs.Publishing as publishing;
ghost use Rattle.manage.specs.declared.call.Call.{Call};
ghost use Rattle.manage.specs.Calls.{all_calls, call_named, name_of};
ghost use Rattle.manage.specs.Laws.{AreNumbered, ChangesAreLawful, IsRightRow, SettlesRightly, WritesLawfully};
ghost use Rattle.manage.specs.Table.{table};

use user_folder::kept_passwords_are_lawful;
use zobject::{
    children_may_change, local_roles_may_change, names_may_change, new_objects_keep_the_rules,
    properties_may_change, proxy_roles_may_change, roles_may_be_sorted, settings_may_change,
    sources_may_change, texts_keep_their_rules, users_may_be_added,
};

/// The names of the calls are those by which a path leads to a call, and each name is its call's alone.
pub fn calls_are_those_of_traversal()
    ensures same { map name_of all_calls ≡ publishing.calls }
    ensures own { (call : Call) → call_named (name_of call) ≡ Some call }
    ensures named { (name : List ℕ) → list_any (λ call. bytes_eq call name) publishing.calls ≡ Bool.true
        → (call : Call) × (call_named name ≡ Some call) × (name ≡ name_of call) }
{}

/// A call needs one of the permissions.
pub fn permissions_are_numbered()
    ensures { AreNumbered }
{}

/// What a call writes is settled to the records of the objects that the table has, with the ids of new objects in their
/// places.
pub fn written_records_settle()
    ensures { SettlesRightly }
{}

/// What a call writes keeps the rules of a change: each object that it names is here, none twice, and holes fit; so it is a
/// lawful change of whoever makes it, where each object that is here has a value in a known fact.
pub fn written_records_are_lawful()
    ensures here { WritesLawfully }
    ensures change { ChangesAreLawful }
{}

/// What a row of the table writes keeps the rules of objects, where it isn't refused and the object called on does.
pub fn rows_keep_the_rules()
    ensures { (call : Call) → AllByRecursion IsRightRow (table call) }
{
    children_may_change();
    kept_passwords_are_lawful();
    local_roles_may_change();
    names_may_change();
    new_objects_keep_the_rules();
    properties_may_change();
    proxy_roles_may_change();
    roles_may_be_sorted();
    settings_may_change();
    sources_may_change();
    texts_keep_their_rules();
    users_may_be_added();
}
