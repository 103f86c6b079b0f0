ghost use Rattle.std.specs.Prelude.{◌≡◌, ◌++◌, ◌∷◌, [], ℕ, List, None, OnOk, length};
ghost use Rattle.std.specs.List.{position};
ghost use Rattle.std.specs.Str.{bytes_eq};
ghost use Rattle.form_fields.specs.Firsts.{AreAt};

use std::alloc::Global;
use std::collections::BTreeMap;
use zbase::Memory;

/// Where each name stands in a list, by the name.
pub(crate) type Places = BTreeMap<String, usize>;

/// The place of a name.
pub(crate) fn place_of(places: &Places, name: &str) -> Option<usize>
    ensures { (names : List (List ℕ)) → AreAt names places.now → result ≡ position (λ n. bytes_eq n name.now) names }
{
    places.get(name).copied()
}

/// Takes in a name that isn't there yet, behind the others.
pub(crate) fn put_name(
    alloc: Global,
    places: &mut Places,
    name: &str,
    place: usize,
) -> Result<(), Memory>
    ensures { OnOk result ((names : List (List ℕ)) → AreAt names places.old → position (λ n. bytes_eq n name.now) names ≡ None → place ≡ length names
        → AreAt (names ++ name.now ∷ []) places.new) }
{
    let key = String::from_str(alloc, name)?;
    places.insert(key, place)?;
    Ok(())
}
