ghost use Rattle.std.specs.Prelude.{◌≡◌, ◌++◌, ◌∷◌, ◌<◌, [], IfOk, OnOk, pos};
ghost use Rattle.dtml_render.specs.Rendering as rendering;

use namespace::{Label, Named, Names, Single, Singles, Val};
use std::alloc::Global;
use zbase::{Items, Memory, Text};

// How many names an item has.
const ITEM_NAMES: usize = 7;

// Adds a name for a number.
fn put_counted(names: &mut Names, name: &'static str, number: u32) -> Result<(), Memory>
    ensures { OnOk result (names.new ≡ names.old ++ rendering.counted name.now number ∷ []) }
{
    let name = Label::word(name);
    let val = Val::Single(Single::Int(i64::from(number)));
    names.push(Named { name, val })
}

fn bit(holds: bool) -> u32
    ensures { result ≡ rendering.bit holds }
{
    if holds { 1 } else { 0 }
}

/// The names of an item of a sequence.
///
/// Zope Book, appendix "DTML Reference", `in`.
pub(crate) fn item_names(
    alloc: Global,
    many: usize,
    before: u32,
    item: &Single,
) -> Result<Names, Memory>
    requires { before < 4294967295 }
    ensures { IfOk result (λ names. names ≡ rendering.item_names many before item.now) }
{
    let mut names = Items::from_vec(Vec::with_capacity(alloc, ITEM_NAMES)?);
    let name = Label::word("sequence-item");
    let val = Val::Single(item.copy()?);
    names.push(Named { name, val })?;
    let number = before + 1;
    put_counted(&mut names, "sequence-index", before)?;
    put_counted(&mut names, "sequence-number", number)?;
    put_counted(&mut names, "sequence-start", bit(before == 0))?;
    put_counted(&mut names, "sequence-end", bit(number as usize == many))?;
    put_counted(&mut names, "sequence-even", bit(before % 2 == 0))?;
    put_counted(&mut names, "sequence-odd", bit(before % 2 == 1))?;
    Ok(names)
}

/// One name with its value.
pub(crate) fn one_name(alloc: Global, name: &Text, val: Val) -> Result<Names, Memory>
    ensures { IfOk result (λ names. names ≡ record { name = name.now; val = val } ∷ []) }
{
    let mut names = Items::new(alloc);
    let name = Label::of(name.copy()?);
    names.push(Named { name, val })?;
    Ok(names)
}

/// The items of a sequence, turned round where that is asked for.
pub(crate) fn turned(reverse: bool, items: Singles) -> Vec<Single>
    ensures { result.items ≡ rendering.turned reverse items }
{
    let mut items = items.into_vec();
    if reverse {
        items.reverse();
    }
    items
}
