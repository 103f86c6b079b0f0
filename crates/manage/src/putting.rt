ghost use Rattle.std.specs.Prelude.{◌≡◌, ◌++◌, ◌∷◌, [], Bool, if◌then◌else◌, IfOk, OnOk};
ghost use Rattle.std.specs.List.{filter};
ghost use Rattle.zobject.specs.Changes.{put};

use crate::copying::Copied;
use std::alloc::Global;
use zbase::{Items, Memory};
use zobject::{Local, Property, Setting, User};

/// What a list has items of that rise.
pub(crate) trait Ranked: Copied {
    /// Whether one comes before another.
    ghost before: { Self → Self → Bool };

    /// Whether it comes before another.
    fn comes_before(&self, other: &Self) -> bool
        ensures { result ≡ before self.now other.now };
}

impl Ranked for Setting {
    ghost use Rattle.std.specs.Prelude.{nat_lt};
    ghost use Rattle.zobject.specs.declared.object.Setting.{Setting};

    ghost before = { λ (s t : Setting). nat_lt s.permission t.permission };

    fn comes_before(&self, other: &Setting) -> bool {
        self.permission < other.permission
    }
}

impl Ranked for Local {
    ghost use Rattle.zobject.specs.Rules.{comes_before};
    ghost use Rattle.zobject.specs.declared.object.Local.{Local};

    ghost before = { λ (l k : Local). comes_before l.user k.user };

    fn comes_before(&self, other: &Local) -> bool {
        self.user.as_str() < other.user.as_str()
    }
}

impl Ranked for Property {
    ghost use Rattle.zobject.specs.Rules.{comes_before};
    ghost use Rattle.zobject.specs.declared.object.Property.{Property};

    ghost before = { λ (p q : Property). comes_before p.name q.name };

    fn comes_before(&self, other: &Property) -> bool {
        self.name.as_str() < other.name.as_str()
    }
}

impl Ranked for User {
    ghost use Rattle.zobject.specs.Rules.{comes_before};
    ghost use Rattle.zobject.specs.declared.object.User.{User};

    ghost before = { λ (u v : User). comes_before u.name v.name };

    fn comes_before(&self, other: &User) -> bool {
        self.name.as_str() < other.name.as_str()
    }
}

// A copy of the item too, where it comes before the other.
fn push_before<T: Ranked>(
    alloc: Global,
    all: &mut Items<T>,
    item: &T,
    other: &T,
) -> Result<(), Memory>
    ensures { OnOk result (all.new ≡ all.old ++ (if T.before item.now other.now then item.now ∷ [] else [])) }
{
    if item.comes_before(other) {
        all.push(item.copied(alloc)?)?;
    }
    Ok(())
}

// A copy of the item too, where it comes behind the other.
fn push_behind<T: Ranked>(
    alloc: Global,
    all: &mut Items<T>,
    item: &T,
    other: &T,
) -> Result<(), Memory>
    ensures { OnOk result (all.new ≡ all.old ++ (if T.before other.now item.now then item.now ∷ [] else [])) }
{
    if other.comes_before(item) {
        all.push(item.copied(alloc)?)?;
    }
    Ok(())
}

// Copies of those that come before it.
fn those_before<T: Ranked>(alloc: Global, items: &[T], other: &T) -> Result<Items<T>, Memory>
    ensures { IfOk result (λ all. all ≡ filter (λ x. T.before x other.now) items.now) }
{
    let mut all = Items::new(alloc);
    for item in items {
        push_before(alloc, &mut all, item, other)?;
    }
    Ok(all)
}

// Copies of those that come behind it.
fn those_behind<T: Ranked>(alloc: Global, items: &[T], other: &T) -> Result<Items<T>, Memory>
    ensures { IfOk result (λ all. all ≡ filter (λ x. T.before other.now x) items.now) }
{
    let mut all = Items::new(alloc);
    for item in items {
        push_behind(alloc, &mut all, item, other)?;
    }
    Ok(all)
}

/// The list with the item in its place; one that is neither before nor behind it gives way to it.
pub(crate) fn put<T: Ranked>(alloc: Global, items: &[T], item: T) -> Result<Items<T>, Memory>
    ensures { IfOk result (λ all. all ≡ put T.before item items.now) }
{
    let behind = those_behind(alloc, items, &item)?;
    let mut all = those_before(alloc, items, &item)?;
    all.push(item)?;
    for other in behind.into_vec() {
        all.push(other)?;
    }
    Ok(all)
}
