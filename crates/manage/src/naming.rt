ghost use Rattle.std.specs.Prelude.{◌≡◌, ℕ, List, map, IfOk};
ghost use Rattle.zobject.specs.Sorting.{sorted as sorted_texts};
ghost use Rattle.manage.specs.Becoming.{is_among};
ghost use Rattle.manage.specs.Naming.{Knows, keys_now};

use crate::copying::Copied;
use std::alloc::Global;
use std::collections::BTreeSet;
use zbase::{Memory, Text, Texts};
use zobject::{Child, Local, Property, User};

/// What a list has items of that are told by a name.
pub(crate) trait Named: Copied {
    /// The name.
    ghost name_of: { Self → List ℕ };

    /// The name.
    fn name(&self) -> &Text
        ensures { result.now ≡ name_of self.now };
}

impl Named for Child {
    ghost use Rattle.zobject.specs.declared.object.Child.{Child};

    ghost name_of = { λ (c : Child). c.name };

    fn name(&self) -> &Text {
        &self.name
    }
}

impl Named for Local {
    ghost use Rattle.zobject.specs.declared.object.Local.{Local};

    ghost name_of = { λ (l : Local). l.user };

    fn name(&self) -> &Text {
        &self.user
    }
}

impl Named for Property {
    ghost use Rattle.zobject.specs.declared.object.Property.{Property};

    ghost name_of = { λ (p : Property). p.name };

    fn name(&self) -> &Text {
        &self.name
    }
}

impl Named for User {
    ghost use Rattle.zobject.specs.declared.object.User.{User};

    ghost name_of = { λ (u : User). u.name };

    fn name(&self) -> &Text {
        &self.name
    }
}

// ---- texts

/// A set of texts, which tells whether a text is among them: so no list is gone through for each text of another one.
pub(crate) fn set_of<'a>(alloc: Global, texts: &'a [Text]) -> Result<BTreeSet<&'a str>, Memory>
    ensures sorted { IfOk result (λ set. keys_now set ≡ sorted_texts texts.now) }
    ensures knows { IfOk result (λ set. Knows set texts.now) }
{
    let mut set = BTreeSet::new(alloc);
    for text in texts {
        set.insert(text.as_str())?;
    }
    Ok(set)
}

/// Texts by bytes, each once.
pub(crate) fn sorted(alloc: Global, texts: &Texts) -> Result<Texts, Memory>
    ensures { IfOk result (λ roles. roles ≡ sorted_texts texts.now) }
{
    let set = set_of(alloc, texts.as_slice())?;
    let mut sorted = Texts::new(alloc);
    for text in set.iter() {
        sorted.push(Text::from_str(alloc, *text)?)?;
    }
    Ok(sorted)
}

// ---- items that have names

/// Whether one of the items has that name. Takes no memory.
pub(crate) fn is_taken<T: Named>(items: &[T], name: &Text) -> bool
    ensures { result ≡ is_among (map T.name_of items.now) name.now }
{
    for item in items {
        if name.as_str() == item.name().as_str() {
            return true;
        }
    }
    false
}
