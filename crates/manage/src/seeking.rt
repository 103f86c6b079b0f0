ghost use Rattle.std.specs.Prelude.{◌≡◌, ◌++◌, ◌∷◌, ◌&&◌, ◌<◌, [], ℕ, List, length, map, not, set, true, if◌then◌else◌, IfOk, OnOk, option_map};
ghost use Rattle.std.specs.List.{filter, find};
ghost use Rattle.std.specs.Str.{bytes_eq};
ghost use Rattle.manage.specs.declared.seeking.TheConstants.{MARKS};
ghost use Rattle.manage.specs.Becoming.{is_among};
ghost use Rattle.manage.specs.Fields.{Gives};
ghost use Rattle.manage.specs.Naming.{AreMarked, IsUnnamed, Knows, has, mark_of};
ghost use Rattle.manage.specs.Refusing.{first_unknown, none_unknown};

use crate::naming::{Named, set_of};
use crate::refusal::ManageRefusal;
use std::alloc::Global;
use std::collections::BTreeSet;
use std::hash::{FoldHasher, Hasher};
use std::marker::Model;
use zbase::{Items, Memory, Text, Texts};

/// How many marks there are.
const MARKS: usize = 65_536;

/// Texts that are sought among the names of items, and those of them that weren't met yet.
///
/// Most names are none of the texts, and a mark tells so of nearly all of these without a look into the set. Where two texts
/// have one mark, the set decides.
#[derive(Drop)]
struct Sought<'a> {
    texts: BTreeSet<&'a str>,
    unmet: BTreeSet<&'a str>,
    marks: Vec<bool>,
}

impl<'a> Model for Sought<'a> {
    ghost use Rattle.manage.specs.Naming.{IsMarked, Seeking};

    ghost Value = { Seeking };

    ghost view = { λ s. record { texts = s.texts; unmet = s.unmet } };

    ghost invariant = { λ s. IsMarked s.texts s.unmet s.marks.items };
}

// ---- marks

// The place of a name's mark. Takes no memory.
#[tactic(auto, unfolding(crate::specs::Naming::mark_of))]
fn mark_of(name: &str) -> usize
    ensures is { result ≡ mark_of name.now }
    ensures within { result < MARKS }
{
    let mut hasher = FoldHasher::default();
    hasher.write(name.as_bytes());
    hasher.finish() as usize % MARKS
}

// As many marks as there are, none of which is set.
fn no_marks(alloc: Global) -> Result<Vec<bool>, Memory>
    ensures { IfOk result (λ marks. length marks.items ≡ MARKS) }
{
    Ok(vec![in alloc; false; MARKS]?)
}

fn set_mark(marks: &mut Vec<bool>, name: &str)
    requires { length marks.old.items ≡ MARKS }
    ensures { marks.new.items ≡ set marks.old.items (mark_of name.now) true }
{
    marks[mark_of(name)] = true;
}

// Marks of which those of the texts are set.
fn marks_of(alloc: Global, texts: &[Text]) -> Result<Vec<bool>, Memory>
    ensures { IfOk result (λ marks. AreMarked texts.now marks.items) }
{
    let mut marks = no_marks(alloc)?;
    for text in texts {
        set_mark(&mut marks, text.as_str());
    }
    Ok(marks)
}

// ---- texts among names

// The same set once more.
#[tactic(auto, using(crate::proofs::Marks::same_keys))]
fn copy_of<'a>(set: &BTreeSet<&'a str>) -> Result<BTreeSet<&'a str>, Memory>
    ensures { IfOk result (λ copy. copy.keys ≡ set.now.keys) }
{
    Ok(set.clone()?)
}

impl<'a> Sought<'a> {
    /// All of the texts, none of which was met.
    fn new(alloc: Global, texts: &'a [Text]) -> Result<Sought<'a>, Memory>
        ensures texts { IfOk result (λ sought. Knows sought.texts texts.now) }
        ensures unmet { IfOk result (λ sought. Knows sought.unmet texts.now) }
    {
        let marks = marks_of(alloc, texts)?;
        let texts = set_of(alloc, texts)?;
        let unmet = copy_of(&texts)?;
        Ok(Sought {
            texts,
            unmet,
            marks,
        })
    }

    /// Whether the name is one of the texts, which is met then. Takes no memory.
    fn meet(&mut self, name: &str) -> bool
        ensures is { result ≡ has self.old.texts name.now }
        ensures same { self.new.texts ≡ self.old.texts }
        ensures met { (q : List ℕ) → has self.new.unmet q ≡ (has self.old.unmet q && not (bytes_eq q name.now)) }
    {
        if !self.marks[mark_of(name)] {
            return false;
        }
        self.unmet.remove(name) || self.texts.contains(name)
    }

    /// The first of the texts that wasn't met. Takes no memory.
    fn first_unmet<'b>(&self, texts: &'b [Text]) -> Option<&'b Text>
        ensures { option_map (λ text. text.now) result ≡ find (has self.now.unmet) texts.now }
    {
        texts.iter().find(|text| self.unmet.contains(text.as_str()))
    }
}

// A copy of the item too, unless its name is sought.
fn push_other<T: Named>(
    alloc: Global,
    left: &mut Items<T>,
    sought: &mut Sought<'_>,
    item: &T,
) -> Result<(), Memory>
    ensures left { OnOk result (left.new ≡ left.old ++ (if has sought.old.texts (T.name_of item.now) then [] else item.now ∷ [])) }
    ensures same { sought.new.texts ≡ sought.old.texts }
    ensures met { (q : List ℕ) → has sought.new.unmet q ≡ (has sought.old.unmet q && not (bytes_eq q (T.name_of item.now))) }
{
    if sought.meet(item.name().as_str()) {
        return Ok(());
    }
    left.push(item.copied(alloc)?)
}

// Copies of the items whose names aren't sought; each of the texts is met that is the name of one.
fn unsought<T: Named>(
    alloc: Global,
    items: &[T],
    sought: &mut Sought<'_>,
) -> Result<Items<T>, Memory>
    ensures left { IfOk result (λ left. left ≡ filter (λ x. not (has sought.old.texts (T.name_of x))) items.now) }
    ensures unmet { OnOk result (IsUnnamed sought.old.unmet sought.new.unmet (map T.name_of items.now)) }
{
    let mut left = Items::from_vec(Vec::with_capacity(alloc, items.len())?);
    for item in items {
        push_other(alloc, &mut left, sought, item)?;
    }
    Ok(left)
}

/// Copies of the items that none of the texts names, and the first of the texts that names none. Goes through the items
/// once, and no text is looked for among them.
pub(crate) fn part_by_name<'t, T: Named>(
    alloc: Global,
    items: &[T],
    texts: &'t [Text],
) -> Result<(Items<T>, Option<&'t Text>), Memory>
    ensures left { IfOk result (λ parted. parted.0 ≡ filter (λ x. not (is_among texts.now (T.name_of x))) items.now) }
    ensures unknown { IfOk result (λ parted. option_map (λ text. text.now) parted.1 ≡ first_unknown (map T.name_of items.now) texts.now) }
{
    let mut sought = Sought::new(alloc, texts)?;
    let left = unsought(alloc, items, &mut sought)?;
    Ok((left, sought.first_unmet(texts)))
}

/// Copies of the items that no id names. Each of the ids is the name of an item; the first that isn't is told.
pub(crate) fn others<T: Named>(
    alloc: Global,
    items: &[T],
    ids: &Texts,
) -> Result<Items<T>, ManageRefusal>
    ensures known { Gives (λ left. tt) result (none_unknown (first_unknown (map T.name_of items.now) ids.now)) }
    ensures left { IfOk result (λ left. left ≡ filter (λ x. not (is_among ids.now (T.name_of x))) items.now) }
{
    let (left, unknown) = part_by_name(alloc, items, ids.as_slice())?;
    match unknown {
        Some(id) => Err(ManageRefusal::NoSuchId(id.copy()?)),
        None => Ok(left),
    }
}
