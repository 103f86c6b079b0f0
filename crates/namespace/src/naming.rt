ghost use Rattle.std.specs.Prelude.{◌≡◌, ℕ, List, [], IfOk, Ok, Option, Some, option_map};
ghost use Rattle.std.specs.List.{find};
ghost use Rattle.std.specs.Str.{bytes_eq};
ghost use Rattle.zbase.specs.Query.{run};
ghost use Rattle.zobject.specs.declared.object.Object.{Object as ObjectValue};
ghost use Rattle.zobject.specs.Shapes.{form_of, shape_of};
ghost use Rattle.zknown.specs.Seen.{Seen, objects};
ghost use Rattle.evaluator.specs.declared.reply.Shown.{Shown as ShownObject};
ghost use Rattle.acquisition.specs.Acquiring.{here};
ghost use Rattle.namespace.specs.Hits.{hits, OnlyFinds};
ghost use Rattle.namespace.specs.Locating as locating;
ghost use Rattle.namespace.specs.Looks.{Looks, looked};
ghost use Rattle.namespace.specs.Names as spec;
ghost use Rattle.namespace.specs.declared.refusal.NameRefusal.{NameRefusal as Refusal};
ghost use Rattle.namespace.specs.declared.val.Val.{Val as Value};
ghost use Rattle.namespace.specs.Told.{told, OnlyHits, Shows};

use crate::hit::Hit;
use crate::looks::{enter, reach, see, view_role};
use crate::refusal::NameRefusal;
use crate::showing::Showing;
use crate::val::{Single, Singles, Val};
use crate::viewer::Viewer;
use crate::word::{Word, word_of};
use acquisition::Wrapped;
use permissions::Who;
use std::alloc::Global;
use zbase::{Items, Memory, Oid, Text};
use zknown::Known;
use zobject::{Child, Object, Part2, PropValue, Property};

fn text_value(text: &Text) -> Result<Val, Memory>
    ensures { IfOk result (λ val. val ≡ spec.text text.now) }
{
    Ok(Val::Single(Single::Text(text.copy()?)))
}

/// The title of an object, or its id where that is empty. Takes no memory.
pub(crate) fn title_or_id(object: &Object) -> &Text
    ensures { result.now ≡ spec.title_or_id object.now }
{
    if object.title.is_empty() {
        &object.id
    } else {
        &object.title
    }
}

// A text of an object, which needs a view.
fn viewed_text(
    viewer: &Viewer<'_, '_>,
    shown: &mut Showing,
    oid: Oid,
    object: &Object,
    text: &Text,
) -> Result<Option<Val>, NameRefusal>
    requires { run (objects viewer.now.known.now) (here oid) ≡ Ok object.now }
    ensures is { (of : ObjectValue → List ℕ) → of object.now ≡ text.now
        → Shows told (λ v. v) shown.new result (looked (objects viewer.now.known.now) shown.old (spec.viewed_text of viewer.now.who.now oid)) }
    ensures shown { OnlyHits shown.old shown.new result }
{
    let role = view_role(viewer.alloc, viewer.known, viewer.who, oid, object)?;
    let value = text_value(text)?;
    shown.take(viewer.alloc, oid, role)?;
    Ok(Some(value))
}

fn ids_of(alloc: Global, children: &[Child]) -> Result<Singles, Memory>
    ensures { IfOk result (λ ids. ids ≡ spec.ids_of children.now) }
{
    let mut ids = Items::from_vec(Vec::with_capacity(alloc, children.len())?);
    for child in children {
        ids.push(Single::Text(child.name.copy()?))?;
    }
    Ok(ids)
}

// The names of a folder's children, whose list the user must be granted.
#[tactic(auto, using(crate::proofs::Steps::goes, crate::proofs::Steps::stops), unfolding(crate::specs::Names::ids_in))]
fn object_ids(
    alloc: Global,
    known: &Known,
    who: &Who,
    oid: Oid,
    part: &Part2,
) -> Result<Option<Val>, NameRefusal>
    ensures { (shown : List ShownObject) → Shows told (λ v. v) shown result (looked (objects known.now) shown (spec.ids_in who.now oid (form_of part.now))) }
{
    match part {
        Part2::Folder(children) => {
            enter(alloc, known, who, oid)?;
            let ids = ids_of(alloc, children.as_slice())?;
            Ok(Some(Val::Seq(ids)))
        }
        Part2::Method { .. } | Part2::Document { .. } | Part2::UserFolder(_) => Ok(None),
    }
}

// Each child, reached through the wrapper.
#[tactic(auto, using(crate::proofs::Steps::goes, crate::proofs::Steps::stops), unfolding(crate::specs::Names::reach_each))]
fn reach_each(
    alloc: Global,
    known: &Known,
    whole: &Wrapped,
    children: &[Child],
) -> Result<Singles, NameRefusal>
    ensures { (shown : List ShownObject) → Shows told (λ all. all) shown result (looked (objects known.now) shown (spec.reach_each whole.now [] children.now)) }
{
    let mut all = Items::from_vec(Vec::with_capacity(alloc, children.len())?);
    for child in children {
        let found = reach(known, whole, child.oid)?;
        all.push(Single::Obj(found))?;
    }
    Ok(all)
}

#[tactic(auto, using(crate::proofs::Steps::goes, crate::proofs::Steps::stops))]
fn all_reached(
    alloc: Global,
    known: &Known,
    whole: &Wrapped,
    children: &[Child],
) -> Result<Option<Val>, NameRefusal>
    ensures { (shown : List ShownObject) → Shows told (λ v. v) shown result (looked (objects known.now) shown (spec.all_reached whole.now children.now)) }
{
    let all = reach_each(alloc, known, whole, children)?;
    Ok(Some(Val::Seq(all)))
}

// The children of a folder, whose list the user must be granted.
#[tactic(auto, using(crate::proofs::Steps::goes, crate::proofs::Steps::stops), unfolding(crate::specs::Locating::children_in))]
fn children_in<'k>(
    viewer: &Viewer<'_, 'k>,
    whole: &Wrapped,
    oid: Oid,
    part: &'k Part2,
) -> Result<Option<Hit<'k>>, NameRefusal>
    ensures { (shown : List ShownObject) → Shows told hits shown result
        (looked (objects viewer.now.known.now) shown (locating.children_in viewer.now.who.now whole.now oid (form_of part.now))) }
{
    match part {
        Part2::Folder(children) => {
            enter(viewer.alloc, viewer.known, viewer.who, oid)?;
            let whole = whole.copy()?;
            Ok(Some(Hit::Children(whole, children.as_slice())))
        }
        Part2::Method { .. } | Part2::Document { .. } | Part2::UserFolder(_) => Ok(None),
    }
}

fn texts(alloc: Global, lines: &[Text]) -> Result<Singles, Memory>
    ensures { IfOk result (λ all. all ≡ spec.texts lines.now) }
{
    let mut all = Items::from_vec(Vec::with_capacity(alloc, lines.len())?);
    for line in lines {
        all.push(Single::Text(line.copy()?))?;
    }
    Ok(all)
}

fn value_of(alloc: Global, value: &PropValue) -> Result<Val, Memory>
    ensures { IfOk result (λ val. val ≡ spec.value_of value.now) }
{
    match value {
        PropValue::Line(text) => Ok(Val::Single(Single::Text(text.copy()?))),
        PropValue::Int(number) => Ok(Val::Single(Single::Int(*number))),
        PropValue::Lines(lines) => Ok(Val::Seq(texts(alloc, lines.as_slice())?)),
    }
}

/// The property of that name. Takes no memory.
pub(crate) fn property_of<'a>(name: &str, properties: &'a [Property]) -> Option<&'a Property>
    ensures { option_map (λ p. p.now) result ≡ find (λ p. bytes_eq p.name name.now) properties.now }
{
    properties
        .iter()
        .find(|property| property.name.as_str() == name)
}

// The value of a property, which needs a view.
#[tactic(auto, unfolding(crate::specs::Names::property_in))]
fn viewed_property(
    viewer: &Viewer<'_, '_>,
    shown: &mut Showing,
    name: &str,
    oid: Oid,
    object: &Object,
    property: &Property,
) -> Result<Option<Val>, NameRefusal>
    requires here { run (objects viewer.now.known.now) (here oid) ≡ Ok object.now }
    requires found { find (λ p. bytes_eq p.name name.now) object.now.properties ≡ Some property.now }
    ensures is { Shows told (λ v. v) shown.new result (looked (objects viewer.now.known.now) shown.old (spec.property_in viewer.now.who.now name.now oid)) }
    ensures shown { OnlyHits shown.old shown.new result }
{
    let role = view_role(viewer.alloc, viewer.known, viewer.who, oid, object)?;
    let value = value_of(viewer.alloc, &property.value)?;
    shown.take(viewer.alloc, oid, role)?;
    Ok(Some(value))
}

// A child, reached through the wrapper.
#[tactic(auto, using(crate::proofs::Steps::goes, crate::proofs::Steps::stops), unfolding(crate::specs::Names::child_at))]
fn child_at(known: &Known, whole: &Wrapped, child: Option<Oid>) -> Result<Option<Val>, NameRefusal>
    ensures { (shown : List ShownObject) → Shows told (λ v. v) shown result (looked (objects known.now) shown (spec.child_at whole.now child)) }
{
    let Some(child) = child else {
        return Ok(None);
    };
    let found = reach(known, whole, child)?;
    Ok(Some(Val::Single(Single::Obj(found))))
}

// A property comes before a child of its name.
#[tactic(auto, using(acquisition::specs::HereLaws::here_added), unfolding(crate::specs::Names::property_or_child, zobject::specs::Shapes::shape_of))]
fn property_or_child(
    viewer: &Viewer<'_, '_>,
    shown: &mut Showing,
    name: &str,
    whole: &Wrapped,
    oid: Oid,
    object: &Object,
) -> Result<Option<Val>, NameRefusal>
    requires { run (objects viewer.now.known.now) (here oid) ≡ Ok object.now }
    ensures is { Shows told (λ v. v) shown.new result
        (looked (objects viewer.now.known.now) shown.old (spec.property_or_child viewer.now.who.now name.now whole.now oid (shape_of object.now))) }
    ensures shown { OnlyHits shown.old shown.new result }
{
    match property_of(name, object.properties.as_slice()) {
        Some(property) => { viewed_property(viewer, shown, name, oid, object, property) }
        None => child_at(viewer.known, whole, viewer.known.child(oid, object, name)),
    }
}

/// A value leads to itself. Takes no memory.
pub(crate) fn found_of<'k>(value: Option<Val>) -> Option<Hit<'k>>
    ensures is { hits result ≡ locating.found_of value }
    ensures shown { (former present : List ShownObject)
        → OnlyHits {E = Refusal} former present (Ok value) → OnlyFinds {E = Refusal} former present (Ok result) }
{
    match value {
        Some(value) => Some(Hit::Found(value)),
        None => None,
    }
}

// So does a value that was looked for.
fn given<'k>(value: Result<Option<Val>, NameRefusal>) -> Result<Option<Hit<'k>>, NameRefusal>
    ensures is { (k : ℕ → Option (Seen ObjectValue)) (former present : List ShownObject) (q : Looks (Option Value))
        → Shows told (λ v. v) present value (looked k former q) → Shows told hits present result (looked k former (locating.leading q)) }
    ensures shown { (former present : List ShownObject) → OnlyHits former present value → OnlyFinds former present result }
{
    match value {
        Ok(value) => Ok(found_of(value)),
        Err(refusal) => Err(refusal),
    }
}

#[tactic(auto, unfolding(crate::specs::Locating::located_by_word, crate::specs::Names::by_word, zobject::specs::Shapes::shape_of))]
fn by_word<'k>(
    viewer: &Viewer<'_, 'k>,
    shown: &mut Showing,
    name: &str,
    whole: &Wrapped,
    oid: Oid,
    object: &'k Object,
) -> Result<Option<Hit<'k>>, NameRefusal>
    requires { run (objects viewer.now.known.now) (here oid) ≡ Ok object.now }
    ensures is { Shows told hits shown.new result
        (looked (objects viewer.now.known.now) shown.old
        (locating.located_by_word viewer.now.who.now (spec.word_of name.now) name.now whole.now oid (shape_of object.now))) }
    ensures shown { OnlyFinds shown.old shown.new result }
{
    match word_of(name) {
        Word::Id => Ok(Some(Hit::Found(text_value(&object.id)?))),
        Word::Title => given(viewed_text(viewer, shown, oid, object, &object.title)),
        Word::TitleOrId => given(viewed_text(viewer, shown, oid, object, title_or_id(object))),
        Word::ObjectIds => given(object_ids(
            viewer.alloc,
            viewer.known,
            viewer.who,
            oid,
            &object.part,
        )),
        Word::ObjectValues => children_in(viewer, whole, oid, &object.part),
        Word::Other => given(property_or_child(viewer, shown, name, whole, oid, object)),
    }
}

// What the object itself has under the name.
#[tactic(auto, using(crate::proofs::Steps::goes_so, crate::proofs::Steps::stops), unfolding(crate::specs::Locating::located_in_one))]
fn in_one<'k>(
    viewer: &Viewer<'_, 'k>,
    shown: &mut Showing,
    name: &str,
    whole: &Wrapped,
    oid: Oid,
) -> Result<Option<Hit<'k>>, NameRefusal>
    ensures is { Shows told hits shown.new result
        (looked (objects viewer.now.known.now) shown.old (locating.located_in_one viewer.now.who.now name.now whole.now oid)) }
    ensures shown { OnlyFinds shown.old shown.new result }
{
    let object = see(viewer.known, oid)?;
    by_word(viewer, shown, name, whole, oid, object)
}

// In the first object from the left that has the name: containers before the context.
#[tactic(auto, unfolding(crate::specs::Locating::located_among))]
fn search<'k>(
    viewer: &Viewer<'_, 'k>,
    shown: &mut Showing,
    name: &str,
    whole: &Wrapped,
) -> Result<Option<Hit<'k>>, NameRefusal>
    ensures is { Shows told hits shown.new result
        (looked (objects viewer.now.known.now) shown.old (locating.located_among viewer.now.who.now name.now whole.now whole.now)) }
    ensures shown { OnlyFinds shown.old shown.new result }
{
    let mut left = whole.order();
    while let Some((oid, others)) = left.split_first() {
        let hit = in_one(viewer, shown, name, whole, *oid)?;
        if hit.is_some() {
            return Ok(hit);
        }
        left = others;
    }
    Ok(None)
}

/// What a name leads to in an object that was reached through others: in the object itself, or else in the first of
/// those that has it.
#[tactic(auto, unfolding(crate::specs::Locating::located_in))]
pub(crate) fn in_object<'k>(
    viewer: &Viewer<'_, 'k>,
    shown: &mut Showing,
    name: &str,
    whole: &Wrapped,
) -> Result<Option<Hit<'k>>, NameRefusal>
    ensures is { Shows told hits shown.new result
        (looked (objects viewer.now.known.now) shown.old (locating.located_in viewer.now.who.now whole.now name.now)) }
    ensures shown { OnlyFinds shown.old shown.new result }
{
    if name.as_bytes().starts_with(b"_") {
        return Ok(None);
    }
    search(viewer, shown, name, whole)
}

/// The value of what a name leads to: children are reached through their wrapper.
#[tactic(auto, unfolding(crate::specs::Locating::all_of))]
pub(crate) fn all_of(
    alloc: Global,
    known: &Known,
    hit: Option<Hit<'_>>,
) -> Result<Option<Val>, NameRefusal>
    ensures is { (shown : List ShownObject) → Shows told (λ v. v) shown result (looked (objects known.now) shown (locating.all_of (hits hit.entry))) }
    ensures shown { (former present : List ShownObject) → OnlyFinds {E = Refusal} former present (Ok hit.entry) → OnlyHits former present result }
{
    match hit {
        None => Ok(None),
        Some(Hit::Found(value)) => Ok(Some(value)),
        Some(Hit::Children(whole, children)) => all_reached(alloc, known, &whole, children),
    }
}
