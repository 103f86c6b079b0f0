ghost use Rattle.std.specs.Prelude.{◌≡◌, ◌∷◌, ◌&&◌, [], ℕ, List, IfOk, IsTrue, None, option_map};
ghost use Rattle.std.specs.List.{IsDistinct};
ghost use Rattle.std.specs.Str.{bytes_eq};
ghost use Rattle.zobject.specs.Rules.{comes_before};
ghost use Rattle.zobject.specs.declared.object.Child.{Child as AChild};
ghost use Rattle.zcodec.specs.Reading.{Gives, and_name, child_at, children_at, document_at, folder_at, items_at, last_one, method_at, new_name_at, part_at, rises, user_folder_at};
ghost use Rattle.zcodec.specs.Given.{Knows, any_child_at};

use crate::fields::{count_of, source_of, text_of, u64_of};
use crate::lists::{list_of, room_for};
use crate::reading::proxy_of;
use crate::rows::UserRow;
use crate::unread::Unread;
use name_keys::names_differ;
use std::alloc::Global;
use std::collections::BTreeSet;
use zbase::{Oid, Text};
use zobject::limits::{MOST_CHILDREN, MOST_USERS};
use zobject::{Child, Children, Kind, Part2, Rule, Version};

/// The name of a child, which is none of the names, and which they then have.
#[tactic(auto, unfolding(crate::specs::Reading::new_name_at))]
fn new_name_of<'a>(
    names: &mut BTreeSet<&'a str>,
    bytes: &'a [u8],
) -> Result<(&'a str, &'a [u8]), Unread>
    ensures gives { (earlier : List (List ℕ)) → Knows names.old earlier → Gives (λ x. (x.0.now, x.1.now)) result (new_name_at earlier bytes.now) }
    ensures knows { (earlier : List (List ℕ)) → Knows names.old earlier → IfOk result (λ x. Knows names.new (x.0.now ∷ earlier)) }
{
    let (name, rest) = text_of(Rule::ChildName, bytes)?;
    if names.insert(name)? {
        Ok((name, rest))
    } else {
        Err(Unread::Bad(bytes.len()))
    }
}

/// A child under a new name.
#[tactic(auto, unfolding(crate::specs::Reading::child_at))]
fn child_of<'a>(
    alloc: Global,
    names: &mut BTreeSet<&'a str>,
    bytes: &'a [u8],
) -> Result<(Child, &'a [u8]), Unread>
    ensures gives { (earlier : List (List ℕ)) → Knows names.old earlier → Gives (λ x. (x.0, x.1.now)) result (child_at earlier bytes.now) }
    ensures knows { (earlier : List (List ℕ)) → Knows names.old earlier → IfOk result (λ x. Knows names.new (x.0.name ∷ earlier)) }
{
    let (name, rest) = new_name_of(names, bytes)?;
    let (oid, rest) = u64_of(rest)?;
    let name = Text::from_str(alloc, name)?;
    let oid = Oid(oid);
    Ok((Child { name, oid }, rest))
}

/// So many children, whose names a set tells apart.
fn told_apart_of(alloc: Global, count: u16, bytes: &[u8]) -> Result<(Children, &[u8]), Unread>
    ensures { Gives (λ x. (x.0, x.1.now)) result (items_at child_at and_name count [] bytes.now) }
{
    let mut children = room_for(alloc, count, bytes)?;
    let mut names = BTreeSet::new(alloc);
    let mut rest = bytes;
    for _ in 0..count {
        let (child, after) = child_of(alloc, &mut names, rest)?;
        children.push(child)?;
        rest = after;
    }
    Ok((children, rest))
}

/// A child, whatever the others are.
#[tactic(auto, unfolding(crate::specs::Given::any_child_at))]
fn any_child_of(alloc: Global, bytes: &[u8]) -> Result<(Child, &[u8]), Unread>
    ensures { Gives (λ x. (x.0, x.1.now)) result (any_child_at None bytes.now) }
{
    let (name, rest) = text_of(Rule::ChildName, bytes)?;
    let (oid, rest) = u64_of(rest)?;
    let name = Text::from_str(alloc, name)?;
    let oid = Oid(oid);
    Ok((Child { name, oid }, rest))
}

/// Whether names that rise go on rising with a child behind the last one.
fn goes_on_rising(rising: bool, last: Option<&Child>, child: &Child) -> bool
    ensures { result ≡ (rising && rises comes_before (option_map (λ c. c.now.name) last.entry) child.now.name) }
{
    match last {
        Some(last) => rising && last.name.as_str() < child.name.as_str(),
        None => rising,
    }
}

/// So many children, whatever their names are, and whether these rise.
fn any_children_of(
    alloc: Global,
    count: u16,
    bytes: &[u8],
) -> Result<(Children, bool, &[u8]), Unread>
    ensures gives { Gives (λ x. (x.0, x.2.now)) result (items_at any_child_at last_one count None bytes.now) }
    ensures apart { IfOk result (λ x. IsTrue x.1 → IsDistinct (λ (c d : AChild). bytes_eq c.name d.name) x.0) }
{
    let mut children = room_for(alloc, count, bytes)?;
    let mut rising = true;
    let mut rest = bytes;
    for _ in 0..count {
        let (child, after) = any_child_of(alloc, rest)?;
        rising = goes_on_rising(rising, children.as_slice().last(), &child);
        children.push(child)?;
        rest = after;
    }
    Ok((children, rising, rest))
}

/// So many children, each name once. Where their names rise or have different keys they need no set.
#[tactic(auto, using(crate::proofs::Distinct::told_apart))]
fn each_child_of(alloc: Global, count: u16, bytes: &[u8]) -> Result<(Children, &[u8]), Unread>
    ensures { Gives (λ x. (x.0, x.1.now)) result (items_at child_at and_name count [] bytes.now) }
{
    match any_children_of(alloc, count, bytes) {
        Ok((children, rising, rest)) => {
            if rising {
                Ok((children, rest))
            } else if names_differ(alloc, children.as_slice())? {
                Ok((children, rest))
            } else {
                told_apart_of(alloc, count, bytes)
            }
        }
        Err(Unread::Memory) => Err(Unread::Memory),
        Err(Unread::Bad(_)) => told_apart_of(alloc, count, bytes),
    }
}

#[tactic(auto, unfolding(crate::specs::Reading::children_at))]
fn children_of(alloc: Global, bytes: &[u8]) -> Result<(Children, &[u8]), Unread>
    ensures { Gives (λ x. (x.0, x.1.now)) result (children_at bytes.now) }
{
    let (count, rest) = count_of(0, MOST_CHILDREN, bytes)?;
    each_child_of(alloc, count, rest)
}

#[tactic(auto, unfolding(crate::specs::Reading::folder_at))]
fn folder_of(alloc: Global, bytes: &[u8]) -> Result<(Part2, &[u8]), Unread>
    ensures { Gives (λ x. (x.0, x.1.now)) result (folder_at bytes.now) }
{
    let (children, rest) = children_of(alloc, bytes)?;
    Ok((Part2::Folder(children), rest))
}

#[tactic(auto, unfolding(crate::specs::Reading::method_at))]
fn method_of(alloc: Global, version: Version, bytes: &[u8]) -> Result<(Part2, &[u8]), Unread>
    ensures { Gives (λ x. (x.0, x.1.now)) result (method_at version bytes.now) }
{
    let (source, rest) = source_of(alloc, bytes)?;
    let (proxy, rest) = proxy_of(alloc, version, rest)?;
    Ok((Part2::Method { source, proxy }, rest))
}

#[tactic(auto, unfolding(crate::specs::Reading::document_at))]
fn document_of(alloc: Global, version: Version, bytes: &[u8]) -> Result<(Part2, &[u8]), Unread>
    ensures { Gives (λ x. (x.0, x.1.now)) result (document_at version bytes.now) }
{
    let (source, rest) = source_of(alloc, bytes)?;
    let (proxy, rest) = proxy_of(alloc, version, rest)?;
    Ok((Part2::Document { source, proxy }, rest))
}

#[tactic(auto, unfolding(crate::specs::Reading::user_folder_at))]
fn user_folder_of(alloc: Global, bytes: &[u8]) -> Result<(Part2, &[u8]), Unread>
    ensures { Gives (λ x. (x.0, x.1.now)) result (user_folder_at bytes.now) }
{
    let (users, rest) = list_of(alloc, &UserRow, 0, MOST_USERS, bytes)?;
    Ok((Part2::UserFolder(users), rest))
}

/// The part of an object that only its kind has.
pub(crate) fn part_of(
    alloc: Global,
    version: Version,
    kind: Kind,
    bytes: &[u8],
) -> Result<(Part2, &[u8]), Unread>
    ensures { Gives (λ x. (x.0, x.1.now)) result (part_at version kind bytes.now) }
{
    match kind {
        Kind::Folder => folder_of(alloc, bytes),
        Kind::Method => method_of(alloc, version, bytes),
        Kind::Document => document_of(alloc, version, bytes),
        Kind::UserFolder => user_folder_of(alloc, bytes),
    }
}
