ghost use Rattle.std.specs.Prelude.{◌≡◌, ◌++◌, ℕ, true, IfOk, OnOk};
ghost use Rattle.std.specs.List.{filter, list_any};
ghost use Rattle.acquisition.specs.Acquiring as acquiring;
ghost use Rattle.acquisition.specs.Acquiring.{IsOnce, has, joined};
ghost use Rattle.acquisition.specs.Marks.{AreMarked, is_marked, others};

use std::alloc::Global;
use zbase::{Items, Memory, Oid, Oids};

// How many marks there are: so many that those of a path leave most other objects unmarked.
const MARKS: usize = 8192;

// How many objects are looked at together.
const BLOCK: usize = 32;

// Up to how many objects it is cheaper to look through those before each than to mark them.
const FEW: usize = 16;

/// The same objects in a list of their own.
pub(crate) fn list_of(alloc: Global, oids: &[Oid]) -> Result<Oids, Memory>
    ensures { IfOk result (λ list. list ≡ oids.now) }
{
    let items = Vec::from_slice(alloc, oids)?;
    Ok(Items::from_vec(items))
}

// Marks for the objects of a path. One that isn't marked isn't among them, so that most objects of a long wrapper are
// told from them by one look, and not by one for each container.
fn marks_of(path: &[Oid]) -> [bool; MARKS]
    ensures { AreMarked result path.now }
{
    let mut marks = [false; MARKS];
    for oid in path {
        marks[oid.0 as usize % MARKS] = true;
    }
    marks
}

// Whether one of the objects is marked. It goes on behind one that is, so that there is no branch for each.
fn any_is_marked(marks: &[bool; MARKS], oids: &[Oid]) -> bool
    ensures { result ≡ list_any (is_marked marks.now) oids.now }
{
    let mut any = false;
    for oid in oids {
        any |= marks[oid.0 as usize % MARKS];
    }
    any
}

// Whether the object is on the path, which has these marks.
fn is_on(path: &[Oid], marks: &[bool; MARKS], oid: Oid) -> bool
    requires { AreMarked marks.now path.now }
    ensures { result ≡ has path.now oid }
{
    marks[oid.0 as usize % MARKS] && path.contains(&oid)
}

// Puts those objects of a block that aren't on the path, one by one.
fn push_others(
    out: &mut Vec<Oid>,
    path: &[Oid],
    marks: &[bool; MARKS],
    block: &[Oid],
) -> Result<(), Memory>
    requires { AreMarked marks.now path.now }
    ensures { OnOk result (out.new.items ≡ out.old.items ++ others path.now block.now) }
{
    for oid in block {
        if !is_on(path, marks, *oid) {
            out.push(*oid)?;
        }
    }
    Ok(())
}

// The same, in one piece where no object of the block is marked.
fn put_others(
    out: &mut Vec<Oid>,
    path: &[Oid],
    marks: &[bool; MARKS],
    block: &[Oid],
) -> Result<(), Memory>
    requires { AreMarked marks.now path.now }
    ensures { OnOk result (out.new.items ≡ out.old.items ++ others path.now block.now) }
{
    if any_is_marked(marks, block) {
        return push_others(out, path, marks, block);
    }
    out.extend_from_slice(block)?;
    Ok(())
}

// The objects of a path, and behind them those of the order that aren't on it. The path has marks.
fn join_by_marks(alloc: Global, path: &[Oid], order: &[Oid]) -> Result<Oids, Memory>
    requires { IsOnce order.now }
    ensures { IfOk result (λ list. list ≡ joined path.now order.now) }
{
    let marks = marks_of(path);
    let mut out = Vec::with_capacity(alloc, path.len() + order.len())?;
    out.extend_from_slice(path)?;
    let mut rest = order;
    while !rest.is_empty() {
        let (block, behind) = rest.split_at(rest.len().min(BLOCK));
        put_others(&mut out, path, &marks, block)?;
        rest = behind;
    }
    Ok(Items::from_vec(out))
}

// Puts an object behind the others, where it isn't among them.
fn put(out: &mut Vec<Oid>, oid: Oid) -> Result<(), Memory>
    ensures { OnOk result (out.new.items ≡ acquiring.put out.old.items oid) }
{
    if !out.contains(&oid) {
        out.push(oid)?;
    }
    Ok(())
}

// As by marks, for a short path and a short order: each object is looked for among those before it.
fn join_few(path: Oids, order: &[Oid]) -> Result<Oids, Memory>
    ensures { IfOk result (λ list. list ≡ joined path order.now) }
{
    let mut out = path.into_vec();
    for oid in order {
        put(&mut out, *oid)?;
    }
    Ok(Items::from_vec(out))
}

/// The objects of a path, and behind them those of the order that aren't on it.
pub(crate) fn join(alloc: Global, path: Oids, order: &[Oid]) -> Result<Oids, Memory>
    requires { IsOnce order.now }
    ensures { IfOk result (λ list. list ≡ joined path order.now) }
{
    if path.len() + order.len() <= FEW {
        join_few(path, order)
    } else {
        join_by_marks(alloc, path.as_slice(), order)
    }
}
