ghost use Rattle.std.specs.Prelude.{◌≡◌, IfOk};

use crate::label::Label;
use acquisition::Wrapped;
use std::alloc::Global;
use zbase::{Items, Memory, Text};

/// A value that holds no others.
#[derive(Debug, Drop)]
pub enum Single {
    Text(Text),
    Int(i64),
    /// An object, reached through others.
    Obj(Wrapped),
}

/// Values in order.
pub type Singles = Items<Single>;

/// The value of a name or an expression. No sequence holds a sequence.
#[derive(Debug, Drop)]
pub enum Val {
    Single(Single),
    Seq(Singles),
}

/// A name with its value.
#[derive(Debug, Drop)]
pub struct Named {
    pub name: Label,
    pub val: Val,
}

/// Names with their values; the first of a name counts.
pub type Names = Items<Named>;

/// What was pushed on a stack of names: names with their values, or an object.
#[derive(Debug, Drop)]
pub enum Layer {
    Names(Names),
    Object(Wrapped),
}

impl Single {
    /// The same value once more.
    pub fn copy(&self) -> Result<Single, Memory>
        ensures { IfOk result (λ single. single ≡ self.now) }
    {
        match self {
            Single::Text(text) => Ok(Single::Text(text.copy()?)),
            Single::Int(number) => Ok(Single::Int(*number)),
            Single::Obj(object) => Ok(Single::Obj(object.copy()?)),
        }
    }
}

fn copy_all(alloc: Global, all: &[Single]) -> Result<Singles, Memory>
    ensures { IfOk result (λ copies. copies ≡ all.now) }
{
    let mut copies = Items::from_vec(Vec::with_capacity(alloc, all.len())?);
    for single in all {
        copies.push(single.copy()?)?;
    }
    Ok(copies)
}

impl Val {
    /// The same value once more.
    pub fn copy(&self) -> Result<Val, Memory>
        ensures { IfOk result (λ val. val ≡ self.now) }
    {
        match self {
            Val::Single(single) => Ok(Val::Single(single.copy()?)),
            Val::Seq(all) => Ok(Val::Seq(copy_all(all.alloc(), all.as_slice())?)),
        }
    }
}
