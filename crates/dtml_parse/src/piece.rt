ghost use Rattle.std.specs.Prelude.{◌≡◌, [], true, is_some, IfOk, IfErr};
ghost use Rattle.std.specs.List.{list_all};
ghost use Rattle.dtml_lex.specs.declared.part.PartKind.TheVariants as kinds;
ghost use Rattle.dtml_parse.specs.Trees as trees;
ghost use Rattle.dtml_parse.specs.Table as table;
ghost use Rattle.dtml_parse.specs.Pieces.{IsArg, NoArg, Says, SaysNothing, IsBound, BindsNothing, AreBound, OneBindsNothing, IsPiece};
ghost use Rattle.dtml_parse.specs.Parsing.{IsBadExpression, IsNoPiece};
ghost use Rattle.dtml_parse.specs.Views.{given_view, arg_view, marks_view, bound_view, bounds_view, piece_view};

use crate::table::{
    Given, argument_of, behind_argument, binding_of, etc_of, fits, has_word, missing_of, size_of,
};
use crate::{Arg, Binding, Bindings, VarTag};
use dtml_expr::parse_expr;
use dtml_lex::{Attribute, DtmlRefusal, PartKind, TagName};
use std::alloc::Global;
use zbase::{Items, Memory, Text};

/// What a part of a source says by itself.
#[derive(Debug, Drop)]
pub(crate) enum Piece {
    Plain(Text),
    Var(VarTag),
    Call(Arg),
    If(Arg),
    Elif(Arg),
    Else,
    Unless(Arg),
    In {
        arg: Arg,
        reverse: bool,
        skip_unauthorized: bool,
    },
    With(Arg),
    Let(Bindings),
    Comment,
    Close(TagName),
}

/// The argument that is spelled so, in the tag at a place.
fn arg_of(alloc: Global, at: usize, given: Given<'_>) -> Result<Arg, DtmlRefusal>
    ensures said { IfOk result (λ arg. IsArg (given_view given.entry) (arg_view arg)) }
    ensures refused { IfErr result (IsBadExpression at (NoArg (given_view given.entry))) }
{
    match given {
        Given::Name(name) => Ok(Arg::Name(Text::from_str(alloc, name)?)),
        Given::Expression(text) => Ok(Arg::Expression(parse_expr(alloc, text, at)?)),
    }
}

/// The argument of the tag at a place, which has one.
fn argument(alloc: Global, at: usize, attributes: &[Attribute]) -> Result<Arg, DtmlRefusal>
    requires { is_some (table.argument attributes.now) ≡ true }
    ensures said { IfOk result (λ arg. Says (table.argument attributes.now) (arg_view arg)) }
    ensures refused { IfErr result (IsBadExpression at (SaysNothing (table.argument attributes.now))) }
{
    match argument_of(attributes) {
        Some(given) => arg_of(alloc, at, given),
        None => unreachable!(),
    }
}

/// A `var` with these attributes behind its argument.
fn var_tag(alloc: Global, arg: Arg, attributes: &[Attribute]) -> Result<VarTag, Memory>
    ensures arg { IfOk result (λ tag. tag.arg ≡ arg) }
    ensures marks { IfOk result (λ tag. marks_view tag ≡ table.marks attributes.now) }
{
    let missing = missing_of(alloc, attributes)?;
    let etc = etc_of(alloc, attributes)?;
    Ok(VarTag {
        arg,
        html_quote: has_word("html_quote", attributes),
        url_quote: has_word("url_quote", attributes),
        newline_to_br: has_word("newline_to_br", attributes),
        lower: has_word("lower", attributes),
        upper: has_word("upper", attributes),
        capitalize: has_word("capitalize", attributes),
        missing,
        size: size_of(attributes),
        etc,
    })
}

/// The `var` that an entity means.
fn entity_tag(name: Text) -> VarTag
    ensures arg { arg_view result.arg ≡ trees.Name name }
    ensures marks { marks_view result ≡ table.only_html_quote }
{
    VarTag {
        arg: Arg::Name(name),
        html_quote: true,
        url_quote: false,
        newline_to_br: false,
        lower: false,
        upper: false,
        capitalize: false,
        missing: None,
        size: None,
        etc: None,
    }
}

/// The binding that an attribute is, which fits its form.
fn bound(alloc: Global, at: usize, attribute: &Attribute) -> Result<Binding, DtmlRefusal>
    requires { is_some (table.binding attribute.now) ≡ true }
    ensures said { IfOk result (λ binding. IsBound (table.binding attribute.now) (bound_view binding)) }
    ensures refused { IfErr result (IsBadExpression at (BindsNothing (table.binding attribute.now))) }
{
    match binding_of(attribute) {
        Some((name, given)) => {
            let name = Text::from_str(alloc, name)?;
            let arg = arg_of(alloc, at, given)?;
            Ok(Binding { name, arg })
        }
        None => unreachable!(),
    }
}

/// No binding yet, with room for so many.
fn no_bindings(alloc: Global, count: usize) -> Result<Bindings, Memory>
    ensures { IfOk result (λ bindings. bindings ≡ []) }
{
    Ok(Items::from_vec(Vec::with_capacity(alloc, count)?))
}

/// The bindings that the attributes are, which fit their form.
fn bindings_of(alloc: Global, at: usize, attributes: &[Attribute]) -> Result<Bindings, DtmlRefusal>
    requires { list_all (λ attribute. is_some (table.binding attribute)) attributes.now ≡ true }
    ensures said { IfOk result (λ bindings. AreBound attributes.now (bounds_view bindings)) }
    ensures refused { IfErr result (IsBadExpression at (OneBindsNothing attributes.now)) }
{
    let mut bindings = no_bindings(alloc, attributes.len())?;
    for attribute in attributes {
        let binding = bound(alloc, at, attribute)?;
        bindings.push(binding)?;
    }
    Ok(bindings)
}

/// What an opening tag says.
fn opening(
    alloc: Global,
    at: usize,
    name: TagName,
    attributes: &[Attribute],
) -> Result<Piece, DtmlRefusal>
    ensures said { IfOk result (λ piece. IsPiece (kinds.Opening name attributes.now) (piece_view piece)) }
    ensures refused { IfErr result (IsNoPiece at (kinds.Opening name attributes.now)) }
{
    if !fits(alloc, name, attributes)? {
        return Err(DtmlRefusal::BadAttribute(at));
    }
    let rest = behind_argument(attributes);
    match name {
        TagName::Var => {
            let arg = argument(alloc, at, attributes)?;
            Ok(Piece::Var(var_tag(alloc, arg, rest)?))
        }
        TagName::Call => Ok(Piece::Call(argument(alloc, at, attributes)?)),
        TagName::If => Ok(Piece::If(argument(alloc, at, attributes)?)),
        TagName::Elif => Ok(Piece::Elif(argument(alloc, at, attributes)?)),
        TagName::Else => Ok(Piece::Else),
        TagName::Unless => Ok(Piece::Unless(argument(alloc, at, attributes)?)),
        TagName::In => {
            let arg = argument(alloc, at, attributes)?;
            Ok(Piece::In {
                arg,
                reverse: has_word("reverse", rest),
                skip_unauthorized: has_word("skip_unauthorized", rest),
            })
        }
        TagName::With => Ok(Piece::With(argument(alloc, at, attributes)?)),
        TagName::Let => Ok(Piece::Let(bindings_of(alloc, at, attributes)?)),
        TagName::Comment => Ok(Piece::Comment),
    }
}

/// What the part at a place says. `BadAttribute` comes where the table doesn't give the tag its attributes, else
/// `BadExpression` where one of its expressions fits no rule.
pub(crate) fn piece_of(alloc: Global, at: usize, kind: PartKind) -> Result<Piece, DtmlRefusal>
    ensures said { IfOk result (λ piece. IsPiece kind (piece_view piece)) }
    ensures refused { IfErr result (IsNoPiece at kind) }
{
    match kind {
        PartKind::Plain(text) => Ok(Piece::Plain(text)),
        PartKind::Entity(name) => Ok(Piece::Var(entity_tag(name))),
        PartKind::Opening(name, attributes) => opening(alloc, at, name, attributes.as_slice()),
        PartKind::Closing(name, attributes) => {
            if attributes.is_empty() {
                Ok(Piece::Close(name))
            } else {
                Err(DtmlRefusal::BadAttribute(at))
            }
        }
    }
}
