ghost use Rattle.std.specs.Prelude.{◌≡◌, ◌≤◌, ℕ, List, Option, IfOk, Some, option_map};
ghost use Rattle.std.specs.Fmt.{signed_decimal};
ghost use Rattle.evaluator.specs.declared.reply.Shown.{Shown};
ghost use Rattle.zobject.specs.declared.object.Object.{Object};
ghost use Rattle.zknown.specs.Seen.{Seen};
ghost use Rattle.dtml_parse.specs.Views.{arg_view, marks_view};
ghost use Rattle.namespace.specs.Looks.{looked};
ghost use Rattle.namespace.specs.Names.{text as value_text};
ghost use Rattle.namespace.specs.Told.{Shows};
ghost use Rattle.dtml_values.specs.Told.{told, left_of};
ghost use Rattle.dtml_render.specs.Plain.{is_plain};
ghost use Rattle.dtml_render.specs.Rendering as rendering;

use dtml_format::{Marks, shape};
use dtml_parse::{Arg, VarTag};
use dtml_values::{Budget, RenderRefusal, put};
use namespace::{Single, Val};
use std::alloc::Global;
use zbase::{Memory, Text};

// The decimal form of a number.
fn decimal(alloc: Global, number: i64) -> Result<Text, Memory>
    ensures { IfOk result (λ text. text ≡ signed_decimal number) }
{
    let digits = format!(in alloc; "{number}")?;
    Text::from_str(alloc, digits.as_str())
}

fn copy_if(text: Option<&Text>) -> Result<Option<Text>, Memory>
    ensures { IfOk result (λ copy. copy ≡ option_map (λ t. t.now) text.entry) }
{
    match text {
        Some(text) => Ok(Some(text.copy()?)),
        None => Ok(None),
    }
}

/// The name that an argument is; the empty text where it is an expression.
pub(crate) fn name_of(alloc: Global, arg: &Arg) -> Result<Text, Memory>
    ensures { IfOk result (λ name. name ≡ rendering.name_of (arg_view arg.now)) }
{
    match arg {
        Arg::Name(name) => name.copy(),
        Arg::Expression(_) => Ok(Text::new(alloc)),
    }
}

// The text in place of a name that has no value.
fn missing(alloc: Global, tag: &VarTag) -> Result<Text, RenderRefusal>
    ensures { (k : ℕ → Option (Seen Object)) (shown : List Shown)
        → Shows told (λ t. t) shown result (looked k shown (rendering.or_missing (arg_view tag.now.arg) tag.now.missing)) }
{
    match &tag.missing {
        Some(text) => Ok(text.copy()?),
        None => Err(RenderRefusal::NoName(name_of(alloc, &tag.arg)?)),
    }
}

// The text of a value, before its marks.
fn text_of(alloc: Global, at: u32, tag: &VarTag, found: Option<Val>) -> Result<Text, RenderRefusal>
    ensures { (k : ℕ → Option (Seen Object)) (shown : List Shown)
        → Shows told (λ t. t) shown result (looked k shown (rendering.text_of at (arg_view tag.now.arg) tag.now.missing found)) }
{
    match found {
        None => missing(alloc, tag),
        Some(Val::Single(Single::Text(text))) => Ok(text),
        Some(Val::Single(Single::Int(number))) => Ok(decimal(alloc, number)?),
        Some(Val::Single(Single::Obj(_))) | Some(Val::Seq(_)) => Err(RenderRefusal::BadValue(at)),
    }
}

fn marks_of(tag: &VarTag) -> Result<Marks, Memory>
    ensures { IfOk result (λ marks. marks ≡ rendering.marks_of (marks_view tag.now)) }
{
    let etc = copy_if(tag.etc.as_ref())?;
    Ok(Marks {
        html_quote: tag.html_quote,
        url_quote: tag.url_quote,
        newline_to_br: tag.newline_to_br,
        lower: tag.lower,
        upper: tag.upper,
        capitalize: tag.capitalize,
        size: tag.size,
        etc,
    })
}

// Whether no mark changes a text.
fn is_plain(tag: &VarTag) -> bool
    ensures { result ≡ is_plain (marks_view tag.now) }
{
    let letters = tag.lower || tag.upper || tag.capitalize;
    let others = tag.html_quote || tag.url_quote || tag.newline_to_br;
    !(letters || others || tag.size.is_some())
}

// The text of a value with its marks applied.
fn shaped(alloc: Global, at: u32, tag: &VarTag, found: Option<Val>) -> Result<Text, RenderRefusal>
    ensures { (k : ℕ → Option (Seen Object)) (shown : List Shown)
        → Shows told (λ t. t) shown result (looked k shown (rendering.shaped at (arg_view tag.now.arg) (marks_view tag.now) found)) }
{
    let text = text_of(alloc, at, tag, found)?;
    if is_plain(tag) {
        return Ok(text);
    }
    let marks = marks_of(tag)?;
    Ok(shape(alloc, text.as_str(), &marks)?)
}

/// A value is shown, behind the text so far.
pub(crate) fn put_value(
    alloc: Global,
    at: u32,
    tag: &VarTag,
    found: Option<Val>,
    budget: &mut Budget,
    out: &mut Text,
) -> Result<(), RenderRefusal>
    ensures is { (k : ℕ → Option (Seen Object)) (shown : List Shown)
        → Shows told (λ u. rendering.state out.new (left_of budget.new)) shown result
        (looked k shown (rendering.put_value at (arg_view tag.now.arg) (marks_view tag.now) out.old (found, left_of budget.old))) }
    ensures renders { budget.new.renders ≡ budget.old.renders }
    ensures tags { budget.new.tags ≡ budget.old.tags }
    ensures within { budget.new.output ≤ budget.old.output }
{
    let text = shaped(alloc, at, tag, found)?;
    put(text.as_str(), budget, out)
}

/// A text is shown with its marks applied, behind the text so far. It is copied only where a mark changes it.
pub(crate) fn put_text(
    alloc: Global,
    at: u32,
    tag: &VarTag,
    text: &Text,
    budget: &mut Budget,
    out: &mut Text,
) -> Result<(), RenderRefusal>
    ensures is { (k : ℕ → Option (Seen Object)) (shown : List Shown)
        → Shows told (λ u. rendering.state out.new (left_of budget.new)) shown result
        (looked k shown (rendering.put_value at (arg_view tag.now.arg) (marks_view tag.now) out.old (Some (value_text text.now), left_of budget.old))) }
    ensures renders { budget.new.renders ≡ budget.old.renders }
    ensures tags { budget.new.tags ≡ budget.old.tags }
    ensures within { budget.new.output ≤ budget.old.output }
{
    if is_plain(tag) {
        return put(text.as_str(), budget, out);
    }
    let copy = text.copy()?;
    let value = Val::Single(Single::Text(copy));
    put_value(alloc, at, tag, Some(value), budget, out)
}
