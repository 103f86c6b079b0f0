ghost use Rattle.std.specs.Prelude.{◌≡◌, ◌∷◌, ℕ, List, IfSome, Some, option_map, codes, false};
ghost use Rattle.zobject.specs.Texts.{begins_with};
ghost use Rattle.namespace.specs.Viewing as spec;

use crate::naming::{property_of, title_or_id};
use crate::word::{Word, word_of};
use acquisition::Wrapped;
use zbase::{Oid, Text};
use zobject::{Object, PropValue, Property};

/// The object that was viewed last.
#[derive(Clone, Copy, Debug)]
pub(crate) struct Viewed<'k> {
    pub(crate) oid: Oid,
    pub(crate) object: &'k Object,
}

fn line_of(value: &PropValue) -> Option<&Text>
    ensures { option_map (λ text. text.now) result ≡ spec.lent_value value.now }
{
    match value {
        PropValue::Line(text) => Some(text),
        PropValue::Int(_) | PropValue::Lines(_) => None,
    }
}

fn line_in<'k>(property: Option<&'k Property>) -> Option<&'k Text>
    ensures { option_map (λ text. text.now) result ≡ spec.lent_property (option_map (λ p. p.now) property.entry) }
{
    match property {
        Some(property) => line_of(&property.value),
        None => None,
    }
}

// The text that an object itself has under a name.
#[tactic(auto, unfolding(crate::specs::Viewing::lent))]
fn lent<'k>(object: &'k Object, name: &str) -> Option<&'k Text>
    ensures { option_map (λ text. text.now) result ≡ spec.lent object.now name.now }
{
    match word_of(name) {
        Word::Id => Some(&object.id),
        Word::Title => Some(&object.title),
        Word::TitleOrId => Some(title_or_id(object)),
        Word::ObjectIds => None,
        Word::ObjectValues => None,
        Word::Other => line_in(property_of(name, object.properties.as_slice())),
    }
}

/// The text that the object lends under a name, where it is the one that the wrapper is about. Takes no memory.
pub(crate) fn lent_by<'k>(viewed: &Viewed<'k>, whole: &Wrapped, name: &str) -> Option<&'k Text>
    ensures { IfSome result (λ text. (others : List ℕ) × (whole.now ≡ viewed.now.oid ∷ others) × (begins_with (codes "_") name.now ≡ false)
        × (spec.lent viewed.now.object.now name.now ≡ Some text.now)) }
{
    if name.as_bytes().starts_with(b"_") {
        return None;
    }
    match whole.order().split_first() {
        Some((first, _)) if *first == viewed.oid => lent(viewed.object, name),
        _ => None,
    }
}
