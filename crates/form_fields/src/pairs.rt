ghost use Rattle.std.specs.Prelude.{◌≡◌, ◌++◌, IfOk, OnOk};
ghost use Rattle.form_fields.specs.Pairs as spec;
ghost use Rattle.form_fields.specs.Views.{pair_views};

use crate::headers::is_form;
use http_in::{Request, Verb};
use std::alloc::Global;
use zbase::{Items, Memory, Text};

/// A name and a value, decoded.
#[derive(Debug, Drop)]
pub(crate) struct Pair {
    pub name: Text,
    pub value: Text,
}

pub(crate) type Pairs = Items<Pair>;

// Adds the names and values of a form.
#[tactic(auto, unfolding(crate::specs::Pairs::pairs_of))]
fn add_pairs(alloc: Global, text: &[u8], all: &mut Pairs) -> Result<(), Memory>
    ensures { OnOk result (pair_views all.new ≡ pair_views all.old ++ spec.pairs_of text.now) }
{
    for pair in form_urlencoded::parse(alloc, text) {
        let (name, value) = pair?;
        let name = Text::from_str(alloc, name.as_str())?;
        let value = Text::from_str(alloc, value.as_str())?;
        all.push(Pair { name, value })?;
    }
    Ok(())
}

// Whether the body is a form.
fn has_form(request: &Request) -> bool
    ensures { result ≡ spec.has_form request.now }
{
    match request.method {
        Verb::Get | Verb::Head => false,
        Verb::Post => is_form(&request.headers),
    }
}

/// The names and values of the query, and then those of the body where it is a form.
#[tactic(auto, unfolding(crate::specs::Pairs::pairs))]
pub(crate) fn pairs(alloc: Global, request: &Request) -> Result<Pairs, Memory>
    ensures { IfOk result (λ all. pair_views all ≡ spec.pairs request.now) }
{
    let mut all = Items::new(alloc);
    add_pairs(alloc, request.query.as_bytes(), &mut all)?;
    if has_form(request) {
        add_pairs(alloc, request.body.as_slice(), &mut all)?;
    }
    Ok(all)
}
