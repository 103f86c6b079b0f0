ghost use Rattle.std.specs.Prelude.{◌≡◌, Ok, IfOk, IfErr};
ghost use Rattle.form_fields.specs.Fields.{fields_of};
ghost use Rattle.form_fields.specs.Rows.{Fails};

use crate::grouping::grouped;
use crate::pairs::pairs;
use crate::rows::rows_of;
use crate::{FieldRefusal, Fields};
use http_in::Request;
use std::alloc::Global;

/// The fields of a request: those of its query, and those of its body where a POST has a form there.
///
/// Errors: the first value under `:int` that isn't a whole number of 64 bits, by its name without suffixes; want of
/// memory. URL Standard, "application/x-www-form-urlencoded"; Zope Book, "Variables and Advanced DTML".
#[tactic(auto, unfolding(crate::specs::Fields::fields_of))]
pub fn fields(alloc: Global, request: &Request) -> Result<Fields, FieldRefusal>
    ensures ok { IfOk result (λ fields. fields_of request.now ≡ Ok fields) }
    ensures err { IfErr result (λ refusal. Fails refusal (fields_of request.now)) }
{
    let rows = rows_of(alloc, pairs(alloc, request)?)?;
    Ok(grouped(alloc, rows)?)
}
