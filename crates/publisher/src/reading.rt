ghost use Rattle.std.specs.Prelude.{ℕ, List, IfErr, IfOk};
ghost use Rattle.zbase.specs.Query.{Told};
ghost use Rattle.zknown.specs.declared.kept.Kept.{Kept};
ghost use Rattle.publisher.specs.Faults.{told, comes_to};
ghost use Rattle.publisher.specs.Site as spec;
ghost use Rattle.publisher.specs.Underway.{IsRead};

use crate::asking::{credentials_in, fields_in};
use crate::refusal::SiteRefusal;
use form_fields::Fields;
use http_in::Request;
use std::alloc::Global;
use zbase::Text;

/// What was read of a request: its fields, and the name and the password that it carries, if any.
#[derive(Drop)]
pub(crate) struct Read {
    pub(crate) fields: Fields,
    pub(crate) credentials: Option<(Text, Text)>,
}

/// Reads a request.
pub(crate) fn read_request(alloc: Global, request: &Request) -> Result<Read, SiteRefusal>
    ensures read { IfOk result (λ read. IsRead read request.now) }
    ensures refused { IfErr result (λ e. (rows : List (ℕ × Kept)) → Told (told e) (comes_to rows (spec.request request.now))) }
{
    let fields = fields_in(alloc, request)?;
    let credentials = credentials_in(alloc, request)?;
    Ok(Read {
        fields,
        credentials,
    })
}
