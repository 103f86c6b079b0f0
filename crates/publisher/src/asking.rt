ghost use Rattle.std.specs.Prelude.{◌≡◌, ℕ, List, Ok, option_map};
ghost use Rattle.zbase.specs.Query.{Answers, or_else};
ghost use Rattle.zknown.specs.declared.kept.Kept.{Kept};
ghost use Rattle.zknown.specs.Seen.{objects};
ghost use Rattle.acquisition.specs.Acquiring.{first};
ghost use Rattle.form_fields.specs.Fields.{fields_of};
ghost use Rattle.manage.specs.Calling as calling;
ghost use Rattle.manage.specs.Changing as changing;
ghost use Rattle.permissions.specs.Users as users;
ghost use Rattle.permissions.specs.Verdicts as verdicts;
ghost use Rattle.traverse.specs.Publishing as publishing;
ghost use Rattle.user_folder.specs.Credentials.{credentials_of};
ghost use Rattle.publisher.specs.Faults as faults;
ghost use Rattle.publisher.specs.Faults.{told, by_shapes, comes_to, or_stops};
ghost use Rattle.publisher.specs.Site as spec;

use crate::reading::Read;
use crate::refusal::SiteRefusal;
use acquisition::Wrapped;
use form_fields::{FieldRefusal, Fields, fields};
use http_in::{Request, Verb};
use manage::{Call, Called, change, permission_at};
use permissions::{Verdict, Who, find_user, verdict_on};
use std::alloc::Global;
use traverse::{Target, publish};
use user_folder::{HeaderRefusal, credentials};
use zbase::{Oid, Text};
use zknown::Known;

/// The fields of a request.
pub(crate) fn fields_in(alloc: Global, request: &Request) -> Result<Fields, SiteRefusal>
    ensures { (rows : List (ℕ × Kept)) → Answers told (λ f. f) result (comes_to rows (or_stops faults.NotANumber (fields_of request.now))) }
{
    match fields(alloc, request) {
        Ok(fields) => Ok(fields),
        Err(FieldRefusal::NotANumber(name)) => Err(SiteRefusal::NotANumber(name)),
        Err(FieldRefusal::Memory) => Err(SiteRefusal::Memory),
    }
}

/// The name and the password that a request carries, if any.
pub(crate) fn credentials_in(
    alloc: Global,
    request: &Request,
) -> Result<Option<(Text, Text)>, SiteRefusal>
    ensures { (rows : List (ℕ × Kept)) → Answers told (λ c. c) result
        (comes_to rows (or_stops spec.bad_credentials (credentials_of (spec.authorization request.now)))) }
{
    let header = authorization(request);
    match credentials(alloc, header) {
        Ok(pair) => Ok(pair),
        Err(HeaderRefusal::BadHeader) => Err(SiteRefusal::BadCredentials),
        Err(HeaderRefusal::Memory) => Err(SiteRefusal::Memory),
    }
}

fn authorization(request: &Request) -> Option<&[u8]>
    ensures { option_map (λ h. h.now) result ≡ spec.authorization request.now }
{
    match request.headers.first_value("Authorization") {
        Some(header) => Some(header.as_bytes()),
        None => None,
    }
}

// What a path leads to.
#[tactic(auto, using(crate::proofs::Steps::shapes_are, crate::proofs::Steps::shapes_stop))]
fn target_of(alloc: Global, known: &Known, path: &[Text]) -> Result<Target, SiteRefusal>
    ensures { Answers told (λ t. t) result (comes_to known.now (by_shapes faults.Path (publishing.published path.now))) }
{
    Ok(publish(alloc, known, path)?)
}

/// What the path of a request leads to.
pub(crate) fn target(alloc: Global, known: &Known, request: &Request) -> Result<Target, SiteRefusal>
    ensures { Answers told (λ t. t) result (comes_to known.now (by_shapes faults.Path (publishing.published request.now.path))) }
{
    target_of(alloc, known, request.path.as_slice())
}

#[tactic(auto, using(crate::proofs::Steps::shapes_are, crate::proofs::Steps::shapes_stop))]
fn user_with(
    alloc: Global,
    known: &Known,
    credentials: Option<&(Text, Text)>,
    oid: Oid,
    permission: u8,
) -> Result<Who, SiteRefusal>
    ensures { Answers told (λ w. w) result (comes_to known.now
        (by_shapes faults.User (users.who (option_map (λ pair. pair.now) credentials.entry) oid permission))) }
{
    Ok(find_user(alloc, known, credentials, oid, permission)?)
}

/// The user of a request who needs this permission on this object.
pub(crate) fn user(
    alloc: Global,
    known: &Known,
    read: &Read,
    oid: Oid,
    permission: u8,
) -> Result<Who, SiteRefusal>
    ensures { Answers told (λ w. w) result (comes_to known.now (by_shapes faults.User (users.who read.now.credentials oid permission))) }
{
    user_with(alloc, known, read.credentials.as_ref(), oid, permission)
}

/// The user of a request who needs this permission on the object of a wrapper.
pub(crate) fn user_on(
    alloc: Global,
    known: &Known,
    read: &Read,
    on: &Wrapped,
    permission: u8,
) -> Result<Who, SiteRefusal>
    ensures { Answers told (λ w. w) result (comes_to known.now
        (by_shapes faults.User (users.who read.now.credentials (first on.now) permission))) }
{
    user(alloc, known, read, on.oid(), permission)
}

// The verdict for a user on an object.
#[tactic(auto, using(crate::proofs::Steps::shapes_are, crate::proofs::Steps::shapes_stop))]
fn verdict_of(
    alloc: Global,
    known: &Known,
    user: &Who,
    oid: Oid,
    permission: u8,
) -> Result<Verdict, SiteRefusal>
    ensures { Answers told (λ v. v) result (comes_to known.now (by_shapes faults.User (verdicts.verdict_on user.now oid permission))) }
{
    Ok(verdict_on(alloc, user, known, oid, permission)?)
}

/// The verdict for a user on the object of a wrapper.
pub(crate) fn verdict(
    alloc: Global,
    known: &Known,
    user: &Who,
    on: &Wrapped,
    permission: u8,
) -> Result<Verdict, SiteRefusal>
    ensures { Answers told (λ v. v) result (comes_to known.now (by_shapes faults.User (verdicts.verdict_on user.now (first on.now) permission))) }
{
    verdict_of(alloc, known, user, on.oid(), permission)
}

/// The permission that a call needs on an object.
#[tactic(auto, using(crate::proofs::Steps::calls_are, crate::proofs::Steps::calls_stop))]
pub(crate) fn permission(
    known: &Known,
    call: Call,
    verb: Verb,
    on: &Wrapped,
) -> Result<u8, SiteRefusal>
    ensures { Answers told (λ n. n) result (comes_to known.now (by_shapes faults.Call (calling.permission_at call verb (first on.now)))) }
{
    Ok(permission_at(known, call, verb, on)?)
}

/// What a call on an object comes to.
#[tactic(auto, using(crate::proofs::Steps::changes_are, crate::proofs::Steps::changes_stop))]
pub(crate) fn change_on(
    alloc: Global,
    call: Call,
    on: &Wrapped,
    known: &Known,
    fields: &Fields,
) -> Result<Called, SiteRefusal>
    requires lawful { changing.KeepRules (objects known.now) }
    ensures { Answers told (λ c. c) result (comes_to known.now (or_else faults.Call (changing.change call (first on.now) fields.now))) }
{
    Ok(change(alloc, call, on, known, fields)?)
}
