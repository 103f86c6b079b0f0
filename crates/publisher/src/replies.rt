ghost use Rattle.std.specs.Prelude.{◌≡◌, ◌++◌, ◌∷◌, [], codes, decimal, IfOk, OnOk, Some};
ghost use Rattle.evaluator.specs.declared.ask.Ask.{Ask as AskValue};
ghost use Rattle.publisher.specs.declared.halted.Halted.TheVariants as halts;
ghost use Rattle.zbase.specs.Hex.{hex16_text};
ghost use Rattle.zbase.specs.QueryLaws.{worded};
ghost use Rattle.acquisition.specs.Acquiring as acquiring;
ghost use Rattle.dtml_values.specs.Told as pages;
ghost use Rattle.evaluator.specs.Replies as lines;
ghost use Rattle.manage.specs.Calling as calling;
ghost use Rattle.traverse.specs.Publishing as publishing;
ghost use Rattle.publisher.specs.Faults as faults;
ghost use Rattle.publisher.specs.Faults.{asking, told};
ghost use Rattle.publisher.specs.Halting.{halted};
ghost use Rattle.publisher.specs.Replies as spec;

use crate::halted::Halted;
use crate::refusal::SiteRefusal;
use acquisition::AqRefusal;
use dtml_lex::DtmlRefusal;
use dtml_values::{Limit, RenderRefusal};
use evaluator::{Ask, Denial, Kind, LogRows, Reply, ShownList, permission_name};
use http_in::{HttpRefusal, Verb};
use manage::{ManageRefusal, call_name, field_name, log_page};
use std::alloc::Global;
use traverse::TravRefusal;
use zbase::{Memory, Oid, Text};

/// A plain reply of one line.
pub(crate) fn line(alloc: Global, status: u16, text: &str) -> Result<Reply, Memory>
    ensures { IfOk result (λ reply. reply ≡ lines.one_line status text.now) }
{
    Reply::one_line(alloc, status, Text::from_str(alloc, text)?)
}

// A plain reply of one line in two parts.
fn line_of(alloc: Global, status: u16, front: &str, rest: &str) -> Result<Reply, Memory>
    ensures { IfOk result (λ reply. reply ≡ lines.one_line status (front.now ++ rest.now)) }
{
    let mut text = Text::from_str(alloc, front)?;
    text.push_str(rest)?;
    Reply::one_line(alloc, status, text)
}

// A refusal of a call about an id.
fn id_line(alloc: Global, front: &str, id: u64) -> Result<Reply, Memory>
    ensures { IfOk result (λ reply. reply ≡ lines.one_line 400 (front.now ++ hex16_text id)) }
{
    let mut text = Text::from_str(alloc, front)?;
    text.push_hex16(id)?;
    Reply::one_line(alloc, 400, text)
}

// A reply about an object.
fn object_line(alloc: Global, front: &str, oid: Oid) -> Result<Reply, Memory>
    ensures { IfOk result (λ reply. reply ≡ lines.one_line 500 (front.now ++ hex16_text oid)) }
{
    let mut text = Text::from_str(alloc, front)?;
    text.push_hex16(oid.0)?;
    Reply::one_line(alloc, 500, text)
}

fn put_number(alloc: Global, out: &mut Text, number: usize) -> Result<(), Memory>
    ensures { OnOk result (out.new ≡ out.old ++ decimal number) }
{
    let text = number.to_string(alloc)?;
    out.push_str(text.as_str())
}

/// The page with this text, which shows these objects.
pub(crate) fn page_reply(text: Text, shown: ShownList) -> Reply
    ensures { result ≡ spec.page_reply text shown }
{
    Reply {
        status: 200,
        kind: Kind::Html,
        head_only: false,
        body: text,
        shown,
        denied: None,
    }
}

/// The reply that shows the newest transactions of a log.
pub(crate) fn log_reply(alloc: Global, rows: &LogRows) -> Result<Reply, Memory>
    ensures { IfOk result (λ reply. reply ≡ spec.log_reply rows.now) }
{
    Ok(Reply {
        status: 200,
        kind: Kind::Plain,
        head_only: false,
        body: log_page(alloc, rows)?,
        shown: ShownList::new(alloc),
        denied: None,
    })
}

/// The same reply to a message of that method.
pub(crate) fn by_verb(verb: Verb, mut reply: Reply) -> Reply
    ensures { result ≡ spec.by_verb verb reply }
{
    reply.head_only = match verb {
        Verb::Head => true,
        Verb::Get | Verb::Post => false,
    };
    reply
}

fn unauthorized(alloc: Global, oid: Oid, permission: u8) -> Result<Reply, Memory>
    ensures { IfOk result (λ reply. reply ≡ spec.unauthorized oid permission) }
{
    let mut reply = line_of(alloc, 401, "unauthorized: ", permission_name(permission))?;
    reply.denied = Some(Denial { oid, permission });
    Ok(reply)
}

/// The reply to a refused message.
pub(crate) fn message_reply(alloc: Global, cause: HttpRefusal) -> Result<Reply, Memory>
    ensures { IfOk result (λ reply. reply ≡ spec.message_reply cause) }
{
    match cause {
        HttpRefusal::HeadTooLarge => line(alloc, 431, "head too large"),
        HttpRefusal::BadHead => line(alloc, 400, "bad head"),
        HttpRefusal::Method => line(alloc, 501, "method not supported"),
        HttpRefusal::PathTooLong => line(alloc, 414, "path too long"),
        HttpRefusal::Chunked => line(alloc, 411, "length required"),
        HttpRefusal::BodyTooLarge => line(alloc, 413, "body too large"),
        HttpRefusal::Multipart => line(alloc, 415, "multipart refused"),
    }
}

// The number of the cause, and the place.
fn numbered(cause: DtmlRefusal) -> (usize, usize)
    ensures { spec.template_text cause ≡ spec.kind_at result.0 result.1 }
{
    match cause {
        DtmlRefusal::Memory => (0, 0),
        DtmlRefusal::BadTag(at) => (1, at),
        DtmlRefusal::Unclosed(at) => (2, at),
        DtmlRefusal::Stray(at) => (3, at),
        DtmlRefusal::BadAttribute(at) => (4, at),
        DtmlRefusal::BadExpression(at) => (5, at),
        DtmlRefusal::TooLarge(at) => (6, at),
        DtmlRefusal::TooDeep(at) => (7, at),
    }
}

fn put_template(alloc: Global, out: &mut Text, cause: DtmlRefusal) -> Result<(), Memory>
    ensures { OnOk result (out.new ≡ out.old ++ spec.template_text cause) }
{
    let (kind, at) = numbered(cause);
    put_number(alloc, out, kind)?;
    out.push_str(" at ")?;
    put_number(alloc, out, at)
}

fn bad_source(alloc: Global, cause: DtmlRefusal) -> Result<Reply, Memory>
    ensures { IfOk result (λ reply. reply ≡ lines.one_line 400 (codes "bad source: " ++ spec.template_text cause)) }
{
    let mut text = Text::from_str(alloc, "bad source: ")?;
    put_template(alloc, &mut text, cause)?;
    Reply::one_line(alloc, 400, text)
}

fn bad_source_of(alloc: Global, oid: Oid, cause: DtmlRefusal) -> Result<Reply, Memory>
    ensures { IfOk result (λ reply. reply ≡ lines.one_line 500 (codes "bad source: " ++ hex16_text oid ++ codes " " ++ spec.template_text cause)) }
{
    let mut text = Text::from_str(alloc, "bad source: ")?;
    text.push_hex16(oid.0)?;
    text.push_str(" ")?;
    put_template(alloc, &mut text, cause)?;
    Reply::one_line(alloc, 500, text)
}

fn bad_value(alloc: Global, at: u32) -> Result<Reply, Memory>
    ensures { IfOk result (λ reply. reply ≡ lines.one_line 500 (codes "bad value at " ++ decimal at)) }
{
    let mut text = Text::from_str(alloc, "bad value at ")?;
    put_number(alloc, &mut text, at as usize)?;
    Reply::one_line(alloc, 500, text)
}

fn limit_text(limit: Limit) -> &'static str
    ensures { result.now ≡ spec.limit_text (pages.limit_of limit) }
{
    match limit {
        Limit::Tags => "tags",
        Limit::Renders => "renders",
        Limit::Output => "output",
    }
}

fn refused(reply: Reply) -> Halted
    ensures { result ≡ halts.Refused reply }
{
    Halted::Refused(reply)
}

fn needed(oid: Oid) -> Halted
    ensures { result ≡ halts.Need (AskValue.Object oid) }
{
    Halted::Need(Ask::Object(oid))
}

fn path_halted(alloc: Global, cause: &TravRefusal) -> Result<Halted, Memory>
    ensures { IfOk result (λ it. halted (asking (worded faults.Path (publishing.told cause.now))) ≡ Some it) }
{
    match cause {
        TravRefusal::Memory => Err(Memory),
        TravRefusal::Need(oid) => Ok(needed(*oid)),
        TravRefusal::Broken(oid) => Ok(refused(object_line(alloc, "broken object: ", *oid)?)),
        TravRefusal::NotFound(segment) => {
            Ok(refused(line_of(alloc, 404, "not found: ", segment.as_str())?))
        }
        TravRefusal::TooDeep => Ok(refused(line(alloc, 500, "too deep")?)),
    }
}

fn user_halted(alloc: Global, cause: &AqRefusal) -> Result<Halted, Memory>
    ensures { IfOk result (λ it. halted (asking (worded faults.User (acquiring.told cause.now))) ≡ Some it) }
{
    match cause {
        AqRefusal::Memory => Err(Memory),
        AqRefusal::Need(oid) => Ok(needed(*oid)),
        AqRefusal::Broken(oid) => Ok(refused(object_line(alloc, "broken object: ", *oid)?)),
        AqRefusal::TooDeep => Ok(refused(line(alloc, 500, "too deep")?)),
    }
}

fn page_halted(alloc: Global, cause: &RenderRefusal) -> Result<Halted, Memory>
    ensures { IfOk result (λ it. halted (asking (worded faults.Page (pages.told cause.now))) ≡ Some it) }
{
    match cause {
        RenderRefusal::Memory => Err(Memory),
        RenderRefusal::Need(oid) => Ok(needed(*oid)),
        RenderRefusal::Broken(oid) => Ok(refused(object_line(alloc, "broken object: ", *oid)?)),
        RenderRefusal::Unauthorized(oid, permission) => {
            Ok(refused(unauthorized(alloc, *oid, *permission)?))
        }
        RenderRefusal::TooDeep => Ok(refused(line(alloc, 500, "too deep")?)),
        RenderRefusal::NoName(name) => {
            Ok(refused(line_of(alloc, 500, "no name: ", name.as_str())?))
        }
        RenderRefusal::BadValue(at) => Ok(refused(bad_value(alloc, *at)?)),
        RenderRefusal::Runaway(limit) => {
            Ok(refused(line_of(alloc, 500, "runaway: ", limit_text(*limit))?))
        }
        RenderRefusal::BadSource(oid, cause) => Ok(refused(bad_source_of(alloc, *oid, *cause)?)),
    }
}

fn call_halted(alloc: Global, cause: &ManageRefusal) -> Result<Halted, Memory>
    ensures { IfOk result (λ it. halted (worded faults.Call (calling.told cause.now)) ≡ Some it) }
{
    match cause {
        ManageRefusal::Memory => Err(Memory),
        ManageRefusal::Need(ask) => Ok(Halted::Need(*ask)),
        ManageRefusal::Broken(oid) => Ok(refused(object_line(alloc, "broken object: ", *oid)?)),
        ManageRefusal::NotFound(call) => {
            Ok(refused(line_of(alloc, 404, "not found: ", call_name(*call))?))
        }
        ManageRefusal::Missing(field) => {
            Ok(refused(line_of(alloc, 400, "missing: ", field_name(*field))?))
        }
        ManageRefusal::BadField(field) => {
            Ok(refused(line_of(alloc, 400, "bad field: ", field_name(*field))?))
        }
        ManageRefusal::TooLong(field) => {
            Ok(refused(line_of(alloc, 400, "too long: ", field_name(*field))?))
        }
        ManageRefusal::NoSuchId(id) => {
            Ok(refused(line_of(alloc, 400, "no such id: ", id.as_str())?))
        }
        ManageRefusal::Taken(name) => Ok(refused(line_of(alloc, 400, "taken: ", name.as_str())?)),
        ManageRefusal::TooMany => Ok(refused(line(alloc, 400, "too many")?)),
        ManageRefusal::BadSource(cause) => Ok(refused(bad_source(alloc, *cause)?)),
        ManageRefusal::TooDeep => Ok(refused(line(alloc, 500, "too deep")?)),
        ManageRefusal::NoSuchTransaction(tid) => {
            Ok(refused(id_line(alloc, "no such transaction: ", tid.0)?))
        }
        ManageRefusal::UndoChanged(oid) => Ok(refused(id_line(alloc, "changed since: ", oid.0)?)),
    }
}

/// What a refusal comes to.
pub(crate) fn halt_of(alloc: Global, cause: &SiteRefusal) -> Result<Halted, Memory>
    ensures { IfOk result (λ it. halted (told cause.now) ≡ Some it) }
{
    match cause {
        SiteRefusal::Memory => Err(Memory),
        SiteRefusal::NotANumber(name) => {
            Ok(refused(line_of(alloc, 400, "not a number: ", name.as_str())?))
        }
        SiteRefusal::BadCredentials => Ok(refused(line(alloc, 400, "bad credentials")?)),
        SiteRefusal::Path(cause) => path_halted(alloc, cause),
        SiteRefusal::User(cause) => user_halted(alloc, cause),
        SiteRefusal::Denied(oid, permission) => {
            Ok(refused(unauthorized(alloc, *oid, *permission)?))
        }
        SiteRefusal::Page(cause) => page_halted(alloc, cause),
        SiteRefusal::Call(cause) => call_halted(alloc, cause),
    }
}
