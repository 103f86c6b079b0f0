ghost use Rattle.std.specs.Prelude.{◌≡◌, ◌++◌, ◌∷◌, [], ◌<◌, ◌≤◌, ℕ, slice_index_or, length, map, find, option_map, IfOk, OnOk};
ghost use Rattle.std.specs.Str.{IsAscii, IsUtf8, str_eq_ignore_ascii_case};
ghost use Rattle.httparse.specs.Spans.{IsHeaderWithin, IsWithin, header_bytes, span_bytes};
ghost use Rattle.http_in.specs.Headers as headers;
ghost use Rattle.http_in.specs.Placed.{IsTextAt, IsTextPlace};

use httparse::spans::{HeaderSpan, Span};
use std::alloc::Global;
use std::marker::Model;
use zbase::Memory;

/// The headers of a message, in its order: names, and values without the white space around them.
///
/// Their bytes stand once, and each header is two places among them.
#[derive(Debug, Drop)]
pub struct Headers {
    bytes: Vec<u8>,
    spans: Vec<HeaderSpan>,
}

impl Model for Headers {
    ghost use Rattle.std.specs.Prelude.{List, map};
    ghost use Rattle.std.specs.List.{All};
    ghost use Rattle.httparse.specs.Spans.{header_bytes};
    ghost use Rattle.http_in.specs.Headers.{Header, header_by};
    ghost use Rattle.http_in.specs.Placed.{IsTextAt};

    ghost Value = { List Header };

    ghost view = { λ all. map (λ span. header_by (header_bytes all.bytes.items span)) all.spans.items };

    ghost invariant = { λ all. All (IsTextAt all.bytes.items) all.spans.items };
}

/// Adds bytes as text at the end, with U+FFFD where they aren't UTF-8, and says where it stands.
fn add_lossy(alloc: Global, bytes: &mut Vec<u8>, more: &[u8]) -> Result<Span, Memory>
    ensures bytes { OnOk result (bytes.new.items ≡ bytes.old.items ++ headers.lossy more.now) }
    ensures text { OnOk result (IsUtf8 (headers.lossy more.now)) }
    ensures start { IfOk result (λ span. span.start ≡ length bytes.old.items) }
    ensures end { IfOk result (λ span. span.end ≡ length bytes.new.items) }
{
    let text = String::from_utf8_lossy(alloc, more)?;
    let start = bytes.len();
    bytes.extend_from_slice(text.as_bytes())?;
    let end = bytes.len();
    Ok(Span { start, end })
}

/// The text at a place.
fn text_at(bytes: &[u8], span: Span) -> &str
    requires { IsTextPlace bytes.now span }
    ensures { result.now ≡ span_bytes bytes.now span }
{
    match str::from_utf8(span.of(bytes)) {
        Ok(text) => text,
        Err(_) => unreachable!(),
    }
}

/// Whether two names are the same without case.
fn is_same(bytes: &[u8], name: &str) -> bool
    ensures { result ≡ str_eq_ignore_ascii_case bytes.now name.now }
{
    bytes.eq_ignore_ascii_case(name.as_bytes())
}

fn is_named_at(bytes: &[u8], span: HeaderSpan, name: &str) -> bool
    requires { IsTextAt bytes.now span }
    ensures { result ≡ headers.is_named name.now (headers.header_by (header_bytes bytes.now span)) }
{
    is_same(span.name.of(bytes), name)
}

impl Headers {
    /// No headers. Takes no memory.
    pub(crate) fn new(alloc: Global) -> Headers
        ensures { result ≡ [] }
    {
        Headers {
            bytes: Vec::new(alloc),
            spans: Vec::new(alloc),
        }
    }

    /// The headers at these places of ASCII, which is text as it stands.
    pub(crate) fn in_ascii(
        alloc: Global,
        head: &[u8],
        spans: &[HeaderSpan],
    ) -> Result<Headers, Memory>
        requires ascii { IsAscii head.now }
        requires within { (k : ℕ) (d : _) → k < length spans.now → IsHeaderWithin (length head.now) (slice_index_or spans.now k d) }
        ensures { IfOk result (λ all. all ≡ map (λ span. headers.header_by (header_bytes head.now span)) spans.now) }
    {
        let bytes = Vec::from_slice(alloc, head)?;
        let spans = Vec::from_slice(alloc, spans)?;
        Ok(Headers { bytes, spans })
    }

    /// With one header more, whose bytes are made text.
    pub(crate) fn with(self, alloc: Global, name: &[u8], value: &[u8]) -> Result<Headers, Memory>
        ensures { IfOk result (λ all. all ≡ self ++ headers.header_by (name.now, value.now) ∷ []) }
    {
        let Headers {
            mut bytes,
            mut spans,
        } = self;
        let name = add_lossy(alloc, &mut bytes, name)?;
        let value = add_lossy(alloc, &mut bytes, value)?;
        spans.push(HeaderSpan { name, value })?;
        Ok(Headers { bytes, spans })
    }

    /// How many there are.
    pub fn len(&self) -> usize
        ensures { result ≡ length self.now }
    {
        self.spans.len()
    }

    /// The name of the header at a place.
    pub fn name(&self, at: usize) -> &str
        requires { at < length self.now }
        ensures { (d : _) → result.now ≡ (slice_index_or self.now at d).name }
    {
        text_at(self.bytes.as_slice(), self.spans[at].name)
    }

    /// The value of the header at a place.
    pub fn value(&self, at: usize) -> &str
        requires { at < length self.now }
        ensures { (d : _) → result.now ≡ (slice_index_or self.now at d).value }
    {
        text_at(self.bytes.as_slice(), self.spans[at].value)
    }

    /// Whether the header at a place has that name, without case.
    #[tactic(auto, using(crate::proofs::Placing::placed_header))]
    pub fn is_named(&self, at: usize, name: &str) -> bool
        requires { at < length self.now }
        ensures { (d : _) → result ≡ headers.is_named name.now (slice_index_or self.now at d) }
    {
        is_named_at(self.bytes.as_slice(), self.spans[at], name)
    }

    /// The value of the first header of that name.
    pub fn first_value(&self, name: &str) -> Option<&str>
        ensures { option_map (λ value. value.now) result ≡ headers.first_value name.now self.now }
    {
        for at in 0..self.len() {
            if self.is_named(at, name) {
                return Some(self.value(at));
            }
        }
        None
    }
}
