ghost use Rattle.std.specs.Prelude.{◌≡◌, ◌+◌, length, option_map, IfSome};
ghost use Rattle.std.specs.List.{prefix_len};
ghost use Rattle.dtml_lex.specs.Reading.{run, begins, strip};
ghost use Rattle.dtml_lex.specs.Classes.{has};

/// The kinds of byte that the grammar of tags tells apart.
#[derive(Clone, Copy, Debug)]
pub(crate) enum Class {
    /// White space.
    Blank,
    /// A byte of a word or of a value without quotes.
    Word,
    /// A byte of a tag's name.
    Lower,
    /// The first byte of a name.
    Letter,
    /// A later byte of a name.
    Name,
    /// A byte of a text in quotes.
    Unquoted,
}

impl Class {
    /// Whether a byte is of this kind.
    fn has(self, byte: u8) -> bool
        ensures { result ≡ has self byte }
    {
        match self {
            Class::Blank => matches!(byte, b'\t' | b'\n' | b'\r' | b' '),
            Class::Word => !matches!(byte, b'\t' | b'\n' | b'\r' | b' ' | b'"' | b'>' | b'='),
            Class::Lower => byte.is_ascii_lowercase(),
            Class::Letter => byte.is_ascii_alphabetic(),
            Class::Name => byte.is_ascii_alphanumeric() || matches!(byte, b'_' | b'-' | b'.'),
            Class::Unquoted => byte != b'"',
        }
    }
}

/// How many such bytes stand at the front.
#[tactic(auto, using(crate::proofs::Runs::take_while_len))]
fn run_len(class: Class, bytes: &[u8]) -> usize
    ensures { result ≡ prefix_len (has class) bytes.now }
{
    bytes.iter().take_while(|byte| class.has(**byte)).count()
}

/// The longest run of such bytes at the front, and what follows it.
#[tactic(auto, using(crate::proofs::Runs::run_is_cut))]
pub(crate) fn run(class: Class, text: &str) -> (&str, &str)
    ensures front { result.0.now ≡ (run (has class) text.now).0 }
    ensures behind { result.1.now ≡ (run (has class) text.now).1 }
    ensures lengths { length result.0.now + length result.1.now ≡ length text.now }
{
    text.split_at(run_len(class, text.as_bytes()))
}

/// Whether the first byte is such a one.
pub(crate) fn begins(class: Class, text: &str) -> bool
    ensures { result ≡ begins (has class) text.now }
{
    match text.as_bytes().first() {
        Some(byte) => class.has(*byte),
        None => false,
    }
}

/// What follows the front, where the text begins with it.
#[tactic(auto, using(crate::proofs::Stripping::strip_prefix_is))]
pub(crate) fn strip<'a>(text: &'a str, front: &str) -> Option<&'a str>
    ensures is { option_map (λ rest. rest.now) result ≡ strip text.now front.now }
    ensures lengths { IfSome result (λ rest. length rest.now + length front.now ≡ length text.now) }
{
    text.strip_prefix(front)
}
