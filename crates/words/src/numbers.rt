ghost use Rattle.std.specs.Prelude.{◌≡◌};
ghost use Rattle.words.specs.Asking.{number_of};

/// The number that a word spells: 1 to 20 decimal digits, no sign, at most `most`.
///
/// clap's own readers of numbers take a `+`, so it hands the word on as it is.
pub(crate) fn number_of(most: u64, text: &str) -> Option<u64>
    ensures { result ≡ number_of most text.now }
{
    if text.is_empty() || text.len() > 20 || text.starts_with('+') {
        return None;
    }
    match text.parse::<u64>() {
        Ok(n) => if n <= most { Some(n) } else { None },
        Err(_) => None,
    }
}

/// The same, where the most has 16 bits.
pub(crate) fn short_number_of(most: u16, text: &str) -> Option<u16>
    ensures { result ≡ number_of most text.now }
{
    let n = number_of(most as u64, text)?;
    if n <= most as u64 {
        Some(n as u16)
    } else {
        None
    }
}
