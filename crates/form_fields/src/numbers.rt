ghost use Rattle.std.specs.Prelude.{◌≡◌};
ghost use Rattle.form_fields.specs.Numbers as spec;

/// The whole number that a text writes: an optional `-` and digits, within 64 bits; none where it writes none. Takes no
/// memory.
pub fn whole_number(text: &str) -> Option<i64>
    ensures { result ≡ spec.whole_number text.now }
{
    if text.starts_with('+') {
        return None;
    }
    text.parse().ok()
}
