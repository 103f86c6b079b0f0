ghost use Rattle.std.specs.Prelude.{◌≡◌, ℕ, ◌<◌, ◌^◌, length, IfSome, IfNone};
ghost use Rattle.zbase.specs.Hex.{hex_digit, hex_byte, hex16_text};

fn digit_byte(digit: u64) -> u8
    requires { digit < 16 }
    ensures { result ≡ hex_digit digit }
{
    if digit < 10 {
        b'0' + digit as u8
    } else {
        b'a' + (digit as u8 - 10)
    }
}

fn digit_value(byte: u8) -> Option<u64>
    ensures some { IfSome result (λ digit. (digit < 16) × (hex_digit digit ≡ byte)) }
    ensures none { IfNone result ((digit : ℕ) → digit < 16 → hex_digit digit ≡ byte → ⊥) }
{
    match byte {
        b'0'..=b'9' => Some((byte - b'0') as u64),
        b'a'..=b'f' => Some((byte - b'a') as u64 + 10),
        _ => None,
    }
}

/// The 16 hexadecimal digits of a number, in lower case, as every printed id has them. Takes no memory.
pub fn hex16(n: u64) -> [u8; 16]
    ensures { result ≡ hex16_text n }
{
    let mut text = [0; 16];
    let mut rest = n;
    for done in 0..16 {
        text[15 - done] = digit_byte(rest % 16);
        rest /= 16;
    }
    text
}

/// The two hexadecimal digits of a byte, in lower case. Takes no memory.
pub fn hex_digits(byte: u8) -> [u8; 2]
    ensures { result ≡ hex_byte byte }
{
    [
        digit_byte((byte / 16) as u64),
        digit_byte((byte % 16) as u64),
    ]
}

/// The number whose 16 lower-case hexadecimal digits the text is: none exactly where it is no such text.
/// Takes no memory.
pub fn read_hex16(text: &[u8]) -> Option<u64>
    ensures some { IfSome result (λ n. hex16_text n ≡ text.now) }
    ensures none { IfNone result ((n : ℕ) → hex16_text n ≡ text.now → ⊥) }
{
    if text.len() != 16 {
        return None;
    }
    let mut n: u64 = 0;
    for byte in text {
        n = n * 16 + digit_value(*byte)?;
    }
    Some(n)
}
