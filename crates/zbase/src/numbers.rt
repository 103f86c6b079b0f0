ghost use Rattle.std.specs.Prelude.{◌≡◌, ◌++◌, ◌+◌, ◌≤◌, length, drop};
ghost use Rattle.zbase.specs.Numbers.{be64, be16};

/// The number of eight bytes that stands at a place, high byte first. Takes no memory.
pub fn u64_at(bytes: &[u8], at: usize) -> u64
    requires { at + 8 ≤ length bytes.now }
    ensures { drop at bytes.now ≡ be64 result ++ drop (at + 8) bytes.now }
{
    let b = &bytes[at..at + 8];
    u64::from_be_bytes([b[0], b[1], b[2], b[3], b[4], b[5], b[6], b[7]])
}

/// The number of two bytes that stands at a place, high byte first. Takes no memory.
pub fn u16_at(bytes: &[u8], at: usize) -> u16
    requires { at + 2 ≤ length bytes.now }
    ensures { drop at bytes.now ≡ be16 result ++ drop (at + 2) bytes.now }
{
    let b = &bytes[at..at + 2];
    u16::from_be_bytes([b[0], b[1]])
}
