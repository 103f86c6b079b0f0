ghost use Rattle.std.specs.Prelude.{◌≡◌, ◌≤◌, length, get_or, if◌then◌else◌};
ghost use Rattle.zbase.specs.Limits.{greatest_number};
ghost use Rattle.zdisk.specs.Filling.{IsFilled};
ghost use Rattle.zdisk.specs.Seeds.{takes_new};

/// Whether the seed takes the new content at a place, and not the old one.
pub fn takes_new(seed: u64, place: u64) -> bool
    ensures { result ≡ takes_new seed place }
{
    let mixed = (seed ^ place).wrapping_mul(0x9e37_79b9_7f4a_7c15);
    seed == 1 || (seed != 0 && mixed / 0x8000_0000_0000_0000 == 1)
}

// The byte at a place of a piece, 0 where it has no such place.
fn byte_at(piece: &[u8], place: usize) -> u8
    ensures { result ≡ get_or piece.now place 0 }
{
    match piece.get(place) {
        Some(byte) => *byte,
        None => 0,
    }
}

/// Puts a piece, with zeros behind it, over the places from one to another that the seed takes on this side: of the new
/// content, or of the old one.
pub fn fill(bytes: &mut [u8], new: bool, from: usize, to: usize, piece: &[u8], seed: u64)
    requires order { from ≤ to }
    requires within { to ≤ length bytes.old }
    ensures { IsFilled seed new from to piece.now bytes.old bytes.new }
{
    let mut place = from;
    while place < to {
        if takes_new(seed, place as u64) == new {
            bytes[place] = byte_at(piece, place - from);
        }
        place += 1;
    }
}

/// The length that the seed takes, of the old content's and the new one's.
pub fn length_by(seed: u64, old: usize, new: usize) -> usize
    ensures { result ≡ (if takes_new seed greatest_number then new else old) }
{
    if takes_new(seed, u64::MAX) { new } else { old }
}
