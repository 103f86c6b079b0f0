ghost use Rattle.std.specs.Prelude.{◌≡◌, ◌+◌, ◌*◌, ◌≤◌, length, take, drop, IsTrue};
ghost use Rattle.std.specs.Int.{w64, from_be_bytes};
ghost use Rattle.std.specs.List.{IsDistinct};
ghost use Rattle.std.specs.List.Sorted.{IsStrictlySortedBy};
ghost use Rattle.std.specs.Ordering.{eq_by_cmp, nat_cmp};
ghost use Rattle.name_keys.specs.Keys.{mixed, words_key, bytes_key, name_key};

/// An odd number, whose product with a word carries each of the word's bits up.
const FACTOR: u64 = 0x9e37_79b9_7f4a_7c15;

/// How far a product is turned, so that its upper bits count in the next product.
const TURN: u32 = 29;

/// A key with a word mixed into it.
#[tactic(auto, unfolding(crate::specs::Keys::mixed))]
fn mixed(key: u64, word: u64) -> u64
    ensures { result ≡ mixed key word }
{
    key.wrapping_add(word)
        .wrapping_mul(FACTOR)
        .rotate_left(TURN)
}

/// The word of eight bytes at a place.
fn word_at(bytes: &[u8], at: usize) -> u64
    requires { at + 8 ≤ length bytes.now }
    ensures { result ≡ from_be_bytes w64 (take 8 (drop at bytes.now)) }
{
    let word = &bytes[at..at + 8];
    u64::from_be_bytes([
        word[0], word[1], word[2], word[3], word[4], word[5], word[6], word[7],
    ])
}

/// The key of a name's length and so many of its words.
fn words_key(name: &[u8], words: usize) -> u64
    requires { 8 * words ≤ length name.now }
    ensures { result ≡ words_key words name.now }
{
    let mut key = name.len() as u64;
    for word in 0..words {
        key = mixed(key, word_at(name, 8 * word));
    }
    key
}

/// A key with bytes mixed into it.
fn bytes_key(start: u64, bytes: &[u8]) -> u64
    ensures { result ≡ bytes_key start (length bytes.now) bytes.now }
{
    let mut key = start;
    for at in 0..bytes.len() {
        key = mixed(key, bytes[at] as u64);
    }
    key
}

/// The key of a name, a number of 64 bits. Names with different keys differ; that two names have one key is rare.
#[tactic(auto, unfolding(crate::specs::Keys::name_key))]
pub fn name_key(name: &[u8]) -> u64
    ensures { result ≡ name_key name.now }
{
    let words = name.len() / 8;
    bytes_key(words_key(name, words), &name[8 * words..])
}

/// Whether each key is below the next one.
fn keys_rise(keys: &[u64]) -> bool
    ensures { IsTrue result → IsStrictlySortedBy nat_cmp keys.now }
{
    for later in 1..keys.len() {
        if keys[later - 1] >= keys[later] {
            return false;
        }
    }
    true
}

/// Whether each key stands there once. It sorts them.
pub(crate) fn keys_differ(keys: &mut [u64]) -> bool
    ensures { IsTrue result → IsDistinct (eq_by_cmp nat_cmp) keys.old }
{
    keys.sort_unstable();
    keys_rise(keys)
}
