ghost use Rattle.std.specs.Prelude.{◌≡◌, ◌+◌, ◌<◌, ◌≤◌, ◌++◌, ◌∷◌, [], length, take, drop, vec_len, vec_capacity};
ghost use Rattle.zdisk.specs.Calls.{put};

/// A call that may have changed what a file holds, with what takes it back.
#[derive(Clone, Copy, Debug)]
pub enum Entry {
    /// Bytes were written at a place: how many, how many bytes of the buffer they covered, and how long the file
    /// was.
    Write {
        at: usize,
        written: usize,
        covered: usize,
        len: usize,
    },
    /// The file was cut. It was this long.
    Cut {
        len: usize,
    },
    /// The file was synced.
    Sync,
    /// A call failed and left the file as it was.
    Failed,
}

/// Puts a piece behind what is there, where there is room for it.
pub fn push_all(out: &mut Vec<u8>, piece: &[u8])
    requires { vec_len out.old + length piece.now ≤ vec_capacity out.old }
    ensures items { out.new.items ≡ out.old.items ++ piece.now }
    ensures len { vec_len out.new ≡ vec_len out.old + length piece.now }
    ensures capacity { vec_capacity out.old ≤ vec_capacity out.new }
{
    match out.extend_from_slice(piece) {
        Ok(()) => {}
        Err(_) => unreachable!(),
    }
}

/// Notes a call, where there is room for it.
pub fn note(entries: &mut Vec<Entry>, entry: Entry)
    requires { vec_len entries.old < vec_capacity entries.old }
    ensures items { entries.new.items ≡ entries.old.items ++ entry ∷ [] }
    ensures len { vec_len entries.new ≡ vec_len entries.old + 1 }
    ensures capacity { vec_capacity entries.new ≡ vec_capacity entries.old }
{
    entries.push_reserved(entry);
}

/// Puts a piece over what stands at a place and past the end, where there is room for it. The bytes that it
/// covers go behind those that others covered; the answer is how many they are.
pub fn cover(bytes: &mut Vec<u8>, covered: &mut Vec<u8>, at: usize, piece: &[u8]) -> usize
    requires within { at ≤ vec_len bytes.old }
    requires room { vec_len bytes.old + length piece.now ≤ vec_capacity bytes.old }
    requires covered_room { vec_len covered.old + length piece.now ≤ vec_capacity covered.old }
    ensures bytes { bytes.new.items ≡ put at piece.now bytes.old.items }
    ensures covered { covered.new.items ≡ covered.old.items ++ take (length piece.now) (drop at bytes.old.items) }
    ensures count { result ≡ length (take (length piece.now) (drop at bytes.old.items)) }
    ensures len { vec_len bytes.new ≤ vec_len bytes.old + length piece.now }
    ensures covered_len { vec_len covered.new ≤ vec_len covered.old + length piece.now }
    ensures capacity { vec_capacity bytes.old ≤ vec_capacity bytes.new }
    ensures covered_capacity { vec_capacity covered.old ≤ vec_capacity covered.new }
{
    let count = piece.len().min(bytes.len() - at);
    let (over, past) = piece.split_at(count);
    let place = &mut bytes[at..at + count];
    push_all(covered, place);
    place.copy_from_slice(over);
    push_all(bytes, past);
    count
}
