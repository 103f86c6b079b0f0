ghost use Rattle.std.specs.Prelude.{◌≡◌, ◌≤◌, length, reverse, take};
ghost use Rattle.zdisk.specs.Recorded.{file_of};
ghost use Rattle.zdisk.specs.Seeds.{image_of};
ghost use Rattle.zdisk.specs.Undoing.{Blends, FitsBack, FitsEntry, IsTakenBack, back, lower, lowest_since};

use crate::record::Entry;
use crate::seeds::{fill, length_by};

// Takes one call back where the seed takes the old content. The answer is how many of the kept bytes are left, and how long
// the file was.
fn take_back(bytes: &mut [u8], kept: &[u8], len: usize, entry: Entry, seed: u64) -> (usize, usize)
    requires { FitsEntry entry (length bytes.old) (length kept.now) }
    ensures { IsTakenBack seed entry kept.now len bytes.old bytes.new result.0 result.1 }
{
    match entry {
        Entry::Write {
            at,
            covered,
            len,
            ..
        } => {
            let rest = kept.len() - covered;
            fill(bytes, false, at, at + covered, &kept[rest..], seed);
            (rest, len)
        }
        Entry::Cut { len } => (kept.len(), len),
        Entry::Sync | Entry::Failed => (kept.len(), len),
    }
}

/// Takes the calls since the last sync back where the seed takes the old content. The answer is how long the file was then.
/// Takes no memory.
pub fn blend(bytes: &mut [u8], kept: &[u8], len: usize, entries: &[Entry], seed: u64) -> usize
    requires { FitsBack (record { bytes = bytes.old; len = len; covered = kept.now }) (reverse entries.now) }
    ensures blends { Blends seed bytes.old bytes.new (back (record { bytes = bytes.old; len = len; covered = kept.now }) (reverse entries.now)) }
    ensures long { result ≡ (back (record { bytes = bytes.old; len = len; covered = kept.now }) (reverse entries.now)).len }
{
    let mut rest = kept.len();
    let mut was = len;
    let mut count = entries.len();
    while count > 0 {
        let entry = entries[count - 1];
        if matches!(entry, Entry::Sync) {
            return was;
        }
        let before = take_back(bytes, &kept[..rest], was, entry, seed);
        rest = before.0;
        was = before.1;
        count -= 1;
    }
    was
}

// The place, or a lower one at which the call changed the file.
fn lower(place: usize, entry: Entry) -> usize
    ensures { result ≡ lower place entry }
{
    match entry {
        Entry::Write { at, len, .. } => place.min(at.min(len)),
        Entry::Cut { len } => place.min(len),
        Entry::Sync | Entry::Failed => place,
    }
}

/// The least place at which a file of this length may differ from what was last synced, by the calls since then: below it
/// both have the same bytes.
pub fn lowest(len: usize, entries: &[Entry]) -> usize
    ensures { result ≡ lowest_since len (reverse entries.now) }
{
    let mut place = len;
    let mut count = entries.len();
    while count > 0 {
        let entry = entries[count - 1];
        if matches!(entry, Entry::Sync) {
            return place;
        }
        place = lower(place, entry);
        count -= 1;
    }
    place
}

/// Makes a buffer the image that the seed names, of the file at the last sync and the file as it is. The answer is how long
/// the image is; behind it the buffer is as long as it was. Takes no memory.
pub fn mix(bytes: &mut [u8], kept: &[u8], len: usize, entries: &[Entry], seed: u64) -> usize
    requires { FitsBack (record { bytes = bytes.old; len = len; covered = kept.now }) (reverse entries.now) }
    ensures image { take result bytes.new ≡ image_of seed
        (file_of (back (record { bytes = bytes.old; len = len; covered = kept.now }) (reverse entries.now))) (take len bytes.old) }
    ensures long { length bytes.new ≡ length bytes.old }
    ensures within { result ≤ length bytes.new }
{
    let end = bytes.len();
    let was = blend(bytes, kept, len, entries, seed);
    // Behind each of the two files stands what cuts left, and neither has a byte there.
    fill(bytes, true, len, end, &[], seed);
    fill(bytes, false, was, end, &[], seed);
    length_by(seed, was, len)
}
