use fs_index::Index;
use zbase::{Oid, Tid};

/// A disk's file that was opened: what is known of it. All else is read where it stands.
#[derive(Drop)]
pub(crate) struct OpenFile {
    /// Where each object's newest data record stands.
    pub(crate) index: Index,
    /// Where the file ends, in bytes from its start.
    pub(crate) end: u64,
    /// How many bytes the disk has, with a vote that is out.
    pub(crate) len: u64,
    /// The id of the last transaction, 0 where there is none.
    pub(crate) last: Tid,
    /// Up to this transaction the file was packed, 0 where nothing was.
    pub(crate) floor: Tid,
    /// One more than the greatest object id, 0 where there is no record. It may be one more than a `u64` holds.
    pub(crate) next: u128,
    /// How many transactions there are.
    pub(crate) count: u64,
}

impl OpenFile {
    ghost use Rattle.std.specs.Prelude.{◌≡◌};
    ghost use Rattle.fs_scan.specs.Newest.{place_in};
    ghost use Rattle.fs_index.specs.Places.{place_of};

    /// Where the object's newest data record stands, 0 where it has none. Takes no memory.
    pub(crate) fn place(&self, oid: Oid) -> u64
        ensures { result ≡ place_in (place_of self.now.index oid) }
    {
        match self.index.get(oid) {
            Some(place) => place,
            None => 0,
        }
    }
}
