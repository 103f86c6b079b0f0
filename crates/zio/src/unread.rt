ghost use Rattle.std.specs.Prelude.{◌≡◌, ◌++◌, ◌<◌, ◌≤◌, List, ℕ, [], drop, length, take};

use std::marker::Model;
use zbase::Bytes;

/// Bytes of which a front has been read, in pieces of a greatest size. Contracts see those that are left.
#[derive(Drop)]
pub struct Unread {
    bytes: Bytes,
    taken: usize,
    piece: usize,
}

impl Model for Unread {
    ghost Value = { List ℕ };

    ghost view = { λ unread. drop unread.taken unread.bytes };

    ghost invariant = { λ unread. (unread.taken ≤ length unread.bytes) × (0 < unread.piece) };
}

impl Unread {
    /// None of these bytes has been read; a read gives them all, where there is room.
    pub fn new(bytes: Bytes) -> Unread
        ensures { result ≡ bytes }
    {
        Unread::in_pieces(bytes, usize::MAX)
    }

    /// None of these bytes has been read; a read gives `piece` of them at most, and 1 where that is 0.
    pub fn in_pieces(bytes: Bytes, piece: usize) -> Unread
        ensures { result ≡ bytes }
    {
        Unread {
            bytes,
            taken: 0,
            piece: piece.max(1),
        }
    }

    /// Moves a piece, or what the buffer has room for, or what is left, to the front of the buffer.
    pub fn read(&mut self, buf: &mut [u8]) -> usize
        ensures bound { result ≤ length buf.new }
        ensures moved { self.old ≡ take result buf.new ++ self.new }
        ensures end { result ≡ 0 → 0 < length buf.new → self.new ≡ [] }
    {
        let bytes = self.bytes.as_slice();
        let start = self.taken;
        let count = self.piece.min(buf.len()).min(bytes.len() - start);
        buf[..count].copy_from_slice(&bytes[start..start + count]);
        self.taken = start + count;
        count
    }
}
