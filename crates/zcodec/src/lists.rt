ghost use Rattle.std.specs.Prelude.{◌≡◌, [], ℕ, List, Option, None, IfOk, option_map};
ghost use Rattle.zcodec.specs.Reading.{Gives, Reads, items_at, last_one, list_at};

use crate::fields::count_of;
use crate::unread::Unread;
use std::alloc::Global;
use zbase::{Items, Memory};

/// How an item of a list is read, behind the last one.
pub(crate) trait Row {
    type Item: Drop;

    /// What is read.
    ghost next: { Self → Option Self.Item → List ℕ → Reads Self.Item };

    fn read<'a>(
        &self,
        alloc: Global,
        last: Option<&Self::Item>,
        bytes: &'a [u8],
    ) -> Result<(Self::Item, &'a [u8]), Unread>
        ensures { Gives (λ x. (x.0, x.1.now)) result (next self.now (option_map (λ x. x.now) last.entry) bytes.now) };
}

/// An empty list, with room for so many items. Each item has at least one byte, so no count asks for more than there is.
pub(crate) fn room_for<T: Drop>(alloc: Global, count: u16, bytes: &[u8]) -> Result<Items<T>, Memory>
    ensures { IfOk result (λ items. items ≡ []) }
{
    let room = usize::from(count).min(bytes.len());
    Ok(Items::from_vec(Vec::with_capacity(alloc, room)?))
}

/// So many items.
pub(crate) fn items_of<'a, R: Row>(
    alloc: Global,
    row: &R,
    count: u16,
    bytes: &'a [u8],
) -> Result<(Items<R::Item>, &'a [u8]), Unread>
    ensures { Gives (λ x. (x.0, x.1.now)) result (items_at (R.next row.now) last_one count None bytes.now) }
{
    let mut items = room_for(alloc, count, bytes)?;
    let mut rest = bytes;
    for _ in 0..count {
        let (item, after) = row.read(alloc, items.as_slice().last(), rest)?;
        items.push(item)?;
        rest = after;
    }
    Ok((items, rest))
}

/// A list of items, from least to most.
#[tactic(auto, unfolding(crate::specs::Reading::list_at))]
pub(crate) fn list_of<'a, R: Row>(
    alloc: Global,
    row: &R,
    least: u16,
    most: u16,
    bytes: &'a [u8],
) -> Result<(Items<R::Item>, &'a [u8]), Unread>
    ensures { Gives (λ x. (x.0, x.1.now)) result (list_at least most (R.next row.now) bytes.now) }
{
    let (count, rest) = count_of(least, most, bytes)?;
    items_of(alloc, row, count, rest)
}
