//! Indexes beside maps of the same places: a file has no object at 0, and none with room alone.
use fs_index::Index;
use std::alloc::Global;
use std::collections::BTreeMap;
use std::test::Fail;
use zbase::{Memory, Oid};

// The greatest place that an index keeps.
const GREATEST: u64 = (1 << 48) - 1;

// Keeps room for the object, and puts it at the place.
fn place(index: &mut Index, oid: u64, place: u64) -> Result<(), Memory> {
    index.reserve(&[Oid(oid)])?;
    index.put(Oid(oid), place.min(GREATEST));
    Ok(())
}

// A number that looks random and is always the same, of another one.
fn scattered(number: u64) -> u64 {
    let first = number.wrapping_mul(0xff51_afd7_ed55_8ccd);
    let second = (first ^ (first >> 33)).wrapping_mul(0xc4ce_b9fe_1a85_ec53);
    second ^ (second >> 33)
}

/// In which order objects come.
#[derive(Clone, Copy, Debug)]
enum Order {
    /// Some ids are small, some below a few thousand, some any.
    Scattered,
    /// 900, 901, and 900 again, and then each id from 0 on.
    FarFirst,
}

// The id that comes behind so many others.
fn nth_id(order: Order, number: u64) -> u64 {
    match order {
        Order::Scattered => match number % 3 {
            0 => scattered(number) % 64,
            1 => scattered(number) % 4_000,
            _ => scattered(number),
        },
        Order::FarFirst => match number {
            0 | 2 => 900,
            1 => 901,
            _ => number - 3,
        },
    }
}

// An index in which so many objects were put at the places from 0 on, with a map of these.
fn filled(alloc: Global, order: Order, count: u64) -> Result<(Index, BTreeMap<u64, u64>), Fail> {
    let mut index = Index::new(alloc);
    let mut map = BTreeMap::new(alloc);
    for number in 0..count {
        let oid = nth_id(order, number);
        place(&mut index, oid, number)?;
        map.insert(oid, number)?;
    }
    Ok((index, map))
}

// An object at 0 has no place.
#[test]
fn ids_in_any_order_have_the_places_of_a_map(rt: HostRuntime) -> Result<(), Fail> {
    for (order, count) in [(Order::Scattered, 2_000), (Order::FarFirst, 903)] {
        let (index, map) = filled(rt.alloc(), order, count)?;
        for number in 0..6_100 {
            let oid = if number < 4_100 {
                number
            } else {
                nth_id(order, number - 4_100)
            };
            let wanted = map.get(&oid).copied().filter(|place| *place > 0);
            assert_eq!(rt; index.get(Oid(oid)), wanted, "{order:?} {oid}");
        }
    }
    Ok(())
}

// Each time room is kept for objects, and the first of them may be put at a place; then the objects 7, 0, 1 and the last
// one have these.
#[test]
fn places_are_found_again_and_room_is_none(rt: HostRuntime) -> Result<(), Fail> {
    let mut index = Index::new(rt.alloc());
    for (oid, to, wanted) in [
        (7, Some(62), [Some(62), None, None, None]),
        (7, Some(104), [Some(104), None, None, None]),
        (0, None, [Some(104), None, None, None]),
        (u64::MAX, None, [Some(104), None, None, None]),
        (7, None, [Some(104), None, None, None]),
        (7, Some(0), [None, None, None, None]),
        (7, Some(GREATEST), [Some(GREATEST), None, None, None]),
        (0, Some(30), [Some(GREATEST), Some(30), None, None]),
    ] {
        index.reserve(&[Oid(oid), Oid(7), Oid(oid)])?;
        if let Some(to) = to {
            index.put(Oid(oid), to.min(GREATEST));
        }
        let found = [
            index.get(Oid(7)),
            index.get(Oid(0)),
            index.get(Oid(1)),
            index.get(Oid(u64::MAX)),
        ];
        assert_eq!(rt; found, wanted, "{oid}");
    }
    Ok(())
}
