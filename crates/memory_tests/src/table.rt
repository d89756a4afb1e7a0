//! Tables of numbers compared with a plain list, and look-ups in a full table.
ghost use Rattle.std.specs.Prelude.{◌+◌, ◌*◌, ◌<◌, ◌^◌, ◌%◌, length, IfSome};
ghost use Rattle.std.proofs.Common.{rules};

use linked_table::{Key, LinkedTable, Slot, SlotList, hash_words};
use std::process::Abort;
use std::test::Fail;

#[derive(Clone, Copy, Debug, PartialEq, Eq)]
struct Number(u64);

impl Key for Number {
    ghost hash_of = { λ number seed. (number.0 * 0x9e3779b97f4a7c15 % 2 ^ 64 + seed) % 2 ^ 64 };

    fn hash_with(&self, seed: u64) -> u64 {
        self.0.wrapping_mul(0x9e3779b97f4a7c15).wrapping_add(seed)
    }

    ghost equal_is_same = { λ a b e. Prim.search rules };
}

#[test]
fn a_table_of_one_hands_the_second_pair_back(rt: HostRuntime) -> Result<(), Fail> {
    let mut table = LinkedTable::open(rt.alloc(), 1, 0)?;
    assert_eq!(rt; table.insert(Number(5), 'a'), Ok(Slot(0)));
    if table.find(&Number(6)).is_none() {
        assert_eq!(rt; table.insert(Number(6), 'b'), Err((Number(6), 'b')));
    }
    assert_eq!(rt; table.find(&Number(5)), Some(Slot(0)));
    assert_eq!(rt; table.find(&Number(6)), None);
    Ok(())
}

// A search from end to end would look at more than 10^11 slots.
#[test]
fn eight_million_lookups_in_a_full_table_end_within_a_minute(rt: HostRuntime) -> Result<(), Fail> {
    let mut table = LinkedTable::open(rt.alloc(), 65_536, 0)?;
    for number in 0..65_536 {
        let key = Number(number);
        if table.find(&key).is_none() {
            assert!(rt; table.insert(key, ()).is_ok());
        }
    }
    assert_eq!(rt; table.len(), 65_536);
    for number in 65_536..8_065_536 {
        assert!(rt; table.find(&Number(number)).is_none());
    }
    Ok(())
}

// Returns the index of the entry with this key in the plain list.
fn place_of(list: &[(u64, u64)], key: u64) -> Option<usize>
    ensures { IfSome result (λ i. i < length list.now) }
{
    list.iter().position(|entry| entry.0 == key)
}

// Returns the first even value of the plain list.
fn first_even(list: &[(u64, u64)]) -> Option<u64> {
    for entry in list {
        if entry.1 % 2 == 0 {
            return Some(entry.1);
        }
    }
    None
}

type Table = LinkedTable<Number, u64>;

// Makes one call for this key, on a table of at most five entries and on the plain list.
fn call(
    rt: &impl Abort,
    table: &mut Table,
    list: &mut Vec<(u64, u64)>,
    key: u64,
    step: u64,
) -> Result<(), Fail> {
    let place = place_of(list.as_slice(), key);
    let Some(slot) = table.find(&Number(key)) else {
        assert_eq!(rt; place, None, "find at {step}");
        match table.insert(Number(key), step) {
            Ok(_) => list.push((key, step))?,
            Err((own, value)) => {
                assert_eq!(rt;
                    (list.len(), own, value),
                    (5, Number(key), step),
                    "full at {step}"
                );
            }
        }
        return Ok(());
    };
    let i = place.ok_or("find")?;
    let (_, value) = list.remove(i);
    match step % 3 {
        0 => {
            table.touch(slot);
            list.push((key, value))?;
        }
        1 => {
            assert_eq!(rt; table.put(slot, step), value, "put at {step}");
            list.insert(i, (key, step))?;
        }
        _ => assert_eq!(rt;
            table.remove(slot),
            (Number(key), value),
            "remove at {step}"
        ),
    }
    Ok(())
}

// Checks that the table reads as the plain list does.
fn compare(rt: &impl Abort, table: &Table, list: &[(u64, u64)], step: u64) {
    assert_eq!(rt;
        (table.len() as usize, table.max()),
        (list.len(), 5),
        "len at {step}"
    );
    let oldest = match table.oldest() {
        Some(slot) => Some((table.key_at(slot).0, *table.at(slot))),
        None => None,
    };
    assert_eq!(rt; oldest, list.first().copied(), "oldest at {step}");
    let even = match table.oldest_where(|_, value| *value % 2 == 0) {
        Some(slot) => Some(*table.at(slot)),
        None => None,
    };
    assert_eq!(rt; even, first_even(list), "oldest_where at {step}");
}

#[test]
fn a_pattern_of_calls_is_the_same_on_a_list(rt: HostRuntime) -> Result<(), Fail> {
    for seed in [0, 7] {
        let mut table = LinkedTable::open(rt.alloc(), 5, seed)?;
        let mut list = Vec::new(rt.alloc());
        for step in 0..400 {
            call(&rt, &mut table, &mut list, step * 7 % 11 + step % 2, step)?;
            compare(&rt, &table, list.as_slice(), step);
        }
    }
    Ok(())
}

#[test]
fn a_hash_is_of_the_seed_and_both_words(rt: HostRuntime) {
    // first * x^2 + second * x modulo 2^61 - 1, as computed by Python, where x is 1 more than
    // seed + 0x9e37_79b9_7f4a_7c15 modulo 2^60.
    assert_eq!(rt; hash_words(0, 1, 2), 0x1e72_feb7_5780_0c9b);
    assert_eq!(rt; hash_words(7, 1, 2), 0x057b_a6dc_4d92_d615);
    // A seed whose point is 1.
    assert_eq!(rt; hash_words(0x61c8_8646_80b5_83eb, 1, 2), 3);
    assert_eq!(rt; hash_words(7, 2, 1), 0x0050_e08c_1d46_37d2);
    assert_eq!(rt;
        hash_words(u64::MAX, u64::MAX, u64::MAX - 1),
        0x1c60_8112_7419_ae56
    );
}

#[test]
fn slots_are_listed_in_the_order_of_their_last_putting(rt: HostRuntime) -> Result<(), Fail> {
    let mut list = SlotList::open(rt.alloc(), 5)?;
    assert_eq!(rt; list.first(), None);
    list.put_last(Slot(3));
    list.put_last(Slot(0));
    list.put_last(Slot(4));
    assert_eq!(rt; list.first(), Some(Slot(3)));
    list.put_last(Slot(3));
    list.take_out(Slot(4));
    list.take_out(Slot(1));
    assert_eq!(rt; list.first(), Some(Slot(0)));
    list.take_out(Slot(0));
    assert_eq!(rt; list.first(), Some(Slot(3)));
    list.take_out(Slot(3));
    assert_eq!(rt; list.first(), None);
    Ok(())
}
