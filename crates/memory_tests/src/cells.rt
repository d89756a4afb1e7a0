//! The pool at its limits: no free cell, cells taken and freed many times, and calls whose time
//! does not grow with the pool.
use cell_pool::{ChainId, Pool};
use std::test::Fail;

#[test]
fn two_cells_are_taken_and_no_third(rt: HostRuntime) -> Result<(), Fail> {
    let mut pool = Pool::open(rt.alloc(), 2, 1)?;
    let first = pool.take_after(ChainId(0), None, 8);
    let second = pool.take_after(ChainId(0), None, 7);
    let third = pool.take_after(ChainId(0), None, 6);
    assert!(rt; first.is_some());
    assert!(rt; second.is_some());
    assert!(rt; first != second);
    assert_eq!(rt; third, None);
    Ok(())
}

#[test]
fn cells_that_go_round_are_all_free_at_the_end(rt: HostRuntime) -> Result<(), Fail> {
    let mut pool = Pool::open(rt.alloc(), 4, 2)?;
    for _ in 0..1_000 {
        let front = pool.take_after(ChainId(0), None, 5);
        pool.take_after(ChainId(1), None, 5);
        pool.take_after(ChainId(0), front, 6);
        pool.give_back_after(ChainId(0), front);
        pool.give_back_after(ChainId(0), None);
        pool.give_back_after(ChainId(1), None);
    }
    assert_eq!(rt; pool.free(), 4);
    Ok(())
}

// A search for the free cell from end to end would look at more than 10^11 cells.
#[test]
fn four_million_cells_of_a_full_pool_are_taken_within_a_minute(
    rt: HostRuntime,
) -> Result<(), Fail> {
    let mut pool = Pool::open(rt.alloc(), 262_144, 2)?;
    let mut last = None;
    for block in 0..262_143 {
        last = pool.take_after(ChainId(0), last, block);
    }
    for _ in 0..4_000_000 {
        assert_eq!(rt; pool.first(ChainId(1)), None);
        let taken = pool.take_after(ChainId(1), None, 7);
        assert!(rt; taken.is_some());
        assert_eq!(rt; pool.first(ChainId(1)), taken);
        pool.give_back_after(ChainId(1), None);
    }
    assert_eq!(rt; pool.free(), 1);
    Ok(())
}
