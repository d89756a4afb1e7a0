//! The worked cases: the whole report and all packets that are written.
use crate::cases::{BOTH, CONNECTIONS, CUT, EVASIONS, FRAGMENTS, STREAMS, first_other};
use std::test::Fail;

#[test]
fn connections_are_normalized(rt: HostRuntime) -> Result<(), Fail> {
    assert_eq!(rt; first_other(rt.alloc(), CONNECTIONS)?, None);
    assert_eq!(rt; first_other(rt.alloc(), STREAMS)?, None);
    Ok(())
}

#[test]
fn evasions_are_normalized(rt: HostRuntime) -> Result<(), Fail> {
    assert_eq!(rt; first_other(rt.alloc(), EVASIONS)?, None);
    Ok(())
}

#[test]
fn fragments_are_held_and_reassembled(rt: HostRuntime) -> Result<(), Fail> {
    assert_eq!(rt; first_other(rt.alloc(), FRAGMENTS)?, None);
    Ok(())
}

#[test]
fn long_packets_are_cut_or_dropped(rt: HostRuntime) -> Result<(), Fail> {
    assert_eq!(rt; first_other(rt.alloc(), CUT)?, None);
    Ok(())
}

#[test]
fn both_sides_are_protected(rt: HostRuntime) -> Result<(), Fail> {
    assert_eq!(rt; first_other(rt.alloc(), BOTH)?, None);
    Ok(())
}
