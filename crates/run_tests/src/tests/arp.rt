//! A run with an MTU of 576 octets over a longer ARP frame, which passes.
use crate::packets::head_of;
use crate::runs::{NONE, Outcome, ends};
use std::alloc::{AllocError, Global};
use std::test::Fail;

const LINE: &[&str] = &["run", "--mtu=576", "a", "b", "10.0.0.0/8"];

/// Appends a record of an ARP frame (RFC 826) of 700 octets.
fn add_arp(file: &mut Vec<u8>) -> Result<(), AllocError> {
    file.extend_from_slice(&[0, 0, 0, 0, 0, 0, 0, 0, 0xbc, 2, 0, 0, 0xbc, 2, 0, 0])?;
    file.extend_from_slice(&[2, 0, 0, 0, 0, 1, 2, 0, 0, 0, 0, 2, 8, 6])?;
    file.extend_from_slice(&[255; 686])
}

/// Returns whether this frame is written as read.
fn passes_arp(alloc: Global) -> Result<bool, Fail> {
    let mut file = Vec::from_slice(alloc, &head_of(true))?;
    add_arp(&mut file)?;
    let outcome = Outcome {
        status: 0,
        report: &["norm 2\n1 - pass 1\nend 1 1\n"],
        capture: &file,
    };
    ends(alloc, LINE, &file, 65536, NONE, &outcome)
}

// ARP passes at any length.
#[test]
fn arp_is_never_long(rt: HostRuntime) -> Result<(), Fail> {
    assert!(rt; passes_arp(rt.alloc())?);
    Ok(())
}
