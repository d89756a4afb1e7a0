//! pcapng captures with two interfaces, `in` and `ex`: with `--inside` the side of a packet is that
//! of its interface, not that of its addresses.
use crate::cases::{SEEDS, words_of};
use crate::runs::{NONE, Outcome, RECORD_HEADER, UDP_MESSAGE, capture_file, ends};
use std::alloc::{AllocError, Global};
use std::test::Fail;

/// A little-endian section header block.
const SECTION: [u8; 28] = [
    0x0a, 0x0d, 0x0d, 0x0a, 28, 0, 0, 0, 0x4d, 0x3c, 0x2b, 0x1a, 1, 0, 0, 0, 0xff, 0xff, 0xff,
    0xff, 0xff, 0xff, 0xff, 0xff, 28, 0, 0, 0,
];

/// Returns an interface description block for raw IP with a name of two octets.
fn interface(first: u8, second: u8) -> [u8; 32] {
    [
        1, 0, 0, 0, 32, 0, 0, 0, 101, 0, 0, 0, 0, 0, 0, 0, 2, 0, 2, 0, first, second, 0, 0, 0, 0,
        0, 0, 32, 0, 0, 0,
    ]
}

/// Returns the front of an enhanced packet block for 30 octets at time 0 from this interface.
fn packet(interface: u8) -> [u8; 28] {
    [
        6, 0, 0, 0, 64, 0, 0, 0, interface, 0, 0, 0, 0, 0, 0, 0, 0, 0, 0, 0, 30, 0, 0, 0, 30, 0, 0,
        0,
    ]
}

/// Returns a section with two interfaces and the UDP message from this interface. The packet block
/// has the offset 92.
fn sections(alloc: Global, number: u8) -> Result<Vec<u8>, AllocError> {
    let mut file = Vec::from_slice(alloc, &SECTION)?;
    file.extend_from_slice(&interface(b'i', b'n'))?;
    file.extend_from_slice(&interface(b'e', b'x'))?;
    file.extend_from_slice(&packet(number))?;
    file.extend_from_slice(&UDP_MESSAGE[..30])?;
    file.extend_from_slice(&[0, 0, 64, 0, 0, 0])?;
    Ok(file)
}

/// The file header of the output: little-endian, nanoseconds, raw IP.
const WRITTEN: [u8; 24] = [
    0x4d, 0x3c, 0xb2, 0xa1, 2, 0, 4, 0, 0, 0, 0, 0, 0, 0, 0, 0, 0, 0, 4, 0, 101, 0, 0, 0,
];

/// Returns the output capture with `records` UDP messages.
fn written(alloc: Global, records: u8) -> Result<Vec<u8>, AllocError> {
    let mut file = Vec::from_slice(alloc, &WRITTEN)?;
    for _ in 0..records {
        file.extend_from_slice(&RECORD_HEADER)?;
        file.extend_from_slice(&UDP_MESSAGE[..30])?;
    }
    Ok(file)
}

/// Test cases: the interface of the packet, the status, the report, and the number of records
/// written.
#[rattlefmt::skip]
const INTERFACES: &[(u8, u8, &str, u8)] = &[
    (1, 0, "norm 2\n1 in pass 1\nend 1 1\n", 1),
    (0, 0, "norm 2\n1 out pass 1\nend 1 1\n", 1),
    // The section has no such interface.
    (2, 3, "norm 2\nstop block 92\n", 0),
];

/// Returns whether a run over the section ends as expected.
fn is_sided(alloc: Global, words: &[&str], row: &(u8, u8, &str, u8)) -> Result<bool, Fail> {
    let (interface, status, report, records) = *row;
    let file = sections(alloc, interface)?;
    let written = written(alloc, records)?;
    let outcome = Outcome {
        status,
        report: &[report],
        capture: &written,
    };
    ends(alloc, words, &file, 7, NONE, &outcome)
}

/// Returns the index of the first case with another outcome with this seed.
fn first_other(
    alloc: Global,
    rows: &[(u8, u8, &str, u8)],
    seed: &str,
) -> Result<Option<usize>, Fail> {
    let words = words_of(alloc, "--inside in", seed)?;
    for (index, row) in rows.iter().enumerate() {
        if !is_sided(alloc, &words, row)? {
            return Ok(Some(index));
        }
    }
    Ok(None)
}

#[test]
fn the_side_is_that_of_the_interface(rt: HostRuntime) -> Result<(), Fail> {
    for seed in SEEDS {
        assert_eq!(rt; first_other(rt.alloc(), INTERFACES, seed)?, None);
    }
    Ok(())
}

/// Returns whether a run with `--inside` over a classic capture stops at its head.
fn is_refused(alloc: Global) -> Result<bool, Fail> {
    let words = words_of(alloc, "--inside in", "")?;
    let file = capture_file(alloc, "", 1, "")?;
    let outcome = Outcome {
        status: 3,
        report: &["norm 2\nstop block 0\n"],
        capture: &[],
    };
    ends(alloc, &words, &file, 7, NONE, &outcome)
}

#[test]
fn a_classic_capture_has_no_interfaces(rt: HostRuntime) -> Result<(), Fail> {
    assert!(rt; is_refused(rt.alloc())?);
    Ok(())
}
