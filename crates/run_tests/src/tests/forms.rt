//! Captures of each byte order, time unit and link type.
use super::WORDS;
use crate::cases::{SEEDS, words_of};
use crate::runs::{NONE, Outcome, ends};
use std::alloc::{AllocError, Global};
use std::test::Fail;

/// Returns a number of four octets in this byte order.
fn number(big: bool, value: u32) -> [u8; 4] {
    if big {
        value.to_be_bytes()
    } else {
        value.to_le_bytes()
    }
}

/// Returns the file header of a classic capture with this byte order, time unit and link type.
fn head_of(alloc: Global, big: bool, nano: bool, network: u32) -> Result<Vec<u8>, AllocError> {
    let magic = if nano { 0xa1b2_3c4d } else { 0xa1b2_c3d4 };
    let version = if big { 0x0002_0004 } else { 0x0004_0002 };
    let mut head = Vec::new(alloc);
    for value in [magic, version, 0, 0, 262_144, network] {
        head.extend_from_slice(&number(big, value))?;
    }
    Ok(head)
}

/// Appends a record with this time, these octets and this original length.
fn add_record(
    file: &mut Vec<u8>,
    big: bool,
    time: (u32, u32),
    octets: &[u8],
    original: u32,
) -> Result<(), AllocError> {
    for value in [time.0, time.1, octets.len().min(65_535) as u32, original] {
        file.extend_from_slice(&number(big, value))?;
    }
    file.extend_from_slice(octets)
}

/// Returns a capture with this byte order, time unit and link type, and one record of these octets.
fn capture_of(
    alloc: Global,
    big: bool,
    nano: bool,
    network: u32,
    frame: &[u8],
) -> Result<Vec<u8>, AllocError> {
    let mut file = head_of(alloc, big, nano, network)?;
    let size = frame.len().min(255) as u32;
    add_record(&mut file, big, (1_700_000_000, 999_999), frame, size)?;
    Ok(file)
}

/// Returns whether a capture of one record with the UDP message is written as read.
fn is_kept(alloc: Global, big: bool, nano: bool, network: u32, frame: &[u8]) -> Result<bool, Fail> {
    let file = capture_of(alloc, big, nano, network, frame)?;
    let outcome = Outcome {
        status: 0,
        report: &["norm 2\n1 in pass 1\nend 1 1\n"],
        capture: &file,
    };
    ends(alloc, WORDS, &file, 65536, NONE, &outcome)
}

/// Returns the first byte order and time unit in which a capture of this link type is not kept.
fn first_changed(alloc: Global, network: u32, frame: &[u8]) -> Result<Option<(bool, bool)>, Fail> {
    for (big, nano) in [(false, false), (false, true), (true, false), (true, true)] {
        if !is_kept(alloc, big, nano, network, frame)? {
            return Ok(Some((big, nano)));
        }
    }
    Ok(None)
}

/// A UDP message of two octets (RFC 768).
const MESSAGE: [u8; 30] = [
    0x45, 0x00, 0x00, 0x1e, 0x00, 0x01, 0x00, 0x00, 0x40, 0x11, 0x46, 0x93, 0xc6, 0x33, 0x64, 0x07,
    0x0a, 0x00, 0x00, 0x01, 0x9c, 0x40, 0x00, 0x35, 0x00, 0x0a, 0xc6, 0xbf, 0x68, 0x69,
];

/// The same after an Ethernet header (RFC 894).
const FRAMED: [u8; 44] = [
    2, 0, 0, 0, 0, 1, 2, 0, 0, 0, 0, 2, 8, 0, 0x45, 0x00, 0x00, 0x1e, 0x00, 0x01, 0x00, 0x00, 0x40,
    0x11, 0x46, 0x93, 0xc6, 0x33, 0x64, 0x07, 0x0a, 0x00, 0x00, 0x01, 0x9c, 0x40, 0x00, 0x35, 0x00,
    0x0a, 0xc6, 0xbf, 0x68, 0x69,
];

#[test]
fn captures_of_every_form_are_written_as_read(rt: HostRuntime) -> Result<(), Fail> {
    assert_eq!(rt; first_changed(rt.alloc(), 101, &MESSAGE)?, None);
    assert_eq!(rt; first_changed(rt.alloc(), 1, &FRAMED)?, None);
    Ok(())
}

/// An ARP frame (RFC 826).
const ARP: [u8; 42] = [
    2, 0, 0, 0, 0, 1, 2, 0, 0, 0, 0, 2, 8, 6, 0, 1, 8, 0, 6, 4, 0, 1, 7, 7, 7, 7, 7, 7, 7, 7, 7, 7,
    7, 7, 7, 7, 7, 7, 7, 7, 7, 7,
];

/// After an Ethernet header a SYN (RFC 9293) from 198.51.100.7 port 40000 to 10.0.0.1 port 80 with
/// sequence number 999 and window 8192.
const SYN: [u8; 54] = [
    2, 0, 0, 0, 0, 1, 2, 0, 0, 0, 0, 2, 8, 0, 0x45, 0x00, 0x00, 0x28, 0x00, 0x01, 0x00, 0x00, 0x40,
    0x06, 0x46, 0x94, 0xc6, 0x33, 0x64, 0x07, 0x0a, 0x00, 0x00, 0x01, 0x9c, 0x40, 0x00, 0x50, 0x00,
    0x00, 0x03, 0xe7, 0x00, 0x00, 0x00, 0x00, 0x50, 0x02, 0x20, 0x00, 0xbb, 0x2f, 0x00, 0x00,
];

/// The same with six octets of padding.
const PADDED: [u8; 60] = [
    2, 0, 0, 0, 0, 1, 2, 0, 0, 0, 0, 2, 8, 0, 0x45, 0x00, 0x00, 0x28, 0x00, 0x01, 0x00, 0x00, 0x40,
    0x06, 0x46, 0x94, 0xc6, 0x33, 0x64, 0x07, 0x0a, 0x00, 0x00, 0x01, 0x9c, 0x40, 0x00, 0x50, 0x00,
    0x00, 0x03, 0xe7, 0x00, 0x00, 0x00, 0x00, 0x50, 0x02, 0x20, 0x00, 0xbb, 0x2f, 0x00, 0x00, 0, 0,
    0, 0, 0, 0,
];

/// Returns a big-endian Ethernet capture in nanoseconds: ARP, and a frame of this size.
fn framed(alloc: Global, frame: &[u8], size: u32) -> Result<Vec<u8>, Fail> {
    let mut file = head_of(alloc, true, true, 1)?;
    add_record(&mut file, true, (0, 0), &ARP, 42)?;
    add_record(&mut file, true, (0, 0), frame, size)?;
    Ok(file)
}

/// Returns whether a run with this seed passes ARP, a padded frame without its padding, and drops a
/// snapped record.
fn is_unpadded(alloc: Global, seed: &str) -> Result<bool, Fail> {
    let words = words_of(alloc, "", seed)?;
    let mut file = framed(alloc, &PADDED, 60)?;
    add_record(&mut file, true, (0, 0), &[2; 20], 60)?;
    let written = framed(alloc, &SYN, 54)?;
    let outcome = Outcome {
        status: 0,
        report: &["norm 2\n1 - pass 1\n2 in fix 1 I_TRAIL @1 +1\n3 - drop 0 L_SNAP\nend 3 2\n"],
        capture: &written,
    };
    ends(alloc, &words, &file, 65536, NONE, &outcome)
}

#[test]
fn an_ethernet_capture_keeps_its_arp(rt: HostRuntime) -> Result<(), Fail> {
    for seed in SEEDS {
        assert!(rt; is_unpadded(rt.alloc(), seed)?, "{seed}");
    }
    Ok(())
}
