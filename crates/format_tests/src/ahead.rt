//! A classic file whose first octets were read before.
ghost use Rattle.std.specs.Prelude.{◌≡◌, ◌≤◌, true, length};
ghost use Rattle.wire_base.specs.declared.limits.TheConstants.{MAX_CAPTURED};

use crate::pcapng::{DATAGRAM, is_packet, joined};
use edge_io::MemSource;
use pcap_file::{Head, Order, Reader, read_head};
use pcapng_file::Ahead;
use std::alloc::{AllocError, Global};
use wire_base::{Link, MAX_CAPTURED};

// The head of a classic file: least significant octet first, microseconds, raw IP.
const CLASSIC: [u8; 24] = [
    0xd4, 0xc3, 0xb2, 0xa1, 2, 0, 4, 0, 0, 0, 0, 0, 0, 0, 0, 0, 0, 0, 4, 0, 101, 0, 0, 0,
];

// The head of its record: 3 seconds and 4 microseconds, 30 octets of 30.
const RECORD: [u8; 16] = [3, 0, 0, 0, 4, 0, 0, 0, 30, 0, 0, 0, 30, 0, 0, 0];

// Returns whether the next record is the datagram at 3 seconds and 4 microseconds, and the end
// follows.
fn is_datagram_alone(reader: &mut Reader, source: &mut Ahead<'_, MemSource>, buf: &mut [u8]) -> bool
    requires open { reader.old.is_open ≡ true }
    requires room { MAX_CAPTURED ≤ length buf.old }
{
    match reader.next(source, buf) {
        Ok(Some(record)) => {
            if !is_packet(&record, &(3, 4, 30, 24, None, &DATAGRAM)) {
                return false;
            }
        }
        _ => return false,
    }
    matches!(reader.next(source, buf), Ok(None))
}

// Returns the head of a classic file, and whether the datagram is the only record after it.
fn classic_behind(source: &mut Ahead<'_, MemSource>, buf: &mut [u8]) -> Option<(Head, bool)>
    requires { MAX_CAPTURED ≤ length buf.old }
{
    let head = read_head(source).ok()?;
    let mut reader = Reader::new(head);
    Some((head, is_datagram_alone(&mut reader, source, buf)))
}

// Returns the result of reading a classic file whose first octets were read before.
fn classic_reading(
    alloc: Global,
    first: &[u8],
    rest: &[u8],
) -> Result<Option<(Head, bool)>, AllocError> {
    let mut buf = vec![in alloc; 0u8; MAX_CAPTURED as usize]?;
    let rest = Vec::from_slice(alloc, rest)?;
    let mut source = MemSource::new(rest, 7, Vec::new(alloc));
    Ok(classic_behind(&mut Ahead::new(first, &mut source), &mut buf))
}

// Returns the first number of octets that are read before with another result.
fn first_other(alloc: Global, wanted: &Head) -> Result<Option<usize>, AllocError> {
    let file = joined(alloc, &[&CLASSIC, &RECORD, &DATAGRAM])?;
    for known in [0, 4, 24, 50] {
        let Some((first, rest)) = file.split_at_checked(known) else {
            return Ok(Some(known));
        };
        if classic_reading(alloc, first, rest)? != Some((*wanted, true)) {
            return Ok(Some(known));
        }
    }
    Ok(None)
}

// The octets that were read to find out the kind of a file are returned again: its head and its
// record are read as if no octet had been read before.
#[test]
fn a_classic_file_is_read_behind_its_first_octets(rt: HostRuntime) -> Result<(), AllocError> {
    let head = Head {
        order: Order::Little,
        nano: false,
        link: Link::Raw,
    };
    assert_eq!(rt; first_other(rt.alloc(), &head)?, None);
    Ok(())
}
