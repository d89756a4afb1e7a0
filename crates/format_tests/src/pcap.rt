//! Heads and records in both byte orders, from sources that return few octets per call.
ghost use Rattle.std.specs.Prelude.{◌≤◌, length};
ghost use Rattle.wire_base.specs.declared.limits.TheConstants.{MAX_CAPTURED};

use crate::pcapng::{Packet, is_packet};
use edge_io::{Failed, MemSource, Sink, Source};
use pcap_file::{Head, HeadFault, Order, Reader, RecordFault, read_head, write_head, write_record};
use std::alloc::{AllocError, Global};
use wire_base::{Link, MAX_CAPTURED};

// A source that returns at most `piece` octets per call.
#[derive(Drop)]
struct Pieces<'a> {
    left: &'a [u8],
    piece: usize,
}

impl Source for Pieces<'_> {
    ghost use Rattle.std.specs.Prelude.{None};

    ghost left = { λ s. None };

    ghost fault_count = { λ s. 0 };

    fn fetch(&mut self, buf: &mut [u8]) -> Result<usize, Failed> {
        let count = self.piece.min(buf.len()).min(self.left.len());
        buf[..count].copy_from_slice(&self.left[..count]);
        self.left = &self.left[count..];
        Ok(count)
    }

    fn faults(&self) -> u64 {
        0
    }
}

// A sink that grows.
#[derive(Drop)]
struct Held {
    octets: Vec<u8>,
    faults: u64,
}

impl Sink for Held {
    ghost use Rattle.std.specs.Prelude.{None};

    ghost held = { λ s. None };

    ghost fault_count = { λ s. s.faults };

    fn put(&mut self, bytes: &[u8]) -> Result<(), Failed> {
        if self.octets.extend_from_slice(bytes).is_err() {
            self.faults = self.faults.saturating_add(1);
            return Err(Failed);
        }
        Ok(())
    }

    fn faults(&self) -> u64 {
        self.faults
    }
}

// Little-endian, microseconds, raw IP.
const LITTLE: [u8; 24] = [
    0xd4, 0xc3, 0xb2, 0xa1, 2, 0, 4, 0, 0, 0, 0, 0, 0, 0, 0, 0, 0, 0, 4, 0, 101, 0, 0, 0,
];

// Big-endian, nanoseconds, Ethernet.
const BIG: [u8; 24] = [
    0xa1, 0xb2, 0x3c, 0x4d, 0, 2, 0, 4, 0, 0, 0, 0, 0, 0, 0, 0, 0, 4, 0, 0, 0, 0, 0, 1,
];

// The head of each order, unit and link: magic, version 2.4, eight octets of 0, snap length
// 262,144, network.
const HEADS: [(Order, bool, Link, [u8; 24]); 8] = [
    (Order::Little, false, Link::Raw, LITTLE),
    (
        Order::Little,
        false,
        Link::Ethernet,
        [
            0xd4, 0xc3, 0xb2, 0xa1, 2, 0, 4, 0, 0, 0, 0, 0, 0, 0, 0, 0, 0, 0, 4, 0, 1, 0, 0, 0,
        ],
    ),
    (
        Order::Little,
        true,
        Link::Raw,
        [
            0x4d, 0x3c, 0xb2, 0xa1, 2, 0, 4, 0, 0, 0, 0, 0, 0, 0, 0, 0, 0, 0, 4, 0, 101, 0, 0, 0,
        ],
    ),
    (
        Order::Little,
        true,
        Link::Ethernet,
        [
            0x4d, 0x3c, 0xb2, 0xa1, 2, 0, 4, 0, 0, 0, 0, 0, 0, 0, 0, 0, 0, 0, 4, 0, 1, 0, 0, 0,
        ],
    ),
    (
        Order::Big,
        false,
        Link::Raw,
        [
            0xa1, 0xb2, 0xc3, 0xd4, 0, 2, 0, 4, 0, 0, 0, 0, 0, 0, 0, 0, 0, 4, 0, 0, 0, 0, 0, 101,
        ],
    ),
    (
        Order::Big,
        false,
        Link::Ethernet,
        [
            0xa1, 0xb2, 0xc3, 0xd4, 0, 2, 0, 4, 0, 0, 0, 0, 0, 0, 0, 0, 0, 4, 0, 0, 0, 0, 0, 1,
        ],
    ),
    (
        Order::Big,
        true,
        Link::Raw,
        [
            0xa1, 0xb2, 0x3c, 0x4d, 0, 2, 0, 4, 0, 0, 0, 0, 0, 0, 0, 0, 0, 4, 0, 0, 0, 0, 0, 101,
        ],
    ),
    (Order::Big, true, Link::Ethernet, BIG),
];

// Returns whether the octets of a head are read as it, and no octet after it. A call returns at
// most `piece` octets.
fn is_read(head: &Head, octets: &[u8; 24], piece: usize) -> bool {
    let mut file = [7u8; 27];
    file[..24].copy_from_slice(octets);
    let mut source = Pieces { left: &file, piece };
    read_head(&mut source) == Ok(*head) && source.left.len() == 3
}

fn is_written(sink: &mut Held, head: &Head, octets: &[u8; 24]) -> bool {
    sink.octets.clear();
    write_head(sink, head).is_ok() && sink.octets.as_slice() == octets.as_slice()
}

// Returns the index of the first head with another result of reading or writing.
fn first_other(sink: &mut Held, heads: &[(Order, bool, Link, [u8; 24])]) -> Option<usize> {
    for (index, (order, nano, link, octets)) in heads.iter().enumerate() {
        let head = Head {
            order: *order,
            nano: *nano,
            link: *link,
        };
        let read = is_read(&head, octets, 1) && is_read(&head, octets, 23);
        if !read || !is_read(&head, octets, 27) || !is_written(sink, &head, octets) {
            return Some(index);
        }
    }
    None
}

#[test]
fn a_head_of_each_form_is_read_and_written_alike(rt: HostRuntime) {
    let mut sink = Held {
        octets: Vec::new(rt.alloc()),
        faults: 0,
    };
    assert_eq!(rt; first_other(&mut sink, &HEADS), None);
}

// A head, pairs of an offset and the octet written there, and the result.
type Faulty = (
    &'static [u8; 24],
    &'static [(usize, u8)],
    Result<Head, HeadFault>,
);

const RAW: Head = Head {
    order: Order::Little,
    nano: false,
    link: Link::Raw,
};

#[rattlefmt::skip]
const FAULTS: &[Faulty] = &[
    (&LITTLE, &[(8, 9), (12, 7), (16, 255)], Ok(RAW)),
    (&LITTLE, &[(0, 0), (1, 0), (2, 0), (3, 0)], Err(HeadFault::Magic)),
    (&LITTLE, &[(0, 0x4d)], Err(HeadFault::Magic)),
    (&LITTLE, &[(0, 0), (6, 3), (20, 113)], Err(HeadFault::Magic)),
    (&LITTLE, &[(4, 1)], Err(HeadFault::Version)),
    (&LITTLE, &[(6, 3)], Err(HeadFault::Version)),
    (&LITTLE, &[(7, 1)], Err(HeadFault::Version)),
    (&LITTLE, &[(6, 3), (20, 113)], Err(HeadFault::Version)),
    (&LITTLE, &[(4, 0), (5, 2), (6, 0), (7, 4)], Err(HeadFault::Version)),
    (&LITTLE, &[(20, 113)], Err(HeadFault::Link)),
    (&LITTLE, &[(20, 0), (23, 101)], Err(HeadFault::Link)),
    (&LITTLE, &[(22, 1)], Err(HeadFault::Link)),
    (&BIG, &[(3, 0)], Err(HeadFault::Magic)),
    (&BIG, &[(7, 3)], Err(HeadFault::Version)),
    (&BIG, &[(4, 2), (5, 0), (6, 4), (7, 0)], Err(HeadFault::Version)),
    (&BIG, &[(23, 113)], Err(HeadFault::Link)),
    (&BIG, &[(20, 1), (23, 0)], Err(HeadFault::Link)),
];

// Returns whether the octets are read to their end with this result.
fn ends(octets: &[u8], head: Result<Head, HeadFault>) -> bool {
    let mut source = Pieces {
        left: octets,
        piece: 24,
    };
    read_head(&mut source) == head && source.left.is_empty()
}

fn is_changed(row: &Faulty) -> bool {
    let (head, changes, wanted) = *row;
    let mut octets = *head;
    for (place, octet) in changes {
        match octets.get_mut(*place) {
            Some(target) => *target = *octet,
            None => return false,
        }
    }
    ends(&octets, wanted)
}

// Returns the index of the first row with another result.
fn first_other_result(rows: &[Faulty]) -> Option<usize> {
    rows.iter().position(|row| !is_changed(row))
}

#[test]
fn a_head_is_refused_by_its_first_fault(rt: HostRuntime) {
    assert_eq!(rt; first_other_result(FAULTS), None);
    for short in [&LITTLE[..23], &BIG[..23], &[0; 23], &[]] {
        assert!(rt; ends(short, Err(HeadFault::Cut)));
    }
}

// Returns the result of a head whose source fails, and the number of octets that are left.
fn failing(alloc: Global) -> Result<(Result<Head, HeadFault>, Result<usize, Failed>), AllocError> {
    let octets = Vec::from_array(alloc, LITTLE)?;
    let mut source = MemSource::new(octets, 10, vec![in alloc; 3]?);
    let head = read_head(&mut source);
    Ok((head, source.fetch(&mut [0; 24])))
}

#[test]
fn a_source_that_fails_keeps_the_rest_of_the_head(rt: HostRuntime) -> Result<(), AllocError> {
    assert_eq!(rt; failing(rt.alloc())?, (Err(HeadFault::ReadFault), Ok(4)));
    Ok(())
}

// Returns whether a record of 30 octets is written with this front.
fn fronts(sink: &mut Held, order: Order, front: &[u8; 16]) -> bool {
    let head = Head {
        order,
        nano: true,
        link: Link::Ethernet,
    };
    let written = write_record(sink, &head, 0x0102_0304, 0x0506_0708, &[9; 30]);
    let Some((own, octets)) = sink.octets.split_at_checked(16) else {
        return false;
    };
    written.is_ok() && own == front.as_slice() && octets == [9u8; 30].as_slice()
}

fn is_fronted(alloc: Global, order: Order, front: &[u8; 16]) -> bool {
    let mut sink = Held {
        octets: Vec::new(alloc),
        faults: 0,
    };
    fronts(&mut sink, order, front)
}

#[test]
fn a_record_is_written_in_the_order_of_its_head(rt: HostRuntime) {
    let little = [4, 3, 2, 1, 8, 7, 6, 5, 30, 0, 0, 0, 30, 0, 0, 0];
    let big = [1, 2, 3, 4, 5, 6, 7, 8, 0, 0, 0, 30, 0, 0, 0, 30];
    assert!(rt; is_fronted(rt.alloc(), Order::Little, &little));
    assert!(rt; is_fronted(rt.alloc(), Order::Big, &big));
}

#[rattlefmt::skip]
const RECORDS: &[u8] = &[
    0, 0, 0, 1, 0, 0, 0, 2, 0, 0, 0, 3, 0, 0, 0, 60, 7, 8, 9, // three octets of 60
    0, 0, 0, 4, 0, 0, 0, 5, 0, 0, 0, 0, 0, 0, 0, 0, // none
    0, 0, 0, 0, 0, 0, 0, 0, 0, 0, 0, 3, 0, 0, 0, 3, 7, 8, // three, one of them missing
];

// Returns whether the reader is open and this record is the next.
fn is_next(
    reader: &mut Reader,
    source: &mut Pieces<'_>,
    buf: &mut [u8],
    packet: &Packet<'_>,
) -> bool
    requires { MAX_CAPTURED ≤ length buf.old }
{
    if !reader.is_open() {
        return false;
    }
    match reader.next(source, buf) {
        Ok(Some(record)) => is_packet(&record, packet),
        _ => false,
    }
}

// Returns whether the two records and the fault are read in parts of `piece` octets.
fn are_read(buf: &mut [u8], piece: usize) -> bool
    requires { MAX_CAPTURED ≤ length buf.old }
{
    let mut source = Pieces {
        left: RECORDS,
        piece,
    };
    let mut reader = Reader::new(Head {
        order: Order::Big,
        nano: true,
        link: Link::Ethernet,
    });
    let first = is_next(
        &mut reader,
        &mut source,
        buf,
        &(1, 2, 60, 24, None, &[7, 8, 9]),
    );
    let second = is_next(&mut reader, &mut source, buf, &(4, 5, 0, 43, None, &[]));
    if !reader.is_open() {
        return false;
    }
    let cut = matches!(reader.next(&mut source, buf), Err(RecordFault::Cut));
    first && second && cut && reader.offset() == 59 && !reader.is_open()
}

// Returns the first number of octets per call with which they are not.
fn first_other_piece(alloc: Global) -> Result<Option<usize>, AllocError> {
    let mut buf = vec![in alloc; 0u8; MAX_CAPTURED as usize]?;
    for piece in [1, 7, 64] {
        if !are_read(&mut buf, piece) {
            return Ok(Some(piece));
        }
    }
    Ok(None)
}

#[test]
fn records_are_read_from_pieces_of_one_octet(rt: HostRuntime) -> Result<(), AllocError> {
    assert_eq!(rt; first_other_piece(rt.alloc())?, None);
    Ok(())
}
