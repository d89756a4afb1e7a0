//! The streams of four receivers that each resolve overlaps differently.
use crate::cases::{BOTH, EVASIONS, add_inward, name_of};
use crate::notation::add_octets;
use edge_io::NoMemory;
use receiver_model::{Family, Policy, plain};
use std::alloc::Global;
use std::test::Fail;

/// Gives a packet to each receiver. Returns whether every host behind at most 30 routers reads it
/// alike, by its fields.
fn is_given(family: &mut Family, packet: &[u8]) -> Result<bool, NoMemory> {
    if packet.len() < 10 {
        return Ok(false);
    }
    if packet[9] != 6 {
        return Ok(false);
    }
    if !plain(0, packet) {
        return Ok(false);
    }
    family.take(packet)?;
    Ok(plain(30, packet))
}

/// The order in which packets reach a host.
#[derive(Clone, Copy)]
enum Order {
    Written,
    Reverse,
    EachTwice,
}

/// Gives all packets in this order. Returns whether every host reads each of them alike, by its
/// fields.
fn give(family: &mut Family, packets: &[Vec<u8>], order: Order) -> Result<bool, NoMemory> {
    let mut all = true;
    match order {
        Order::Written => {
            for packet in packets {
                let given = is_given(family, packet)?;
                all = all && given;
            }
        }
        Order::Reverse => {
            for packet in packets.iter().rev() {
                let given = is_given(family, packet)?;
                all = all && given;
            }
        }
        Order::EachTwice => {
            for packet in packets {
                let once = is_given(family, packet)?;
                let again = is_given(family, packet)?;
                all = all && once && again;
            }
        }
    }
    Ok(all)
}

/// Returns whether the receiver of each policy delivers these octets, and whether its stream ends
/// as `ended` states.
fn delivers(family: &Family, octets: &[u8], ended: bool) -> bool {
    let mut all = true;
    for policy in [Policy::First, Policy::Newest, Policy::Left, Policy::Right] {
        let same = family.octets(policy) == octets;
        let so = family.ended(policy) == ended;
        all = all && same && so;
    }
    all
}

/// A stream: the offset of its first octet, its octets, and whether it ends.
#[derive(Drop)]
struct Delivered {
    start: u32,
    octets: Vec<u8>,
    ended: bool,
}

/// Parses a stream of a case.
fn delivered_by(alloc: Global, stream: &str) -> Result<Delivered, Fail> {
    let (stream, ended) = match stream.strip_suffix(" FIN") {
        Some(stream) => (stream, true),
        None => (stream, false),
    };
    let (start, spelled) = stream.split_once(' ').unwrap_or((stream, ""));
    let start = start.parse::<u32>()?;
    let mut octets = Vec::new(alloc);
    add_octets(&mut octets, spelled)?;
    Ok(Delivered {
        start,
        octets,
        ended,
    })
}

/// Returns whether all receivers agree on the packets in this order, and deliver the stream if the
/// order is the written one.
fn hears(
    family: &mut Family,
    packets: &[Vec<u8>],
    order: Order,
    stream: &Delivered,
) -> Result<bool, NoMemory> {
    let given = give(family, packets, order)?;
    let delivered = match order {
        Order::Written => delivers(family, &stream.octets, stream.ended),
        Order::Reverse | Order::EachTwice => true,
    };
    Ok(given && delivered && family.agree())
}

// Owns the receivers and makes one call: at each point where the function may return, the proof
// covers the drop of all that they own.
fn is_heard(
    alloc: Global,
    packets: &[Vec<u8>],
    order: Order,
    stream: &Delivered,
) -> Result<bool, NoMemory> {
    let mut family = Family::open(alloc, 1000, stream.start)?;
    let heard = hears(&mut family, packets, order, stream);
    heard
}

/// Returns whether all receivers deliver this stream, and agree also on the packets in reverse
/// order and on each packet twice.
fn tells(alloc: Global, packets: &[Vec<u8>], stream: &str) -> Result<bool, Fail> {
    let stream = delivered_by(alloc, stream)?;
    for order in [Order::Written, Order::Reverse, Order::EachTwice] {
        if !is_heard(alloc, packets, order, &stream)? {
            return Ok(false);
        }
    }
    Ok(true)
}

/// Returns whether all receivers deliver each stream of a case.
fn tells_each(alloc: Global, packets: &[Vec<u8>], case: &str) -> Result<bool, Fail> {
    for line in case.split('\n') {
        if let Some(stream) = line.strip_prefix("stream ")
            && !stream.starts_with("out ")
            && !tells(alloc, packets, stream)?
        {
            return Ok(false);
        }
    }
    Ok(true)
}

/// Returns the name of the first case with another stream.
fn first_undelivered<'a>(alloc: Global, cases: &'a str) -> Result<Option<&'a str>, Fail> {
    for case in cases.split("\n\n") {
        let mut packets = Vec::new(alloc);
        add_inward(&mut packets, alloc, case)?;
        if !tells_each(alloc, &packets, case)? {
            return Ok(Some(name_of(case)));
        }
    }
    Ok(None)
}

#[test]
fn receivers_agree_on_evasions(rt: HostRuntime) -> Result<(), Fail> {
    assert_eq!(rt; first_undelivered(rt.alloc(), EVASIONS)?, None);
    assert_eq!(rt; first_undelivered(rt.alloc(), BOTH)?, None);
    Ok(())
}
