//! Packets and their octets.
use crate::notation::add_octets;
use crate::packets::packet_octets;
use std::alloc::Global;
use std::test::Fail;

/// A SYN, a UDP message with three TTLs, a segment with four octets and its differing
/// retransmission, and a probe. Then eight octets in the middle of a datagram, and the last eight
/// with every mark of an IPv4 header.
#[rattlefmt::skip]
const SPELLED: &[(&str, &str)] = &[
    ("> S 999", "0x450000280001000040064694c63364070a000001+0x9c400050000003e70000000050022000bb2f0000"),
    ("> UDP $SUMMED", "0x4500001e0001000040114693c63364070a000001+0x9c400035000ac6bf6869"),
    ("> UDP $SUMMED [ttl=30]", "0x4500001e000100001e116893c63364070a000001+0x9c400035000ac6bf6869"),
    ("> UDP $SUMMED [ttl=31]", "0x4500001e000100001f116793c63364070a000001+0x9c400035000ac6bf6869"),
    ("> PA 1000,5001 abcd", "0x4500002c0001000040064690c63364070a000001+0x9c400050000003e80000138950182000e2c4000061626364"),
    ("> PA 1000,5001 abXd", "0x4500002c0001000040064690c63364070a000001+0x9c400050000003e80000138950182000edc4000061625864"),
    ("> A 999,5001", "0x450000280001000040064694c63364070a000001+0x9c400050000003e70000138950102000a7980000"),
    ("> UDP $PLAIN [id=7 part=8..16]", "0x4500001c000720014011268ec63364070a000001+0x6161616161616161"),
    ("> UDP $PLAIN [id=7 part=16..24 ttl=1 tos=2 RF DF ipopt=0x01010101 trail=zz]",
        "0x460200200007c0020111c284c63364070a000001+0x01010101+0x6161616161616161+0x7a7a"),
];

/// Returns whether the packet has the octets that `spelled` spells.
fn is_spelled(alloc: Global, packet: &str, spelled: &str) -> Result<bool, Fail> {
    let packet = packet_octets(alloc, packet)?;
    let mut octets = Vec::new(alloc);
    add_octets(&mut octets, spelled)?;
    Ok(packet.as_slice() == octets.as_slice())
}

/// Returns the index of the first packet whose octets are not those that its text spells.
fn first_misspelled(alloc: Global, rows: &[(&str, &str)]) -> Result<Option<usize>, Fail> {
    for (index, (packet, spelled)) in rows.iter().enumerate() {
        if !is_spelled(alloc, packet, spelled)? {
            return Ok(Some(index));
        }
    }
    Ok(None)
}

#[test]
fn packets_are_made_by_their_formats(rt: HostRuntime) -> Result<(), Fail> {
    assert_eq!(rt; first_misspelled(rt.alloc(), SPELLED)?, None);
    Ok(())
}
