//! Messages with each fault, and checksums rewritten.
use udp_codec::{Udp, UdpFault, mend, parse};
use wire_base::{Addr, protocol, pseudo_sum};

/// Returns the sum of the pseudo-header of a message of ten octets from 198.51.100.7 to
/// 10.0.0.1.
fn pseudo() -> u32 {
    pseudo_sum(Addr(0xc633_6407), Addr(0x0a00_0001), protocol::UDP, 10)
}

/// Returns the parsed header of a message from port 40000 to port 53.
fn read(len: u16, sum: u16) -> Result<Udp, UdpFault> {
    Ok(Udp {
        sport: 40000,
        dport: 53,
        len,
        sum,
    })
}

// A right checksum; none; one of 65,535; wrong ones; a length below and above the number of
// octets, also with a wrong checksum; too few octets.
#[test]
fn the_first_fault_is_told(rt: HostRuntime) {
    let rows: [(&[u8], Result<Udp, UdpFault>); 11] = [
        (
            &[0x9c, 0x40, 0, 0x35, 0, 10, 0xc6, 0xbf, 0x68, 0x69],
            read(10, 0xc6bf),
        ),
        (&[0x9c, 0x40, 0, 0x35, 0, 10, 0, 0, 0x68, 0x69], read(10, 0)),
        (
            &[0x9c, 0x40, 0, 0x35, 0, 10, 0xff, 0xff, 0x2f, 0x29],
            read(10, 0xffff),
        ),
        (
            &[0x9c, 0x40, 0, 0x35, 0, 10, 0xbf, 0xc6, 0x68, 0x69],
            Err(UdpFault::Sum),
        ),
        (
            &[0x9c, 0x40, 0, 0x35, 0, 10, 0xff, 0xff, 0x68, 0x69],
            Err(UdpFault::Sum),
        ),
        (
            &[0x9c, 0x40, 0, 0x35, 0, 9, 0xc6, 0xc0, 0x68, 0x69],
            Err(UdpFault::Length),
        ),
        (
            &[0x9c, 0x40, 0, 0x35, 0, 9, 0, 0, 0x68, 0x69],
            Err(UdpFault::Length),
        ),
        (
            &[0x9c, 0x40, 0, 0x35, 0, 11, 0xc6, 0xbf, 0x68, 0x69],
            Err(UdpFault::Length),
        ),
        (&[0x9c, 0x40, 0, 0x35, 0, 8, 0, 0], read(8, 0)),
        (&[0x9c, 0x40, 0, 0x35, 0, 7, 0], Err(UdpFault::Short)),
        (&[], Err(UdpFault::Short)),
    ];
    for (bytes, expected) in rows {
        assert_eq!(rt; parse(bytes, pseudo()), expected, "{bytes:?}");
    }
}

// No checksum; a wrong one; a right one; one that computes to 0.
#[test]
fn a_mended_message_has_the_senders_checksum(rt: HostRuntime) {
    let rows = [
        ([0, 0], [0x68, 0x69], [0xc6, 0xbf]),
        ([0x12, 0x34], [0x68, 0x69], [0xc6, 0xbf]),
        ([0xc6, 0xbf], [0x68, 0x69], [0xc6, 0xbf]),
        ([0, 0], [0x2f, 0x29], [0xff, 0xff]),
    ];
    let pseudo = pseudo_sum(Addr(0xc633_6407), Addr(0x0a00_0001), protocol::UDP, 10);
    for ([a, b], [h, i], [c, d]) in rows {
        let mut message = [0x9c, 0x40, 0, 0x35, 0, 10, a, b, h, i];
        mend(&mut message, pseudo);
        assert_eq!(rt; message, [0x9c, 0x40, 0, 0x35, 0, 10, c, d, h, i]);
    }
}
