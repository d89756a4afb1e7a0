//! Records that another program computed from the definition of a load.
use load_make::{Load, MAX_RECORD};
use std::test::Fail;
use wire_base::u32_at;

// The first record of a load of one: the SYN of connection 22.
#[test]
fn a_load_of_one_is_one_call(rt: HostRuntime) -> Result<(), Fail> {
    let mut buf = [0xee; MAX_RECORD];
    let mut load = Load::new(1, 1);
    let record = load.next(&mut buf).ok_or("no record")?;
    assert_eq!(rt;
        (
            record.seconds,
            record.fraction,
            record.original,
            record.offset
        ),
        (0, 0, 40, 0)
    );
    let words = [
        0x4500_0028,
        0x0000_0000,
        0x4006_4685,
        0xc633_6417,
        0x0a00_0001,
        0x9c56_0050,
        0x0000_59d7,
        0x0000_0000,
        0x5002_ffff,
        0x8519_0000,
    ];
    assert_eq!(rt; record.bytes.len(), 40);
    for (i, word) in words.iter().enumerate() {
        assert_eq!(rt; u32_at(record.bytes, 4 * i), *word, "word {i}");
    }
    assert!(rt; load.next(&mut buf).is_none());
    assert!(rt; Load::new(1, 0).next(&mut buf).is_none());
    Ok(())
}

/// A record of the load with seed 1: its position, its time, its length, the words of its headers
/// from the source on, and the first four octets after them.
struct Row {
    place: u32,
    fraction: u32,
    size: usize,
    words: [u32; 7],
    octets: u32,
}

#[rattlefmt::skip]
const ROWS: &[Row] = &[
    Row { place: 35, fraction: 35000, size: 552, octets: 0x1a1b_1c1d,
        words: [0xc633_641b, 0x0a00_0001, 0x9c5a_0050, 0x0000_6978, 0x0000_1389, 0x5018_ffff, 0xbf2b_0000] },
    Row { place: 61, fraction: 61000, size: 40, octets: 0xeeee_eeee,
        words: [0x0a00_0001, 0xc633_6417, 0x0050_9c56, 0x0000_1389, 0x0000_5bd8, 0x5010_ffff, 0x6f81_0000] },
    Row { place: 101, fraction: 101000, size: 552, octets: 0xff21_2223,
        words: [0xc633_6421, 0x0a00_0001, 0x9c60_0050, 0x0000_80e8, 0x0000_1389, 0x5018_ffff, 0xaa90_0000] },
];

// Retransmitted octets, an acknowledgment, and retransmitted octets with another first octet.
#[test]
fn later_records_do_what_their_actions_say(rt: HostRuntime) -> Result<(), Fail> {
    for row in ROWS {
        let mut load = Load::new(1, u32::MAX);
        for _ in 0..row.place {
            let _ = load.next(&mut [0; MAX_RECORD]).ok_or("no record")?;
        }
        let mut buf = [0xee; MAX_RECORD];
        let record = load.next(&mut buf).ok_or("no record")?;
        assert_eq!(rt; (record.seconds, record.fraction), (0, row.fraction));
        assert_eq!(rt; record.bytes.len(), row.size);
        for (i, word) in row.words.iter().enumerate() {
            assert_eq!(rt;
                u32_at(record.bytes, 12 + 4 * i),
                *word,
                "word {i} of {}",
                row.place
            );
        }
        assert_eq!(rt; u32_at(&buf, 40), row.octets);
    }
    Ok(())
}

// All octets and times of a load in one number: each counts 31 times the one after it, modulo 2^64.
#[test]
fn a_load_of_4000_records_is_the_same_octet_for_octet(rt: HostRuntime) -> Result<(), Fail> {
    let mut load = Load::new(7, 4000);
    let mut buf = [0; MAX_RECORD];
    let mut digest = 0u64;
    for _ in 0..4000 {
        let record = load.next(&mut buf).ok_or("no record")?;
        for time in [record.seconds, record.fraction] {
            digest = digest.wrapping_mul(31).wrapping_add(u64::from(time));
        }
        for octet in record.bytes {
            digest = digest.wrapping_mul(31).wrapping_add(u64::from(*octet));
        }
    }
    assert!(rt; load.next(&mut buf).is_none());
    assert_eq!(rt; digest, 11783139756617214273);
    Ok(())
}
