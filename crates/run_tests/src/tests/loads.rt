//! Loads: records made from a seed.
use crate::runs::{HEAD, Outcome, ends, words_in};
use load_make::{Load, MAX_RECORD};
use std::alloc::Global;
use std::test::Fail;

const SUMMARY: &str = "load 1 1\nrecords 1\npackets 1\neras 1\nend\n";

/// Test cases: the words of a load of one record, the call of the report that fails, 0 for none,
/// the status, and the number of octets of the summary that are written.
#[rattlefmt::skip]
const LOADS: &[(&str, u32, u8, usize)] = &[
    ("load 1 1", 0, 0, 40),
    ("load 01 001", 0, 0, 40),
    ("load 1 1", 1, 7, 0),
    ("load 1 1", 3, 7, 19),
    ("load 1 1", 5, 7, 36),
];

/// Returns whether a run with these words ends as expected. The source and the capture sink would
/// fail at their first call; they are not called.
fn is_loaded(
    alloc: Global,
    words: &str,
    call: u32,
    status: u8,
    report: &str,
) -> Result<bool, Fail> {
    let words = words_in(alloc, &[words])?;
    let outcome = Outcome {
        status,
        report: &[report],
        capture: &[],
    };
    ends(alloc, &words, &HEAD, 7, (1, 1, call), &outcome)
}

/// Returns the index of the first case with another outcome.
fn first_other(alloc: Global, rows: &[(&str, u32, u8, usize)]) -> Result<Option<usize>, Fail> {
    for (index, (words, call, status, size)) in rows.iter().enumerate() {
        let report = SUMMARY.get(..*size).unwrap_or("");
        if !is_loaded(alloc, words, *call, *status, report)? {
            return Ok(Some(index));
        }
    }
    Ok(None)
}

#[test]
fn a_load_of_one_record_begins_an_era(rt: HostRuntime) -> Result<(), Fail> {
    assert_eq!(rt; first_other(rt.alloc(), LOADS)?, None);
    Ok(())
}

/// Counts over the records of a load.
#[derive(Clone, Copy)]
struct Made {
    /// Records with the flags SYN alone, at octet 33 of the packet.
    calls: u32,
    /// Records whose payload, from octet 40 of the packet on, begins with 255: an octet that a
    /// connection sends first is at most 250, so these are the changed ones.
    changed: u32,
}

fn made_of(seed: u64, count: u32) -> Made {
    let mut load = Load::new(seed, count);
    let mut buf = [0; MAX_RECORD];
    let mut made = Made {
        calls: 0,
        changed: 0,
    };
    for _place in 0..count {
        if let Some(record) = load.next(&mut buf) {
            if record.bytes.get(33) == Some(&2) {
                made.calls += 1;
            }
            if record.bytes.get(40) == Some(&255) {
                made.changed += 1;
            }
        }
    }
    made
}

/// Returns whether a load of 200,000 records has this summary, twice.
fn is_summed_up(alloc: Global, made: &Made) -> Result<bool, Fail> {
    let text = format!(in alloc;
        "load 7 200000\nrecords 200000\npackets 200000\neras {}\nrule T_CLASH {}\nend\n",
        made.calls, made.changed
    )?;
    let first = is_loaded(alloc, "load 7 200000", 0, 0, &text)?;
    Ok(first && is_loaded(alloc, "load 7 200000", 0, 0, &text)?)
}

// A load is the same each time. All its records pass, each connection is one era, and exactly the
// changed octets clash.
#[test]
fn a_large_load_is_the_same_each_time(rt: HostRuntime) -> Result<(), Fail> {
    let made = made_of(7, 200_000);
    assert!(rt; made.calls <= 64);
    assert!(rt; is_summed_up(rt.alloc(), &made)?);
    Ok(())
}
