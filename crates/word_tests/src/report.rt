ghost use Rattle.std.specs.Prelude.{◌↔◌, IsTrue};
ghost use Rattle.rule_book.specs.Entries.{IsOfVersion, plain};

use arrayvec::ArrayVec;
use rule_book::{
    Ended, Entry, Last, LineFault, Reason, Rule, StopKind, Verdict, entry_line, last_line,
    read_report,
};
use std::test::Fail;
use wire_base::Side;

/// Returns an entry of this number, side, verdict and number of frames, without rules and eras.
fn plain_entry(number: u32, side: Option<Side>, verdict: Verdict, packets: u8) -> Entry {
    Entry {
        number,
        side,
        verdict,
        packets,
        rules: ArrayVec::new(),
        era: None,
        begun: None,
        ended: ArrayVec::new(),
    }
}

/// Returns the entry with more rules, as far as they fit.
fn with_rules(mut entry: Entry, rules: &[Rule]) -> Entry {
    let _ = entry.rules.try_extend_from_slice(rules);
    entry
}

/// Returns the entry with its era, the era that it began, and those that ended, as far as they fit.
fn with_eras(mut entry: Entry, era: u32, begun: Option<u32>, ended: &[Ended]) -> Entry {
    entry.era = Some(era);
    entry.begun = begun;
    let _ = entry.ended.try_extend_from_slice(ended);
    entry
}

/// Returns an ended era with its octets.
fn end_of(era: u32, reason: Reason, octets: u64) -> Ended {
    Ended {
        era,
        reason,
        octets: Some(octets),
    }
}

/// Returns whether each era that ended has its octets.
fn has_octets(entry: &Entry) -> bool
    ensures { IsTrue result ↔ IsOfVersion 2 (plain entry.now) }
{
    entry.ended.iter().all(|ended| ended.octets.is_some())
}

#[test]
fn each_part_of_an_entry_has_its_place(rt: HostRuntime) {
    let inward = Some(Side::Inward);
    let outward = Some(Side::Outward);
    let most = u32::MAX;
    let longest = with_rules(
        plain_entry(most, outward, Verdict::Drop, 255),
        &[Rule::TSumOut; 16],
    );
    let reset = [
        end_of(10, Reason::Idle, 4294967296),
        end_of(9, Reason::Reset, 18),
    ];
    let table = [
        (
            with_eras(plain_entry(1, inward, Verdict::Pass, 1), 1, Some(1), &[]),
            "1 in pass 1 @1 +1\n",
        ),
        (
            with_eras(
                plain_entry(2, inward, Verdict::Pass, 1),
                2,
                Some(2),
                &[end_of(1, Reason::Evicted, 0)],
            ),
            "2 in pass 1 @2 +2 -1:evicted:0\n",
        ),
        (
            with_rules(plain_entry(3, None, Verdict::Drop, 0), &[Rule::LSnap]),
            "3 - drop 0 L_SNAP\n",
        ),
        (
            with_eras(
                with_rules(
                    plain_entry(4, inward, Verdict::Fix, 1),
                    &[Rule::TRes, Rule::TUrg, Rule::TOpt],
                ),
                1,
                None,
                &[],
            ),
            "4 in fix 1 T_RES T_URG T_OPT @1\n",
        ),
        (
            with_rules(plain_entry(99, outward, Verdict::Hold, 0), &[Rule::FHeld]),
            "99 out hold 0 F_HELD\n",
        ),
        (
            with_eras(
                plain_entry(100, outward, Verdict::Pass, 10),
                9,
                None,
                &reset,
            ),
            "100 out pass 10 @9 -10:idle:4294967296 -9:reset:18\n",
        ),
        (
            with_eras(
                longest,
                most,
                Some(most),
                &[end_of(most, Reason::Reopened, u64::MAX); 4],
            ),
            "4294967295 out drop 255 \
             T_SUM_OUT T_SUM_OUT T_SUM_OUT T_SUM_OUT T_SUM_OUT T_SUM_OUT T_SUM_OUT T_SUM_OUT \
             T_SUM_OUT T_SUM_OUT T_SUM_OUT T_SUM_OUT T_SUM_OUT T_SUM_OUT T_SUM_OUT T_SUM_OUT \
             @4294967295 +4294967295 -4294967295:reopened:18446744073709551615 \
             -4294967295:reopened:18446744073709551615 -4294967295:reopened:18446744073709551615 \
             -4294967295:reopened:18446744073709551615\n",
        ),
    ];
    for (entry, text) in &table {
        let told = has_octets(entry);
        assert!(rt; told, "{text}");
        let mut buf = [b'#'; 400];
        let len = entry_line(entry, &mut buf);
        assert_eq!(rt; &buf[..len], text.as_bytes(), "{text}");
    }
    assert_eq!(rt; table[6].1.len(), 376);
}

#[test]
fn a_line_tells_the_octets_of_the_era_that_ended(rt: HostRuntime) {
    let mut ended = ArrayVec::new();
    ended.push(Ended {
        era: 1,
        reason: Reason::Reopened,
        octets: Some(18),
    });
    let entry = Entry {
        number: 11,
        side: Some(Side::Inward),
        verdict: Verdict::Pass,
        packets: 1,
        rules: ArrayVec::new(),
        era: Some(2),
        begun: Some(2),
        ended,
    };
    let mut buf = [b'#'; 400];
    let len = entry_line(&entry, &mut buf);
    assert_eq!(rt;
        &buf[..len],
        b"11 in pass 1 @2 +2 -1:reopened:18\n".as_slice()
    );
}

#[test]
fn the_last_line_counts_or_tells_why(rt: HostRuntime) {
    let table = [
        (end(6, 5), "end 6 5\n"),
        (
            end(u32::MAX, u64::MAX),
            "end 4294967295 18446744073709551615\n",
        ),
        (end(0, 4294967296), "end 0 4294967296\n"),
        (stop(StopKind::Magic, 0), "stop magic 0\n"),
        (stop(StopKind::Version, 0), "stop version 0\n"),
        (stop(StopKind::Link, 0), "stop link 0\n"),
        (stop(StopKind::Block, 92), "stop block 92\n"),
        (stop(StopKind::Long, 24), "stop long 24\n"),
        (stop(StopKind::Many, 1000000), "stop many 1000000\n"),
        (stop(StopKind::Cut, 70), "stop cut 70\n"),
        (stop(StopKind::ReadFault, 9), "stop read 9\n"),
        (stop(StopKind::Capture, 10), "stop capture 10\n"),
        (
            stop(StopKind::Memory, u64::MAX),
            "stop memory 18446744073709551615\n",
        ),
    ];
    for (last, text) in table {
        let mut buf = [b'#'; 64];
        let len = last_line(&last, &mut buf);
        assert_eq!(rt; &buf[..len], text.as_bytes(), "{text}");
    }
}

/// Returns the last line of a run that did not stop.
fn end(records: u32, packets: u64) -> Last {
    Last::End { records, packets }
}

/// Returns the last line of a run that stopped.
fn stop(kind: StopKind, offset: u64) -> Last {
    Last::Stop { kind, offset }
}

#[test]
fn a_report_of_a_connection_is_read(rt: HostRuntime) -> Result<(), Fail> {
    let text = "norm 2\n1 in pass 1 @1 +1\n2 out pass 1 @1\n3 in pass 1 @1\n4 in pass 1 @1\n\
                5 out pass 1 @1\n6 out pass 1 @1\n7 in pass 1 @1\n8 out pass 1 @1\n9 in pass 1 @1\n\
                10 out pass 1 @1\nend 10 10\n";
    let report = read_report(rt.alloc(), text.as_bytes())?;
    assert_eq!(rt; (report.version, report.last), (2, end(10, 10)));
    assert_eq!(rt; report.entries.len(), 10);
    assert_eq!(rt; report.entries[0].begun, Some(1));
    for (entry, number) in report.entries.iter().zip(1u32..11) {
        assert_eq!(rt;
            (entry.number, entry.packets, entry.era),
            (number, 1, Some(1))
        );
        assert_eq!(rt; entry.verdict, Verdict::Pass);
    }
    Ok(())
}

#[test]
fn texts_of_values_are_read(rt: HostRuntime) -> Result<(), Fail> {
    let table = [
        ("norm 1\nend 0 0\n", 1, 0, end(0, 0)),
        ("norm 2\nend 0 0\n", 2, 0, end(0, 0)),
        ("norm 2\n1 in pass 1 @0\nend 7 0\n", 2, 1, end(7, 0)),
        (
            "norm 2\n1 - drop 0 L_SNAP\n2 out hold 3 T_FULL\nstop magic 7\n",
            2,
            2,
            stop(StopKind::Magic, 7),
        ),
        (
            "norm 1\n1 in pass 255 T_CLASH I_TRAIL @4294967295 +0 -0:idle -9:evicted -9:reset -1:reopened\n\
             stop read 18446744073709551615\n",
            1,
            1,
            stop(StopKind::ReadFault, u64::MAX),
        ),
        (
            "norm 2\n1 in drop 0 T_QUOTA @1 -1:idle:0 -2:idle:18446744073709551615\n2 in fix 3 E_CUT @3\n\
             3 in drop 0 E_MTU\nend 3 3\n",
            2,
            3,
            end(3, 3),
        ),
    ];
    for (text, version, entries, last) in table {
        let report = read_report(rt.alloc(), text.as_bytes())?;
        assert_eq!(rt; report.version, version, "{text}");
        assert_eq!(rt; report.entries.len(), entries, "{text}");
        assert_eq!(rt; report.last, last, "{text}");
    }
    Ok(())
}

#[test]
fn the_octets_of_an_ended_era_are_read_in_version_2(rt: HostRuntime) -> Result<(), Fail> {
    let table = [
        (
            "norm 1\n1 in fix 1 T_TURN @1 -1:reset\nend 1 1\n",
            Reason::Reset,
            None,
        ),
        (
            "norm 1\n1 out pass 1 @1 -1:reset\nend 1 1\n",
            Reason::Reset,
            None,
        ),
        (
            "norm 1\n1 in pass 1 -1:evicted\nend 1 1\n",
            Reason::Evicted,
            None,
        ),
        (
            "norm 2\n1 in pass 1 -1:evicted:0\nend 1 1\n",
            Reason::Evicted,
            Some(0),
        ),
        (
            "norm 2\n1 in pass 1 -1:reopened:18\nend 1 1\n",
            Reason::Reopened,
            Some(18),
        ),
        (
            "norm 2\n1 in pass 1 -1:idle:18446744073709551615\nend 1 1\n",
            Reason::Idle,
            Some(u64::MAX),
        ),
    ];
    for (text, reason, octets) in table {
        let report = read_report(rt.alloc(), text.as_bytes())?;
        let ended = Ended {
            era: 1,
            reason,
            octets,
        };
        assert_eq!(rt;
            report.entries[0].ended.as_slice(),
            [ended].as_slice(),
            "{text}"
        );
    }
    Ok(())
}

#[test]
fn each_fault_is_told_at_its_line(rt: HostRuntime) {
    let table = [
        ("", LineFault::First),
        ("norm 0\nend 0 0\n", LineFault::First),
        ("norm 3\nend 0 0\n", LineFault::First),
        ("norm 02\nend 0 0\n", LineFault::First),
        ("norm 2 both\nend 0 0\n", LineFault::First),
        ("norm 1", LineFault::First),
        ("norm 2", LineFault::First),
        ("end 0 0\n", LineFault::First),
        ("norm 1\n", LineFault::Shape(2)),
        ("norm 2\n", LineFault::Shape(2)),
        ("norm 1\n\n", LineFault::Shape(2)),
        ("norm 1\n1 in pass 1\n", LineFault::Shape(3)),
        ("norm 1\n1 in pass 1", LineFault::Shape(2)),
        ("norm 1\nend 0 0", LineFault::Shape(2)),
        ("norm 1\nend 0 0\n\n", LineFault::Shape(3)),
        ("norm 1\nend 0 0\nend 0 0\n", LineFault::Shape(3)),
        (
            "norm 1\n1 in pass 1\nend 1 1\n2 in pass 1\n",
            LineFault::Shape(4),
        ),
        ("norm 1\n2 in pass 1\nend 1 1\n", LineFault::Number(2)),
        ("norm 1\n0 in pass 1\nend 1 1\n", LineFault::Number(2)),
        (
            "norm 1\n1 in pass 1\n1 in pass 1\nend 2 2\n",
            LineFault::Number(3),
        ),
        ("norm 1\n2 in past 1\nend 1 1\n", LineFault::Shape(2)),
        ("norm 1\n01 in pass 1\nend 1 1\n", LineFault::Shape(2)),
        ("norm 1\n1 in pass 00\nend 1 1\n", LineFault::Shape(2)),
        ("norm 1\n+1 in pass 1\nend 1 1\n", LineFault::Shape(2)),
        ("norm 1\n1  in pass 1\nend 1 1\n", LineFault::Shape(2)),
        ("norm 1\n1 in pass 1 \nend 1 1\n", LineFault::Shape(2)),
        (
            "norm 1\n4294967296 in pass 1\nend 1 1\n",
            LineFault::Shape(2),
        ),
        ("norm 1\n1 in pass 256\nend 1 1\n", LineFault::Shape(2)),
        (
            "norm 1\n1 in pass 1 @4294967296\nend 1 1\n",
            LineFault::Shape(2),
        ),
        ("norm 1\n1 in drop 0 L_SNAQ\nend 1 1\n", LineFault::Shape(2)),
        (
            "norm 1\n1 in drop 0 X_LATER\nend 1 0\n",
            LineFault::Shape(2),
        ),
        (
            "norm 2\n1 in pass 1\n2 in drop 0 X_LATER\nend 2 1\n",
            LineFault::Shape(3),
        ),
        ("norm 2\n1 in drop 0 59\nend 1 0\n", LineFault::Shape(2)),
        (
            "norm 1\n1 in drop 0 @1 L_SNAP\nend 1 1\n",
            LineFault::Shape(2),
        ),
        ("norm 1\n1 in pass 1 +1 @1\nend 1 1\n", LineFault::Shape(2)),
        (
            "norm 1\n1 in pass 1 @1 -2:idle +1\nend 1 1\n",
            LineFault::Shape(2),
        ),
        ("norm 1\n1 in pass 1 @1 @1\nend 1 1\n", LineFault::Shape(2)),
        (
            "norm 1\n1 in pass 1 @1 -2:gone\nend 1 1\n",
            LineFault::Shape(2),
        ),
        (
            "norm 1\n1 in pass 1 -1:idle -2:idle -3:idle -4:idle -5:idle\nend 1 1\n",
            LineFault::Shape(2),
        ),
        (
            "norm 1\n1 in fix 1 T_OPT T_OPT T_OPT T_OPT T_OPT T_OPT T_OPT T_OPT T_OPT T_OPT \
             T_OPT T_OPT T_OPT T_OPT T_OPT T_OPT T_OPT\nend 1 1\n",
            LineFault::Shape(2),
        ),
        (
            "norm 2\n1 in pass 1 -1:reset\nend 1 1\n",
            LineFault::Shape(2),
        ),
        (
            "norm 2\n1 in pass 1 -1:idle:0 -2:reset\nend 1 1\n",
            LineFault::Shape(2),
        ),
        (
            "norm 1\n1 in pass 1 -1:reset:0\nend 1 1\n",
            LineFault::Shape(2),
        ),
        (
            "norm 2\n2 in pass 1 -1:reset\nend 1 1\n",
            LineFault::Shape(2),
        ),
        (
            "norm 2\n1 in pass 1 -1:reset:\nend 1 1\n",
            LineFault::Shape(2),
        ),
        (
            "norm 1\n1 in pass 1 -1:reset:\nend 1 1\n",
            LineFault::Shape(2),
        ),
        (
            "norm 2\n1 in pass 1 -1:reset:01\nend 1 1\n",
            LineFault::Shape(2),
        ),
        (
            "norm 2\n1 in pass 1 -1:reset:1:1\nend 1 1\n",
            LineFault::Shape(2),
        ),
        (
            "norm 2\n1 in pass 1 -1:reset:18446744073709551616\nend 1 1\n",
            LineFault::Shape(2),
        ),
        ("norm 1\nend 4294967296 0\n", LineFault::Shape(2)),
        ("norm 1\nend 0 18446744073709551616\n", LineFault::Shape(2)),
        ("norm 1\nstop words 1\n", LineFault::Shape(2)),
        ("norm 1\nstop later 0\n", LineFault::Shape(2)),
        ("norm 1\nend 0 0 \n", LineFault::Shape(2)),
    ];
    for (text, fault) in table {
        let found = read_report(rt.alloc(), text.as_bytes()).err();
        assert_eq!(rt; found, Some(fault), "{text}");
    }
}

#[test]
fn a_rule_is_found_by_its_name(rt: HostRuntime) {
    assert_eq!(rt; Rule::of_name(b"T_SUM_OUT"), Some(Rule::TSumOut));
    assert_eq!(rt; Rule::of_name(b"T_SUM"), Some(Rule::TSum));
    assert_eq!(rt; Rule::of_name(b"T_SU"), None);
    assert_eq!(rt; Rule::of_name(b"X_LATER"), None);
    assert_eq!(rt; Rule::of_name(b""), None);
}
