//! Runs that stop because a call of the source or of a sink fails, or because the capture sink is
//! full.
use super::expected::{Case, End, Expected, Undisturbed, undisturbed_run};
use super::{Stuck, WORDS};
use crate::runs::{NONE, Outcome, capture_file, ends, line, sink_of, source_of, status_of};
use bridge_run::run;
use edge_io::{Sink, Source, read_full};
use std::alloc::{AllocError, Global};
use std::test::Fail;

/// A whole connection.
const CONNECTION: &[Case] = &[Case {
    options: "",
    packets: "request",
}];

#[rattlefmt::skip]
const OTHERS: &[Case] = &[
    // The same connection through two engines.
    Case { options: "--both", packets: "request" },
    // A frame that is cut into three segments, one that is too long, and one that passes.
    Case { options: "--mtu=576", packets: "opened\n> PA 1000,5001 a*1100\n< PA 5001,1000 a*537 [urg=1]\n< A 5001,2100" },
];

/// A disturbance of a run: the most octets that a call of the source returns, the calls that fail,
/// 0 for none, and the capacity of the capture sink in octets.
#[derive(Clone, Copy)]
struct Disturbance {
    piece: usize,
    failing: (u32, u32, u32),
    room: usize,
}

/// Returns the disturbance in which this call of an object fails.
fn failing_at(end: End, call: u32, piece: usize) -> Disturbance {
    let failing = match end {
        End::Source => (call, 0, 0),
        End::Capture => (0, call, 0),
        End::Report => (0, 0, call),
    };
    Disturbance {
        piece,
        failing,
        room: 4096,
    }
}

/// What a disturbed run leaves: its status, the number of failed calls of each object, the number
/// of octets taken from the source, and the octets of the sinks.
#[derive(Clone, Copy)]
struct Left<'a> {
    status: u8,
    faults: (u64, u64, u64),
    taken: usize,
    capture: &'a [u8],
    report: &'a [u8],
}

impl Left<'_> {
    /// Returns the number of octets taken from the source or held by a sink.
    fn octets_at(&self, end: End) -> usize {
        match end {
            End::Source => self.taken,
            End::Capture => self.capture.len(),
            End::Report => self.report.len(),
        }
    }
}

/// Returns the number of failed calls of each object that a status implies.
fn faults_at(status: u8) -> (u64, u64, u64) {
    match status {
        5 => (1, 0, 0),
        6 => (0, 1, 0),
        7 => (0, 0, 1),
        _ => (0, 0, 0),
    }
}

/// Returns the `stop` line of a kind and an offset, or no text.
fn stop_line(alloc: Global, stop: Option<(&str, usize)>) -> Result<String, AllocError> {
    match stop {
        Some((kind, offset)) => format!(in alloc; "stop {kind} {offset}\n"),
        None => Ok(String::new(alloc)),
    }
}

/// Returns whether a disturbed run ends as expected.
fn leaves(run: &Undisturbed, left: &Left<'_>, expected: &Expected, stop: &str) -> bool {
    let mark = expected.mark;
    let Some((told, rest)) = left.report.split_at_checked(mark.told) else {
        return false;
    };
    let same_status = left.status == expected.status;
    let same_faults = left.faults == faults_at(expected.status);
    let same_source = left.taken == mark.taken;
    let same_report = Some(told) == run.report.get(..mark.told) && rest == stop.as_bytes();
    let same_capture = Some(left.capture) == run.capture.get(..mark.written);
    same_status && same_faults && same_source && same_report && same_capture
}

/// A disturbed run: its status, the number of octets taken from the disturbed source or held by the
/// disturbed sink, and whether it ends as expected where it has this number.
#[derive(Clone, Copy, Debug, PartialEq, Eq)]
struct Disturbed {
    status: u8,
    octets: usize,
    is_expected: bool,
}

/// Compares what a run leaves with what is expected of it.
fn compared(
    alloc: Global,
    run: &Undisturbed,
    end: End,
    left: &Left<'_>,
) -> Result<Disturbed, AllocError> {
    let octets = left.octets_at(end);
    let expected = if left.status == 0 {
        run.at_end()
    } else {
        run.at(end, octets)
    };
    let stop = stop_line(alloc, expected.stop)?;
    Ok(Disturbed {
        status: left.status,
        octets,
        is_expected: leaves(run, left, &expected, &stop),
    })
}

/// Runs again with a disturbance of this object.
fn disturbed_run(
    alloc: Global,
    run: &Undisturbed,
    end: End,
    disturbance: Disturbance,
) -> Result<Disturbed, Fail> {
    let failing = disturbance.failing;
    let mut source = source_of(alloc, &run.file, disturbance.piece, failing.0)?;
    let mut capture = sink_of(alloc, disturbance.room, failing.1)?;
    let mut report = sink_of(alloc, 4096, failing.2)?;
    let status = status_of(alloc, &run.words, &mut source, &mut capture, &mut report);
    let faults = (source.faults(), capture.faults(), report.faults());
    let mut rest = [0u8; 4096];
    let rest = read_full(&mut source, &mut rest).unwrap_or(0);
    let left = Left {
        status,
        faults,
        taken: run.file.len().saturating_sub(rest),
        capture: capture.held(),
        report: report.held(),
    };
    Ok(compared(alloc, run, end, &left)?)
}

/// Returns the first number of octets that a call of the source returns at most with other outputs.
fn first_other_piece(alloc: Global, run: &Undisturbed) -> Result<Option<usize>, Fail> {
    for piece in [1, 7, 65536] {
        let undisturbed = failing_at(End::Source, 0, piece);
        let disturbed = disturbed_run(alloc, run, End::Source, undisturbed)?;
        if disturbed.status != 0 || !disturbed.is_expected {
            return Ok(Some(piece));
        }
    }
    Ok(None)
}

/// Fails each call of an object in turn, until a run ends with status 0. Returns the first call
/// whose run does not end as expected or gets no further than the one before it.
fn first_other_call(
    alloc: Global,
    run: &Undisturbed,
    end: End,
    piece: usize,
) -> Result<Option<usize>, Fail> {
    let mut least = 0;
    for call in 1..=4000u32 {
        let disturbed = disturbed_run(alloc, run, end, failing_at(end, call, piece))?;
        let goes_on = disturbed.status == 0 || least <= disturbed.octets;
        if !disturbed.is_expected || !goes_on {
            return Ok(Some(call as usize));
        }
        if disturbed.status == 0 {
            return Ok(None);
        }
        least = disturbed.octets.saturating_add(1);
    }
    Err(Fail::new("no run ends with 0"))
}

/// Returns the first such call of the source, of the capture sink or of the report sink.
fn first_other_of_each(
    alloc: Global,
    run: &Undisturbed,
    piece: usize,
) -> Result<Option<usize>, Fail> {
    for end in [End::Source, End::Capture, End::Report] {
        let other = first_other_call(alloc, run, end, piece)?;
        if other.is_some() {
            return Ok(other);
        }
    }
    Ok(None)
}

/// Returns the first capacity of the capture sink, from 0 to 200 octets, that does not end a run as
/// expected.
fn first_other_room(alloc: Global, run: &Undisturbed) -> Result<Option<usize>, Fail> {
    for room in 0..=200usize {
        let disturbance = Disturbance {
            piece: 65536,
            failing: NONE,
            room,
        };
        let disturbed = disturbed_run(alloc, run, End::Capture, disturbance)?;
        let stopped = Disturbed {
            status: 6,
            octets: room,
            is_expected: true,
        };
        if disturbed != stopped {
            return Ok(Some(room));
        }
    }
    Ok(None)
}

/// How runs are disturbed one after another.
#[derive(Clone, Copy)]
enum Trial {
    /// The source returns at most 1, 7 and 65,536 octets per call.
    Pieces,
    /// Each call of each object fails, where the source returns at most this many octets per call.
    Calls(usize),
    /// The capture sink has each capacity.
    Rooms,
}

/// Tries each case, and returns the number of the first disturbance that does not end as expected.
fn first_other(alloc: Global, cases: &[Case], trial: Trial) -> Result<Option<usize>, Fail> {
    for case in cases {
        let run = undisturbed_run(alloc, case)?;
        let other = match trial {
            Trial::Pieces => first_other_piece(alloc, &run)?,
            Trial::Calls(piece) => first_other_of_each(alloc, &run, piece)?,
            Trial::Rooms => first_other_room(alloc, &run)?,
        };
        if other.is_some() {
            return Ok(other);
        }
    }
    Ok(None)
}

#[test]
fn pieces_of_any_length_give_the_same_outputs(rt: HostRuntime) -> Result<(), Fail> {
    assert_eq!(rt; first_other(rt.alloc(), CONNECTION, Trial::Pieces)?, None);
    assert_eq!(rt; first_other(rt.alloc(), OTHERS, Trial::Pieces)?, None);
    Ok(())
}

#[test]
fn each_call_that_fails_stops_a_run(rt: HostRuntime) -> Result<(), Fail> {
    for piece in [1, 7, 65536] {
        assert_eq!(rt;
            first_other(rt.alloc(), CONNECTION, Trial::Calls(piece))?,
            None
        );
    }
    Ok(())
}

#[test]
fn each_call_that_fails_stops_a_run_with_options(rt: HostRuntime) -> Result<(), Fail> {
    assert_eq!(rt; first_other(rt.alloc(), OTHERS, Trial::Calls(65536))?, None);
    Ok(())
}

#[test]
fn a_full_capture_sink_stops_a_run(rt: HostRuntime) -> Result<(), Fail> {
    assert_eq!(rt; first_other(rt.alloc(), CONNECTION, Trial::Rooms)?, None);
    assert_eq!(rt; first_other(rt.alloc(), OTHERS, Trial::Rooms)?, None);
    Ok(())
}

/// Test cases in which the `stop` line fails: the size of a capture, the call of the report that
/// fails, the report, and the number of octets written.
const STOP_LINES: &[(usize, u32, &str, usize)] = &[
    (0, 2, "norm 2\n", 0),
    (23, 2, "norm 2\n", 0),
    (39, 2, "norm 2\n", 24),
    (115, 3, "norm 2\n1 in pass 1\n", 70),
];

/// Returns the index of the first capture whose run has another outcome. It ends inside the file
/// header or a record.
fn first_other_cut(
    alloc: Global,
    rows: &[(usize, u32, &str, usize)],
) -> Result<Option<usize>, Fail> {
    let file = capture_file(alloc, "", 2, "")?;
    for (index, (size, call, report, written)) in rows.iter().enumerate() {
        let outcome = Outcome {
            status: 4,
            report: &[*report],
            capture: file.get(..*written).unwrap_or(&[]),
        };
        let file = file.get(..*size).unwrap_or(&[]);
        if !ends(alloc, WORDS, file, 7, (0, 0, *call), &outcome)? {
            return Ok(Some(index));
        }
    }
    Ok(None)
}

#[test]
fn a_fault_of_the_stop_line_changes_no_status(rt: HostRuntime) -> Result<(), Fail> {
    assert_eq!(rt; first_other_cut(rt.alloc(), STOP_LINES)?, None);
    Ok(())
}

/// Returns the status of a run over an empty source, whose sinks fail at each flush.
fn stuck_status(alloc: Global) -> Result<u8, Fail> {
    let words = line(alloc, WORDS)?;
    let mut source = source_of(alloc, &[], 7, 0)?;
    let mut capture = Stuck { faults: 0 };
    let mut report = Stuck { faults: 0 };
    Ok(run(alloc, &words, &mut source, &mut capture, &mut report))
}

#[test]
fn a_fault_of_a_flush_after_the_stop_changes_no_status(rt: HostRuntime) -> Result<(), Fail> {
    assert_eq!(rt; stuck_status(rt.alloc())?, 4);
    Ok(())
}
