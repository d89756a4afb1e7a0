//! Views that stop: their last line, and their status.
use crate::views::Written::Texts;
use crate::views::{PLAIN, RUN, Run, SYN, View, first_other, is_viewed};
use std::alloc::Global;
use std::test::Fail;

const REFUSAL: View = View {
    status: 2,
    written: Texts(&["stop words\n"]),
    ..PLAIN
};

/// Invalid arguments.
#[rattlefmt::skip]
const REFUSED: &[View] = &[
    View { words: "in out", ..REFUSAL },
    View { words: "--rule=T_OLD,T_OLD in out report", ..REFUSAL },
    View { words: "--only=pass, in out report", ..REFUSAL },
    View { words: "--side=up in out report", ..REFUSAL },
    View { words: "--era=second:0 in out report", ..REFUSAL },
    View { words: "--host=10.0.0.256 in out report", ..REFUSAL },
    View { words: "--host 10.0.0.1/33 in out report", ..REFUSAL },
    View { words: "--table=eras --side=in in out report", ..REFUSAL },
    View { words: "--table=records --table eras in out report", ..REFUSAL },
    View { words: "--era 0 in out report", ..REFUSAL },
];

/// A report, and the expected status and output of its view.
type Stop = (&'static str, u8, &'static [&'static str]);

/// Returns the index of the first report whose view differs from its case.
fn first_other_stop(alloc: Global, rows: &[Stop]) -> Result<Option<usize>, Fail> {
    for (index, (report, status, line)) in rows.iter().enumerate() {
        let row = View {
            run: Run {
                report: *report,
                ..RUN
            },
            status: *status,
            written: Texts(*line),
            ..PLAIN
        };
        if !is_viewed(alloc, &row)? {
            return Ok(Some(index));
        }
    }
    Ok(None)
}

#[rattlefmt::skip]
const STOPS: &[Stop] = &[
    ("norm 3\n", 9, &["stop report 1\n"]),
    ("norm 2\n1 in pass 1\n3 in pass 1\n", 9, &["stop report 3\n"]),
    ("norm 2\n1 in pass 1\nend 1 1\n", 1, &["no record 2\n"]),
    ("norm 2\n1 in pass 1\n2 in fix 1 T_OLD\n3 in fix 1 T_OLD\n", 1, &["no frame 3\n"]),
    ("norm 2\n1 in pass 1\n2 in pass 1\n3 in pass 1\n", 1, &["no record 2\n"]),
    ("norm 2\n1 in pass 1\nstop cut 24\n", 9, &["stop report 3\n"]),
];

#[test]
fn views_stop(rt: HostRuntime) -> Result<(), Fail> {
    assert_eq!(rt; first_other(rt.alloc(), REFUSED)?, None);
    assert_eq!(rt; first_other_stop(rt.alloc(), STOPS)?, None);
    Ok(())
}

/// Reports of two engines, and one of a single engine with a line of a second.
#[rattlefmt::skip]
const STOPS_OF_TWO: &[Stop] = &[
    ("norm 2 both\n1 in pass 1\n2 in pass 1\n", 9, &["stop report 3\n"]),
    ("norm 2 both\n1 in pass 1\nend 1 0\n", 9, &["stop report 3\n"]),
    ("norm 2 both\n1 in pass 1\n/2 in pass 1\n", 9, &["stop report 3\n"]),
    ("norm 2 both\n1 in drop 0\n/1 in pass 1\n", 9, &["stop report 3\n"]),
    ("norm 2\n1 in pass 1\n/1 in pass 1\n", 9, &["stop report 3\n"]),
    ("norm 2 both\n1 in drop 0\n2 - drop 0\n3 in pass 2\n/1 in fix 1 T_OLD\n/2 in fix 1 T_OLD\nend 3 2\nx", 9, &["stop report 8\n"]),
    ("norm 2 both\n1 in drop 0\n2 in drop 0\n3 in drop 0\n4 in drop 0\n", 1, &["no record 4\n"]),
    ("norm 2 both\n1 in drop 0\n2 in drop 0\nend 2 0\n", 1, &["no record 3\n"]),
    ("norm 2 both\n1 in pass 3\n/1 in pass 3\n", 1, &["no frame 3\n"]),
    ("norm 2 both\n1 in drop 0\n2 in fix 1 T_OLD\n/1 out pass 1\n3 in drop 0\nend 3 1\n", 1, &["no frame 2\n"]),
    ("norm 2 both\n1 in drop 0\n2 in pass 1\n/1 out pass 1\n3 in drop 0\nend 3 1\n", 1, &["no record 2\n"]),
];

#[test]
fn views_of_two_engines_stop(rt: HostRuntime) -> Result<(), Fail> {
    assert_eq!(rt; first_other_stop(rt.alloc(), STOPS_OF_TWO)?, None);
    Ok(())
}

const OTHER_LINK: View = View {
    run: Run {
        input: (101, &[&SYN]),
        output: (1, &[&SYN]),
        report: "norm 2\n1 in pass 1\nend 1 1\n",
    },
    status: 3,
    written: Texts(&["stop out link 0\n"]),
    ..PLAIN
};

#[test]
fn output_of_another_link_stops(rt: HostRuntime) -> Result<(), Fail> {
    assert_eq!(rt; first_other(rt.alloc(), &[OTHER_LINK])?, None);
    Ok(())
}

const UNREAD: View = View {
    status: 5,
    written: Texts(&["stop read\n"]),
    ..PLAIN
};

#[rattlefmt::skip]
const FAILURES: &[View] = &[
    View { failing: [3, 0, 0, 0], ..UNREAD },
    View { failing: [0, 3, 0, 0], ..UNREAD },
    View { failing: [0, 0, 3, 0], ..UNREAD },
    View { failing: [0, 0, 0, 1], status: 7, written: Texts(&[]), ..PLAIN },
];

#[test]
fn failures_stop(rt: HostRuntime) -> Result<(), Fail> {
    assert_eq!(rt; first_other(rt.alloc(), FAILURES)?, None);
    Ok(())
}
