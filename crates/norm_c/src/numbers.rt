//! The numbers of values in C's structs.
ghost use Rattle.std.specs.Prelude.{◌≡◌};
ghost use Rattle.norm_c.specs.Numbers as spec;

use crate::plain::{AnswerWords, ArrivalWords, FrameWords};
use norm_gate::gate::Written;
use norm_gate::{Answer, Arrival, Fate, Frames, Port};
use rule_book::Verdict;
use wire_base::Link;

/// Returns the kind of frames with this number.
pub(crate) fn frames_numbered(number: u32) -> Option<Frames>
    ensures { result ≡ spec.frames_numbered number }
{
    match number {
        0 => Some(Frames::Ports),
        1 => Some(Frames::Capture(Link::Ethernet)),
        2 => Some(Frames::Capture(Link::Raw)),
        _ => None,
    }
}

/// Returns the arrival that these numbers tell.
pub(crate) fn arrival_told(words: &ArrivalWords) -> Arrival
    ensures { result ≡ spec.arrival_told words.now }
{
    let port = if words.port == 1 {
        Port::Inside
    } else {
        Port::Outside
    };
    Arrival {
        port,
        tag: words.tag,
        seconds: words.seconds,
        fraction: words.fraction,
        original: words.original,
    }
}

/// Returns the numbers of an answer.
pub(crate) fn answer_words(answer: &Answer) -> AnswerWords
    ensures { result ≡ spec.answer_words answer.now }
{
    AnswerWords {
        fate: number_of_fate(answer.fate),
        records: answer.records,
        verdict: number_of_verdict(answer.verdict),
        frames: answer.frames,
        port: number_of_port(answer.port),
        as_read: answer.as_read,
    }
}

/// Returns the numbers of a frame.
pub(crate) fn frame_words(written: &Written) -> FrameWords
    ensures { result ≡ record { size = written.now.size; port = spec.number_of_port written.now.port } }
{
    FrameWords {
        size: written.size,
        port: number_of_port(written.port),
    }
}

fn number_of_fate(fate: Fate) -> u32
    ensures { result ≡ spec.number_of_fate fate }
{
    match fate {
        Fate::Judged => 0,
        Fate::Forged => 1,
        Fate::Crosses => 2,
        Fate::Unjudged => 3,
        Fate::TooLong => 4,
        Fate::Truncated => 5,
    }
}

fn number_of_verdict(verdict: Verdict) -> u32
    ensures { result ≡ spec.number_of_verdict verdict }
{
    match verdict {
        Verdict::Pass => 0,
        Verdict::Fix => 1,
        Verdict::Hold => 2,
        Verdict::Drop => 3,
    }
}

fn number_of_port(port: Option<Port>) -> u32
    ensures { result ≡ spec.number_of_port port }
{
    match port {
        Some(Port::Outside) => 0,
        Some(Port::Inside) => 1,
        None => 2,
    }
}
