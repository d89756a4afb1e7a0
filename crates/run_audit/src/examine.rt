//! The audit of a capture and its report.

ghost use Rattle.std.specs.Prelude.{◌≡◌, ◌+◌, ◌^◌, ◌<◌, ◌≤◌, ◌⊎◌, [], map, length, string_bytes, IfOk, IfErr, IfSome};
ghost use Rattle.std.specs.List.{AllByRecursion};
ghost use Rattle.rule_book.specs.Entries.{plain};
ghost use Rattle.run_audit.specs.AnswerMeanings.{Answered, FramesAgree, Says, TellsExactly, WhereRead, seen};
ghost use Rattle.run_audit.specs.working.CaptureCauses.{HasEra, WhyUnsound, WhyUnsoundWhole};
ghost use Rattle.run_audit.specs.CaptureFindings.{IsSound, SoundFrames};
ghost use Rattle.run_audit.specs.working.EraTable.{AllStandFor};
ghost use Rattle.run_audit.specs.OwnedFrames as frames;
ghost use Rattle.run_audit.specs.NamedEras.{eras_named};
ghost use Rattle.run_audit.specs.working.CaptureAnswers as spec;
ghost use Rattle.run_audit.specs.declared.answer.Answer.{Answer};
ghost use Rattle.run_audit.specs.declared.answer.Reason.{Reason};
ghost use Rattle.wire_base.specs.declared.limits.TheConstants.{MAX_CAPTURED};

use crate::answer::tell;
use crate::frame::judge;
use crate::laws::{
    answers_are_one, faultless_agrees, faultless_misses_nothing, faultless_reads_one_stream,
};
use crate::named::{Eras, eras_named};
use crate::owners::Owners;
use crate::report::entries_of;
use crate::words::hops_asked;
use crate::{Answer, Flaw, Reason};
use edge_io::{Sink, Source};
use pcap_file::{Head, HeadFault, Reader, RecordFault, read_head};
use rule_book::Entry;
use std::alloc::Global;
use wire_base::{MAX_CAPTURED, packet_in};

/// Audits a written capture and its report, writes one line to `out`, and returns the status:
///
/// - 0, `yes E F`: no frame has a fault; E is the number of different eras that the report names, F
///   that of frames;
/// - 1, `no F REASON`: frame F, counted from 1, is the first with a fault;
/// - 2, `stop words`: the words are not those of an audit;
/// - 3, `stop magic 0` and the like: the capture is refused;
/// - 4, `stop cut O`: the capture ends inside its head or a record;
/// - 5, `stop read`: the capture or the report failed;
/// - 7: `out` failed;
/// - 8, `stop memory`: memory could not be allocated;
/// - 9, `stop report N`: the report is not that of a finished run, by its line N; N is 0 for a
///   report of over 67,108,864 octets.
///
/// The words are the names of the two files and the number of routers behind the bridge. The report
/// is read first, to its end, and then the capture, frame by frame.
///
/// The number of routers is from 0 to 254. `no F REASON`: REASON is count, plain, base, syn, octet
/// or fin.
pub fn audit<C: Source, R: Source, K: Sink>(
    alloc: Global,
    words: &[String],
    capture: &mut C,
    report: &mut R,
    out: &mut K,
) -> u8
    ensures answered { Answered (map string_bytes words.now)
        (seen (C.left capture.old) (C.fault_count capture.old) (C.fault_count capture.new))
        (seen (R.left report.old) (R.fault_count report.old) (R.fault_count report.new))
        (K.held out.old) (K.held out.new) (K.fault_count out.old) (K.fault_count out.new) result }

    // At 0, if the octets of both files are known, all receivers agree and read parts of one
    // stream, whoever wrote the files. After each frame a monitor that heard its frames in time
    // misses nothing.
    ensures agreement { result ≡ 0 → WhereRead (map string_bytes words.now)
        (seen (C.left capture.old) (C.fault_count capture.old) (C.fault_count capture.new))
        (seen (R.left report.old) (R.fault_count report.old) (R.fault_count report.new))
        FramesAgree }

    // The one answer that holds is written, unless memory could not be allocated, or a source or
    // the output failed.
    ensures exactly { TellsExactly (map string_bytes words.now)
        (seen (C.left capture.old) (C.fault_count capture.old) (C.fault_count capture.new))
        (seen (R.left report.old) (R.fault_count report.old) (R.fault_count report.new))
        (K.held out.old) (K.held out.new) (K.fault_count out.old) (K.fault_count out.new) result }
    ensures known { (result ≤ 5) ⊎ ((7 ≤ result) × (result ≤ 9)) }
    ensures capture_later { C.fault_count capture.old ≤ C.fault_count capture.new }
    ensures report_later { R.fault_count report.old ≤ R.fault_count report.new }
    ensures out_later { K.fault_count out.old ≤ K.fault_count out.new }
{
    faultless_agrees();
    faultless_reads_one_stream();
    faultless_misses_nothing();
    answers_are_one();
    match examine(alloc, words, capture, report) {
        Ok(counts) => tell(alloc, counts.answer(), out),
        Err(answer) => tell(alloc, answer, out),
    }
}

/// The number of different eras that a report names, and the number of written frames.
#[derive(Clone, Copy)]
struct Counts {
    eras: usize,
    frames: u64,
}

impl Counts {
    // Returns the answer `yes`.
    fn answer(self) -> Answer
        ensures { result ≡ Answer.Yes self.eras self.frames }
    {
        Answer::Yes {
            eras: self.eras,
            frames: self.frames,
        }
    }
}

// Returns the counts of a report and a capture without a fault, or another answer.
fn examine<C: Source, R: Source>(
    alloc: Global,
    words: &[String],
    capture: &mut C,
    report: &mut R,
) -> Result<Counts, Answer>
    ensures yes { IfOk result (λ counts. Says (map string_bytes words.now)
        (seen (C.left capture.old) (C.fault_count capture.old) (C.fault_count capture.new))
        (seen (R.left report.old) (R.fault_count report.old) (R.fault_count report.new))
        (Answer.Yes counts.eras counts.frames)) }
    ensures other { IfErr result (λ answer. Says (map string_bytes words.now)
        (seen (C.left capture.old) (C.fault_count capture.old) (C.fault_count capture.new))
        (seen (R.left report.old) (R.fault_count report.old) (R.fault_count report.new)) answer) }
    ensures capture_later { C.fault_count capture.old ≤ C.fault_count capture.new }
    ensures report_later { R.fault_count report.old ≤ R.fault_count report.new }
{
    let Some(hops) = hops_asked(words) else {
        return Err(Answer::Words);
    };
    match entries_of(alloc, report) {
        Ok(entries) => examine_capture(alloc, hops, entries.as_slice(), capture),
        Err(answer) => Err(answer),
    }
}

// Returns the counts of a capture without a fault by the entries of its report, or another answer.
fn examine_capture<C: Source>(
    alloc: Global,
    hops: u8,
    entries: &[Entry],
    capture: &mut C,
) -> Result<Counts, Answer>
    ensures named { IfOk result (λ counts. counts.eras ≡ length (eras_named (map plain entries.now))) }
    ensures sound { IfOk result (λ counts. IfSome (C.left capture.old) (λ octets. IsSound hops (map plain entries.now) octets counts.frames)) }
    ensures why { IfErr result (λ answer. WhyUnsoundWhole hops (map plain entries.now) (C.left capture.old)
        (C.fault_count capture.old) (C.fault_count capture.new) answer) }
    ensures later { C.fault_count capture.old ≤ C.fault_count capture.new }
{
    let mut eras = eras_named(alloc, entries)?;
    let named = eras.len();
    let mut buffer = vec![in alloc; 0u8; MAX_CAPTURED as usize]?;
    match judge_capture(&mut eras, hops, entries, buffer.as_mut_slice(), capture) {
        Ok(frames) => Ok(Counts {
            eras: named,
            frames,
        }),
        Err(answer) => Err(answer),
    }
}

// Judges each frame of a capture. Returns their number.
fn judge_capture<C: Source>(
    eras: &mut Eras,
    hops: u8,
    entries: &[Entry],
    buffer: &mut [u8],
    capture: &mut C,
) -> Result<u64, Answer>
    requires fresh { AllStandFor eras.old [] }
    requires named { AllByRecursion (HasEra eras.old) (frames.owners (map plain entries.now)) }
    requires room { MAX_CAPTURED ≤ length buffer.old }
    ensures sound { IfOk result (λ count. IfSome (C.left capture.old) (λ octets. IsSound hops (map plain entries.now) octets count)) }
    ensures why { IfErr result (λ answer. WhyUnsoundWhole hops (map plain entries.now) (C.left capture.old)
        (C.fault_count capture.old) (C.fault_count capture.new) answer) }
    ensures later { C.fault_count capture.old ≤ C.fault_count capture.new }
{
    let head = match read_head(capture) {
        Ok(head) => head,
        Err(fault) => return Err(flawed_head(fault)),
    };
    judge_frames(eras, hops, head, entries, buffer, capture)
}

// Judges each frame after a head. Returns their number.
fn judge_frames<C: Source>(
    eras: &mut Eras,
    hops: u8,
    head: Head,
    entries: &[Entry],
    buffer: &mut [u8],
    capture: &mut C,
) -> Result<u64, Answer>
    requires fresh { AllStandFor eras.old [] }
    requires named { AllByRecursion (HasEra eras.old) (frames.owners (map plain entries.now)) }
    requires room { MAX_CAPTURED ≤ length buffer.old }
    ensures sound { IfOk result (λ count. IfSome (C.left capture.old) (λ all. SoundFrames hops head (map plain entries.now) all count)) }
    ensures why { IfErr result (λ answer. WhyUnsound hops head (map plain entries.now) (C.left capture.old)
        (C.fault_count capture.old) (C.fault_count capture.new) answer) }
    ensures later { C.fault_count capture.old ≤ C.fault_count capture.new }
{
    let mut reader = Reader::new(head);
    let mut owners = Owners::new(entries);
    let mut count = 0;
    'records: loop {
        let record = match reader.next(capture, buffer) {
            Ok(Some(record)) => record,
            Ok(None) => break,
            Err(fault) => return Err(flawed_record(fault, reader.offset())),
        };
        let Some(entry) = owners.next() else {
            return Err(missing(count));
        };
        let packet = packet_in(head.link, record.bytes);
        if let Some(reason) = judge(eras, hops, entry, packet)? {
            return Err(Answer::No {
                frame: count + 1,
                reason,
            });
        }
        count += 1;
    }
    match owners.next() {
        Some(_) => Err(missing(count)),
        None => Ok(count),
    }
}

// Returns the answer that the frame after `count` others is missing in the capture or in the
// report.
fn missing(count: u64) -> Answer
    requires { count < 2 ^ 32 }
    ensures { result ≡ Answer.No (count + 1) Reason.Count }
{
    Answer::No {
        frame: count + 1,
        reason: Reason::Count,
    }
}

// Returns the answer to a fault of the head.
fn flawed_head(fault: HeadFault) -> Answer
    ensures { result ≡ spec.head_answer fault }
{
    let flaw = match fault {
        HeadFault::Cut => Flaw::Cut,
        HeadFault::Magic => Flaw::Magic,
        HeadFault::Version => Flaw::Version,
        HeadFault::Link => Flaw::Link,
        HeadFault::ReadFault => return Answer::Unread,
    };
    Answer::Flawed { flaw, offset: 0 }
}

// Returns the answer to a fault of the record at this offset.
fn flawed_record(fault: RecordFault, offset: u64) -> Answer
    ensures { result ≡ spec.record_answer fault offset }
{
    let flaw = match fault {
        RecordFault::Cut => Flaw::Cut,
        RecordFault::Long => Flaw::Long,
        RecordFault::TooMany => Flaw::Many,
        RecordFault::ReadFault => return Answer::Unread,
    };
    Answer::Flawed { flaw, offset }
}
