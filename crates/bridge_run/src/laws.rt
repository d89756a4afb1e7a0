//! The meaning of each status: laws over the state when a run has stopped.
ghost use Rattle.std.specs.Prelude.{◌⊎◌};
ghost use Rattle.bridge_run.specs.RecordedHost.{NormalizedErasGoOn, NormalizedWasReadSo};
ghost use Rattle.bridge_run.specs.StatusMeanings.{Leaves, UnderWords, UnderLoad, EndsSummed, EndsSummedInPart, EndsRefused, EndsFaulty, EndsCut, EndsUnread, EndsUnwritten, EndsUntold};
ghost use Rattle.bridge_run.specs.StoppedRun.{Finishes, SaysOnly};
ghost use Rattle.bridge_run.specs.StopReasons.{memory_line};
ghost use Rattle.bridge_run.specs.Theorem.{NormalizedIsReadAlike, NormalizedReadsRecords};

use both_sides::laws::{eras_of_runs_go_on, unchanged_runs_were_read_so};
use norm_engine::laws::messages_are_read_alike;

/// Proves that at 0 the capture was normalized, or the report was given the summary of a load, and
/// no fault count rose.
pub fn finished_runs_leave_all()
    ensures { Leaves 0 (λ words before now.
        UnderWords words (λ settings. Finishes settings before now) ⊎ UnderLoad words (λ seed count. EndsSummed seed count before now)) }
{}

/// Proves that at 2 the report was given the line on invalid arguments, and nothing else happened.
pub fn refused_words_leave_a_line()
    ensures { Leaves 2 EndsRefused }
{}

/// Proves that at 3 the capture was given the head and the frames of the packets before the fault,
/// and the report their lines and the stop. If the fault is in the head, the capture was given
/// nothing. Nothing was taken after the head, record or block that has the fault, or that is one
/// too many if both sides are protected.
pub fn faulty_inputs_leave_what_is_before()
    ensures { Leaves 3 (λ words before now. UnderWords words (λ settings. EndsFaulty settings before now)) }
{}

/// Proves that at 4 the same holds before a cut.
pub fn cut_inputs_leave_what_is_before()
    ensures { Leaves 4 (λ words before now. UnderWords words (λ settings. EndsCut settings before now)) }
{}

/// Proves that at 5 the same holds, and that of the head, record or block at which the source
/// failed not all octets were taken.
pub fn unread_inputs_leave_what_is_before()
    ensures { Leaves 5 (λ words before now. UnderWords words (λ settings. EndsUnread settings before now)) }
{}

/// Proves what was written at 6. The capture holds a prefix of the written head and frames that has
/// all except those of the last record. The report holds the lines of all records except the last,
/// and the stop. Or the capture, whose octets are not known, could not be flushed, between records
/// or at the end; then the report holds the lines of all records so far, and the stop.
pub fn failed_outputs_leave_a_prefix()
    ensures { Leaves 6 (λ words before now. UnderWords words (λ settings. EndsUnwritten settings before now)) }
{}

/// Proves that at 7 the report holds all lines except the last, and a prefix of that one. The
/// capture has the head and the frames of all records that were taken, or nothing if the first line
/// failed. Or the report could not be flushed between records. Of a load the report holds a prefix
/// of the summary.
pub fn failed_reports_leave_a_prefix()
    ensures { Leaves 7 (λ words before now.
        UnderWords words (λ settings. EndsUntold settings before now) ⊎ UnderLoad words (λ seed count. EndsSummedInPart seed count before now)) }
{}

/// Proves that at 8 the report was given `stop memory 0`, and nothing else happened.
pub fn want_of_memory_leaves_a_line()
    ensures { Leaves 8 (λ words before now. SaysOnly memory_line before now) }
{}

/// Proves that at 0 any two receivers of the family read alike each UDP and ICMP message, and each
/// segment, that was written inwards.
pub fn written_messages_are_read_alike()
    ensures { NormalizedIsReadAlike }
{
    messages_are_read_alike();
}

/// Proves that at 0 receivers of what was written inwards read only what records brought. If no
/// record of an era differs from an earlier one at an offset at or past Acked, no line of it names
/// T_CLASH, and receivers read what the sender gave.
pub fn normalized_reads_records()
    ensures { NormalizedReadsRecords }
{}

/// Proves of each capture that was normalized by one engine without an MTU, before the first record
/// and after each, that the inward packets as recorded are those that were written. This holds if
/// each line so far that is inbound or has no side is `pass`. So what `Normalized` promises of
/// receivers of the written packets applies to those of the recorded ones. The same of the records
/// and eras of a pair of addresses, if each such line of a record that may be of that pair is
/// `pass`.
pub fn unchanged_captures_were_read_so()
    ensures { NormalizedWasReadSo }
{
    unchanged_runs_were_read_so();
}

/// Proves of any two eras of a capture that was normalized, without an MTU if by one engine, that
/// nothing is read again. Premises: all that was written inwards in the first is acknowledged, and
/// the base of the second is not before that. Then no octet of the second is at an offset that a
/// receiver has read in the first. If besides no FIN was written inwards in the first and no SYN in
/// the second, both are read as one era.
pub fn eras_of_captures_go_on()
    ensures { NormalizedErasGoOn }
{
    eras_of_runs_go_on();
}
