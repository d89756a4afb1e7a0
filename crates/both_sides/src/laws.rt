//! Laws of the traces of two engines in sequence, of the traces of runs, and of the outputs for
//! them.
ghost use Rattle.both_sides.specs.EngineLaws.{BothAgree, FramesGoThrough};
ghost use Rattle.both_sides.specs.RunLaws.{LawfulRunsAreOne, OnePutsItsTrace, RunsAreWrittenSoundly, RunsBegin, RunsGoOn, TwoPutTheirMirror};
ghost use Rattle.both_sides.specs.BroughtOctets.{RunsAreBrought, RunsReadRecords};
ghost use Rattle.both_sides.specs.RecordedHost.{ErasOfRunsGoOn, RunsWereReadSo};

use ip_rules::laws::{anew_is_packet, datagrams_are_known};
use norm_engine::laws::{
    lawful_agrees, lawful_clashes_are_real, lawful_eras_go_on, lawful_fragment_clashes_are_real,
    lawful_invents_nothing, lawful_is_one, lawful_is_plain_inwards, lawful_is_short,
    lawful_is_within, lawful_is_written_soundly, lawful_keeps_clean, lawful_misses_nothing,
    lawful_reads_one_stream, unbounded_is_written_whole, unchanged_traces_were_read_so,
    written_clashes_are_real,
};
use tcp_norm::laws::{packets_are_its_own, packets_are_plain};

/// Proves that each frame which the first engine writes for a record that does not go outwards
/// passes the second octet for octet.
pub fn frames_go_through()
    ensures { FramesGoThrough }
{
    datagrams_are_known();
    anew_is_packet();
    packets_are_its_own();
    packets_are_plain();
    lawful_keeps_clean();
}

/// Proves that receivers of the family agree on what is written to either side.
pub fn both_agree()
    ensures { BothAgree }
{
    lawful_agrees();
}

/// Proves that a run begins lawfully, without records, and that each record adds the output for it.
pub fn runs_go_on()
    ensures begin { RunsBegin }
    ensures next { RunsGoOn }
{}

/// Proves that the output of one engine is its trace as it is written.
pub fn one_puts_its_trace()
    ensures { OnePutsItsTrace }
{}

/// Proves that the output of two engines is the trace of the second: the frames written are its
/// frames.
pub fn two_put_their_mirror()
    ensures { TwoPutTheirMirror }
{}

/// Proves that under given settings, and on a given link, records have at most one lawful run, by
/// one engine or by two.
pub fn lawful_runs_are_one()
    ensures { LawfulRunsAreOne }
{
    lawful_is_one();
}

/// Proves of each lawful run by one engine what `norm_engine::laws::lawful_is_written_soundly`
/// proves of its trace. In a run by two engines clean records keep their payload in each trace, and
/// no more is held in either than the settings allow. Receivers agree on either side and read parts
/// of one stream, and a monitor there misses nothing.
pub fn runs_are_written_soundly()
    ensures { RunsAreWrittenSoundly }
{
    lawful_is_written_soundly();
    lawful_keeps_clean();
    lawful_is_within();
    lawful_is_plain_inwards();
    lawful_is_short();
    frames_go_through();
    both_agree();
    lawful_reads_one_stream();
    lawful_misses_nothing();
}

/// Proves of each lawful run that in each era of each engine each octet of the stream, and its end,
/// was brought by the very record of that engine that added it. For the second engine that record
/// is a frame of the first. A line names T_CLASH exactly if its record is written, has neither SYN
/// nor RST, and has, at an offset at or past Acked, an octet that differs from the one written
/// first there. It names F_CLASH exactly if its record carries a fragment, which no rule tested
/// before drops, with an octet that differs from a held one.
pub fn runs_invent_nothing()
    ensures { RunsAreBrought }
{
    lawful_invents_nothing();
    lawful_clashes_are_real();
    lawful_fragment_clashes_are_real();
    written_clashes_are_real();
}

/// Proves of each lawful run that receivers of the written packets read only what records brought.
/// If no record of an era differs from an earlier one at an offset at or past Acked, no line of it
/// names T_CLASH, and receivers read what the sender gave.
pub fn runs_read_records()
    ensures { RunsReadRecords }
{
    runs_are_written_soundly();
    runs_invent_nothing();
}

/// Proves for each lawful run by one engine without an MTU that the recorded host read what was
/// written. If each line that is inbound or has no side is `pass`, the inward packets as recorded
/// are those that were written, and were read so.
/// The same of the records and eras of a pair of addresses.
pub fn unchanged_runs_were_read_so()
    ensures { RunsWereReadSo }
{
    unchanged_traces_were_read_so();
    unbounded_is_written_whole();
}

/// Proves of any two eras of a lawful run, by one engine without an MTU or by two, that nothing is
/// read again. Premises: all that was written inwards in the first is acknowledged, and the base of
/// the second is not before that. Then no octet of the second is at an offset that a receiver has
/// read in the first. If besides no FIN was written inwards in the first and no SYN in the second,
/// both are read as one era.
pub fn eras_of_runs_go_on()
    ensures { ErasOfRunsGoOn }
{
    lawful_eras_go_on();
    unbounded_is_written_whole();
}
