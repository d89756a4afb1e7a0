//! Laws of lawful traces, and of what is written of them.
ghost use Rattle.norm_engine.specs.BroughtOctets.{ConsistentIsWithoutClash, LawfulClashesAreReal, LawfulInventsNothing};
ghost use Rattle.norm_engine.specs.GivenOctets.{LawfulReadsRecords};
ghost use Rattle.norm_engine.specs.HeldFragments.{LawfulFragmentClashesAreReal, LawfulJoinsHeld};
ghost use Rattle.norm_engine.specs.CertainReading.{ItemsAreCertain, LawfulIsEmitted};
ghost use Rattle.norm_engine.specs.TraceLaws.{ItemsAreCounted, LawfulAgrees, LawfulCallsAreMade, LawfulIsOfOneStream, LawfulIsOne, LawfulIsWithin, LawfulKeepsClean, LawfulLeavesRoom, LawfulMissesNothing, LawfulReadsOneStream, LawfulStaysNearAcks, LawfulTellsStreams};
ghost use Rattle.norm_engine.specs.OutgoingFrames.{ItemsGoOut};
ghost use Rattle.norm_engine.specs.RecordedHost.{LawfulWasReadSo};
ghost use Rattle.norm_engine.specs.TwoEras.{LawfulErasGoOn};
ghost use Rattle.norm_engine.specs.MonitorMemory.{WaitingIsFew, WaitingIsKept};
ghost use Rattle.norm_engine.specs.WrittenTrace.{AgreesWhole, LawfulIsWrittenSoundly, MissesNothingWhole, ReadsWhole, WrittenClashesAreReal, WrittenFragmentClashesAreReal, WrittenReadsRecords, WrittenWhole};
ghost use Rattle.norm_engine.specs.SentFrames.{LawfulIsPlainInwards, LawfulIsShort, PlainIsReadAlike};

use emit_mtu::laws::{
    cut_packets_are_of_the_stream, cut_packets_tell_one_stream, plain_packets_go_out,
    segments_are_plain, segments_carry_the_payload, segments_fit,
};
use era_agreement::laws::{
    emitted_agrees, emitted_misses_nothing, emitted_reads_one_stream, emitted_stays_near_acks,
    emitted_tells_one_stream, eras_are_read_as_one,
};
use era_state::laws::written_remains;
use ip_rules::laws::{anew_is_packet, datagrams_are_known};
use reassembly::laws::answered_is_within;
use receiver_model::laws::{
    members_agree, members_read_parts, monitors_miss_nothing, plain_packets_are_read_alike,
};
use tcp_codec::laws::{mended_say_the_same, options_are_cleaned, segments_are_read_back};
use tcp_norm::laws::{
    calls_are_emitted, clashes_are_real, clean_keeps_payload, flows_are_bounded, held_is_bounded,
    octets_are_brought, packets_are_its_own, packets_are_plain, probes_are_silent,
    quota_leaves_room,
};

/// Proves that an entry counts the frames of its item, of which there are at most two, and reports
/// each era that ended with its octets.
pub fn items_are_counted()
    ensures { ItemsAreCounted }
{}

/// Proves that in every lawful trace each clean record has exactly one frame, with its payload, and
/// identical to the record if the verdict is pass.
pub fn lawful_keeps_clean()
    ensures { LawfulKeepsClean }
{
    datagrams_are_known();
    anew_is_packet();
    packets_are_its_own();
    clean_keeps_payload();
}

/// Proves that records have at most one lawful trace, whatever the seed of the tables' hashes.
pub fn lawful_is_one()
    ensures { LawfulIsOne }
{}

/// Proves that the calls of a lawful trace are those that the rules make of its segments.
pub fn lawful_calls_are_made()
    ensures { LawfulCallsAreMade }
{
    datagrams_are_known();
    packets_are_its_own();
}

/// Proves that at each history of a lawful trace the numbers of live eras, of blocks with octets of
/// streams, of held datagrams and of blocks with octets of fragments do not exceed the settings.
pub fn lawful_is_within()
    ensures { LawfulIsWithin }
{
    lawful_calls_are_made();
    flows_are_bounded();
    held_is_bounded();
    answered_is_within();
}

/// Proves that no entry names `T_ROOM` if a quota is set and the cells suffice for the quota of
/// each era.
pub fn lawful_leaves_room()
    ensures { LawfulLeavesRoom }
{
    lawful_calls_are_made();
    quota_leaves_room();
}

/// Proves that in each era of every lawful trace all receivers of the family agree on the frames
/// written inwards.
pub fn lawful_agrees()
    ensures { LawfulAgrees }
{
    datagrams_are_known();
    packets_are_its_own();
    packets_are_plain();
    probes_are_silent();
    calls_are_emitted();
    emitted_agrees();
    lawful_calls_are_made();
}

/// Proves that in each era of a lawful trace the frames written inwards describe one stream: the
/// octets written first at their offsets, and the era's end.
pub fn lawful_tells_streams()
    ensures { LawfulTellsStreams }
{
    datagrams_are_known();
    packets_are_its_own();
    packets_are_plain();
    probes_are_silent();
    calls_are_emitted();
    emitted_tells_one_stream();
    lawful_calls_are_made();
}

/// Proves that in each era of every lawful trace all receivers read parts of one stream, from
/// whichever offset each starts, and that the frames written inwards are of that stream.
pub fn lawful_reads_one_stream()
    ensures frames { LawfulIsOfOneStream }
    ensures receivers { LawfulReadsOneStream }
{
    emitted_reads_one_stream();
    lawful_is_emitted();
}

/// Proves that the frames written inwards in an era of a lawful trace stay near what was
/// acknowledged before the record of each.
pub fn lawful_stays_near_acks()
    ensures { LawfulStaysNearAcks }
{
    emitted_stays_near_acks();
    lawful_is_emitted();
}

/// Proves that after each record of a lawful trace a monitor misses nothing of the frames written
/// inwards in an era so far.
pub fn lawful_misses_nothing()
    ensures { LawfulMissesNothing }
{
    emitted_misses_nothing();
    lawful_is_emitted();
}

/// Proves that what is written for a record is read in one way: inwards by every host, and as a TCP
/// segment if it belongs to an era.
pub fn items_are_certain()
    ensures { ItemsAreCertain }
{
    datagrams_are_known();
    anew_is_packet();
    packets_are_its_own();
    packets_are_plain();
    probes_are_silent();
    mended_say_the_same();
}

/// Proves that in each era of a lawful trace the segments written are emitted, each after those
/// before it.
pub fn lawful_is_emitted()
    ensures { LawfulIsEmitted }
{
    datagrams_are_known();
    packets_are_its_own();
    packets_are_plain();
    probes_are_silent();
    calls_are_emitted();
    lawful_calls_are_made();
}

/// Proves that each frame written carries ARP, or an unfragmented packet with a header of 20 octets
/// whose segment, if it is TCP, has no fault except possibly its checksum. Each frame after the
/// first has a packet of 40 octets, as a probe has, and an entry names at most 14 rules.
pub fn items_go_out()
    ensures { ItemsGoOut }
{
    datagrams_are_known();
    anew_is_packet();
    packets_are_its_own();
    segments_are_read_back();
    options_are_cleaned();
    mended_say_the_same();
}

/// Proves that no frame of a lawful trace has more than 65,549 octets.
pub fn lawful_is_short()
    ensures { LawfulIsShort }
{
    datagrams_are_known();
    packets_are_its_own();
    items_go_out();
}

/// Proves that in every lawful trace each frame written inwards is plain, whether or not it belongs
/// to an era, except ARP.
pub fn lawful_is_plain_inwards()
    ensures { LawfulIsPlainInwards }
{
    datagrams_are_known();
    items_are_certain();
}

/// Proves that any two members read each packet written inwards alike, if it is plain: a segment, a
/// UDP datagram or an ICMP message.
pub fn messages_are_read_alike()
    ensures { PlainIsReadAlike }
{
    plain_packets_are_read_alike();
}

/// Proves what waits in a receiver that hears the frames of an era in time and has read all that is
/// acknowledged. Each octet that waits in it at or past its next offset is the first one there. If
/// the era is live, at most 256 wait for each cell that norm holds for it.
pub fn monitors_need_cells()
    ensures kept { WaitingIsKept }
    ensures few { WaitingIsFew }
{
    lawful_tells_streams();
    datagrams_are_known();
    packets_are_its_own();
    packets_are_plain();
    probes_are_silent();
}

/// Proves that each octet of an era's stream in a lawful trace, and its end, was brought by the
/// very record that added it. That record went inwards and was written in the era, and its own
/// segment has it at this offset.
pub fn lawful_invents_nothing()
    ensures { LawfulInventsNothing }
{
    datagrams_are_known();
    packets_are_its_own();
    packets_are_plain();
    probes_are_silent();
    written_remains();
    octets_are_brought();
    clashes_are_real();
    lawful_calls_are_made();
}

/// Proves when the entry of a record in a lawful trace names T_CLASH. It does so exactly if the
/// record is written, has neither SYN nor RST, and has, at an offset at or past Acked, an octet
/// that differs from the one written first there.
pub fn lawful_clashes_are_real()
    ensures { LawfulClashesAreReal }
{
    datagrams_are_known();
    packets_are_its_own();
    packets_are_plain();
    probes_are_silent();
    written_remains();
    octets_are_brought();
    clashes_are_real();
    lawful_calls_are_made();
}

/// Proves that no entry of an era in a lawful trace names T_CLASH if no record of the era differs
/// from an earlier one at an offset at or past Acked.
pub fn consistent_is_without_clash()
    ensures { ConsistentIsWithoutClash }
{
    lawful_clashes_are_real();
}

/// Proves that receivers of the frames of an era in a lawful trace read only what records brought.
/// If no record of the era differs from an earlier one at an offset at or past Acked, no entry of
/// it names T_CLASH, and receivers read what the sender gave.
pub fn lawful_reads_records()
    ensures { LawfulReadsRecords }
{
    lawful_invents_nothing();
    lawful_clashes_are_real();
    lawful_reads_one_stream();
}

/// Proves that the entry of a record in a lawful trace names F_CLASH exactly if the record carries
/// a fragment that no earlier rule drops and that contradicts a held one. It does so if, at an
/// offset of its datagram, its octet differs from that of a fragment of an earlier record, which is
/// still held.
pub fn lawful_fragment_clashes_are_real()
    ensures { LawfulFragmentClashesAreReal }
{}

/// Proves that the datagram that a fragment completes in a lawful trace is made of it and of held
/// fragments of the same datagram, each of which an earlier record brought.
pub fn lawful_joins_held()
    ensures { LawfulJoinsHeld }
{}

/// Proves of each lawful trace, before the first record and after each, that the inward packets as
/// recorded are those that were written. This holds if each line so far that is inbound or has no
/// side is `pass`. So receivers of the recorded packets read what receivers of the written ones
/// read. The same of the records and eras of a pair of addresses; each era is of one.
pub fn unchanged_traces_were_read_so()
    ensures { LawfulWasReadSo }
{
    datagrams_are_known();
    packets_are_its_own();
    items_are_certain();
    lawful_calls_are_made();
    lawful_keeps_clean();
    lawful_agrees();
    lawful_reads_one_stream();
    lawful_misses_nothing();
}

/// Proves of any two eras of a lawful trace that nothing is read again. Premises: all that was
/// written inwards in the first is acknowledged, and the base of the second is not before that.
/// Then no octet of the second is at an offset that a receiver has read in the first. If besides no
/// FIN was written inwards in the first and no SYN in the second, both are read as one era.
pub fn lawful_eras_go_on()
    ensures { LawfulErasGoOn }
{
    lawful_is_emitted();
    eras_are_read_as_one();
}

/// Proves that without an MTU what is written of a trace is the trace. So receivers agree on what
/// is written exactly if they agree on the trace. The same applies to the parts of one stream that
/// they read, and to monitors, which miss nothing.
pub fn unbounded_is_written_whole()
    ensures whole { WrittenWhole }
    ensures agree { AgreesWhole }
    ensures reads { ReadsWhole }
    ensures monitor { MissesNothingWhole }
{}

/// Proves of what is written of each sound trace: a clean record has its payload, in one frame or
/// in segments, unless a frame of the record is too long and dropped. Receivers agree on it and
/// read parts of one stream. Before the first record and after each a monitor has missed nothing.
/// No frame of it is too long. Each frame written inwards is plain, except ARP. No more is held
/// than the settings allow.
pub fn lawful_is_written_soundly()
    ensures { LawfulIsWrittenSoundly }
{
    items_go_out();
    lawful_keeps_clean();
    lawful_is_within();
    lawful_agrees();
    lawful_tells_streams();
    lawful_is_plain_inwards();
    lawful_is_short();
    segments_fit();
    segments_are_plain();
    segments_carry_the_payload();
    plain_packets_go_out();
    cut_packets_tell_one_stream();
    members_agree();
    lawful_reads_one_stream();
    cut_packets_are_of_the_stream();
    members_read_parts();
    lawful_stays_near_acks();
    monitors_miss_nothing();
}

/// Proves of each sound trace that the lines as they are written name T_CLASH exactly if their
/// record contradicts the stream of an era, and F_CLASH exactly if it contradicts a held fragment.
pub fn written_clashes_are_real()
    ensures clashes { WrittenClashesAreReal }
    ensures fragment_clashes { WrittenFragmentClashesAreReal }
{
    lawful_clashes_are_real();
    lawful_fragment_clashes_are_real();
}

/// Proves of each sound trace that receivers of the packets that are written read only what records
/// brought. If no record of an era differs from an earlier one at an offset at or past Acked, no
/// line of it names T_CLASH, and receivers read what the sender gave.
pub fn written_reads_records()
    ensures { WrittenReadsRecords }
{
    lawful_invents_nothing();
    written_clashes_are_real();
    lawful_is_written_soundly();
}
