//! Laws of calls.
ghost use Rattle.tcp_norm.specs.WorkedCases.{WorkedRows};
ghost use Rattle.tcp_norm.specs.BroughtOctets.{ClashesAreReal, NewIsBrought, NothingIsInvented};
ghost use Rattle.tcp_norm.specs.CallLaws.{OthersStay, StreamsAreWritten};
ghost use Rattle.tcp_norm.specs.LiveEras.{LivesAreLast, FlowsAreBounded};
ghost use Rattle.tcp_norm.specs.SegmentPackets.{CallsAreEmitted, CleanKeepsPayload, HeldIsBounded, PacketsAreItsOwn, PacketsArePlain, ProbesAreSilent, QuotaLeavesRoom};

use era_state::laws::{
    acked_never_falls, emitted_joins, first_stays, intervals_fit, offsets_are_read,
    places_are_read, unbased_has_no_octet, written_remains,
};
use ip_rules::laws::anew_is_packet;
use reset_probe::laws::probes_are_plain;
use tcp_codec::laws::{mended_say_the_same, options_are_cleaned, segments_are_read_back};

/// Proves that a call that neither names nor ends an era leaves it as it was.
pub fn others_stay()
    ensures { OthersStay }
{}

/// Proves that what is written for a segment of the stream is written in its era, and is the frame
/// of its interval with the octets that went in first.
pub fn streams_are_written()
    ensures { StreamsAreWritten }
{
    offsets_are_read();
    segments_are_read_back();
}

/// Proves the worked examples, computed from the definitions.
pub fn worked_rows()
    ensures { WorkedRows }
{}

/// Proves that the live era of a four-tuple is the one last begun for it and not ended.
pub fn lives_are_last()
    ensures { LivesAreLast }
{}

/// Proves that no more eras are live than the settings allow.
pub fn flows_are_bounded()
    ensures { FlowsAreBounded }
{}

/// Proves that each packet that is sent for a datagram is one of it.
pub fn packets_are_its_own()
    ensures { PacketsAreItsOwn }
{
    anew_is_packet();
    options_are_cleaned();
    mended_say_the_same();
}

/// Proves that what goes inwards is read alike by every host.
pub fn packets_are_plain()
    ensures { PacketsArePlain }
{
    anew_is_packet();
    options_are_cleaned();
    mended_say_the_same();
    segments_are_read_back();
    probes_are_plain();
}

/// Proves that a probe that is sent for a datagram that a rule drops adds nothing to a stream.
pub fn probes_are_silent()
    ensures { ProbesAreSilent }
{}

/// Proves that in calls that the rules make of datagrams that are segments, the segments written of
/// each era are emitted, each after those before it.
pub fn calls_are_emitted()
    ensures { CallsAreEmitted }
{
    emitted_joins();
    written_remains();
    offsets_are_read();
    segments_are_read_back();
    mended_say_the_same();
    options_are_cleaned();
}

/// Proves that where no rule holds that changes a payload, one packet is sent for a datagram, with
/// the payload of its segment.
pub fn clean_keeps_payload()
    ensures { CleanKeepsPayload }
{
    intervals_fit();
    options_are_cleaned();
    segments_are_read_back();
    mended_say_the_same();
}

/// Proves that no more blocks hold octets than there are cells, and no more of one era than the
/// quota.
pub fn held_is_bounded()
    ensures { HeldIsBounded }
{
    offsets_are_read();
    places_are_read();
    intervals_fit();
    first_stays();
    acked_never_falls();
    emitted_joins();
    unbased_has_no_octet();
    options_are_cleaned();
    segments_are_read_back();
    calls_are_emitted();
}

/// Proves that where the cells are as many as all eras may hold together, T_ROOM drops nothing.
pub fn quota_leaves_room()
    ensures { QuotaLeavesRoom }
{
    held_is_bounded();
}

/// Proves that each octet of an era's stream, and its end, was brought by a datagram that went
/// inwards and was written in the era, and whose own segment has it at this offset.
pub fn octets_are_brought()
    ensures new { NewIsBrought }
    ensures all { NothingIsInvented }
{
    intervals_fit();
    emitted_joins();
    written_remains();
    offsets_are_read();
    segments_are_read_back();
    mended_say_the_same();
    options_are_cleaned();
    calls_are_emitted();
}

/// Proves when T_CLASH applies to a datagram that no rule drops. It does so exactly if the datagram
/// has neither SYN nor RST, and has, at an offset at or past Acked, an octet that differs from the
/// era's stream.
pub fn clashes_are_real()
    ensures { ClashesAreReal }
{
    intervals_fit();
    calls_are_emitted();
}
