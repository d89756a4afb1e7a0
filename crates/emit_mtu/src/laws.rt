//! Laws over the definitions alone.
ghost use Rattle.emit_mtu.specs.CutLaws.{AreFew, ArePlain, AreReadAsPieces, AreSent, CarryThePayload, FlagsAreKept, NoneIsLong};
ghost use Rattle.emit_mtu.specs.CutStreams.{CutIsOfStream, CutStaysNearAcks, CutTellsOneStream, NothingLongGoesOut, PacketsGoOutAlike, PlainHeadersAreWhole, PlainIsSent};

/// States that the packets of the segments of a frame have at most MTU octets, that there are at
/// most 132 segments, and that no frame that is written is long.
pub fn segments_fit()
    ensures fit { NoneIsLong }
    ensures few { AreFew }
    ensures all { NothingLongGoesOut }
{}

/// States that each segment is itself a frame that may be written.
pub fn segments_are_sent()
    ensures { AreSent }
{}

/// States that the segments of a frame carry its payload, in order and once.
pub fn segments_carry_the_payload()
    ensures { CarryThePayload }
{}

/// States that the segments of a plain frame are plain for the same hosts.
pub fn segments_are_plain()
    ensures { ArePlain }
{}

/// States that each segment is read as its part of the segment of the frame.
pub fn segments_are_read_as_pieces()
    ensures { AreReadAsPieces }
{}

/// States which flags each part keeps.
pub fn pieces_keep_flags()
    ensures { FlagsAreKept }
{}

/// States that a frame with a plain packet may be written, and that the packets written instead of
/// it are the same on each link.
pub fn plain_packets_go_out()
    ensures whole { PlainHeadersAreWhole }
    ensures sent { PlainIsSent }
    ensures alike { PacketsGoOutAlike }
{}

/// States that packets that describe one stream still do so after the long ones are cut or dropped,
/// and that they still stay near what was acknowledged if they did.
pub fn cut_packets_tell_one_stream()
    ensures stream { CutTellsOneStream }
    ensures acks { CutStaysNearAcks }
{}

/// States that the octets and FINs of packets that describe one stream are the stream's also after
/// the long packets are cut or dropped.
pub fn cut_packets_are_of_the_stream()
    ensures { CutIsOfStream }
{}
