//! Laws of what was sent in eras.
ghost use Rattle.era_agreement.specs.AgreementLaws.{AcknowledgmentsAreBehind, EmittedAgrees, EmittedIsOfOneStream, EmittedIsSilent, EmittedMissesNothing, EmittedReadsOneStream, EmittedStaysNearAcks, EmittedTellsOneStream};
ghost use Rattle.era_agreement.specs.TwoEras.{EmittedErasAreReadAsOne, EmittedIsNotReadAgain, EmittedIsReadToAcked};

use era_state::laws::{
    acked_never_falls, emitted_is_near, emitted_is_told, emitted_joins, emitted_octets_are_places,
    inwards_acknowledge_nothing, offsets_are_read, written_remains,
};
use receiver_model::laws::{members_agree, members_read_parts, monitors_miss_nothing};

/// Proves that the inward packets of an era describe one stream, each read at the offset of its
/// sequence number: the octets written first at their offsets, and the era's end. Premises: all
/// segments of the era are emitted, each after those before it, its inward packets are plain, and
/// those other than its segments (probes) have no octet, SYN or FIN.
pub fn emitted_tells_one_stream()
    ensures { EmittedTellsOneStream }
{
    offsets_are_read();
    inwards_acknowledge_nothing();
    written_remains();
    emitted_joins();
    emitted_is_told();
    emitted_octets_are_places();
    offsets_are_read();
}

/// Proves, under the same premises, that the inward packets have no octet, SYN or FIN if no segment
/// of the era fixes its base.
pub fn emitted_is_silent()
    ensures { EmittedIsSilent }
{
    written_remains();
    emitted_joins();
}

/// Proves that all receivers agree if the same premises hold for each era.
pub fn emitted_agrees()
    ensures { EmittedAgrees }
{
    members_agree();
    emitted_tells_one_stream();
    emitted_is_silent();
}

/// Proves that every receiver reads a part of one stream of an era, from whichever offset it
/// starts, if the same premises hold for each era.
pub fn emitted_reads_one_stream()
    ensures packets { EmittedIsOfOneStream }
    ensures receivers { EmittedReadsOneStream }
{
    members_read_parts();
    emitted_tells_one_stream();
    emitted_octets_are_places();
    offsets_are_read();
}

/// Proves that the inward packets of an era stay near what was acknowledged before the record of
/// each, by the same premises.
pub fn emitted_stays_near_acks()
    ensures { EmittedStaysNearAcks }
{
    acked_never_falls();
    inwards_acknowledge_nothing();
    written_remains();
    emitted_joins();
    emitted_is_near();
}

/// Proves that a monitor misses nothing if the same premises hold for each era.
pub fn emitted_misses_nothing()
    ensures { EmittedMissesNothing }
{
    monitors_miss_nothing();
    emitted_tells_one_stream();
    emitted_stays_near_acks();
}

/// Proves that a monitor is never behind an acknowledgment, if each acknowledgment is that of a
/// receiver which had read so far. The greatest acknowledged offset is at most the monitor's next
/// offset, or the one after it if the stream has ended.
pub fn acknowledgments_are_behind()
    ensures { AcknowledgmentsAreBehind }
{}

/// Proves of any two eras with a base, under the same premises, that nothing is read again. Further
/// premises: all that was written inwards in the first is acknowledged, and the base of the second,
/// read nearest to that, is not before it. Then no octet of the second is at an offset that a
/// receiver has read in the first. If besides no FIN was written inwards in the first and no SYN in
/// the second, the packets of both are read as those of one era. A receiver that has read up to
/// what was acknowledged in the first, or past it, has read exactly up to there.
pub fn eras_are_read_as_one()
    ensures again { EmittedIsNotReadAgain }
    ensures one { EmittedErasAreReadAsOne }
    ensures acknowledged { EmittedIsReadToAcked }
{
    members_agree();
    members_read_parts();
    monitors_miss_nothing();
    emitted_tells_one_stream();
    emitted_reads_one_stream();
    emitted_octets_are_places();
    offsets_are_read();
}
