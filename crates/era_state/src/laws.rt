//! Laws of the segments of an era.
ghost use Rattle.era_state.specs.Offsets.{OffsetsAreRead, PlacesAreRead};
ghost use Rattle.era_state.specs.Eras.{StatesAreTheLists, SilenceStands};
ghost use Rattle.era_state.specs.QuantityLaws.{AckedNeverFalls, AckedGrowsNear, AckedIsGreatest, FirstStays, IntervalsFit, KeptOctetsAreNear, OctetsAreBelowTop, FrameOctets, FinStandsAtEnd, ShiftIsOfTheMoment};
ghost use Rattle.era_state.specs.SilentSegments.{SilenceChangesNothing};
ghost use Rattle.era_state.specs.AlikeSegments.{AlikeChangesAlike, AlikeStands};
ghost use Rattle.era_state.specs.EmissionLaws.{WrittenRemains, InwardsAcknowledgeNothing, UnacknowledgedHasNoOctet, EmittedJoins, EmittedIsNear, EmittedIsTold, EmittedOctetsArePlaces, UnbasedHasNoOctet};
ghost use Rattle.era_state.specs.WorkedCases.{SettledIsEmitted, ClashIsNotEmitted, TurnedIsEmitted};

/// Proves that the offset of a number is the one from `at` - 2^31 to below `at` + 2^31.
pub fn offsets_are_read()
    ensures { OffsetsAreRead }
{}

/// Proves that the number of a base plus an offset is read as this offset, if it is near.
pub fn places_are_read()
    ensures { PlacesAreRead }
{}

/// Proves that the state, the base and the first outbound SYN of an era are its list's.
pub fn states_are_the_lists()
    ensures { StatesAreTheLists }
{}

/// Proves that an inward segment without octets, SYN and FIN changes no quantity.
pub fn silence_changes_nothing()
    ensures { SilenceChangesNothing }
{}

/// Proves that an era also represents its list with such a segment.
pub fn silence_stands()
    ensures { SilenceStands }
{}

/// Proves that of an inward segment only the sequence number, the octets, SYN and FIN are read, and
/// of a SYN whether it has a window scale.
pub fn alike_changes_alike()
    ensures { AlikeChangesAlike }
{}

/// Proves that an era which represents the list with such a segment represents the list with
/// another one that is alike.
pub fn alike_stands()
    ensures { AlikeStands }
{}

/// Proves that Acked never falls.
pub fn acked_never_falls()
    ensures { AckedNeverFalls }
{}

/// Proves that Acked grows by less than 2^31 in one segment.
pub fn acked_grows_near()
    ensures { AckedGrowsNear }
{}

/// Proves that Acked is the greatest acknowledged offset, each read relative to Acked before it.
pub fn acked_is_greatest()
    ensures { AckedIsGreatest }
{}

/// Proves that a segment's own SYN does not change the scale of its window.
pub fn shift_is_of_the_moment()
    ensures { ShiftIsOfTheMoment }
{}

/// Proves that the first octet at an offset stays.
pub fn first_stays()
    ensures { FirstStays }
{}

/// Proves that no octet is at or past Top, and that there are at most Top octets.
pub fn octets_are_below_top()
    ensures { OctetsAreBelowTop }
{}

/// Proves that an interval is at or above Acked, and inside its segment, the window plus one, and
/// the end.
pub fn intervals_fit()
    ensures { IntervalsFit }
{}

/// Proves that a kept octet is at most 2^30 past Acked.
pub fn kept_octets_are_near()
    ensures { KeptOctetsAreNear }
{}

/// Proves that a frame's octets are at the offsets of its interval.
pub fn frame_octets()
    ensures { FrameOctets }
{}

/// Proves that a frame's FIN is at the end.
pub fn fin_stands_at_end()
    ensures { FinStandsAtEnd }
{}

/// Proves that a fixed base, the first octet at an offset and a known end stay, whatever is written
/// later.
pub fn written_remains()
    ensures { WrittenRemains }
{}

/// Proves that an inward segment acknowledges nothing.
pub fn inwards_acknowledge_nothing()
    ensures { InwardsAcknowledgeNothing }
{}

/// Proves that no offset has an octet before an offset is acknowledged.
pub fn unacknowledged_has_no_octet()
    ensures { UnacknowledgedHasNoOctet }
{}

/// Proves that a list is emitted exactly if its first part is, and its second part is after the
/// first.
pub fn emitted_joins()
    ensures { EmittedJoins }
{}

/// Proves that the octets of an emitted segment are the first at their offsets, that its FIN is the
/// end, and that its SYN has the number before the base.
pub fn emitted_is_told()
    ensures { EmittedIsTold }
{}

/// Proves that the octets of an emitted segment are at Acked or up to 2^30 past it, and its FIN at
/// an offset of the stream at most 2^30 past Acked.
pub fn emitted_is_near()
    ensures { EmittedIsNear }
{}

/// Proves that an octet of emitted segments is at an offset from 0 to below Top, and below the end.
pub fn emitted_octets_are_places()
    ensures { EmittedOctetsArePlaces }
{}

/// Proves that emitted segments which fix no base have no octet.
pub fn unbased_has_no_octet()
    ensures { UnbasedHasNoOctet }
{}

/// Proves that a connection is emitted in which a segment with another octet is replaced by the
/// octets sent first, and which ends.
pub fn settled_is_emitted()
    ensures { SettledIsEmitted }
{}

/// Proves that the segment with the other octet is not emitted there.
pub fn clash_is_not_emitted()
    ensures { ClashIsNotEmitted }
{}

/// Proves that a connection past offset 2^32 is emitted, in which the last segment begins below
/// Acked and has an octet that differs from the one sent first.
pub fn turned_is_emitted()
    ensures { TurnedIsEmitted }
{}
