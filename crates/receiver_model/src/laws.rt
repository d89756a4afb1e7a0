//! Laws over the definitions alone.
ghost use Rattle.receiver_model.specs.FamilyAgreement.{MembersAgree};
ghost use Rattle.receiver_model.specs.Messages.{PlainIsReadAlike};
ghost use Rattle.receiver_model.specs.Monitors.{MonitorsAreInTime, MonitorsMissNothing, StreamsAreMonitors};
ghost use Rattle.receiver_model.specs.StreamParts.{InOrderIsInTime, MembersReadParts, MonitorsCoverParts, PartsMeet};
ghost use Rattle.receiver_model.specs.WrittenPackets.{AreRead};

/// Proves that frames which describe one stream make any two members agree.
pub fn members_agree()
    ensures { MembersAgree }
{}

/// Proves that every member reads a part of the stream that frames describe, from whichever offset
/// it starts.
pub fn members_read_parts()
    ensures { MembersReadParts }
{}

/// Proves that two parts of one stream have the same octet wherever both have one. None has an
/// octet at or past the offset at which the other has ended, and one is a prefix of the other if
/// both have one start.
pub fn parts_meet()
    ensures { PartsMeet }
{}

/// Proves that a monitor which hears the frames in time has read all that any member has which
/// starts within what the monitor has read, and has ended if that member has. One that takes them
/// in order hears them so, if it is never far behind what was acknowledged.
pub fn monitors_cover_parts()
    ensures in_time { MonitorsCoverParts }
    ensures in_order { InOrderIsInTime }
{}

/// Proves that a monitor misses nothing of frames that describe one stream. A monitor is a member
/// that hears every frame, keeps each octet not yet read and delivers all that it can. Every other
/// member's stream is a prefix of its stream. It hears them in any order, each in time; or in
/// order, whenever they arrive, if they stay near what was acknowledged.
pub fn monitors_miss_nothing()
    ensures { MonitorsMissNothing }
{}

/// Proves that a monitor which takes the frames in order, from an offset of at most 2^31 on, hears
/// each in time. Premise: before each frame with an octet or a FIN its next offset is less than
/// 2^30 below what was acknowledged.
pub fn monitors_are_in_time()
    ensures { MonitorsAreInTime }
{}

/// Proves that a `Stream` which has taken every frame in order is a monitor, whatever its policy.
pub fn streams_are_monitors()
    ensures { StreamsAreMonitors }
{}

/// Proves that any two members read a plain packet as the same segment, UDP datagram or ICMP
/// message.
pub fn plain_packets_are_read_alike()
    ensures { PlainIsReadAlike }
{}

/// Proves that a header and a segment, as written, are a plain packet which is read as that
/// segment.
pub fn written_packets_are_read()
    ensures { AreRead }
{}
