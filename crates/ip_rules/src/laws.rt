//! Laws of datagrams.
ghost use Rattle.ip_rules.specs.Datagrams.{AnewIsPacket, DatagramsAreKnown};

/// States the facts of the datagram that a record of octets carries, if no rule on the link, the
/// header and the protocol drops it.
pub fn datagrams_are_known()
    ensures { DatagramsAreKnown }
{}

/// States that a new header with any payload is a packet of the datagram.
pub fn anew_is_packet()
    ensures { AnewIsPacket }
{}
