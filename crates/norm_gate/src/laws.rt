//! Laws of the history of a gate with two ports.
ghost use Rattle.norm_gate.specs.GateLaws.{LawfulInwardIsKnown, LawfulIsNotForged};

/// Proves that no record of the engine was forged at the port at which it arrived.
pub fn lawful_is_not_forged()
    ensures { LawfulIsNotForged }
{}

/// Proves that each frame that leaves by the inside port is one of an inbound record, or ARP that
/// crossed from outside.
pub fn lawful_inward_is_known()
    ensures { LawfulInwardIsKnown }
{}
