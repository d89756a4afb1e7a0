//! Laws of written probes.
ghost use Rattle.reset_probe.specs.ProbePackets.{ProbesArePlain, ProbesAreSilent};

/// Proves that every host which a probe reaches reads it alike, for any fields and addresses.
pub fn probes_are_plain()
    ensures { ProbesArePlain }
{}

/// Proves that a probe which is written inwards adds nothing to the stream of an era.
pub fn probes_are_silent()
    ensures { ProbesAreSilent }
{}
