//! Laws that need worked packets.
ghost use Rattle.rule_tests.specs.working.MonitorPremises.{EachPremiseIsNeeded};

/// Proves that a monitor may miss something if one of these premises is left out. It hears each
/// frame, keeps each octet, delivers all that it can, and has the start of the other receiver; and
/// each frame reaches the other receiver in time.
pub fn each_premise_is_needed()
    ensures { EachPremiseIsNeeded }
{}
