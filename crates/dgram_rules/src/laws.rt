//! Laws of the rules on UDP and ICMP.
ghost use Rattle.dgram_rules.specs.RuleLaws.{DatagramsTellTheRows, OffloadKeepsWrongSums, OthersHaveNoRow};

/// States that the result for a datagram is that of the first drop rule that holds, or else of the
/// fix rule.
pub fn datagrams_tell_the_rows()
    ensures { DatagramsTellTheRows }
{}

/// States that no rule applies to a datagram of another protocol.
pub fn others_have_no_row()
    ensures { OthersHaveNoRow }
{}

/// States that with `offload` no outbound UDP message is dropped for its checksum.
pub fn offload_keeps_wrong_sums()
    ensures { OffloadKeepsWrongSums }
{}
