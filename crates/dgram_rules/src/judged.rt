//! The results of judging a datagram by the rules on UDP and ICMP.
use rule_book::Rule;

/// The result of judging a whole datagram; no rule applies to one that is neither UDP nor ICMP.
#[derive(Clone, Copy, Debug, PartialEq, Eq)]
pub enum DgramJudged {
    /// No drop rule and no fix rule holds.
    Pass,
    /// The datagram is written with a right UDP checksum instead of its wrong one.
    Mend,
    /// This rule drops the datagram.
    Drop(Rule),
}
