//! A line of a report with its record.
ghost use Rattle.std.specs.Prelude.{◌<◌};

use frame_view::{Flow, TcpMarks};
use rule_book::{Entry, Rule, Verdict};
use wire_base::Link;

/// A line of the first engine, and the octets of its record on this link.
#[derive(Clone, Copy)]
pub struct NotedLine<'a> {
    pub link: Link,
    pub octets: &'a [u8],
    pub entry: &'a Entry,
}

/// Returns whether the rule is among these.
pub(crate) fn names(rules: &[Rule], rule: Rule) -> bool {
    rules.iter().any(|other| other.number() == rule.number())
}

/// Returns whether the record is not written.
pub(crate) fn is_drop(verdict: Verdict) -> bool {
    matches!(verdict, Verdict::Drop)
}

/// Returns whether the packet is a fragment.
pub(crate) fn is_fragment(flow: Flow) -> bool {
    flow.more || flow.offset > 0
}

/// Returns the marks of a segment that is no fragment.
pub(crate) fn marks_of(flow: Flow) -> Option<TcpMarks> {
    if is_fragment(flow) { None } else { flow.tcp }
}

/// Returns whether the destination is a group of hosts (RFC 1112 section 4).
pub(crate) fn is_multicast(flow: Flow) -> bool {
    flow.dst.0 / 0x1000_0000 == 14
}

/// Returns one more, where a test holds.
pub(crate) fn plus_if(test: bool, count: u64) -> u64 {
    if test { count.saturating_add(1) } else { count }
}

/// Returns the octet at this offset, 0 past the end.
pub(crate) fn octet_at(octets: &[u8], at: usize) -> u8 {
    match octets.get(at) {
        Some(octet) => *octet,
        None => 0,
    }
}

/// Returns the 16-bit number at this offset; octets past the end read as 0.
pub(crate) fn number_at(octets: &[u8], at: usize) -> u16
    requires { at < 64 }
{
    256 * u16::from(octet_at(octets, at)) + u16::from(octet_at(octets, at + 1))
}
