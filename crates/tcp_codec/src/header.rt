//! The header of a TCP segment, and its options, parsed.
ghost use Rattle.std.specs.Prelude.{◌≡◌, ◌≤◌, ◌&&◌, ℕ, not, true, length, slice_range, IfOk, OnOk, OnErr, ◌+◌, ◌<◌, ◌==◌, drop, slice_index};
ghost use Rattle.tcp_codec.specs.HeaderFields.{fields_of, is_judged, parsed};
ghost use Rattle.wire_base.specs.ParseResults.{stored};
ghost use Rattle.wire_base.specs.Checksums.{sum_is_right};
ghost use Rattle.wire_base.specs.Options.{are_well_formed};
ghost use Rattle.wire_base.specs.Options as spec;
ghost use Rattle.wire_base.specs.Tcp as tcp;

use thiserror::Error;
use wire_base::{Flags, MAX_SHIFT, sum_right, u16_at, u32_at};

// Length of a header without options in octets.
const HEADER: usize = 20;

/// The kind of the option that ends the list (RFC 9293 section 3.2).
pub(crate) const END: u8 = 0;

/// The kind of the no-operation, an option of one octet (RFC 9293 section 3.2).
pub(crate) const NO_OPERATION: u8 = 1;

/// The kind of the window scale option (RFC 7323 section 2).
pub(crate) const WINDOW_SCALE: u8 = 3;

// Length of a window scale option in octets (RFC 7323 section 2).
const WINDOW_SCALE_SIZE: usize = 3;

/// The fields of a TCP header, without its checksum and its options (RFC 9293 section 3.1).
#[derive(Clone, Copy, Debug, Default, PartialEq, Eq)]
pub struct Tcp {
    /// The source port.
    pub sport: u16,
    /// The destination port.
    pub dport: u16,
    /// The sequence number.
    pub seq: u32,
    /// The acknowledgment number.
    pub ack: u32,
    /// The header's length in octets, options included.
    pub header: usize,
    /// The four bits between the data offset and the flags.
    pub reserved: u8,
    pub flags: Flags,
    pub window: u16,
    /// The checksum over the pseudo-header and the segment is right.
    pub sum_right: bool,
    /// The urgent pointer.
    pub urgent: u16,
}

/// The treatment of a wrong checksum.
#[derive(Clone, Copy, Debug, PartialEq, Eq)]
pub enum SumRule {
    /// A wrong checksum is a fault.
    Must,
    /// The checksum is not tested, as where a network card computes it later.
    Skip,
}

impl SumRule {
    // Returns whether a checksum is a fault; `right` says whether it is right.
    fn refuses(self, right: bool) -> bool
        ensures { result ≡ (is_judged self && not right) }
    {
        match self {
            SumRule::Must => !right,
            SumRule::Skip => false,
        }
    }
}

/// Reasons why octets are not a TCP segment, in the order of the tests. The causes are those of the
/// rules T_SHORT, T_HLEN, T_SUM, T_FLAGS and T_OPT_BAD; `Sum` only under `SumRule::Must`.
#[derive(Clone, Copy, Debug, PartialEq, Eq, Error)]
pub enum TcpFault {
    #[error("fewer than 20 octets")]
    Short,
    #[error("a data offset below 5 words or above the octets that stand")]
    DataOffset,
    #[error("a wrong checksum")]
    Sum,
    #[error("flags that do not go together")]
    Flags,
    #[error("an option without a length of at least 2 that lies inside the header")]
    Options,
}

/// Parses the header of a segment; `pseudo` is the sum of the pseudo-header: addresses, protocol
/// and length.
pub fn parse(bytes: &[u8], pseudo: u32, rule: SumRule) -> Result<Tcp, TcpFault>
    ensures exact { result ≡ parsed rule pseudo bytes.now }
    ensures header { IfOk result (λ head. (20 ≤ head.header) × (head.header ≤ 60)) }
    ensures inside { IfOk result (λ head. head.header ≤ length bytes.now) }
    ensures flags { IfOk result (λ head. tcp.are_legal head.flags.0 ≡ true) }
    ensures options { OnOk result (are_well_formed (tcp.options bytes.now) ≡ true) }
    ensures area { IfOk result (λ head. slice_range bytes.now 20 head.header ≡ tcp.options bytes.now) }
{
    let mut head = Tcp::default();
    parse_into(bytes, pseudo, rule, &mut head)?;
    Ok(head)
}

/// Parses a header as `parse` does and stores its fields in `head`; after a fault `head` is
/// unchanged.
pub fn parse_into(bytes: &[u8], pseudo: u32, rule: SumRule, head: &mut Tcp) -> Result<(), TcpFault>
    ensures exact { stored head.new result ≡ parsed rule pseudo bytes.now }
    ensures kept { OnErr result (head.new ≡ head.old) }
    ensures header { OnOk result ((20 ≤ head.new.header) × (head.new.header ≤ 60)) }
    ensures inside { OnOk result (head.new.header ≤ length bytes.now) }
    ensures flags { OnOk result (tcp.are_legal head.new.flags.0 ≡ true) }
    ensures options { OnOk result (are_well_formed (tcp.options bytes.now) ≡ true) }
    ensures area { OnOk result (slice_range bytes.now 20 head.new.header ≡ tcp.options bytes.now) }
{
    if bytes.len() < HEADER {
        return Err(TcpFault::Short);
    }
    let header = 4 * usize::from(bytes[12] / 16);
    if header < HEADER || bytes.len() < header {
        return Err(TcpFault::DataOffset);
    }
    let right = sum_right(bytes, pseudo);
    if rule.refuses(right) {
        return Err(TcpFault::Sum);
    }
    if !are_legal(Flags(bytes[13])) {
        return Err(TcpFault::Flags);
    }
    if !are_well_formed(&bytes[HEADER..header]) {
        return Err(TcpFault::Options);
    }
    store_fields(bytes, right, head);
    Ok(())
}

/// Returns the shift count, at most 14, of the first window scale option of length 3 before the end
/// option (RFC 7323 section 2), None if there is none. Counts the options so that the compiler sees
/// that the loop ends: it then removes a call whose result is not used.
pub fn scale_of(options: &[u8]) -> Option<u8>
    requires { spec.are_well_formed options.now ≡ true }
    ensures { result ≡ spec.scale_of options.now }
{
    let mut at = 0;
    let mut read = 0;
    while options.len() - at >= 2 && options[at] != END && read < options.len() {
        let kind = options[at];
        let size = step_at(options, at);
        if is_window_scale(kind, size) {
            return Some(MAX_SHIFT.min(options[at + 2]));
        }
        at += size;
        read += 1;
    }
    None
}

/// Returns whether each option before the end option or the area's end has a length of at least 2
/// and lies inside the area.
pub(crate) fn are_well_formed(area: &[u8]) -> bool
    ensures { result ≡ spec.are_well_formed area.now }
{
    let mut at = 0;
    while area.len() - at >= 2 && area[at] != END {
        let size = size_by(area[at], area[at + 1]);
        let short = (area[at] != NO_OPERATION) & (size < 2);
        if short || area.len() - at < size {
            return false;
        }
        at += size;
    }
    at == area.len() || area[at] <= NO_OPERATION
}

/// Returns the length in octets of the option at the offset `at`, which is neither the end option
/// nor a no-operation.
pub(crate) fn size_at(area: &[u8], at: usize) -> usize
    requires formed { spec.are_well_formed (drop at area.now) ≡ true }
    requires begins { at < length area.now }
    requires sized { 2 ≤ slice_index area.now at }
    ensures exact { result ≡ slice_index area.now (at + 1) }
    ensures some { 2 ≤ result }
    ensures inside { at + result ≤ length area.now }
{
    usize::from(area[at + 1])
}

/// Returns the length in octets of the option or no-operation at the offset `at`, where at least
/// two octets are left. It must not be the end option.
pub(crate) fn step_at(area: &[u8], at: usize) -> usize
    requires formed { spec.are_well_formed (drop at area.now) ≡ true }
    requires begins { at + 2 ≤ length area.now }
    requires some { 1 ≤ slice_index area.now at }
    ensures none { slice_index area.now at ≡ 1 → result ≡ 1 }
    ensures option { 2 ≤ slice_index area.now at → result ≡ slice_index area.now (at + 1) }
    ensures least { 1 ≤ result }
    ensures inside { at + result ≤ length area.now }
    ensures formed { spec.are_well_formed (drop (at + result) area.now) ≡ true }
{
    size_by(area[at], area[at + 1])
}

// Stores the fields, each read at its offset. Each is stored before the next is read, so that none
// waits in a register.
fn store_fields(bytes: &[u8], right: bool, head: &mut Tcp)
    requires { 20 ≤ length bytes.now }
    ensures { (pseudo : ℕ) → right ≡ sum_is_right bytes.now pseudo → head.new ≡ fields_of pseudo bytes.now }
{
    head.sport = u16_at(bytes, 0);
    head.dport = u16_at(bytes, 2);
    head.seq = u32_at(bytes, 4);
    head.ack = u32_at(bytes, 8);
    head.header = 4 * usize::from(bytes[12] / 16);
    head.reserved = bytes[12] % 16;
    head.flags = Flags(bytes[13]);
    head.window = u16_at(bytes, 14);
    head.sum_right = right;
    head.urgent = u16_at(bytes, 18);
}

// Returns whether the flags set of SYN, FIN, RST and ACK are SYN; SYN ACK; ACK; FIN ACK; RST; or
// RST ACK.
fn are_legal(flags: Flags) -> bool
    ensures { result ≡ tcp.are_legal flags.0 }
{
    match (flags.syn(), flags.fin(), flags.rst()) {
        (true, fin, rst) => !fin && !rst,
        (false, fin, true) => !fin,
        (false, _, false) => flags.ack(),
    }
}

// Returns the length in octets of a no-operation, or of an option of another kind with this length
// octet. The choice takes no branch: it would be mispredicted at every other hostile option.
fn size_by(kind: u8, length: u8) -> usize
    ensures none { kind ≡ 1 → result ≡ 1 }
    ensures option { 2 ≤ kind → result ≡ length }
{
    usize::from(if kind == NO_OPERATION { 1 } else { length })
}

// Returns whether an option of this kind and length is a window scale option.
fn is_window_scale(kind: u8, size: usize) -> bool
    ensures { result ≡ ((kind == 3) && (size == 3)) }
{
    (kind == WINDOW_SCALE) & (size == WINDOW_SCALE_SIZE)
}
