//! Segments, written, and the options of a header, cleaned.
ghost use Rattle.std.specs.Prelude.{◌≡◌, ℕ, ◌+◌, ◌%◌, ◌≤◌, ◌++◌, true, false, List, length, drop, ◌↔◌, ◌<◌, ◌==◌, IsFalse, IsTrue, not, replicate, if◌then◌else◌, ◌∷◌};
ghost use Rattle.std.specs.List.{list_any};
ghost use Rattle.wire_base.specs.Options.{are_well_formed, cleaned, may_be_kept};
ghost use Rattle.wire_base.specs.Checksums.{pseudo_sum, sum_is_right};
ghost use Rattle.wire_base.specs.Tcp as tcp;
ghost use Rattle.tcp_codec.specs.MendedSegment.{mended};
ghost use Rattle.tcp_codec.specs.WrittenSegment.{cleaned_segment, header_octets, octets_with, pseudo_of, segment_octets, segment_of, segment_with};
ghost use Rattle.tcp_codec.specs.working.CleaningState.{StandsFor, is_kept_after};
ghost use Rattle.wire_base.specs.declared.limits.TheConstants.{MAX_PAYLOAD};

use crate::header::{END, NO_OPERATION, WINDOW_SCALE, size_at, step_at};
use arrayvec::ArrayVec;
use wire_base::{Addr, Flags, protocol, pseudo_sum, put_u16, sum_for};

// Length of a header without options in octets (RFC 9293 section 3.1).
const HEADER: usize = 20;

// Offset of the checksum in a segment, in octets.
const CHECKSUM: usize = 16;

// The option kinds that may be kept, besides the window scale: maximum segment size (RFC 9293
// section 3.2), SACK permitted and SACK (RFC 2018), and timestamps (RFC 7323).
const SEGMENT_SIZE: u8 = 2;

const SACK_PERMITTED: u8 = 4;

const SACK: u8 = 5;

const TIMESTAMPS: u8 = 8;

// One more than the greatest of these kinds.
const KINDS: usize = 9;

/// The parts of a segment other than its payload: the fields of its header (RFC 9293 section 3.1),
/// and the addresses that its checksum covers.
#[derive(Debug, Drop)]
pub struct SegmentParts {
    pub src: Addr,
    pub dst: Addr,
    /// The source port.
    pub sport: u16,
    /// The destination port.
    pub dport: u16,
    /// The sequence number.
    pub seq: u32,
    /// The acknowledgment number.
    pub ack: u32,
    pub flags: Flags,
    pub window: u16,
    /// The octets of the option area.
    pub options: ArrayVec<u8, 40>,
}

/// Writes a segment: its header with reserved bits and urgent pointer 0 and the right checksum, its
/// options and its payload. Returns its length in octets.
pub fn write_segment(parts: &SegmentParts, payload: &[u8], buf: &mut [u8]) -> usize
    requires words { length parts.now.options.items % 4 ≡ 0 }
    requires size { 20 + length parts.now.options.items + length payload.now ≤ MAX_PAYLOAD }
    requires room { 20 + length parts.now.options.items + length payload.now ≤ length buf.old }
    requires urgent { tcp.has_urg parts.now.flags.0 ≡ false }
    ensures exact { buf.new ≡ segment_octets (segment_of parts.now payload.now) ++ drop result buf.old }
    ensures size { result ≡ 20 + length parts.now.options.items + length payload.now }
    ensures sum { let s = segment_of parts.now payload.now in sum_is_right (segment_octets s) (pseudo_of s) ≡ true }
{
    let size = HEADER + parts.options.len() + payload.len();
    let segment = &mut buf[..size];
    put_parts(parts, payload, segment);
    let sum = sum_for(
        segment,
        pseudo_sum(parts.src, parts.dst, protocol::TCP, size as u16),
    );
    put_u16(segment, CHECKSUM, sum);
    size
}

/// Writes a segment as `write_segment` does, with the options of `area`, as `clean_options` cleans
/// them, instead of those of the parts. `syn` alone decides which options are kept, and no clause
/// ties it to the parts: the caller must give the SYN flag of their flags.
pub fn write_cleaned(
    parts: &SegmentParts,
    area: &[u8],
    syn: bool,
    payload: &[u8],
    buf: &mut [u8],
) -> usize
    requires formed { are_well_formed area.now ≡ true }
    requires words { length area.now % 4 ≡ 0 }
    requires most { length area.now ≤ 40 }
    requires size { 20 + length area.now + length payload.now ≤ MAX_PAYLOAD }
    requires room { 20 + length area.now + length payload.now ≤ length buf.old }
    requires urgent { tcp.has_urg parts.now.flags.0 ≡ false }
    ensures exact { buf.new ≡ segment_octets (cleaned_segment parts.now syn area.now payload.now) ++ drop result buf.old }
    ensures size { result ≡ 20 + length area.now + length payload.now }
    ensures whole { result ≡ length (segment_octets (cleaned_segment parts.now syn area.now payload.now)) }
{
    let size = HEADER + area.len() + payload.len();
    let segment = &mut buf[..size];
    put_cleaned(parts, area, syn, payload, segment);
    let sum = sum_for(
        segment,
        pseudo_sum(parts.src, parts.dst, protocol::TCP, size as u16),
    );
    put_u16(segment, CHECKSUM, sum);
    size
}

/// Writes the right checksum into a segment, and leaves all other octets unchanged. `pseudo` is the
/// sum of the pseudo-header. The checksum may be 0.
pub fn mend(bytes: &mut [u8], pseudo: u32)
    requires { 18 ≤ length bytes.old }
    ensures exact { bytes.new ≡ mended pseudo bytes.old }
    ensures right { sum_is_right bytes.new pseudo ≡ true }
{
    put_u16(bytes, CHECKSUM, 0);
    let sum = sum_for(bytes, pseudo);
    put_u16(bytes, CHECKSUM, sum);
}

/// Overwrites each option before the end option that is not kept with no-operations, and each octet
/// after the end option with 0. Maximum segment size, window scale and SACK permitted are kept on a
/// SYN, and SACK of one to four blocks and timestamps on every segment. Each is kept only with its
/// own length, and only the first of its kind (this project's profile). Returns whether an octet
/// changed. Lengths in octets: SACK 10, 18, 26 or 34, timestamps 10, maximum segment size 4, window
/// scale 3, SACK permitted 2. Every no-operation is kept.
pub fn clean_options(options: &mut [u8], syn: bool) -> bool
    requires { are_well_formed options.old ≡ true }
    ensures exact { options.new ≡ cleaned syn options.old }
    ensures changed { IsFalse result ↔ (options.new ≡ options.old) }
{
    let mut kept = Kept::default();
    let mut changed = false;
    let mut at = 0;
    while at < options.len() && options[at] != END {
        if options[at] == NO_OPERATION {
            at += 1;
            continue;
        }
        let size = size_at(options, at);
        if !kept.keeps(syn, options[at], size) {
            options[at..at + size].fill(NO_OPERATION);
            changed = true;
        }
        at += size;
    }
    changed |= clear(&mut options[at..]);
    changed
}

/// Returns whether `clean_options` changes an octet of these options.
pub fn options_change(options: &[u8], syn: bool) -> bool
    requires { are_well_formed options.now ≡ true }
    ensures { IsFalse result ↔ (cleaned syn options.now ≡ options.now) }
{
    let mut kept = Kept::default();
    let mut at = 0;
    while at < options.len() && options[at] != END {
        if options[at] == NO_OPERATION {
            at += 1;
            continue;
        }
        let size = size_at(options, at);
        if !kept.keeps(syn, options[at], size) {
            return true;
        }
        at += size;
    }
    has_other_than_0(&options[at..])
}

// Writes the whole segment, with 0 in the checksum field.
fn put_parts(parts: &SegmentParts, payload: &[u8], segment: &mut [u8])
    requires { length segment.old ≡ 20 + length parts.now.options.items + length payload.now }
    ensures { segment.new ≡ octets_with (segment_of parts.now payload.now) 0 }
{
    let (header, rest) = segment.split_at_mut(HEADER);
    let (options, octets) = rest.split_at_mut(parts.options.len());
    header.copy_from_slice(&without_sum(parts, parts.options.len()));
    options.copy_from_slice(parts.options.as_slice());
    octets.copy_from_slice(payload);
}

// Writes the whole segment with the cleaned options of `area`, and with 0 in the checksum field.
fn put_cleaned(parts: &SegmentParts, area: &[u8], syn: bool, payload: &[u8], segment: &mut [u8])
    requires formed { are_well_formed area.now ≡ true }
    requires most { length area.now ≤ 40 }
    requires size { length segment.old ≡ 20 + length area.now + length payload.now }
    ensures exact { segment.new ≡ octets_with (cleaned_segment parts.now syn area.now payload.now) 0 }
    ensures length { length (cleaned syn area.now) ≡ length area.now }
{
    let (header, rest) = segment.split_at_mut(HEADER);
    let (options, octets) = rest.split_at_mut(area.len());
    header.copy_from_slice(&without_sum(parts, area.len()));
    clean_into(area, syn, options);
    octets.copy_from_slice(payload);
}

// Returns the 20 octets before `options` octets of options, with 0 in the checksum field.
fn without_sum(parts: &SegmentParts, options: usize) -> [u8; 20]
    requires { options ≤ 40 }
    ensures { (area octets : List ℕ) → length area ≡ options → result ≡ header_octets (segment_with parts.now area octets) 0 }
{
    let [sport_high, sport_low] = parts.sport.to_be_bytes();
    let [dport_high, dport_low] = parts.dport.to_be_bytes();
    let [a, b, c, d] = parts.seq.to_be_bytes();
    let [e, f, g, h] = parts.ack.to_be_bytes();
    let words = (HEADER + options) / 4;
    let [window_high, window_low] = parts.window.to_be_bytes();
    [
        sport_high,
        sport_low,
        dport_high,
        dport_low,
        a,
        b,
        c,
        d,
        e,
        f,
        g,
        h,
        16 * words as u8,
        parts.flags.0,
        window_high,
        window_low,
        0,
        0,
        0,
        0,
    ]
}

// The option kinds kept so far, one entry for each kind below 9.
#[derive(Clone, Copy, Default)]
struct Kept([bool; KINDS]);

impl Kept {
    // Returns whether an option of this kind and length is kept, and if so records its kind: only
    // the first of a kind is kept.
    fn keeps(&mut self, syn: bool, kind: u8, size: usize) -> bool
        ensures exact { (before : List ℕ) → StandsFor self.old before → result ≡ is_kept_after syn before kind size }
        ensures stands { (before : List ℕ) → StandsFor self.old before → StandsFor self.new (if result then kind ∷ before else before) }
    {
        if !may_be_kept(syn, kind, size) {
            return false;
        }
        let kept = &mut self.0[usize::from(kind)];
        let first = !*kept;
        *kept = true;
        first
    }
}

// Returns whether an option of this kind and length may be kept (this project's profile).
fn may_be_kept(syn: bool, kind: u8, size: usize) -> bool
    ensures exact { result ≡ may_be_kept syn kind size }
    ensures known { IsTrue result → kind < 9 }
{
    let on_syn = (kind == SEGMENT_SIZE) & (size == 4)
        | (kind == WINDOW_SCALE) & (size == 3)
        | (kind == SACK_PERMITTED) & (size == 2);
    let blocks = (size == 10) | (size == 18) | (size == 26) | (size == 34);
    syn & on_syn | (kind == SACK) & blocks | (kind == TIMESTAMPS) & (size == 10)
}

// Writes options to `target` as `clean_options` cleans them.
fn clean_into(area: &[u8], syn: bool, target: &mut [u8])
    requires formed { are_well_formed area.now ≡ true }
    requires size { length target.old ≡ length area.now }
    ensures { target.new ≡ cleaned syn area.now }
{
    target.fill(NO_OPERATION);
    let mut kept = Kept::default();
    let mut at = 0;
    while area.len() - at >= 2 && area[at] != END {
        let size = step_at(area, at);
        if kept.keeps(syn, area[at], size) {
            target[at..at + size].copy_from_slice(&area[at..at + size]);
        }
        at += size;
    }
    if at < area.len() && area[at] == END {
        target[at..].fill(0);
    }
}

// Sets each octet to 0, and returns whether one was not 0.
fn clear(octets: &mut [u8]) -> bool
    ensures exact { octets.new ≡ replicate (length octets.old) 0 }
    ensures changed { result ≡ list_any (λ octet. not (octet == 0)) octets.old }
{
    let some = has_other_than_0(octets);
    octets.fill(0);
    some
}

// Returns whether an octet is not 0.
fn has_other_than_0(octets: &[u8]) -> bool
    ensures { result ≡ list_any (λ octet. not (octet == 0)) octets.now }
{
    octets.iter().any(|octet| *octet != 0)
}
