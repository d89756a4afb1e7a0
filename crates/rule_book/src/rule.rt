//! The rules that an entry of the report may name.
ghost use Rattle.std.specs.Prelude.{◌≡◌, ◌≤◌, ◌↔◌, length};
ghost use Rattle.rule_book.specs.Rules.{rule_name, rule_number, sentence};
ghost use Rattle.std.specs.Str.{bytes_eq};
ghost use Rattle.rule_book.specs.declared.rule.Rule.{Rule};

/// A rule: the reason why a packet is dropped (those up to `TRoom`, and `TQuota`, `EMtu`), or what
/// becomes of one that is not. The first letter names its subject: L the link, I the IPv4 header, P
/// the protocol, F fragments, U UDP, M ICMP, T TCP, C the connection, E frames too long for the
/// link. No rule has the number 59. Numbers are 1 to 58 and 60 to 62. `LSnap` is the rule L_SNAP,
/// and so on.
#[derive(Clone, Copy, Debug, Default, PartialEq, Eq)]
pub enum Rule {
    /// The capture has only a part of the frame.
    #[default]
    LSnap = 1,
    /// An Ethernet frame of fewer than 14 octets.
    LShort,
    /// An EtherType that is neither IPv4 nor ARP, or an ARP frame of more than 65,549 octets.
    LType,
    /// Fewer than 20 octets for the IPv4 header.
    IShort,
    /// An IP version that is not 4.
    IVersion,
    /// An IPv4 header length below 5 words or above the octets of the packet.
    IHlen,
    /// A total length below the header length or above the octets of the packet.
    ILen,
    /// A wrong IPv4 header checksum.
    ISum,
    /// A source address that begins with 0, 127, or 224 and above, or that equals the destination.
    ISrc,
    /// A destination address that begins with 0, 127, or 240 and above.
    IDst,
    /// The capture gives no side, and both addresses are trusted or neither is.
    ISide,
    /// A malformed IPv4 option.
    IOptBad,
    /// A source route.
    IRoute,
    /// A protocol that is not ICMP, TCP or UDP.
    PProto,
    /// A fragment with an offset above 0 and the flag DF.
    FDf,
    /// A fragment without payload.
    FEmpty,
    /// A fragment with MF whose payload is no multiple of 8 octets.
    FAlign,
    /// A fragment that ends after octet 65,515 of its datagram.
    FBig,
    /// A fragment that disagrees with those held on the end of its datagram.
    FEnd,
    /// A fragment with an octet that differs from the one held at its offset.
    FClash,
    /// A fragment that would begin a datagram while fragments of the maximum number of others are
    /// held.
    FMany,
    /// A fragment that needs more cells than are free.
    FRoom,
    /// Fewer than 8 octets for the UDP header.
    UShort,
    /// A UDP length that is not the length of the message.
    ULen,
    /// A wrong UDP checksum.
    USum,
    /// Fewer than 8 octets for the ICMP header.
    MShort,
    /// A wrong ICMP checksum.
    MSum,
    /// An ICMP type that is not 0, 3, 8, 11, 12, 13 or 14.
    MType,
    /// An inbound ICMP error that quotes no packet from a trusted to an untrusted address, or a
    /// segment without a live era.
    MQuote,
    /// Fewer than 20 octets for the TCP header.
    TShort,
    /// A data offset below 5 words or above the length of the segment.
    THlen,
    /// A wrong TCP checksum.
    TSum,
    /// A combination of SYN, FIN, RST and ACK that no segment has.
    TFlags,
    /// A malformed TCP option.
    TOptBad,
    /// An inbound RST, or SYN with ACK, while no era of its connection is live.
    TCold,
    /// An inbound segment that does not fit an era that is not open yet.
    TState,
    /// An inbound SYN whose sequence number is not the one before its era's first octet.
    TSyn,
    /// An inbound RST outside of what its era accepts.
    TRst,
    /// An era would begin while the table is full and no era can be evicted. On an outbound packet
    /// it is a note, and drops nothing.
    TFull,
    /// Inbound octets that need more cells than are free.
    TRoom,
    /// Octets after the total length are cut off.
    ITrail,
    /// IPv4 options are removed.
    IOpt,
    /// The reserved flag of the IPv4 header is cleared.
    IRes,
    /// An inbound TTL that is too low to reach every trusted host is raised.
    ITtl,
    /// A fragment is held until its datagram is complete.
    FHeld,
    /// A fragment completes its datagram.
    FDone,
    /// An outbound UDP checksum is computed again.
    USumOut,
    /// An outbound TCP checksum is computed again.
    TSumOut,
    /// Reserved bits of the TCP header are cleared.
    TRes,
    /// The urgent flag and pointer are cleared.
    TUrg,
    /// TCP options that are not kept are replaced by no-operations, and octets after the end option
    /// are cleared.
    TOpt,
    /// The payload of an inbound SYN or RST is cut off.
    TStrip,
    /// A probe is sent inwards.
    CProbe,
    /// Octets that the trusted host has acknowledged are cut off.
    TOld,
    /// Octets more than one past the window of the trusted host are cut off.
    TWindow,
    /// Never holds: streams may pass 2^31 octets. Older reports have its name.
    TTurn,
    /// Octets past the end of the stream are cut off, or a FIN that cannot be the end is cleared.
    TEnd,
    /// Octets that differ from those first sent at their offsets are replaced by them.
    TClash,
    /// Inbound octets with which the connection would have more cells than its quota. Tested before
    /// `TRoom`.
    TQuota = 60,
    /// A TCP frame that is too long for the link is cut into segments.
    ECut,
    /// Another frame that is too long for the link is not written.
    EMtu,
}

/// All rules, in the order of testing and naming.
const ALL: [Rule; 61] = [
    Rule::LSnap,
    Rule::LShort,
    Rule::LType,
    Rule::IShort,
    Rule::IVersion,
    Rule::IHlen,
    Rule::ILen,
    Rule::ISum,
    Rule::ISrc,
    Rule::IDst,
    Rule::ISide,
    Rule::IOptBad,
    Rule::IRoute,
    Rule::PProto,
    Rule::FDf,
    Rule::FEmpty,
    Rule::FAlign,
    Rule::FBig,
    Rule::FEnd,
    Rule::FClash,
    Rule::FMany,
    Rule::FRoom,
    Rule::UShort,
    Rule::ULen,
    Rule::USum,
    Rule::MShort,
    Rule::MSum,
    Rule::MType,
    Rule::MQuote,
    Rule::TShort,
    Rule::THlen,
    Rule::TSum,
    Rule::TFlags,
    Rule::TOptBad,
    Rule::TCold,
    Rule::TState,
    Rule::TSyn,
    Rule::TRst,
    Rule::TFull,
    Rule::TQuota,
    Rule::TRoom,
    Rule::ITrail,
    Rule::IOpt,
    Rule::IRes,
    Rule::ITtl,
    Rule::FHeld,
    Rule::FDone,
    Rule::USumOut,
    Rule::TSumOut,
    Rule::TRes,
    Rule::TUrg,
    Rule::TOpt,
    Rule::TStrip,
    Rule::CProbe,
    Rule::TOld,
    Rule::TWindow,
    Rule::TTurn,
    Rule::TEnd,
    Rule::TClash,
    Rule::ECut,
    Rule::EMtu,
];

impl Rule {
    /// Returns the number of the rule, from 1 to 62 without 59.
    pub fn number(self) -> u8
        ensures { result ≡ rule_number self }
    {
        self as u8
    }

    /// Returns the line of the rule in the table: its name in the report, and what it says in one
    /// sentence.
    #[rattlefmt::skip]
    fn line(self) -> (&'static str, &'static str)
        ensures name { result.0.now ≡ rule_name self }
        ensures bound { length result.0.now ≤ 9 }
        ensures sentence { result.1.now ≡ sentence self }
    {
        match self {
            Rule::LSnap => ("L_SNAP", "fewer octets were captured than the packet had"),
            Rule::LShort => ("L_SHORT", "an Ethernet frame has fewer than 14 octets"),
            Rule::LType => ("L_TYPE", "the EtherType is neither IPv4 nor ARP, or an ARP frame has more than 65549 octets"),
            Rule::IShort => ("I_SHORT", "the packet has fewer than 20 octets"),
            Rule::IVersion => ("I_VERSION", "the IP version is not 4"),
            Rule::IHlen => ("I_HLEN", "the header length is below 5 words or longer than the packet"),
            Rule::ILen => ("I_LEN", "the total length is below the header length or longer than the packet"),
            Rule::ISum => ("I_SUM", "the checksum of the IP header is wrong"),
            Rule::ISrc => ("I_SRC", "the source begins with 0, 127, or 224 and above, or equals the destination"),
            Rule::IDst => ("I_DST", "the destination begins with 0, 127, or 240 and above"),
            Rule::ISide => ("I_SIDE", "source and destination are both trusted, or neither is"),
            Rule::IOptBad => ("I_OPT_BAD", "an IP option is malformed"),
            Rule::IRoute => ("I_ROUTE", "the packet has a source route"),
            Rule::PProto => ("P_PROTO", "the protocol is not ICMP, TCP or UDP"),
            Rule::FDf => ("F_DF", "a fragment with an offset above 0 has DF set"),
            Rule::FEmpty => ("F_EMPTY", "a fragment has no payload"),
            Rule::FAlign => ("F_ALIGN", "a fragment with MF has a payload that is no multiple of 8 octets"),
            Rule::FBig => ("F_BIG", "a fragment ends after octet 65515 of its datagram"),
            Rule::FEnd => ("F_END", "a fragment contradicts the end of its datagram, which is forgotten"),
            Rule::FClash => ("F_CLASH", "an octet differs from the held one at its offset, and the datagram is forgotten"),
            Rule::FMany => ("F_MANY", "as many datagrams as --frags allows are held already"),
            Rule::FRoom => ("F_ROOM", "the fragment needs more cells than --frag-cells leaves free"),
            Rule::UShort => ("U_SHORT", "a UDP message has fewer than 8 octets"),
            Rule::ULen => ("U_LEN", "the UDP length is not the length of the message"),
            Rule::USum => ("U_SUM", "the UDP checksum is wrong"),
            Rule::MShort => ("M_SHORT", "an ICMP message has fewer than 8 octets"),
            Rule::MSum => ("M_SUM", "the ICMP checksum is wrong"),
            Rule::MType => ("M_TYPE", "the ICMP type is not 0, 3, 8, 11, 12, 13 or 14"),
            Rule::MQuote => ("M_QUOTE", "an inbound ICMP error quotes no packet from a trusted to an untrusted address, or a segment without a live era"),
            Rule::TShort => ("T_SHORT", "a segment has fewer than 20 octets"),
            Rule::THlen => ("T_HLEN", "the data offset is below 5 words or longer than the segment"),
            Rule::TSum => ("T_SUM", "the TCP checksum is wrong"),
            Rule::TFlags => ("T_FLAGS", "the combination of SYN, FIN, RST and ACK is not allowed"),
            Rule::TOptBad => ("T_OPT_BAD", "a TCP option is malformed"),
            Rule::TCold => ("T_COLD", "an inbound RST, or SYN with ACK, belongs to no live era"),
            Rule::TState => ("T_STATE", "an inbound segment does not fit an era that is not open yet"),
            Rule::TSyn => ("T_SYN", "an inbound SYN has another sequence number than the one before its era's first octet"),
            Rule::TRst => ("T_RST", "an inbound RST is outside of what its era takes"),
            Rule::TFull => ("T_FULL", "an era would begin while the table is full and none can be evicted"),
            Rule::TQuota => ("T_QUOTA", "the connection would hold more cells than --quota allows"),
            Rule::TRoom => ("T_ROOM", "the octets of the segment need more cells than --cells leaves free"),
            Rule::ITrail => ("I_TRAIL", "octets after the total length are cut off"),
            Rule::IOpt => ("I_OPT", "the IP options are removed"),
            Rule::IRes => ("I_RES", "the reserved flag of the IP header is cleared"),
            Rule::ITtl => ("I_TTL", "a time to live that is too low for the routers behind norm is raised"),
            Rule::FHeld => ("F_HELD", "the fragment is held until its datagram is complete"),
            Rule::FDone => ("F_DONE", "the fragment completes its datagram, which is judged as one packet"),
            Rule::USumOut => ("U_SUM_OUT", "the checksum of an outbound UDP message is computed again"),
            Rule::TSumOut => ("T_SUM_OUT", "the checksum of an outbound TCP segment is computed again"),
            Rule::TRes => ("T_RES", "reserved bits of the TCP header are cleared"),
            Rule::TUrg => ("T_URG", "URG and the urgent pointer are cleared"),
            Rule::TOpt => ("T_OPT", "TCP options are replaced by no-operations, or octets after their end are cleared"),
            Rule::TStrip => ("T_STRIP", "the payload of a SYN or RST is cut off"),
            Rule::CProbe => ("C_PROBE", "a keep-alive is sent, in place of the segment or after a RST"),
            Rule::TOld => ("T_OLD", "octets that the receiver has acknowledged are cut off"),
            Rule::TWindow => ("T_WINDOW", "octets more than one past the window of the receiver are cut off"),
            Rule::TTurn => ("T_TURN", "not used any more, older reports may have it"),
            Rule::TEnd => ("T_END", "octets after the end of the stream are cut off, or a FIN that cannot be the end is cleared"),
            Rule::TClash => ("T_CLASH", "octets that differ from those first sent at their offsets are replaced"),
            Rule::ECut => ("E_CUT", "the segment is too long for --mtu and is cut into segments that fit"),
            Rule::EMtu => ("E_MTU", "the packet is too long for --mtu and cannot be cut, it is not written"),
        }
    }

    /// Returns the name of the rule in the report, of at most 9 octets.
    #[inline]
    pub fn name(self) -> &'static str
        ensures text { result.now ≡ rule_name self }
        ensures bound { length result.now ≤ 9 }
    {
        self.line().0
    }

    /// Returns what the rule says, in one sentence.
    pub fn sentence(self) -> &'static str
        ensures { result.now ≡ sentence self }
    {
        self.line().1
    }

    /// Returns the rule of this name, or None if no rule has it.
    pub fn of_name(text: &[u8]) -> Option<Rule>
        ensures { (rule : Rule) → (result ≡ Some rule) ↔ (rule_name rule ≡ text.now) }
    {
        ALL.iter().copied().find(|rule| rule.has_name(text))
    }

    // Returns whether this is the name of the rule. Nearly all names differ by their length or
    // their last octet, which needs no call.
    #[inline(always)]
    fn has_name(self, text: &[u8]) -> bool
        ensures { result ≡ bytes_eq (rule_name self) text.now }
    {
        let name = self.name().as_bytes();
        let size = name.len();
        if size != text.len() {
            return false;
        }
        if size > 0 && name[size - 1] != text[size - 1] {
            return false;
        }
        name == text
    }
}
