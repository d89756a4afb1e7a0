//! The limits of frames and packets, in octets, and of a window scale.

/// Most octets of a frame before its packet. It is also the exact length of an Ethernet II header
/// (RFC 894): a frame has this header or, on a raw link, nothing before its packet.
pub const MAX_LINK: usize = 14;

/// Most octets of an IPv4 packet: its total length has 16 bits (RFC 791 section 3.1).
pub const MAX_PACKET: usize = 65_535;

/// Most octets of a frame that is written: a link header and a packet.
pub const MAX_FRAME: usize = 65_549;

/// Most octets after an IPv4 header without options, which has 20 (RFC 791 section 3.1).
pub const MAX_PAYLOAD: usize = 65_515;

/// Most octets of a record that is read from a capture file (this project's profile).
pub const MAX_CAPTURED: u32 = 262_144;

/// Greatest shift of a window scale option (RFC 7323 section 2.3).
pub const MAX_SHIFT: u8 = 14;

const _: () = prove!(MAX_FRAME == MAX_LINK + MAX_PACKET);

const _: () = prove!(MAX_PAYLOAD == MAX_PACKET - 20);
