//! Protocol numbers of the IPv4 header (RFC 791 section 3.1, RFC 790).

/// The Internet Control Message Protocol (RFC 792).
pub const ICMP: u8 = 1;

/// The Transmission Control Protocol (RFC 9293).
pub const TCP: u8 = 6;

/// The User Datagram Protocol (RFC 768).
pub const UDP: u8 = 17;
