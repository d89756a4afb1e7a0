//! How a frame arrives.
use wire_base::Link;

/// A port of the bridge.
#[derive(Clone, Copy, Debug, PartialEq, Eq)]
pub enum Port {
    /// The port of the untrusted network.
    Outside,
    /// The port of the protected hosts.
    Inside,
}

/// What frames are given to a gate.
#[derive(Clone, Copy, Debug, PartialEq, Eq)]
pub enum Frames {
    /// Ethernet frames, each from one of two ports.
    Ports,
    /// Records of a capture with this link. No port is known, and each is judged.
    Capture(Link),
}

/// The arrival of a frame.
#[derive(Clone, Copy, Debug, PartialEq, Eq)]
pub struct Arrival {
    /// Port at which it arrived.
    pub port: Port,
    /// 0, or 65,536 plus the tag (TCI, IEEE 802.1Q) that the card took off the frame.
    pub tag: u32,
    /// Time in seconds, and a fraction of one.
    pub seconds: u32,
    pub fraction: u32,
    /// Number of octets that it had on the link.
    pub original: u32,
}
