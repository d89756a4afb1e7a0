//! The flags of a TCP segment.
ghost use Rattle.std.specs.Prelude.{◌≡◌};
ghost use Rattle.wire_base.specs.Tcp as tcp;

/// The eight flags of a TCP header: CWR 128, ECE 64, URG 32, ACK 16, PSH 8, RST 4, SYN 2, FIN 1
/// (RFC 9293 section 3.1).
#[derive(Clone, Copy, Debug, Default, PartialEq, Eq)]
pub struct Flags(pub u8);

impl Flags {
    /// Returns whether SYN is set.
    pub fn syn(self) -> bool
        ensures { result ≡ tcp.has_syn self.0 }
    {
        self.0 / 2 % 2 == 1
    }

    /// Returns whether ACK is set.
    pub fn ack(self) -> bool
        ensures { result ≡ tcp.has_ack self.0 }
    {
        self.0 / 16 % 2 == 1
    }

    /// Returns whether FIN is set.
    pub fn fin(self) -> bool
        ensures { result ≡ tcp.has_fin self.0 }
    {
        self.0 % 2 == 1
    }

    /// Returns whether RST is set.
    pub fn rst(self) -> bool
        ensures { result ≡ tcp.has_rst self.0 }
    {
        self.0 / 4 % 2 == 1
    }

    /// Returns whether PSH is set.
    pub fn psh(self) -> bool
        ensures { result ≡ tcp.has_psh self.0 }
    {
        self.0 / 8 % 2 == 1
    }

    /// Returns whether URG is set.
    pub fn urg(self) -> bool
        ensures { result ≡ tcp.has_urg self.0 }
    {
        self.0 / 32 % 2 == 1
    }
}
