//! The fields of a probe.

/// Segment with ACK alone and without octets, to which a host answers according to whether it holds
/// the connection: its sequence number, acknowledgment and window (RFC 9293 sections 3.10.7.1 and
/// 3.10.7.4). With an era `seq` is one below Base + Acked (in a `Called` era one below the
/// segment's) and `ack` is Out. Without one, and under T_STATE, `seq` is one below the segment's
/// and `ack` the segment's.
#[derive(Clone, Copy, Debug, PartialEq, Eq)]
pub struct Probe {
    pub seq: u32,
    pub ack: u32,
    pub window: u16,
}
