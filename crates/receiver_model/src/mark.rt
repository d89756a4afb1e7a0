//! The state of a stream before it took a packet.

/// Number of segments that a stream had taken and of octets that it had given to the reader, with
/// the offset of its FIN and whether it had ended.
#[derive(Clone, Copy)]
pub(crate) struct Mark {
    pub taken: usize,
    pub octets: usize,
    pub fin: Option<u64>,
    pub ended: bool,
}
