//! Why a record could not be written.

/// Sink that failed.
#[derive(Clone, Copy, Debug, PartialEq, Eq)]
pub enum RelayFault {
    /// The sink of the frames.
    Capture,
    /// The sink of the lines.
    Report,
}
