//! What C gives and reads: results, and structs of numbers.

/// The call did what it says.
pub const DONE: u32 = 0;

/// The handle has no engine.
pub const CLOSED: u32 = 1;

/// Memory could not be allocated.
pub const NO_MEMORY: u32 = 2;

/// The words are not those of a run.
pub const WORDS: u32 = 3;

/// The words ask for a second engine, or for an inside interface.
pub const UNFIT: u32 = 4;

/// A setting of the gate has no such value.
pub const GATE: u32 = 5;

/// There is no such port.
pub const PORT: u32 = 6;

/// The engine has judged 2^32 - 1 records.
pub const FULL: u32 = 7;

/// The newest frame has no such record, or no such frame.
pub const NO_INDEX: u32 = 8;

/// The buffer is too small.
pub const NO_ROOM: u32 = 9;

/// What is around the engine.
#[repr(C)]
#[derive(Clone, Copy, Debug, PartialEq, Eq)]
pub struct GateWords {
    /// Frames from two ports (0), or records of a capture of Ethernet (1) or of IPv4 packets (2).
    pub frames: u32,
}

/// How a frame arrived.
#[repr(C)]
#[derive(Clone, Copy, Debug, PartialEq, Eq)]
pub struct ArrivalWords {
    /// Outside (0) or inside (1); not read of a record of a capture.
    pub port: u32,
    /// 0, or 65,536 plus the tag (TCI, IEEE 802.1Q) that the card took off the frame.
    pub tag: u32,
    /// Time in seconds, and a fraction of one.
    pub seconds: u32,
    pub fraction: u32,
    /// Number of octets that it had on the link.
    pub original: u32,
}

/// The answer to a frame.
#[repr(C)]
#[derive(Clone, Copy, Debug, PartialEq, Eq)]
pub struct AnswerWords {
    /// From 0: judged, forged, crosses, unjudged, too long, truncated.
    pub fate: u32,
    /// Number of records that the engine judged for it.
    pub records: u32,
    /// Verdict on the last of them, from 0: pass, fix, hold, drop.
    pub verdict: u32,
    /// Number of frames that are written for it.
    pub frames: u32,
    /// Port by which they leave: outside (0), inside (1) or none (2).
    pub port: u32,
    /// The one frame is the one that arrived, unchanged.
    pub as_read: bool,
}

/// A frame that was written into a buffer.
#[repr(C)]
#[derive(Clone, Copy, Debug, PartialEq, Eq)]
pub struct FrameWords {
    /// Its length in octets.
    pub size: usize,
    /// Port by which it leaves: outside (0), inside (1) or none (2).
    pub port: u32,
}
