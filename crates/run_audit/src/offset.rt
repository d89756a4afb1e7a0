//! Offsets in the stream of an era.
ghost use Rattle.std.specs.Prelude.{◌≡◌, ◌+◌, ◌%◌, ◌^◌, ◌<◌};
ghost use Rattle.receiver_model.specs.Offsets as receiver;
ghost use Rattle.era_state.specs.Offsets.{off, nat_of};

use wire_base::{sequence_distance, sequence_plus};

// 2^31, half the range of sequence numbers.
const HALF: u64 = 2147483648;

/// An offset in a stream. It may be below 0: `raised` is the offset plus 2^31.
#[derive(Clone, Copy, Debug, PartialEq, Eq)]
pub(crate) struct Offset {
    pub(crate) raised: u64,
}

/// Returns the offset 0, the start of the stream.
pub(crate) fn begin() -> Offset
    ensures { result.raised ≡ 2 ^ 31 }
{
    Offset { raised: HALF }
}

impl Offset {
    /// Returns the offset of a sequence number, which is read relative to the acknowledged offset.
    pub(crate) fn of(base: u32, acked: u64, number: u32) -> Offset
        requires { acked < 2 ^ 63 }
        ensures value { receiver.offset_in result.raised ≡ off base acked number }
        ensures near { result.raised < acked + 2 ^ 32 }
    {
        let past = sequence_distance(sequence_plus(base, acked), number);
        if past < HALF {
            Offset {
                raised: acked + past + HALF,
            }
        } else {
            Offset {
                raised: acked + past - HALF,
            }
        }
    }

    /// Returns the offset `octets` further.
    pub(crate) fn after(self, octets: usize) -> Offset
        requires { self.raised + octets < 2 ^ 64 }
        ensures { result.raised ≡ self.raised + octets }
    {
        Offset {
            raised: self.raised + octets as u64,
        }
    }

    /// Returns the offset, or 0 if it is below 0.
    pub(crate) fn or_zero(self) -> u64
        ensures { result ≡ nat_of (receiver.offset_in self.raised) }
    {
        self.raised.saturating_sub(HALF)
    }
}
