//! The connections of a load.
ghost use Rattle.std.specs.Prelude.{◌≡◌, ◌+◌, ◌<◌, ◌≤◌, ◌^◌};
ghost use Rattle.load_make.specs.working.FlowBounds.{BeginsWithin, IsWithin, flow_behind};
ghost use Rattle.load_make.specs.Flows.{later_turn, stream_behind, turn_of};

// Number of payload octets of a record that has any.
const PIECE: u64 = 512;

// Maximum number of octets that are sent and not acknowledged.
const WINDOW: u64 = 32768;

/// The state of the stream of a connection: the numbers of octets sent and acknowledged.
#[derive(Clone, Copy, Debug)]
pub struct Stream {
    pub sent: u64,
    pub acked: u64,
}

/// The state of a connection.
#[derive(Clone, Copy, Debug)]
pub enum Flow {
    /// No record so far.
    New,
    /// One record so far, the SYN.
    Called,
    /// The SYN was answered.
    Open(Stream),
}

/// The kind of a record; offsets are in octets from the first of the stream.
#[derive(Clone, Copy, Debug)]
pub enum Turn {
    /// A SYN inwards.
    Call,
    /// A SYN ACK outwards.
    Answer,
    /// 512 octets inwards from this offset on.
    Octets(u64),
    /// The same with another first octet.
    Changed(u64),
    /// An ACK outwards of all octets before this offset.
    Acknowledged(u64),
}

impl Flow {
    /// Returns the kind of the next record of the connection, and the state after it.
    pub(crate) fn next(self, action: u8) -> (Turn, Flow)
        requires { IsWithin (2 ^ 63) self }
        ensures turn { result.0 ≡ turn_of action self }
        ensures flow { result.1 ≡ flow_behind action self }
        ensures begin { BeginsWithin (2 ^ 63) result.0 }
    {
        match self {
            Flow::New => (Turn::Call, Flow::Called),
            Flow::Called => (Turn::Answer, Flow::Open(Stream { sent: 0, acked: 0 })),
            Flow::Open(stream) => {
                let (turn, stream) = stream.next(action);
                (turn, Flow::Open(stream))
            }
        }
    }
}

impl Stream {
    // Returns the kind of a record after the first two, and the state of the stream after it.
    fn next(self, action: u8) -> (Turn, Stream)
        requires within { self.acked ≤ self.sent }
        requires small { self.sent + 512 < 2 ^ 64 }
        ensures turn { result.0 ≡ later_turn action self }
        ensures stream { result.1 ≡ stream_behind action self }
    {
        let under_way = self.sent - self.acked;
        match action {
            0..=3 if under_way + PIECE <= WINDOW => {
                let sent = self.sent + PIECE;
                (Turn::Octets(self.sent), Stream { sent, ..self })
            }
            4 if under_way >= PIECE => (Turn::Octets(self.sent - PIECE), self),
            5 if under_way >= PIECE => (Turn::Changed(self.sent - PIECE), self),
            _ => {
                let acked = self.sent;
                (Turn::Acknowledged(self.sent), Stream { acked, ..self })
            }
        }
    }
}
