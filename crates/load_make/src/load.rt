//! The records of a load, one by one.
ghost use Rattle.std.specs.Prelude.{◌≡◌, ◌+◌, ◌≤◌, length, option_map, slice_get, OnSome, IfSome, IfNone};
ghost use Rattle.pcap_file.specs.RecordReading.{shown};
ghost use Rattle.load_make.specs.LoadRecords.{Generated};

use crate::flow::Flow;
use crate::packet::write_packet;
use crate::sequence::{action_of, flow_of, following};
use pcap_file::Record;
use std::marker::Model;

/// Maximum length of a record in octets.
pub const MAX_RECORD: usize = 552;

// Number of connections.
const FLOWS: usize = 64;

/// A generator of the records of a load. It represents its seed, the number of records of the load,
/// and the number of records made.
#[derive(Debug, Drop)]
pub struct Load {
    seed: u64,
    count: u32,
    made: u32,
    number: u64,
    flows: [Flow; FLOWS],
}

impl Model for Load {
    ghost use Rattle.load_make.specs.working.FlowsBefore.{IsInStep};
    ghost use Rattle.load_make.specs.LoadState.{Making};

    ghost Value = { Making };

    ghost view = { λ l. record { seed = l.seed; count = l.count; made = l.made } };

    ghost invariant = { λ l. IsInStep l.seed l.count l.made l.number l.flows };
}

impl Load {
    /// Returns a load of `count` records before the first is made.
    pub fn new(seed: u64, count: u32) -> Load
        ensures { result ≡ record { seed = seed; count = count; made = 0 } }
    {
        Load {
            seed,
            count,
            made: 0,
            number: seed,
            flows: [Flow::New; FLOWS],
        }
    }

    /// Returns the next record, with its octets in the buffer, or None after the last. It is of raw
    /// IP, with its time in seconds and microseconds. A record has at most 552 octets.
    pub fn next<'a>(&mut self, buf: &'a mut [u8]) -> Option<Record<'a>>
        requires room { 552 ≤ length buf.old }
        ensures record { option_map shown result ≡ slice_get (Generated self.old.seed self.old.count) self.old.made }
        ensures offset { IfSome result (λ r. r.offset ≡ 0) }
        ensures most { IfSome result (λ r. length r.bytes.now ≤ 552) }
        ensures goes_on { OnSome result (self.new ≡ record self.old { made = self.old.made + 1 }) }
        ensures stays { IfNone result (self.new ≡ self.old) }
    {
        if self.made == self.count {
            return None;
        }
        let place = self.made;
        let number = following(self.number);
        let flow = flow_of(number);
        let index = usize::from(flow);
        let (turn, next) = self.flows[index].next(action_of(number));
        self.flows[index] = next;
        self.number = number;
        self.made = place + 1;
        let size = write_packet(flow, turn, (place % 65536) as u16, buf);
        let (seconds, fraction) = (place / 1000, place % 1000 * 1000);
        Some(Record::new(seconds, fraction, size as u32, 0, &buf[..size]))
    }
}
