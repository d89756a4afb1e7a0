//! Packets that a capture has twice.
ghost use Rattle.frame_view.specs.FrameParts.{IsReadable};

use crate::line::{is_fragment, octet_at, plus_if};
use edge_io::NoMemory;
use frame_view::{Flow, message_end};
use std::alloc::Global;
use wire_base::protocol;

/// The packet of one of the last four records.
#[derive(Drop)]
struct Recent {
    /// Its mark, in which it differs from most others.
    mark: u64,
    /// Its octets; none of a record that is no candidate.
    octets: Vec<u8>,
}

/// How many packets are in a capture twice, and those of the last four records.
#[derive(Drop)]
pub(crate) struct Twins {
    /// How many packets have an identification by which the next one of their sender differs.
    pub(crate) candidates: u64,
    /// How many of them equal one of the four records before them.
    pub(crate) twice: u64,
    recent: [Recent; 4],
    /// The place of the newest of them, modulo 4.
    newest: usize,
}

impl Recent {
    // Returns that there is no record yet.
    fn new(alloc: Global) -> Recent {
        Recent {
            mark: 0,
            octets: Vec::new(alloc),
        }
    }

    // Returns whether a packet with this mark equals this one but for the time to live and the
    // header checksum.
    fn is_twin(&self, mark: u64, octets: &[u8]) -> bool {
        let own = self.octets.as_slice();
        self.mark == mark
            && octet_at(own, 9) == octet_at(octets, 9)
            && front(own) == front(octets)
            && after_checksum(own) == after_checksum(octets)
    }
}

impl Twins {
    /// Returns that there is no record yet.
    pub(crate) fn new(alloc: Global) -> Twins {
        Twins {
            candidates: 0,
            twice: 0,
            recent: [
                Recent::new(alloc),
                Recent::new(alloc),
                Recent::new(alloc),
                Recent::new(alloc),
            ],
            newest: 0,
        }
    }

    /// Takes the packet of a record.
    pub(crate) fn take(&mut self, flow: Flow, packet: &[u8]) -> Result<(), NoMemory>
        requires { IsReadable packet.now }
    {
        if !is_candidate(flow) {
            self.pass();
            return Ok(());
        }
        self.take_candidate(mark_of(flow), &packet[..message_end(packet)])
    }

    /// Takes a record that is no candidate.
    pub(crate) fn pass(&mut self) {
        self.newest = self.newest.wrapping_add(1);
        self.recent[self.newest % 4].octets.clear();
    }

    // Takes a packet with an identification.
    fn take_candidate(&mut self, mark: u64, octets: &[u8]) -> Result<(), NoMemory> {
        let found = self.recent.iter().any(|other| other.is_twin(mark, octets));
        self.twice = plus_if(found, self.twice);
        self.candidates = self.candidates.saturating_add(1);
        self.pass();
        let newest = &mut self.recent[self.newest % 4];
        newest.mark = mark;
        newest.octets.extend_from_slice(octets)?;
        Ok(())
    }
}

// Returns whether a packet has an identification by which the next one of its sender differs.
fn is_candidate(flow: Flow) -> bool {
    let known = matches!(
        flow.protocol,
        protocol::ICMP | protocol::TCP | protocol::UDP
    );
    known && flow.identification != 0 && !is_fragment(flow)
}

// Returns what twins have in common: source, identification, and the length of the payload.
fn mark_of(flow: Flow) -> u64 {
    u64::from(flow.src.0) << 32 | u64::from(flow.identification) << 16 | flow.length % 0x1_0000
}

// Returns the octets before the time to live.
fn front(octets: &[u8]) -> &[u8] {
    &octets[..octets.len().min(8)]
}

// Returns the octets after the header checksum.
fn after_checksum(octets: &[u8]) -> &[u8] {
    &octets[octets.len().min(12)..]
}
