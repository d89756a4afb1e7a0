//! Buffers of one record.
ghost use Rattle.std.specs.Prelude.{◌≡◌, IfOk};

use crate::relay::LINE;
use edge_io::{MAX_FRAME, NoMemory, Outbox};
use norm_engine::blank_entry;
use rule_book::Entry;
use std::alloc::Global;

/// Buffers of one record, and the MTU by which its frames are cut.
#[derive(Drop)]
pub struct Room {
    /// MTU of the next link, in octets, if it is bounded.
    pub mtu: Option<u16>,
    /// Frames of one record; with two engines those written for the first frame of the first
    /// engine.
    pub out: Outbox,
    /// Frames written for its second frame.
    pub behind: Outbox,
    /// Octets of one segment of a frame that is cut.
    pub segment: Box<[u8; MAX_FRAME]>,
    /// Entry of one record, if there is one engine.
    pub entry: Entry,
    /// One line of the report.
    pub line: [u8; LINE],
}

impl Room {
    /// Allocates the buffers.
    pub fn open(alloc: Global, mtu: Option<u16>) -> Result<Room, NoMemory>
        ensures { IfOk result (λ room. room.mtu ≡ mtu) }
    {
        let out = Outbox::open(alloc)?;
        let behind = Outbox::open(alloc)?;
        let segment = Box::new(alloc, [0u8; MAX_FRAME])?;
        Ok(Room {
            mtu,
            out,
            behind,
            segment,
            entry: blank_entry(),
            line: [0; LINE],
        })
    }
}
