//! Writes the head and the records of a capture file.
ghost use Rattle.std.specs.Prelude.{◌≡◌, ◌≤◌, length};
ghost use Rattle.edge_io.specs.FaultCounts.{HasCause};
ghost use Rattle.edge_io.specs.KnownOctets.{Puts};
ghost use Rattle.pcap_file.specs.FileHead as heads;
ghost use Rattle.pcap_file.specs.Records as records;
ghost use Rattle.wire_base.specs.declared.limits.TheConstants.{MAX_CAPTURED};

use crate::head::{ETHERNET, MICRO_MAGIC, NANO_MAGIC, RAW};
use crate::{Head, Order};
use edge_io::{Failed, Sink};
use thiserror::Error;
use wire_base::{Link, MAX_CAPTURED};

/// A failure of the sink. A prefix of the octets was appended.
#[derive(Clone, Copy, Debug, PartialEq, Eq, Error)]
#[error("the sink failed")]
pub struct WriteFault;

impl From<Failed> for WriteFault {
    fn from(_: Failed) -> Self {
        WriteFault
    }
}

// Returns the 24 octets of a head.
#[tactic(auto, unfolding(crate::specs::FileHead::head_octets))]
fn head_octets(head: &Head) -> [u8; 24]
    ensures { result ≡ heads.head_octets head.now }
{
    let order = head.order;
    let m = order.u32_octets(if head.nano { NANO_MAGIC } else { MICRO_MAGIC });
    let major = order.u16_octets(2);
    let minor = order.u16_octets(4);
    let snap = order.u32_octets(MAX_CAPTURED);
    let network = order.u32_octets(match head.link {
        Link::Ethernet => ETHERNET,
        Link::Raw => RAW,
    });
    [
        m[0], m[1], m[2], m[3], major[0], major[1], minor[0], minor[1], 0, 0, 0, 0, 0, 0, 0, 0,
        snap[0], snap[1], snap[2], snap[3], network[0], network[1], network[2], network[3],
    ]
}

// Returns the 16 octets of a record's head.
#[tactic(auto, unfolding(crate::specs::Records::record_head))]
fn record_head(order: Order, seconds: u32, fraction: u32, size: u32) -> [u8; 16]
    ensures { result ≡ records.record_head order seconds fraction size }
{
    let s = order.u32_octets(seconds);
    let f = order.u32_octets(fraction);
    let n = order.u32_octets(size);
    // It copies four octets at a time: each copy is one store.
    let mut head = [0; 16];
    head[..4].copy_from_slice(&s);
    head[4..8].copy_from_slice(&f);
    head[8..12].copy_from_slice(&n);
    head[12..].copy_from_slice(&n);
    head
}

/// Writes the head, with version 2.4, zone 0, accuracy 0 and snap length 262,144.
pub fn write_head<K: Sink>(sink: &mut K, head: &Head) -> Result<(), WriteFault>
    ensures octets { Puts (K.held sink.old) (K.held sink.new) result (heads.head_octets head.now) }
    ensures cause { HasCause (K.fault_count sink.old) (K.fault_count sink.new) result }
{
    sink.put(&head_octets(head))?;
    Ok(())
}

/// Writes a record of these octets. Its captured and its original length are their number. The time
/// is written as it is given.
#[inline(always)]
pub fn write_record<K: Sink>(
    sink: &mut K,
    head: &Head,
    seconds: u32,
    fraction: u32,
    bytes: &[u8],
) -> Result<(), WriteFault>
    requires { length bytes.now ≤ MAX_CAPTURED }
    ensures octets { Puts (K.held sink.old) (K.held sink.new) result (records.record_octets head.now.order seconds fraction bytes.now) }
    ensures cause { HasCause (K.fault_count sink.old) (K.fault_count sink.new) result }
{
    let front = record_head(head.order, seconds, fraction, bytes.len() as u32);
    sink.put(&front)?;
    sink.put(bytes)?;
    Ok(())
}
