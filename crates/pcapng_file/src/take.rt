//! Reading of parts of a block.
ghost use Rattle.std.specs.Prelude.{◌≡◌, ◌≤◌, true, false};
ghost use Rattle.edge_io.specs.FaultCounts.{Rose};
ghost use Rattle.pcapng_file.specs.working.PartReading.{FillsWhole, Passes, Closes};
ghost use Rattle.pcapng_file.specs.ReadFaults.{is_read_fault};

use crate::NgFault;
use crate::numbers::u32_at;
use edge_io::{Source, read_full};
use pcap_file::Order;

// Maximum number of octets that one read skips.
const PIECE: usize = 4096;

/// Fills the buffer, or fails with `Cut` if the source ends before.
pub(crate) fn read_exact<S: Source>(source: &mut S, buf: &mut [u8]) -> Result<(), NgFault>
    ensures octets { FillsWhole (S.left source.old) (S.left source.new) result buf.new }
    ensures later { S.fault_count source.old ≤ S.fault_count source.new }
    ensures kept { is_read_fault result ≡ false → S.fault_count source.new ≡ S.fault_count source.old }
    ensures cause { is_read_fault result ≡ true → Rose (S.fault_count source.old) (S.fault_count source.new) }
{
    let count = read_full(source, buf)?;
    if count < buf.len() {
        return Err(NgFault::Cut);
    }
    Ok(())
}

/// Skips `count` octets.
pub(crate) fn pass<S: Source>(source: &mut S, count: u32) -> Result<(), NgFault>
    ensures octets { Passes (S.left source.old) (S.left source.new) count result }
    ensures later { S.fault_count source.old ≤ S.fault_count source.new }
    ensures kept { is_read_fault result ≡ false → S.fault_count source.new ≡ S.fault_count source.old }
    ensures cause { is_read_fault result ≡ true → Rose (S.fault_count source.old) (S.fault_count source.new) }
{
    let mut piece = [0u8; PIECE];
    let mut left = count as usize;
    while left > 0 {
        let size = left.min(PIECE);
        read_exact(source, &mut piece[..size])?;
        left -= size;
    }
    Ok(())
}

/// Reads the last four octets of a block, and returns whether they are its size.
pub(crate) fn closes<S: Source>(source: &mut S, order: Order, size: u32) -> Result<bool, NgFault>
    ensures octets { Closes (S.left source.old) (S.left source.new) order size result }
    ensures later { S.fault_count source.old ≤ S.fault_count source.new }
    ensures kept { is_read_fault result ≡ false → S.fault_count source.new ≡ S.fault_count source.old }
    ensures cause { is_read_fault result ≡ true → Rose (S.fault_count source.old) (S.fault_count source.new) }
{
    let mut last = [0u8; 4];
    read_exact(source, &mut last)?;
    let told = u32_at(order, &last, 0);
    Ok(told == size)
}
