//! Opening of a capture whose first octets were read before.
ghost use Rattle.std.specs.Prelude.{◌≡◌, ◌≤◌, length, true, false, option_map, IfSome, IsErrOf};
ghost use Rattle.std.specs.Io.KnownBytes.{prepend_known};
ghost use Rattle.edge_io.specs.FaultCounts.{Rose};
ghost use Rattle.pcap_file.specs.HeadReading.{ReadsHead, KeepsCount};
ghost use Rattle.pcap_file.specs.working.HeadParsing.{Judges};
ghost use Rattle.capture_input.specs.Faults.{has_read_fault, only_fault};
ghost use Rattle.capture_input.specs.RecordReading.{Opens, IsKind};

use crate::{Input, InputFault, OpenFault};
use edge_io::{Failed, Source};
use pcap_file::{Head, HeadFault, Reader, read_head};
use pcapng_file::{Ahead, NgReader, read_behind};

// A source without octets.
#[derive(Drop)]
struct Nothing;

impl Source for Nothing {
    ghost use Rattle.std.specs.Prelude.{Some, []};
    ghost use Rattle.edge_io.specs.FaultCounts.{HasCause};
    ghost use Rattle.edge_io.specs.KnownOctets.{Fetches};

    ghost left = { λ _. Some [] };

    ghost fault_count = { λ _. 0 };

    fn fetch(&mut self, buf: &mut [u8]) -> Result<usize, Failed>
        ensures octets { Fetches (Some []) (Some []) result buf.new }
        ensures cause { HasCause 0 0 result }
    {
        let _buf = buf;
        Ok(0)
    }

    fn faults(&self) -> u64 {
        0
    }
}

// Parses these octets as the head of a classic file.
fn judge(octets: &[u8]) -> Result<Head, HeadFault>
    ensures { Judges octets.now result }
{
    let mut nothing = Nothing;
    let mut ahead = Ahead::new(octets, &mut nothing);
    read_head(&mut ahead)
}

// Reads the head of a classic file; its first octets `first`, at most 24, were read before.
fn read_classic<S: Source>(first: &[u8], source: &mut S) -> Result<Head, HeadFault>
    requires { length first.now ≤ 24 }
    ensures octets { ReadsHead (prepend_known first.now (S.left source.old)) (S.left source.new) result }
    ensures later { S.fault_count source.old ≤ S.fault_count source.new }
    ensures kept { KeepsCount result (S.fault_count source.old) (S.fault_count source.new) }
    ensures cause { IsErrOf result HeadFault.ReadFault → Rose (S.fault_count source.old) (S.fault_count source.new) }
{
    let mut octets = [0u8; 24];
    let count = read_behind(first, source, &mut octets)?;
    judge(&octets[..count])
}

/// Opens a classic file; its first octets `first`, at most 24, were read before.
pub(crate) fn open_classic<S: Source>(
    inside: Option<&[u8]>,
    first: &[u8],
    source: &mut S,
) -> Result<Input, OpenFault>
    requires { length first.now ≤ 24 }
    ensures octets { IsKind false (prepend_known first.now (S.left source.old))
        → Opens (option_map (λ name. name.now) inside.entry) (prepend_known first.now (S.left source.old)) (S.left source.new) result }
    ensures later { S.fault_count source.old ≤ S.fault_count source.new }
    ensures kept { has_read_fault (only_fault result) ≡ false → S.fault_count source.new ≡ S.fault_count source.old }
    ensures cause { has_read_fault (only_fault result) ≡ true → Rose (S.fault_count source.old) (S.fault_count source.new) }
{
    let head = read_classic(first, source)?;
    if inside.is_some() {
        return Err(OpenFault {
            fault: InputFault::Block,
            offset: 0,
        });
    }
    Ok(Input::Classic(head, Reader::new(head)))
}

/// Opens a pcapng file; its first octets `first`, at most 12, were read before.
pub(crate) fn open_sections<S: Source>(
    inside: Option<&[u8]>,
    first: &[u8],
    source: &mut S,
) -> Result<Input, OpenFault>
    requires small { IfSome inside (λ name. length name.now ≤ 64) }
    requires few { length first.now ≤ 12 }
    ensures octets { IsKind true (prepend_known first.now (S.left source.old))
        → Opens (option_map (λ name. name.now) inside.entry) (prepend_known first.now (S.left source.old)) (S.left source.new) result }
    ensures later { S.fault_count source.old ≤ S.fault_count source.new }
    ensures kept { has_read_fault (only_fault result) ≡ false → S.fault_count source.new ≡ S.fault_count source.old }
    ensures cause { has_read_fault (only_fault result) ≡ true → Rose (S.fault_count source.old) (S.fault_count source.new) }
{
    let reader = NgReader::open_behind(inside, first, source)?;
    Ok(Input::Sections(reader))
}
