//! An interface, and the options that describe it.
ghost use Rattle.std.specs.Prelude.{◌≡◌, ℕ, ◌<◌, ◌≤◌, List, [], min, take, slice_index, length, true, false, option_map, IfSome};
ghost use Rattle.edge_io.specs.FaultCounts.{Rose};
ghost use Rattle.std.specs.declared.option.Option.{Option};
ghost use Rattle.pcapng_file.specs.InterfaceOptions.{is_named, nano_of};
ghost use Rattle.pcapng_file.specs.working.OptionFacts.{seen_behind, described_by};
ghost use Rattle.pcapng_file.specs.working.PartReading.{ReadsValue, ReadsOptions};
ghost use Rattle.pcapng_file.specs.ReadFaults.{is_read_fault};

use crate::NgFault;
use crate::content::padded;
use crate::numbers::u16_at;
use crate::take::{pass, read_exact};
use edge_io::Source;
use pcap_file::Order;

/// The description of an interface.
#[derive(Clone, Copy, Debug, Default, PartialEq, Eq)]
pub struct Interface {
    /// Whether its timestamps count nanoseconds; otherwise they count microseconds.
    pub nano: bool,
    /// The maximum number of octets captured of a frame; 0 means no limit.
    pub snap: u32,
    /// Whether its name is that of the inside interface.
    pub named: bool,
}

// The facts read from the options so far: whether the name is that of the inside interface, and
// whether timestamps count nanoseconds.
#[derive(Clone, Copy, Debug, PartialEq, Eq)]
struct Seen {
    named: Option<bool>,
    nano: Option<bool>,
}

const NAME: u16 = 2;

const UNIT: u16 = 9;

// Reads the value of an option with its padding, and keeps its first octets, at most 64, in `kept`.
fn read_value<S: Source>(source: &mut S, size: u16, kept: &mut [u8]) -> Result<(), NgFault>
    requires { 64 ≤ length kept.old }
    ensures octets { ReadsValue (S.left source.old) (S.left source.new) size result kept.new }
    ensures later { S.fault_count source.old ≤ S.fault_count source.new }
    ensures kept { is_read_fault result ≡ false → S.fault_count source.new ≡ S.fault_count source.old }
    ensures cause { is_read_fault result ≡ true → Rose (S.fault_count source.old) (S.fault_count source.new) }
{
    let first = usize::from(size).min(64);
    read_exact(source, &mut kept[..first])?;
    pass(source, padded(u32::from(size)) as u32 - first as u32)
}

// Returns the facts after one more option, or None if the option is malformed.
fn with_option(seen: Seen, inside: Option<&[u8]>, code: u16, size: u16, kept: &[u8]) -> Option<Seen>
    requires room { 64 ≤ length kept.now }
    requires small { IfSome inside (λ name. length name.now ≤ 64) }
    ensures { (value : List ℕ) → length value ≡ size → take (min size 64) kept.now ≡ take (min size 64) value
        → result ≡ seen_behind (option_map (λ name. name.now) inside.entry) seen (record { code = code; value = value }) }
{
    let first = usize::from(size).min(64);
    match code {
        NAME if seen.named.is_none() => {
            let named = is_name(inside, size, &kept[..first]);
            Some(Seen {
                named: Some(named),
                nano: seen.nano,
            })
        }
        UNIT if seen.nano.is_none() => {
            let nano = nano_of(size, kept[0])?;
            Some(Seen {
                named: seen.named,
                nano: Some(nano),
            })
        }
        _ => Some(seen),
    }
}

// Returns whether a value of this size, with these first octets, is the name of the inside
// interface.
fn is_name(inside: Option<&[u8]>, size: u16, first: &[u8]) -> bool
    requires { IfSome inside (λ name. length name.now ≤ 64) }
    ensures { (value : List ℕ) → length value ≡ size → first.now ≡ take (min size 64) value
        → result ≡ is_named (option_map (λ name. name.now) inside.entry) (Some value) }
{
    match inside {
        Some(name) => name.len() == usize::from(size) && *first == *name,
        None => false,
    }
}

// Returns whether a value of this size, with this first octet, means nanoseconds; None if it means
// neither these nor microseconds.
fn nano_of(size: u16, first: u8) -> Option<bool>
    ensures { (value : List ℕ) → length value ≡ size → (0 < size → first ≡ slice_index value 0)
        → result ≡ nano_of (Some value) }
{
    if size != 1 {
        return None;
    }
    match first {
        6 => Some(false),
        9 => Some(true),
        _ => None,
    }
}

// Returns the interface that the options describe, after the last of them.
fn described(seen: Seen, snap: u32) -> Interface
    ensures { (inside : Option (List ℕ)) → Some result ≡ described_by inside snap seen (Some []) }
{
    Interface {
        nano: seen.nano.unwrap_or(false),
        snap,
        named: seen.named.unwrap_or(false),
    }
}

/// Reads the options of an interface, `room` octets, and returns the interface that they describe;
/// None if they are malformed.
pub(crate) fn read_options<S: Source>(
    source: &mut S,
    order: Order,
    inside: Option<&[u8]>,
    snap: u32,
    room: u32,
) -> Result<Option<Interface>, NgFault>
    requires { IfSome inside (λ name. length name.now ≤ 64) }
    ensures octets { ReadsOptions (S.left source.old) (S.left source.new) order (option_map (λ name. name.now) inside.entry) snap room result }
    ensures later { S.fault_count source.old ≤ S.fault_count source.new }
    ensures kept { is_read_fault result ≡ false → S.fault_count source.new ≡ S.fault_count source.old }
    ensures cause { is_read_fault result ≡ true → Rose (S.fault_count source.old) (S.fault_count source.new) }
{
    let mut head = [0u8; 4];
    let mut kept = [0u8; 64];
    let mut seen = Seen {
        named: None,
        nano: None,
    };
    let mut left = room;
    while left >= 4 {
        read_exact(source, &mut head)?;
        left -= 4;
        let code = u16_at(order, &head, 0);
        if code == 0 {
            pass(source, left)?;
            return Ok(Some(described(seen, snap)));
        }
        let size = u16_at(order, &head, 2);
        let whole = padded(u32::from(size)) as u32;
        if whole > left {
            pass(source, left)?;
            return Ok(None);
        }
        read_value(source, size, &mut kept)?;
        left -= whole;
        let Some(more) = with_option(seen, inside, code, size, &kept) else {
            pass(source, left)?;
            return Ok(None);
        };
        seen = more;
    }
    pass(source, left)?;
    Ok(Some(described(seen, snap)))
}
