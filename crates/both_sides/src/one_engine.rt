//! One record by one engine.
ghost use Rattle.std.specs.Prelude.{◌≡◌, ◌≤◌, ◌<◌, ◌-◌, ◌^◌, List};
ghost use Rattle.pcap_file.specs.RecordReading.{shown};
ghost use Rattle.norm_engine.specs.Items.{Item};
ghost use Rattle.norm_engine.specs.EngineState.{StandsFor};
ghost use Rattle.both_sides.specs.working.RelayState.{CanRead};
ghost use Rattle.both_sides.specs.Sinks.{sinks_of};
ghost use Rattle.both_sides.specs.working.RecordEffects.{HasRead};

use crate::RelayFault;
use crate::cut::write_item;
use crate::relay::write_line;
use crate::room::Room;
use edge_io::Sink;
use emit_mtu::laws::{plain_packets_go_out, segments_fit};
use norm_engine::Engine;
use norm_engine::laws::{items_are_counted, items_go_out};
use norm_engine::written::{frames_have_octets, have_octets};
use pcap_file::{Head, Record};

/// Judges one record into the entry, writes its frames and its line, and returns the number of
/// frames written.
pub fn relay_one<K: Sink, R: Sink>(
    engine: &mut Engine,
    room: &mut Room,
    head: &Head,
    input: &Record<'_>,
    capture: &mut K,
    report: &mut R,
) -> Result<u64, RelayFault>
    requires few { engine.old.records < 2 ^ 32 - 1 }
    requires ready { CanRead engine.old room.old.mtu head.now.link }
    ensures read { (history : List Item) → StandsFor engine.old history →
        let before = sinks_of (K.held capture.old) (K.fault_count capture.old) (R.held report.old) (R.fault_count report.old) in
        let now = sinks_of (K.held capture.new) (K.fault_count capture.new) (R.held report.new) (R.fault_count report.new) in
        HasRead head.now.order engine.old engine.new history (shown input.now) result before now }
    ensures settings { engine.new.settings ≡ engine.old.settings }
    ensures link { engine.new.link ≡ engine.old.link }
    ensures mtu { room.new.mtu ≡ room.old.mtu }
    ensures capture_later { K.fault_count capture.old ≤ K.fault_count capture.new }
    ensures report_later { R.fault_count report.old ≤ R.fault_count report.new }
{
    items_are_counted();
    items_go_out();
    segments_fit();
    plain_packets_go_out();
    have_octets(input.bytes);
    let as_read = engine.step_into(input, &mut room.out, &mut room.entry);
    frames_have_octets(&room.out);
    if write_item(as_read, room, head, input, capture).is_err() {
        return Err(RelayFault::Capture);
    }
    if write_line(&room.entry, &mut room.line, report).is_err() {
        return Err(RelayFault::Report);
    }
    Ok(u64::from(room.entry.packets))
}
