//! The run over a load: records that are made from a number.
ghost use Rattle.std.specs.Prelude.{◌≡◌, ◌⊎◌, ◌≤◌, [], ◌∷◌, ◌++◌, map, IfOk};
ghost use Rattle.std.specs.List.{flat_map};
ghost use Rattle.edge_io.specs.FaultCounts.{Rose, HasCause};
ghost use Rattle.edge_io.specs.KnownOctets.{Puts};
ghost use Rattle.wire_base.specs.declared.address.Link.TheVariants.{Raw};
ghost use Rattle.rule_book.specs.LoadText.{load_text};
ghost use Rattle.norm_settings.specs.SettingValues.{plain_settings, AreInRange};
ghost use Rattle.norm_engine.specs.EngineState.{StandsFor};
ghost use Rattle.bridge_run.specs.LoadMoments as spec;
ghost use Rattle.bridge_run.specs.working.LoadTally as working;
ghost use Rattle.bridge_run.specs.StopReasons as stops;
ghost use Rattle.bridge_run.specs.Summary as summary;

use crate::stop::tell_memory;
use crate::tally::Tally;
use arrayvec::ArrayVec;
use edge_io::{Failed, NoMemory, Outbox, Sink};
use load_make::{Load, MAX_RECORD};
use norm_engine::Engine;
use norm_engine::laws::items_are_counted;
use norm_settings::Settings;
use rule_book::{LoadLine, load_line};
use std::alloc::Global;
use wire_base::{Addr, Prefix};

/// Makes `count` records from the seed, has an engine judge them, and reports a summary. The status
/// returned is
///
/// - 0 if the summary was written;
/// - 7 for a fault of the report;
/// - 8 if memory could not be allocated at opening.
///
/// Nothing is written before the last record was judged. The settings are the default ones, with
/// the prefix 10.0.0.0/8.
pub fn run_load<R: Sink>(alloc: Global, seed: u64, count: u32, report: &mut R) -> u8
    ensures leaves { summary.LoadLeaves seed count result
        (spec.seen_of (R.held report.old) (R.fault_count report.old)) (spec.seen_of (R.held report.new) (R.fault_count report.new)) }
    ensures memory { result ≡ 8 → stops.Told (R.held report.old) (R.held report.new)
        (R.fault_count report.old) (R.fault_count report.new) stops.memory_line }
    ensures report { result ≡ 7 → Rose (R.fault_count report.old) (R.fault_count report.new) }
    ensures known { (result ≡ 0) ⊎ ((7 ≤ result) × (result ≤ 8)) }
    ensures report_later { R.fault_count report.old ≤ R.fault_count report.new }
{
    let Ok(mut room) = take_room(alloc) else {
        tell_memory(report);
        return 8;
    };
    let lines = summarize(&mut room, seed, count);
    match put_lines(&lines, report) {
        Ok(()) => 0,
        Err(Failed) => 7,
    }
}

/// Memory of a load.
#[derive(Drop)]
struct Room {
    /// Frames of one record.
    out: Outbox,
    engine: Engine,
}

// Allocates the memory of a load: the outbox and the engine.
fn take_room(alloc: Global) -> Result<Room, NoMemory>
    ensures stands { IfOk result (λ room. StandsFor room.engine []) }
    ensures settings { IfOk result (λ room. room.engine.settings ≡ summary.load_settings) }
    ensures link { IfOk result (λ room. room.engine.link ≡ Raw) }
{
    let out = Outbox::open(alloc)?;
    let engine = Engine::open(alloc, load_settings())?;
    Ok(Room { out, engine })
}

// Returns the settings of a load: the standard ones, with 10.0.0.0/8 as the one prefix.
fn load_settings() -> Settings
    ensures exact { plain_settings result ≡ summary.load_settings }
    ensures range { AreInRange (plain_settings result) }
{
    let mut prefixes = ArrayVec::new();
    prefixes.push(Prefix {
        addr: Addr(0x0a00_0000),
        len: 8,
    });
    Settings::standard(prefixes)
}

// Makes the records, has each judged, and returns the summary.
fn summarize(room: &mut Room, seed: u64, count: u32) -> ArrayVec<LoadLine, 69>
    requires stands { StandsFor room.old.engine [] }
    requires settings { room.old.engine.settings ≡ summary.load_settings }
    requires link { room.old.engine.link ≡ Raw }
    ensures { working.SumsUp seed count result.items }
{
    items_are_counted();
    let tally = tally_of(&mut room.engine, &mut room.out, seed, count);
    summary_of(seed, count, room.engine.records(), &tally)
}

// Makes the records, has each judged, and counts their entries.
fn tally_of(engine: &mut Engine, out: &mut Outbox, seed: u64, count: u32) -> Tally
    requires stands { StandsFor engine.old [] }
    requires settings { engine.old.settings ≡ summary.load_settings }
    requires link { engine.old.link ≡ Raw }
    ensures { working.IsTallied seed count engine.new.records result }
{
    items_are_counted();
    let mut load = Load::new(seed, count);
    let mut buf = [0u8; MAX_RECORD];
    let mut tally = Tally::new();
    while let Some(record) = load.next(&mut buf) {
        let entry = engine.step(&record, out);
        tally.add(&entry);
    }
    tally
}

// Returns the lines of the summary.
fn summary_of(seed: u64, count: u32, records: u32, tally: &Tally) -> ArrayVec<LoadLine, 69>
    ensures { result.items ≡ working.lines_of seed count records tally.now }
{
    let mut lines = ArrayVec::new();
    lines.push(LoadLine::Load { seed, count });
    lines.push(LoadLine::Records(records));
    lines.push(LoadLine::Packets(tally.packets));
    lines.push(LoadLine::Eras(tally.eras));
    for row in tally.rules.as_slice() {
        lines.push(LoadLine::Rule {
            rule: row.rule,
            count: row.count,
        });
    }
    lines.push(LoadLine::End);
    lines
}

// Writes the lines, and flushes the report.
fn put_lines<R: Sink>(lines: &[LoadLine], report: &mut R) -> Result<(), Failed>
    ensures octets { Puts (R.held report.old) (R.held report.new) result (flat_map load_text lines.now) }
    ensures cause { HasCause (R.fault_count report.old) (R.fault_count report.new) result }
{
    for line in lines {
        let mut text = [0u8; 64];
        let size = load_line(*line, &mut text);
        report.put(&text[..size])?;
    }
    report.flush()
}
