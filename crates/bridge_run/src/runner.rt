//! The run over a capture.
ghost use Rattle.std.specs.Prelude.{◌≡◌, ◌⊎◌, ◌≤◌, [], length, map, option_map, string_bytes, vec_len, IfOk, IfErr, IfSome, OnOk};
ghost use Rattle.edge_io.specs.FaultCounts.{Rose};
ghost use Rattle.norm_settings.specs.SettingValues.{plain_settings, AreInRange, GoTogether};
ghost use Rattle.both_sides.specs.Outputs.{heading};
ghost use Rattle.both_sides.specs.RelayState.{StandsForRun, settings_of};
ghost use Rattle.both_sides.specs.RunTraces.{empty_run};
ghost use Rattle.both_sides.specs.Sinks.{sinks_of};
ghost use Rattle.bridge_run.specs.RunMoments.{moment_of};
ghost use Rattle.bridge_run.specs.RunMoments as moments;
ghost use Rattle.bridge_run.specs.working.PartEnds as ends;
ghost use Rattle.bridge_run.specs.StoppedRun as stopped;
ghost use Rattle.bridge_run.specs.StopReasons as stops;
ghost use Rattle.bridge_run.specs.RunContract as spec;
ghost use Rattle.bridge_run.specs.StatusMeanings.{UnderWords};
ghost use Rattle.wire_base.specs.declared.limits.TheConstants.{MAX_CAPTURED};

use crate::load::run_load;
use crate::stop::{
    Stop, stop_at_capture, stop_at_fault, stop_at_sink, stop_at_too_many, tell_memory, tell_stop,
    tell_words,
};
use both_sides::Relay;
use both_sides::laws::{runs_are_written_soundly, runs_go_on, runs_invent_nothing};
use capture_input::Input;
use capture_input::laws::{
    fault_excludes_end, fault_is_one, head_stops_are_faults, nothing_is_left, stops_are_faults,
    whole_is_input,
};
use edge_io::{NoMemory, Sink, Source};
use norm_settings::{Command, Settings, WordFault, read_words};
use pcap_file::write_head;
use rule_book::{Last, last_line};
use std::alloc::Global;
use wire_base::MAX_CAPTURED;

/// Normalizes a capture as the words request, or judges the load that they request, writes the
/// report, and returns the status:
///
/// - 0 if the source was read to its end, or the load was judged;
/// - 2 for invalid arguments;
/// - 3 for a fault of the head or of a block, a captured length above 262,144 octets, or a record
///   or block after 2^32 - 1 others. Also for a record after 2^31 - 1 others if both sides are
///   protected, or a classic file with a head that is accepted, if the words name the interface on
///   the inside;
/// - 4 for a capture that ends inside its head, a record or a block;
/// - 5, 6 and 7 for a fault of the source, of the capture sink and of the report sink;
/// - 8 if memory could not be allocated for the words or at opening.
///
/// The words do not contain the program's own name. Nothing is read before they are accepted, a
/// fault stops the run, and what was written before it stays. A load touches neither the source nor
/// the capture; its statuses are 0, 7 and 8.
///
/// The report's last line at 3 to 6 and 8 is `stop KIND O`. O is the offset in octets of the head,
/// record or block, or after the newest record if a flush between records or at the
/// end fails.
pub fn run<S: Source, K: Sink, R: Sink>(
    alloc: Global,
    words: &[String],
    source: &mut S,
    capture: &mut K,
    report: &mut R,
) -> u8
    ensures finished { result ≡ 0 → spec.Finished (map string_bytes words.now)
        (S.left source.old) (S.left source.new) (K.held capture.old) (K.held capture.new)
        (R.held report.old) (R.held report.new) }

    // The state at the return: what was taken from the source and given to the sinks, by the lawful
    // run over the records that were judged.
    ensures stopped { let before = moment_of (S.left source.old) (S.fault_count source.old) (K.held capture.old) (K.fault_count capture.old) (R.held report.old) (R.fault_count report.old) in
        let now = moment_of (S.left source.new) (S.fault_count source.new) (K.held capture.new) (K.fault_count capture.new) (R.held report.new) (R.fault_count report.new) in
        stopped.Stopped (map string_bytes words.now) result before now }
    ensures no_fault { let before = moment_of (S.left source.old) (S.fault_count source.old) (K.held capture.old) (K.fault_count capture.old) (R.held report.old) (R.fault_count report.old) in
        let now = moment_of (S.left source.new) (S.fault_count source.new) (K.held capture.new) (K.fault_count capture.new) (R.held report.new) (R.fault_count report.new) in
        result ≡ 0 → moments.NoneRose before now }

    // The status is 2 for invalid arguments, and 8 if memory could not be allocated; then only the
    // report is touched, by one line.
    ensures refused { result ≡ 2 → spec.Refused (map string_bytes words.now)
        (R.held report.old) (R.held report.new) (R.fault_count report.old) (R.fault_count report.new) }
    ensures refused_exactly { spec.IsRefused (map string_bytes words.now) → (result ≡ 2) ⊎ (result ≡ 8) }

    ensures memory { result ≡ 8 → stops.Told (R.held report.old) (R.held report.new)
        (R.fault_count report.old) (R.fault_count report.new) stops.memory_line }
    ensures source_untouched { (result ≡ 2) ⊎ (result ≡ 8) → source.new ≡ source.old }
    ensures capture_untouched { (result ≡ 2) ⊎ (result ≡ 8) → capture.new ≡ capture.old }

    // A load leaves the source and the capture unchanged, and finishes unless the report fails or
    // memory cannot be allocated.
    ensures load_source { spec.IsLoad (map string_bytes words.now) → source.new ≡ source.old }
    ensures load_capture { spec.IsLoad (map string_bytes words.now) → capture.new ≡ capture.old }
    ensures load_complete { spec.IsLoad (map string_bytes words.now) → (result ≡ 0) ⊎ (7 ≤ result) }

    // Statuses 3 and 4 describe the octets of the source; at 5 to 7 a fault count rose.
    ensures faulty { result ≡ 3 → UnderWords (map string_bytes words.now) (λ settings. stops.WasFaulty settings (S.left source.old)) }
    ensures cut { result ≡ 4 → UnderWords (map string_bytes words.now) (λ settings. stops.WasCut settings (S.left source.old)) }
    ensures read { result ≡ 5 → Rose (S.fault_count source.old) (S.fault_count source.new) }
    ensures capture { result ≡ 6 → Rose (K.fault_count capture.old) (K.fault_count capture.new) }
    ensures report { result ≡ 7 → Rose (R.fault_count report.old) (R.fault_count report.new) }

    // Known octets of the source determine the status, unless a fault count rises or memory cannot
    // be allocated.
    ensures faulty_exactly { UnderWords (map string_bytes words.now) (λ settings. stops.IsFaulty settings (S.left source.old))
        → (result ≡ 3) ⊎ (5 ≤ result) }
    ensures cut_exactly { UnderWords (map string_bytes words.now) (λ settings. stops.IsCutShort settings (S.left source.old))
        → (result ≡ 4) ⊎ (5 ≤ result) }
    ensures complete { UnderWords (map string_bytes words.now) (λ settings. stops.IsWhole settings (S.left source.old))
        → (result ≡ 0) ⊎ (5 ≤ result) }

    // At 7 the source is as it was, or, if its octets are known, a head was taken.
    ensures untouched_or_opened { result ≡ 7 → (source.new ≡ source.old)
        ⊎ UnderWords (map string_bytes words.now) (λ settings. stops.TookHead settings (S.left source.old) (S.left source.new)) }

    ensures known { (result ≡ 0) ⊎ ((2 ≤ result) × (result ≤ 8)) }
    ensures source_later { S.fault_count source.old ≤ S.fault_count source.new }
    ensures capture_later { K.fault_count capture.old ≤ K.fault_count capture.new }
    ensures report_later { R.fault_count report.old ≤ R.fault_count report.new }
{
    let command = match read_words(alloc, words) {
        Ok(command) => command,
        Err(WordFault::NoMemory) => {
            tell_memory(report);
            return 8;
        }
        Err(fault) => {
            tell_words(&fault, report);
            return 2;
        }
    };
    match command {
        Command::Run {
            names: _names,
            settings,
        } => run_capture(alloc, &settings, source, capture, report),
        Command::Load { seed, count } => run_load(alloc, seed, count, report),
    }
}

/// Normalizes a capture under these settings, writes the report, and returns the status as `run`
/// does; 2 is not returned. Each number of the settings is in the range of its option. If both
/// sides are protected, the settings have no exchanged sides, no interface on the inside and no
/// MTU. The memory of the run is allocated first: the buffer of one record and the relay.
pub fn run_capture<S: Source, K: Sink, R: Sink>(
    alloc: Global,
    settings: &Settings,
    source: &mut S,
    capture: &mut K,
    report: &mut R,
) -> u8
    requires range { AreInRange (plain_settings settings.now) }
    requires together { GoTogether (plain_settings settings.now) }
    ensures stopped { let before = moment_of (S.left source.old) (S.fault_count source.old) (K.held capture.old) (K.fault_count capture.old) (R.held report.old) (R.fault_count report.old) in
        let now = moment_of (S.left source.new) (S.fault_count source.new) (K.held capture.new) (K.fault_count capture.new) (R.held report.new) (R.fault_count report.new) in
        stopped.StoppedUnder (plain_settings settings.now) result before now }
    ensures no_fault { let before = moment_of (S.left source.old) (S.fault_count source.old) (K.held capture.old) (K.fault_count capture.old) (R.held report.old) (R.fault_count report.old) in
        let now = moment_of (S.left source.new) (S.fault_count source.new) (K.held capture.new) (K.fault_count capture.new) (R.held report.new) (R.fault_count report.new) in
        result ≡ 0 → moments.NoneRose before now }
    ensures memory { result ≡ 8 → stops.Told (R.held report.old) (R.held report.new)
        (R.fault_count report.old) (R.fault_count report.new) stops.memory_line }
    ensures source_untouched { result ≡ 8 → source.new ≡ source.old }
    ensures capture_untouched { result ≡ 8 → capture.new ≡ capture.old }
    ensures finished { result ≡ 0 → spec.Normalized (plain_settings settings.now)
        (S.left source.old) (S.left source.new) (K.held capture.old) (K.held capture.new)
        (R.held report.old) (R.held report.new) }
    ensures faulty { result ≡ 3 → stops.WasFaulty (plain_settings settings.now) (S.left source.old) }
    ensures cut { result ≡ 4 → stops.WasCut (plain_settings settings.now) (S.left source.old) }
    ensures read { result ≡ 5 → Rose (S.fault_count source.old) (S.fault_count source.new) }
    ensures capture { result ≡ 6 → Rose (K.fault_count capture.old) (K.fault_count capture.new) }
    ensures report { result ≡ 7 → Rose (R.fault_count report.old) (R.fault_count report.new) }
    ensures faulty_exactly { stops.IsFaulty (plain_settings settings.now) (S.left source.old) → (result ≡ 3) ⊎ (5 ≤ result) }
    ensures cut_exactly { stops.IsCutShort (plain_settings settings.now) (S.left source.old) → (result ≡ 4) ⊎ (5 ≤ result) }
    ensures complete { stops.IsWhole (plain_settings settings.now) (S.left source.old) → (result ≡ 0) ⊎ (5 ≤ result) }
    ensures untouched_or_opened { result ≡ 7 → (source.new ≡ source.old) ⊎ stops.TookHead (plain_settings settings.now) (S.left source.old) (S.left source.new) }
    ensures known { (result ≡ 0) ⊎ ((3 ≤ result) × (result ≤ 8)) }
    ensures source_later { S.fault_count source.old ≤ S.fault_count source.new }
    ensures capture_later { K.fault_count capture.old ≤ K.fault_count capture.new }
    ensures report_later { R.fault_count report.old ≤ R.fault_count report.new }
{
    fault_is_one();
    fault_excludes_end();
    head_stops_are_faults();
    stops_are_faults();
    nothing_is_left();
    let Ok(ended) = normalize_in_room(alloc, settings, source, capture, report) else {
        tell_memory(report);
        return 8;
    };
    let Err(stop) = ended else {
        return 0;
    };
    tell_stop(stop, capture, report);
    stop.status()
}

// Allocates the memory of a run, and normalizes the capture in it. No other function frees this
// memory.
fn normalize_in_room<S: Source, K: Sink, R: Sink>(
    alloc: Global,
    settings: &Settings,
    source: &mut S,
    capture: &mut K,
    report: &mut R,
) -> Result<Result<(), Stop>, NoMemory>
    requires range { AreInRange (plain_settings settings.now) }
    requires together { GoTogether (plain_settings settings.now) }
    ensures ends { let before = moment_of (S.left source.old) (S.fault_count source.old) (K.held capture.old) (K.fault_count capture.old) (R.held report.old) (R.fault_count report.old) in
        let now = moment_of (S.left source.new) (S.fault_count source.new) (K.held capture.new) (K.fault_count capture.new) (R.held report.new) (R.fault_count report.new) in
        IfOk result (λ ended. ends.Ends (plain_settings settings.now) ended before now) }
    ensures opened { IfOk result (λ ended. IfErr ended (λ stop. stops.status_of stop ≡ 7
        → (source.new ≡ source.old) ⊎ stops.TookHead (plain_settings settings.now) (S.left source.old) (S.left source.new))) }
    ensures source_stays { IfErr result (λ fault. source.new ≡ source.old) }
    ensures capture_stays { IfErr result (λ fault. capture.new ≡ capture.old) }
    ensures report_stays { IfErr result (λ fault. report.new ≡ report.old) }
    ensures source_later { S.fault_count source.old ≤ S.fault_count source.new }
    ensures capture_later { K.fault_count capture.old ≤ K.fault_count capture.new }
    ensures report_later { R.fault_count report.old ≤ R.fault_count report.new }
{
    let (mut buffer, mut relay) = take_room(alloc, settings)?;
    let ended = normalize(&mut relay, settings, &mut buffer, source, capture, report);
    Ok(ended)
}

// Allocates the memory of a run: the buffer of one record, and the relay.
fn take_room(alloc: Global, settings: &Settings) -> Result<(Vec<u8>, Relay), NoMemory>
    requires range { AreInRange (plain_settings settings.now) }
    requires together { GoTogether (plain_settings settings.now) }
    ensures buffer { IfOk result (λ room. vec_len room.0 ≡ MAX_CAPTURED) }
    ensures stands { IfOk result (λ room. StandsForRun room.1 (empty_run (plain_settings settings.now).both)) }
    ensures settings { IfOk result (λ room. settings_of room.1 ≡ plain_settings settings.now) }
{
    let buffer = vec![in alloc; 0u8; MAX_CAPTURED as usize]?;
    let relay = Relay::open(alloc, settings.copied())?;
    Ok((buffer, relay))
}

// Judges every record of the capture, writes the frames and the report, and flushes the sinks: at
// the end, and before each record if the source may wait.
fn normalize<S: Source, K: Sink, R: Sink>(
    relay: &mut Relay,
    settings: &Settings,
    buffer: &mut [u8],
    source: &mut S,
    capture: &mut K,
    report: &mut R,
) -> Result<(), Stop>
    requires stands { StandsForRun relay.old (empty_run (plain_settings settings.now).both) }
    requires settings { settings_of relay.old ≡ plain_settings settings.now }
    requires range { AreInRange (plain_settings settings.now) }
    requires together { GoTogether (plain_settings settings.now) }
    requires room { MAX_CAPTURED ≤ length buffer.old }
    ensures ends { let before = moment_of (S.left source.old) (S.fault_count source.old) (K.held capture.old) (K.fault_count capture.old) (R.held report.old) (R.fault_count report.old) in
        let now = moment_of (S.left source.new) (S.fault_count source.new) (K.held capture.new) (K.fault_count capture.new) (R.held report.new) (R.fault_count report.new) in
        ends.Ends (plain_settings settings.now) result before now }
    ensures opened { IfErr result (λ stop. stops.status_of stop ≡ 7
        → (source.new ≡ source.old) ⊎ stops.TookHead (plain_settings settings.now) (S.left source.old) (S.left source.new)) }
    ensures source_later { S.fault_count source.old ≤ S.fault_count source.new }
    ensures capture_later { K.fault_count capture.old ≤ K.fault_count capture.new }
    ensures report_later { R.fault_count report.old ≤ R.fault_count report.new }
{
    runs_go_on();
    runs_are_written_soundly();
    runs_invent_nothing();
    whole_is_input();
    let mut input = begin(settings, source, capture, report)?;
    let head = input.head();
    relay.set_link(head.link);
    let mut frames = 0u64;
    'records: loop {
        hand_on(source, input.place(), capture, report)?;
        let record = match input.next(source, buffer) {
            Ok(Some(record)) => record,
            Ok(None) => break,
            Err(fault) => return Err(stop_at_fault(fault, input.offset())),
        };
        if relay.is_full() {
            return Err(stop_at_too_many(record.offset));
        }
        match relay.relay(&head, &record, capture, report) {
            Ok(count) => frames += count,
            Err(fault) => return Err(stop_at_sink(fault, record.offset)),
        }
    }
    finish(relay.records(), frames, input.offset(), capture, report)
}

// Returns the name of the interface on the inside, if one is given.
fn inside_of(settings: &Settings) -> Option<&[u8]>
    ensures name { option_map (λ name. name.now) result ≡ (plain_settings settings.now).inside }
    ensures small { IfSome result (λ name. length name.now ≤ 64) }
{
    match &settings.inside {
        Some(name) => Some(name.as_slice()),
        None => None,
    }
}

// Returns the first line of the report.
fn first_line(both: bool) -> &'static [u8]
    ensures { result.now ≡ heading both }
{
    if both { b"norm 2 both\n" } else { b"norm 2\n" }
}

// Writes the first line of the report, reads the head, and writes it.
fn begin<S: Source, K: Sink, R: Sink>(
    settings: &Settings,
    source: &mut S,
    capture: &mut K,
    report: &mut R,
) -> Result<Input, Stop>
    ensures begins { let before = moment_of (S.left source.old) (S.fault_count source.old) (K.held capture.old) (K.fault_count capture.old) (R.held report.old) (R.fault_count report.old) in
        let now = moment_of (S.left source.new) (S.fault_count source.new) (K.held capture.new) (K.fault_count capture.new) (R.held report.new) (R.fault_count report.new) in
        ends.Begins (plain_settings settings.now) result before now }
    ensures untouched { IfErr result (λ stop. stops.status_of stop ≡ 7 → source.new ≡ source.old) }
    ensures source_later { S.fault_count source.old ≤ S.fault_count source.new }
    ensures capture_later { K.fault_count capture.old ≤ K.fault_count capture.new }
    ensures report_later { R.fault_count report.old ≤ R.fault_count report.new }
{
    if report.put(first_line(settings.both)).is_err() {
        return Err(Stop::Report);
    }
    let input = match Input::open(inside_of(settings), source) {
        Ok(input) => input,
        Err(stop) => return Err(stop_at_fault(stop.fault, stop.offset)),
    };
    if write_head(capture, &input.head()).is_err() {
        return Err(stop_at_capture(0));
    }
    Ok(input)
}

// Flushes the frames, and then the report, if the source may wait.
fn hand_on<S: Source, K: Sink, R: Sink>(
    source: &S,
    place: u64,
    capture: &mut K,
    report: &mut R,
) -> Result<(), Stop>
    ensures hands { ends.HandsOver place result
        (sinks_of (K.held capture.old) (K.fault_count capture.old) (R.held report.old) (R.fault_count report.old))
        (sinks_of (K.held capture.new) (K.fault_count capture.new) (R.held report.new) (R.fault_count report.new)) }
    ensures capture_later { K.fault_count capture.old ≤ K.fault_count capture.new }
    ensures report_later { R.fault_count report.old ≤ R.fault_count report.new }
{
    if !source.may_wait() {
        return Ok(());
    }
    if capture.flush().is_err() {
        return Err(stop_at_capture(place));
    }
    if report.flush().is_err() {
        return Err(Stop::Report);
    }
    Ok(())
}

// Flushes the frames, writes the last line, and flushes the report.
fn finish<K: Sink, R: Sink>(
    records: u32,
    frames: u64,
    place: u64,
    capture: &mut K,
    report: &mut R,
) -> Result<(), Stop>
    ensures closes { ends.Closes records frames place result
        (sinks_of (K.held capture.old) (K.fault_count capture.old) (R.held report.old) (R.fault_count report.old))
        (sinks_of (K.held capture.new) (K.fault_count capture.new) (R.held report.new) (R.fault_count report.new)) }
    ensures capture_later { K.fault_count capture.old ≤ K.fault_count capture.new }
    ensures report_later { R.fault_count report.old ≤ R.fault_count report.new }
{
    if capture.flush().is_err() {
        return Err(stop_at_capture(place));
    }
    let end = Last::End {
        records,
        packets: frames,
    };
    let mut line = [0u8; 64];
    let size = last_line(&end, &mut line);
    if report.put(&line[..size]).is_err() {
        return Err(Stop::Report);
    }
    if report.flush().is_err() {
        return Err(Stop::Report);
    }
    Ok(())
}
