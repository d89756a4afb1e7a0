//! The relay: judges each record of a capture, and writes its frames and its lines.
ghost use Rattle.std.specs.Prelude.{◌≡◌, ◌++◌, IfSome, option_map};
ghost use Rattle.edge_io.specs.FaultCounts.{HasCause};
ghost use Rattle.edge_io.specs.KnownOctets.{Puts};
ghost use Rattle.rule_book.specs.Entries.{plain, IsOfVersion};
ghost use Rattle.rule_book.specs.Text.{entry_text};
ghost use Rattle.both_sides.specs.working.FrameAnswers.{line_for};

use crate::RelayFault;
use crate::engines::Engines;
use crate::one_engine::relay_one;
use crate::room::Room;
use crate::two_engines::relay_two;
use edge_io::{Failed, NoMemory, Sink};
use norm_settings::Settings;
use pcap_file::{Head, Record};
use rule_book::{Entry, entry_line};
use std::alloc::Global;
use std::marker::Model;
use wire_base::Link;

/// Length of the buffer for a line, in octets.
pub const LINE: usize = 400;

/// Judges the records of a capture, one after another, and writes the output for each. Allocates
/// all its memory when it is opened.
#[derive(Drop)]
pub struct Relay {
    engines: Engines,
    room: Room,
}

impl Model for Relay {
    ghost use Rattle.both_sides.specs.declared.engines.Engines.{Engines};
    ghost use Rattle.both_sides.specs.working.RelayState.{IsKept};

    ghost Value = { Engines };

    ghost view = { λ r. r.engines };

    ghost invariant = { λ r. IsKept r.engines r.room.mtu };
}

impl Relay {
    ghost use Rattle.std.specs.Prelude.{◌≡◌, ◌≤◌, false, IfOk};
    ghost use Rattle.wire_base.specs.declared.address.Link.TheVariants.{Raw};
    ghost use Rattle.pcap_file.specs.RecordReading.{shown};
    ghost use Rattle.norm_settings.specs.SettingValues.{plain_settings, AreInRange, GoTogether};
    ghost use Rattle.both_sides.specs.RecordOutputs.{next_put};
    ghost use Rattle.both_sides.specs.RelayState.{StandsForRun, is_full_of, link_of, records_of, settings_of};
    ghost use Rattle.both_sides.specs.RunTraces.{RunHasOctets, RunTrace, empty_run, next_run};
    ghost use Rattle.both_sides.specs.Sinks.{sinks_of};
    ghost use Rattle.both_sides.specs.WrittenRecord.{IsWritten};

    /// Creates a relay for records of a raw link, before the first of them, with one engine, or
    /// with two if both sides are protected.
    pub fn open(alloc: Global, settings: Settings) -> Result<Relay, NoMemory>
        requires range { AreInRange (plain_settings settings) }
        requires together { GoTogether (plain_settings settings) }
        ensures settings { IfOk result (λ relay. settings_of relay ≡ plain_settings settings) }
        ensures link { IfOk result (λ relay. link_of relay ≡ Raw) }
        ensures stands { IfOk result (λ relay. StandsForRun relay (empty_run settings.both)) }
    {
        let room = Room::open(alloc, settings.mtu)?;
        let engines = Engines::open(alloc, settings)?;
        Ok(Relay { engines, room })
    }

    /// Sets the link type of the records. No record may precede this call.
    pub fn set_link(&mut self, link: Link)
        requires { records_of self.old ≡ 0 }
        ensures link { link_of self.new ≡ link }
        ensures settings { settings_of self.new ≡ settings_of self.old }
        ensures stands { StandsForRun self.old (empty_run (settings_of self.old).both) → StandsForRun self.new (empty_run (settings_of self.old).both) }
    {
        match &mut self.engines {
            Engines::One(engine) => engine.set_link(link),
            Engines::Two(both) => both.set_link(link),
        }
    }

    /// Returns the number of records so far.
    pub fn records(&self) -> u32
        ensures { result ≡ records_of self.now }
    {
        match &self.engines {
            Engines::One(engine) => engine.records(),
            Engines::Two(both) => both.records(),
        }
    }

    /// Returns whether the number of records is the greatest: 2^32 - 1, or 2^31 - 1 if both sides
    /// are protected.
    pub fn is_full(&self) -> bool
        ensures { result ≡ is_full_of self.now }
    {
        let most = match &self.engines {
            Engines::One(_) => u32::MAX,
            Engines::Two(_) => u32::MAX / 2,
        };
        self.records() >= most
    }

    /// Judges one record, writes all its frames and then its lines, and returns the number of
    /// frames written. Allocates no memory.
    pub fn relay<K: Sink, R: Sink>(
        &mut self,
        head: &Head,
        input: &Record<'_>,
        capture: &mut K,
        report: &mut R,
    ) -> Result<u64, RelayFault>
        requires room { is_full_of self.old ≡ false }
        requires link { link_of self.old ≡ head.now.link }
        ensures written { (run : RunTrace) → StandsForRun self.old run →
            let before = sinks_of (K.held capture.old) (K.fault_count capture.old) (R.held report.old) (R.fault_count report.old) in
            let now = sinks_of (K.held capture.new) (K.fault_count capture.new) (R.held report.new) (R.fault_count report.new) in
            IsWritten head.now.order (next_put (settings_of self.old) (link_of self.old) run (shown input.now)) result before now }
        ensures stands { (run : RunTrace) → StandsForRun self.old run →
            StandsForRun self.new (next_run (settings_of self.old) (link_of self.old) run (shown input.now)) }
        ensures octets { (run : RunTrace) → StandsForRun self.old run → RunHasOctets (settings_of self.old) run →
            RunHasOctets (settings_of self.old) (next_run (settings_of self.old) (link_of self.old) run (shown input.now)) }
        ensures settings { settings_of self.new ≡ settings_of self.old }
        ensures link { link_of self.new ≡ link_of self.old }
        ensures capture_later { K.fault_count capture.old ≤ K.fault_count capture.new }
        ensures report_later { R.fault_count report.old ≤ R.fault_count report.new }
    {
        match &mut self.engines {
            Engines::One(engine) => {
                relay_one(engine, &mut self.room, head, input, capture, report)
            }
            Engines::Two(both) => relay_two(both, &mut self.room, head, input, capture, report),
        }
    }
}

/// Writes the line of an entry.
pub fn write_line<R: Sink>(
    entry: &Entry,
    line: &mut [u8; LINE],
    report: &mut R,
) -> Result<(), Failed>
    requires { IsOfVersion 2 (plain entry.now) }
    ensures octets { Puts (R.held report.old) (R.held report.new) result (entry_text (plain entry.now)) }
    ensures cause { HasCause (R.fault_count report.old) (R.fault_count report.new) result }
{
    let size = entry_line(entry, &mut line[..]);
    report.put(&line[..size])
}

/// Writes the line of the second engine, if it answered: that of its entry after `/`.
pub fn write_answer<R: Sink>(answer: &Option<Entry>, report: &mut R) -> Result<(), Failed>
    requires { IfSome (option_map plain answer.now) (IsOfVersion 2) }
    ensures octets { Puts (R.held report.old) (R.held report.new) result (line_for (option_map plain answer.now)) }
    ensures cause { HasCause (R.fault_count report.old) (R.fault_count report.new) result }
{
    let Some(entry) = answer else {
        return Ok(());
    };
    let mut line = [0u8; LINE + 1];
    line[0] = b'/';
    let size = entry_line(entry, &mut line[1..]);
    report.put(&line[..size + 1])
}
