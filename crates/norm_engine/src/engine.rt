//! The engine: each record of a capture is one step, which returns the record's entry.
ghost use Rattle.std.specs.Prelude.{◌≡◌, None, []};
ghost use Rattle.rule_book.specs.Entries.{plain};
ghost use Rattle.tcp_codec.specs.declared.header.Tcp.{Tcp};
ghost use Rattle.norm_engine.specs.working.RecordJudgment.{judgment_of};
ghost use Rattle.norm_engine.specs.EngineState as spec;
ghost use Rattle.norm_engine.specs.working.EngineAnswers as working;

use crate::judge::{Decision, Parsed, judge};
use crate::send::send;
use arrayvec::ArrayVec;
use edge_io::{NoMemory, Outbox};
use ip_rules::IpPacket;
use ip_rules::write::put_read;
use norm_settings::Settings;
use pcap_file::Record;
use reassembly::Assembly;
use rule_book::{Entry, Rule, Verdict};
use std::alloc::Global;
use std::marker::Model;
use std::mem::swap;
use tcp_norm::TcpNorm;
use tcp_norm::laws::packets_are_its_own;
use wire_base::{Link, MAX_PAYLOAD, Side, link_octets};

/// Judges the records of a capture, one after another. Allocates all its memory when it is opened.
#[derive(Drop)]
pub struct Engine {
    settings: Settings,
    link: Link,
    records: u32,
    /// Greatest time of the records so far, in seconds.
    latest: u32,
    /// Connections.
    norm: TcpNorm,
    /// Datagrams with held fragments.
    pieces: Assembly,
    /// Buffer for the datagram that fragments make.
    whole: Box<[u8; MAX_PAYLOAD]>,
    /// Buffer for a payload whose checksum is corrected.
    scratch: Vec<u8>,
}

impl Model for Engine {
    ghost use Rattle.std.specs.Prelude.{◌≡◌, vec_len};
    ghost use Rattle.norm_settings.specs.SettingValues.{plain_settings, AreInRange};
    ghost use Rattle.norm_engine.specs.EngineState.{Engaged};
    ghost use Rattle.norm_engine.specs.working.EngineAnswers.{Kept};
    ghost use Rattle.wire_base.specs.declared.limits.TheConstants.{MAX_PAYLOAD};

    ghost Value = { Engaged };

    ghost view = { λ e. record { settings = plain_settings e.settings; link = e.link; records = e.records; latest = e.latest; norm = e.norm; pieces = e.pieces } };

    ghost invariant = { λ e. AreInRange (plain_settings e.settings) × (vec_len e.scratch ≡ MAX_PAYLOAD) × ∥ Kept (plain_settings e.settings) e.norm e.pieces e.records e.latest ∥₁ };
}

impl Engine {
    ghost use Rattle.std.specs.Prelude.{◌≡◌, ◌<◌, ◌≤◌, ◌-◌, ◌^◌, true, List, [], ◌∷◌, length, IfOk};
    ghost use Rattle.wire_base.specs.declared.address.Link.TheVariants.{Raw};
    ghost use Rattle.norm_settings.specs.SettingValues.{plain_settings, AreInRange};
    ghost use Rattle.pcap_file.specs.RecordReading.{shown};
    ghost use Rattle.tcp_norm.specs.Calls.{eras};
    ghost use Rattle.tcp_norm.specs.HeldOctets.{held_all};
    ghost use Rattle.reassembly.specs.Calls.{gathered, cells_in};
    ghost use Rattle.norm_engine.specs.Items.{Item};
    ghost use Rattle.norm_engine.specs.Fragments.{piece_calls};
    ghost use Rattle.norm_engine.specs.Calls.{flow_calls};
    ghost use Rattle.norm_engine.specs.Trace.{item_of};
    ghost use Rattle.norm_engine.specs.EngineState.{StandsFor, frames_given};
    ghost use Rattle.wire_base.specs.declared.limits.TheConstants.{MAX_FRAME};

    /// Creates an engine for records of a raw link, before the first of them.
    pub fn open(alloc: Global, settings: Settings) -> Result<Engine, NoMemory>
        requires { AreInRange (plain_settings settings) }
        ensures settings { IfOk result (λ engine. engine.settings ≡ plain_settings settings) }
        ensures link { IfOk result (λ engine. engine.link ≡ Raw) }
        ensures stands { IfOk result (λ engine. StandsFor engine []) }
    {
        let whole = Box::new(alloc, [0u8; MAX_PAYLOAD])?;
        let scratch = vec![in alloc; 0u8; MAX_PAYLOAD]?;
        let pieces = Assembly::open(alloc, &settings)?;
        let norm = TcpNorm::open(alloc, &settings)?;
        Ok(Engine {
            settings,
            link: Link::Raw,
            records: 0,
            latest: 0,
            norm,
            pieces,
            whole,
            scratch,
        })
    }

    /// Sets the link type of the records. No record may precede this call.
    pub fn set_link(&mut self, link: Link)
        requires { self.old.records ≡ 0 }
        ensures { self.new ≡ record self.old { link = link } }
    {
        self.link = link;
    }

    /// Returns the number of records so far.
    pub fn records(&self) -> u32
        ensures { result ≡ self.now.records }
    {
        self.records
    }

    /// Returns the number of live eras.
    pub fn flows(&self) -> u32
        ensures number { (history : List Item) → StandsFor self.now history →
            result ≡ length (eras (flow_calls self.now.settings self.now.link history)) }
        ensures bounded { result ≤ self.now.settings.flows }
    {
        self.norm.flows()
    }

    /// Returns the number of cells that hold octets of live eras.
    pub fn held(&self) -> u32
        ensures number { (history : List Item) → StandsFor self.now history →
            result ≡ held_all (flow_calls self.now.settings self.now.link history) }
        ensures bounded { result ≤ self.now.settings.cells }
    {
        self.norm.held()
    }

    /// Returns the number of datagrams with held fragments.
    pub fn datagrams(&self) -> u32
        ensures number { (history : List Item) → StandsFor self.now history →
            result ≡ length (gathered self.now.settings.frag_time (piece_calls self.now.settings self.now.link history)) }
        ensures bounded { result ≤ self.now.settings.frags }
    {
        self.pieces.datagrams()
    }

    /// Returns the number of cells that hold octets of fragments.
    pub fn frag_cells(&self) -> u32
        ensures number { (history : List Item) → StandsFor self.now history →
            result ≡ cells_in (gathered self.now.settings.frag_time (piece_calls self.now.settings self.now.link history)) }
        ensures bounded { result ≤ self.now.settings.frag_cells }
    {
        self.pieces.cells()
    }

    /// Returns the entry of this record after all before it, and replaces the frames in the outbox
    /// by its frames. Allocates no memory.
    pub fn step(&mut self, input: &Record<'_>, out: &mut Outbox) -> Entry
        requires { self.old.records < 2 ^ 32 - 1 }
        ensures settings { self.new.settings ≡ self.old.settings }
        ensures link { self.new.link ≡ self.old.link }
        ensures entry { (history : List Item) → StandsFor self.old history →
            plain result ≡ (item_of self.old.settings self.old.link history (shown input.now)).entry }
        ensures frames { (history : List Item) → StandsFor self.old history →
            out.new ≡ (item_of self.old.settings self.old.link history (shown input.now)).frames }
        ensures stands { (history : List Item) → StandsFor self.old history →
            StandsFor self.new (item_of self.old.settings self.old.link history (shown input.now) ∷ history) }
    {
        let mut entry = blank_entry();
        if self.step_into(input, out, &mut entry) {
            put_read(input.bytes, out);
        }
        entry
    }

    /// Fills the entry of this record after all before it, and replaces the frames in the outbox by
    /// its frames. Returns true only if its one frame is the record as it was read; the outbox is
    /// then empty. Allocates no memory.
    // It is inlined into the loop over records, with the functions that a record passes up to its
    // segment or fragment, so that no registers are saved for a record. The compiler inlines none
    // of them without the attribute, since `step` has a copy too.
    #[inline(always)]
    pub fn step_into(&mut self, input: &Record<'_>, out: &mut Outbox, entry: &mut Entry) -> bool
        requires { self.old.records < 2 ^ 32 - 1 }
        ensures settings { self.new.settings ≡ self.old.settings }
        ensures link { self.new.link ≡ self.old.link }
        ensures entry { (history : List Item) → StandsFor self.old history →
            plain entry.new ≡ (item_of self.old.settings self.old.link history (shown input.now)).entry }
        ensures frames { (history : List Item) → StandsFor self.old history →
            frames_given result input.now.bytes.now out.new ≡ (item_of self.old.settings self.old.link history (shown input.now)).frames }
        ensures empty { result ≡ true → out.new ≡ [] }
        ensures short { result ≡ true → length input.now.bytes.now ≤ MAX_FRAME }
        ensures stands { (history : List Item) → StandsFor self.old history →
            StandsFor self.new (item_of self.old.settings self.old.link history (shown input.now) ∷ history) }
    {
        // A copy of the record, whose octets live as long as the borrowed buffer.
        let record = Record {
            seconds: input.seconds,
            fraction: input.fraction,
            original: input.original,
            offset: input.offset,
            side: input.side,
            bytes: input.bytes,
        };
        let whole = &mut self.whole[..];
        let mut parsed = Parsed::unread(record.bytes);
        packets_are_its_own();
        out.clear();
        self.latest = self.latest.max(input.seconds);
        self.records += 1;
        renew(entry, self.records);
        self.norm.expire(self.latest, entry);
        let _forgotten = self.pieces.expire(self.latest);
        match judge(
            &self.settings,
            self.link,
            &self.norm,
            &mut self.pieces,
            whole,
            self.latest,
            &record,
            &mut parsed,
        ) {
            Decision::Segment => {
                entry.side = Some(parsed.packet.side);
                let link = link_octets(self.link, input.bytes);
                self.norm.take_into(self.latest, &parsed.packet, link, &parsed.head, out, entry)
            }
            decision => {
                let as_read = send(
                    decision,
                    &parsed.packet,
                    self.settings.hops,
                    self.link,
                    &mut self.scratch,
                    out,
                );
                tell(decision, &mut parsed.packet, entry);
                as_read
            }
        }
    }
}

/// Returns an entry that a step fills.
pub fn blank_entry() -> Entry
    ensures { plain result ≡ spec.entry_written 0 None [] [] }
{
    Entry {
        number: 0,
        side: None,
        verdict: Verdict::Pass,
        packets: 1,
        rules: ArrayVec::new(),
        era: None,
        begun: None,
        ended: ArrayVec::new(),
    }
}

// Makes this the entry of the record with this number, before it is judged.
#[inline(always)]
fn renew(entry: &mut Entry, number: u32)
    ensures { plain entry.new ≡ spec.entry_written number None [] [] }
{
    entry.number = number;
    entry.side = None;
    entry.verdict = Verdict::Pass;
    entry.packets = 1;
    // It is cheaper than `clear`, which writes each rule.
    entry.rules = ArrayVec::new();
    entry.era = None;
    entry.begun = None;
    entry.ended.clear();
}

// Fills the entry of a record with this decision, which is not a segment, and moves the rules of
// its packet there. Its number and the eras that ended stay.
#[inline(always)]
fn tell(decision: Decision, packet: &mut IpPacket<'_>, entry: &mut Entry)
    requires rules { entry.old.rules.items ≡ [] }
    requires era { entry.old.era ≡ None }
    requires begun { entry.old.begun ≡ None }
    ensures { (head : Tcp) → plain entry.new ≡ working.entry_for entry.old.number (judgment_of packet.old head decision) entry.old.ended.items }
{
    match decision {
        Decision::Arp => written(None, entry),
        Decision::Drop(side, rule) => stopped(side, Verdict::Drop, rule, entry),
        Decision::Hold(side) => stopped(Some(side), Verdict::Hold, Rule::FHeld, entry),
        Decision::Send(_) => {
            swap(&mut entry.rules, &mut packet.fixes);
            written(Some(packet.side), entry);
        }
        Decision::Segment => written(Some(packet.side), entry),
    }
}

// Fills the entry of a record that is written, rewritten by its rules.
fn written(side: Option<Side>, entry: &mut Entry)
    requires era { entry.old.era ≡ None }
    requires begun { entry.old.begun ≡ None }
    ensures { plain entry.new ≡ spec.entry_written entry.old.number side entry.old.rules.items entry.old.ended.items }
{
    entry.verdict = if entry.rules.is_empty() {
        Verdict::Pass
    } else {
        Verdict::Fix
    };
    entry.side = side;
    entry.packets = 1;
}

// Fills the entry of a record for which nothing is written, by this rule alone.
fn stopped(side: Option<Side>, verdict: Verdict, rule: Rule, entry: &mut Entry)
    requires rules { entry.old.rules.items ≡ [] }
    requires era { entry.old.era ≡ None }
    requires begun { entry.old.begun ≡ None }
    ensures { plain entry.new ≡ working.entry_stopped entry.old.number side verdict rule entry.old.ended.items }
{
    entry.side = side;
    entry.verdict = verdict;
    entry.packets = 0;
    entry.rules.push(rule);
}
