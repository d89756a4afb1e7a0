//! The gate: an engine, and what is decided of a frame before it.
ghost use Rattle.std.specs.Prelude.{◌≡◌, ◌<◌, ◌-◌, ◌^◌, true, false, None, Some, List, []};
ghost use Rattle.norm_engine.specs.Items.{Item};
ghost use Rattle.live_norm.specs.Live.{Gives, Represents as IsOf};
ghost use Rattle.norm_gate.specs.GateHistory as history;

use crate::arp::{SHORTEST_FRAME, write_crossing};
use crate::laws::{lawful_inward_is_known, lawful_is_not_forged};
use crate::{Arrival, Fate, Frames, Port, fate_of};
use edge_io::NoMemory;
use live_norm::Live;
use live_norm::laws::represented_is_normal;
use norm_settings::Settings;
use pcap_file::Record;
use rule_book::Verdict;
use std::alloc::Global;
use std::marker::Model;
use wire_base::{Link, MAX_FRAME, Side};

/// The answer to a frame.
#[derive(Clone, Copy, Debug, PartialEq, Eq)]
pub struct Answer {
    /// What became of it.
    pub fate: Fate,
    /// Number of records that the engine judged for it.
    pub records: u32,
    /// Verdict on the last of them; Pass if there is none.
    pub verdict: Verdict,
    /// Number of frames that are written for it.
    pub frames: u32,
    /// Port by which they leave; ARP of a capture leaves by none.
    pub port: Option<Port>,
    /// The one frame is the one that arrived, unchanged. The gate has no frame then.
    pub as_read: bool,
}

/// A frame that was written into a buffer.
#[derive(Clone, Copy, Debug, PartialEq, Eq)]
pub struct Written {
    /// Its length in octets.
    pub size: usize,
    /// Port by which it leaves.
    pub port: Option<Port>,
}

/// The engine between two ports. Allocates all its memory when it is opened.
#[derive(Drop)]
pub struct Gate {
    live: Live,
    given: Frames,
    settings: Settings,
    /// The answer to the newest frame.
    newest: Answer,
    /// The frame that crossed, if the newest one did, and its length.
    crossing: [u8; SHORTEST_FRAME],
    size: usize,
}

impl Model for Gate {
    ghost use Rattle.std.specs.Prelude.{take};
    ghost use Rattle.norm_settings.specs.SettingValues.{plain_settings};
    ghost use Rattle.norm_gate.specs.GateState.{Gated, kept_entries, kept_leaving};
    ghost use Rattle.norm_gate.specs.working.KeptFrames.{IsKept};

    ghost Value = { Gated };

    ghost view = { λ g. record { live = g.live; given = g.given; leaving = kept_leaving g.newest g.live (take g.size g.crossing); entries = kept_entries g.newest g.live } };

    ghost invariant = { λ g. IsKept g.newest (plain_settings g.settings) g.given g.live g.size };
}

impl Gate {
    ghost use Rattle.std.specs.Prelude.{◌≡◌, ◌<◌, ◌≤◌, ◌-◌, ◌^◌, true, List, [], length, take, map, Some, slice_get, IfOk};
    ghost use Rattle.norm_settings.specs.SettingValues.{plain_settings, AreInRange};
    ghost use Rattle.rule_book.specs.Text.{entry_text, last_text};
    ghost use Rattle.rule_book.specs.declared.last.Last.TheVariants.{End};
    ghost use Rattle.norm_gate.specs.GateHistory.{Event, event_of};
    ghost use Rattle.norm_gate.specs.GateState.{Follows, Represents, settings_of};
    ghost use Rattle.wire_base.specs.declared.limits.TheConstants.{MAX_FRAME};

    /// Allocates all memory, for frames of this kind.
    pub fn open(alloc: Global, settings: Settings, given: Frames) -> Result<Gate, NoMemory>
        requires { AreInRange (plain_settings settings) }
        ensures settings { IfOk result (λ gate. settings_of gate ≡ plain_settings settings) }
        ensures given { IfOk result (λ gate. gate.given ≡ given) }
        ensures represents { IfOk result (λ gate. Represents gate []) }
    {
        let live = Live::open(alloc, settings.copied(), link_of(given))?;
        Ok(Gate {
            live,
            given,
            settings,
            newest: unjudged(Fate::Unjudged),
            crossing: [0; SHORTEST_FRAME],
            size: 0,
        })
    }

    /// Returns which frames are given to it.
    pub fn given(&self) -> Frames
        ensures { result ≡ self.now.given }
    {
        self.given
    }

    /// Returns the number of records that the engine has judged.
    pub fn records(&self) -> u32
        ensures { result ≡ self.now.live.engine.records }
    {
        self.live.records()
    }

    /// Takes a frame that arrived, and returns the answer to it. Allocates no memory.
    pub fn step(&mut self, arrival: &Arrival, frame: &[u8]) -> Answer
        requires { self.old.live.engine.records < 2 ^ 32 - 1 }
        ensures follows { (history : List Event) → Represents self.old history →
            Follows self.old self.new (event_of self.old.given (settings_of self.old) history arrival.now frame.now) result history }
        ensures empty { result.as_read ≡ true → self.new.leaving ≡ [] }
    {
        represented_is_normal();
        lawful_is_not_forged();
        lawful_inward_is_known();
        let fate = fate_of(self.given, &self.settings, arrival, frame);
        match fate {
            Fate::Judged => {
                let answer = judge(&mut self.live, arrival, frame);
                self.newest = answer;
                answer
            }
            Fate::Crosses => {
                self.size = write_crossing(frame, &mut self.crossing);
                let answer = crossed(arrival.port);
                self.newest = answer;
                answer
            }
            _ => {
                let answer = unjudged(fate);
                self.newest = answer;
                answer
            }
        }
    }

    /// Writes the frame of the newest one at this index, counted from 0, at the front of the
    /// buffer.
    pub fn frame(&self, index: usize, buf: &mut [u8]) -> Written
        requires index { index < length self.now.leaving }
        requires room { MAX_FRAME ≤ length buf.old }
        ensures octets { slice_get self.now.leaving index ≡ Some (record { octets = take result.size buf.new; port = result.port }) }
        ensures short { result.size ≤ MAX_FRAME }
    {
        let port = self.newest.port;
        if self.newest.fate == Fate::Crosses {
            buf[..self.size].copy_from_slice(&self.crossing[..self.size]);
            return Written {
                size: self.size,
                port,
            };
        }
        let size = self.live.frame(index, buf);
        Written { size, port }
    }

    /// Returns the number of the newest frame's records. `line` writes the line of the one at 0.
    pub fn lines(&self) -> u32
        ensures count { result ≡ length self.now.entries }
        ensures most { result ≤ 1 }
    {
        if self.newest.fate == Fate::Judged {
            1
        } else {
            0
        }
    }

    /// Returns the number of frames that `frame` writes: none if the newest one leaves as it
    /// arrived.
    pub fn frames(&self) -> u32
        ensures { result ≡ length self.now.leaving }
    {
        match self.newest.fate {
            Fate::Judged => u32::from(self.live.frame_count()),
            Fate::Crosses => 1,
            _ => 0,
        }
    }

    /// Returns the answer to the newest frame; before the first one that of none.
    pub fn newest(&self) -> Answer
        ensures leaving { result.as_read ≡ true → self.now.leaving ≡ [] }
    {
        self.newest
    }

    /// Writes the line of the newest frame's record, and returns its length in octets.
    pub fn line(&self, buf: &mut [u8]) -> usize
        requires some { 0 < length self.now.entries }
        requires room { 400 ≤ length buf.old }
        ensures text { slice_get (map entry_text self.now.entries) 0 ≡ Some (take result buf.new) }
        ensures short { result ≤ 376 }
    {
        self.live.line(buf)
    }

    /// Writes the last line of the report over all records so far, and returns its length in
    /// octets.
    pub fn last(&self, buf: &mut [u8]) -> usize
        requires { 64 ≤ length buf.old }
        ensures text { take result buf.new ≡ last_text (End self.now.live.engine.records self.now.live.written) }
        ensures short { result ≤ 64 }
    {
        self.live.last(buf)
    }
}

// Returns the link of the frames that are given.
fn link_of(given: Frames) -> Link
    ensures { result ≡ history.link_of given }
{
    match given {
        Frames::Ports => Link::Ethernet,
        Frames::Capture(link) => link,
    }
}

// Judges the record of a frame, and returns the answer to it.
fn judge(live: &mut Live, arrival: &Arrival, frame: &[u8]) -> Answer
    requires { live.old.engine.records < 2 ^ 32 - 1 }
    ensures settings { live.new.engine.settings ≡ live.old.engine.settings }
    ensures link { live.new.engine.link ≡ live.old.engine.link }
    ensures gives { (items : List Item) → IsOf live.old items →
        Gives live.old live.new (history.packet_of arrival.now frame.now) result.as_read items }
    ensures fate { result.fate ≡ Fate.Judged }
    ensures records { result.records ≡ 1 }
    ensures verdict { result.verdict ≡ live.new.entry.verdict }
    ensures frames { result.frames ≡ live.new.entry.packets }
    ensures port { result.port ≡ history.port_of live.new.entry.side }
    ensures empty { result.as_read ≡ true → live.new.frames ≡ [] }
{
    let record = Record::new(
        arrival.seconds,
        arrival.fraction,
        arrival.original,
        0,
        frame,
    );
    let as_read = live.step(&record);
    Answer {
        fate: Fate::Judged,
        records: 1,
        verdict: live.verdict(),
        frames: u32::from(live.frames()),
        port: port_of(live.side()),
        as_read,
    }
}

// Returns the port by which the frames of a record leave.
fn port_of(side: Option<Side>) -> Option<Port>
    ensures { result ≡ history.port_of side }
{
    match side {
        Some(Side::Inward) => Some(Port::Inside),
        Some(Side::Outward) => Some(Port::Outside),
        None => None,
    }
}

// Returns the answer to ARP that crosses from this port.
fn crossed(port: Port) -> Answer
    ensures { result ≡ record { fate = Fate.Crosses; records = 0; verdict = Verdict.Pass; frames = 1; port = Some (history.other port); as_read = false } }
{
    let other = match port {
        Port::Outside => Port::Inside,
        Port::Inside => Port::Outside,
    };
    Answer {
        fate: Fate::Crosses,
        records: 0,
        verdict: Verdict::Pass,
        frames: 1,
        port: Some(other),
        as_read: false,
    }
}

// Returns the answer to a frame that does not leave.
fn unjudged(fate: Fate) -> Answer
    ensures { result ≡ record { fate = fate; records = 0; verdict = Verdict.Pass; frames = 0; port = None; as_read = false } }
{
    Answer {
        fate,
        records: 0,
        verdict: Verdict::Pass,
        frames: 0,
        port: None,
        as_read: false,
    }
}
