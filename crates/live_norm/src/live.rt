//! The engine, record by record.
ghost use Rattle.std.specs.Prelude.{◌≡◌, ◌≤◌, length};

use crate::cut::{copy, cut_by, emitted_of, write_frame};
use edge_io::{NoMemory, Outbox};
use emit_mtu::laws::{plain_packets_go_out, segments_fit};
use norm_engine::laws::{
    items_are_counted, items_go_out, lawful_invents_nothing, lawful_is_written_soundly,
    written_clashes_are_real, written_reads_records,
};
use norm_engine::written::{frames_have_octets, have_octets};
use norm_engine::{Engine, blank_entry};
use norm_settings::Settings;
use pcap_file::Record;
use rule_book::{Entry, Last, Verdict, entry_line, last_line};
use std::alloc::Global;
use std::marker::Model;
use wire_base::{Link, Side};

/// The engine, with the frames and the entry of the newest record.
#[derive(Drop)]
pub struct Live {
    engine: Engine,
    link: Link,
    /// MTU of the next link, in octets, if it is bounded.
    mtu: Option<u16>,
    /// Frames of the newest record, before they are cut.
    out: Outbox,
    entry: Entry,
    /// Number of frames written so far.
    written: u64,
}

impl Model for Live {
    ghost use Rattle.rule_book.specs.Entries.{plain};
    ghost use Rattle.norm_engine.specs.WrittenTrace.{frames_written};
    ghost use Rattle.live_norm.specs.Live.{Lived};
    ghost use Rattle.live_norm.specs.working.LiveState.{IsLive};

    ghost Value = { Lived };

    ghost view = { λ l. record { engine = l.engine; frames = frames_written l.mtu l.link l.out; entry = plain l.entry; written = l.written } };

    ghost invariant = { λ l. IsLive l.link l.mtu l.out (record { engine = l.engine; frames = frames_written l.mtu l.link l.out; entry = plain l.entry; written = l.written }) };
}

impl Live {
    ghost use Rattle.std.specs.Prelude.{◌≡◌, ◌<◌, ◌≤◌, ◌-◌, ◌^◌, true, List, [], length, take, Some, slice_get, IfOk};
    ghost use Rattle.norm_settings.specs.SettingValues.{plain_settings, AreInRange};
    ghost use Rattle.pcap_file.specs.RecordReading.{shown};
    ghost use Rattle.rule_book.specs.Text.{entry_text, last_text};
    ghost use Rattle.rule_book.specs.declared.last.Last.TheVariants.{End};
    ghost use Rattle.norm_engine.specs.Items.{Item};
    ghost use Rattle.live_norm.specs.Live.{Represents, Gives};
    ghost use Rattle.wire_base.specs.declared.limits.TheConstants.{MAX_FRAME};

    /// Allocates all memory, for records of this link.
    pub fn open(alloc: Global, settings: Settings, link: Link) -> Result<Live, NoMemory>
        requires { AreInRange (plain_settings settings) }
        ensures settings { IfOk result (λ live. live.engine.settings ≡ plain_settings settings) }
        ensures link { IfOk result (λ live. live.engine.link ≡ link) }
        ensures represents { IfOk result (λ live. Represents live []) }
    {
        let out = Outbox::open(alloc)?;
        let mtu = settings.mtu;
        let mut engine = Engine::open(alloc, settings)?;
        engine.set_link(link);
        Ok(Live {
            engine,
            link,
            mtu,
            out,
            entry: blank_entry(),
            written: 0,
        })
    }

    /// Returns the number of records so far.
    pub fn records(&self) -> u32
        ensures { result ≡ self.now.engine.records }
    {
        self.engine.records()
    }

    /// Judges a record. Returns true only if its one frame is the record as it was read; the frames
    /// are then none. Allocates no memory.
    pub fn step(&mut self, input: &Record<'_>) -> bool
        requires { self.old.engine.records < 2 ^ 32 - 1 }
        ensures settings { self.new.engine.settings ≡ self.old.engine.settings }
        ensures link { self.new.engine.link ≡ self.old.engine.link }
        ensures gives { (history : List Item) → Represents self.old history → Gives self.old self.new (shown input.now) result history }
        ensures empty { result ≡ true → self.new.frames ≡ [] }
    {
        items_are_counted();
        items_go_out();
        segments_fit();
        plain_packets_go_out();
        lawful_is_written_soundly();
        lawful_invents_nothing();
        written_clashes_are_real();
        written_reads_records();
        have_octets(input.bytes);
        let read = self.engine.step_into(input, &mut self.out, &mut self.entry);
        frames_have_octets(&self.out);
        let as_read = cut_by(
            read,
            self.mtu,
            self.link,
            input.bytes,
            &mut self.out,
            &mut self.entry,
        );
        self.written += u64::from(self.entry.packets);
        as_read
    }

    /// Returns the number of frames that are written for the newest record.
    pub fn frames(&self) -> u8
        ensures { result ≡ self.now.entry.packets }
    {
        self.entry.packets
    }

    /// Returns the number of frames that `frame` writes: none if the newest record is written as it
    /// was read.
    pub fn frame_count(&self) -> u8
        ensures { result ≡ length self.now.frames }
    {
        match self.mtu {
            None => self.out.frames() as u8,
            Some(mtu) => emitted_of(&self.out, self.link, mtu).packets,
        }
    }

    /// Returns the side of the newest record.
    pub fn side(&self) -> Option<Side>
        ensures { result ≡ self.now.entry.side }
    {
        self.entry.side
    }

    /// Returns the verdict on the newest record.
    pub fn verdict(&self) -> Verdict
        ensures { result ≡ self.now.entry.verdict }
    {
        self.entry.verdict
    }

    /// Writes the frame of the newest record at this index, counted from 0, at the front of the
    /// buffer, and returns its length in octets.
    pub fn frame(&self, index: usize, buf: &mut [u8]) -> usize
        requires index { index < length self.now.frames }
        requires room { MAX_FRAME ≤ length buf.old }
        ensures octets { slice_get self.now.frames index ≡ Some (take result buf.new) }
        ensures short { result ≤ MAX_FRAME }
    {
        match self.mtu {
            None => copy(self.out.frame(index), buf),
            Some(mtu) => write_frame(&self.out, self.link, mtu, index, buf),
        }
    }

    /// Writes the line of the newest record's entry, and returns its length in octets.
    pub fn line(&self, buf: &mut [u8]) -> usize
        requires { 400 ≤ length buf.old }
        ensures text { take result buf.new ≡ entry_text self.now.entry }
        ensures short { result ≤ 376 }
    {
        entry_line(&self.entry, buf)
    }

    /// Writes the last line of the report over all records so far, and returns its length in
    /// octets.
    pub fn last(&self, buf: &mut [u8]) -> usize
        requires { 64 ≤ length buf.old }
        ensures text { take result buf.new ≡ last_text (End self.now.engine.records self.now.written) }
        ensures short { result ≤ 64 }
    {
        let records = self.engine.records();
        let last = Last::End {
            records,
            packets: self.written,
        };
        last_line(&last, buf)
    }
}
