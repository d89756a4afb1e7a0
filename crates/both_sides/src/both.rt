//! Two engines in sequence: each frame that the first writes is a record of the second, whose sides
//! are exchanged.
use edge_io::{NoMemory, Outbox};
use norm_engine::Engine;
use norm_engine::laws::items_are_counted;
use norm_settings::Settings;
use pcap_file::Record;
use rule_book::Entry;
use std::alloc::Global;
use std::marker::Model;
use wire_base::Link;

/// Two engines that protect both sides of the bridge. Allocates all its memory when it is opened.
#[derive(Drop)]
pub struct Both {
    first: Engine,
    second: Engine,
    /// Frames of the first engine's last record.
    frames: Outbox,
    /// Number of these frames that the second engine has read.
    had: usize,
    /// Time of that record, in seconds, and the fraction of a second.
    seconds: u32,
    fraction: u32,
    /// Offset of that record in the file, in octets.
    offset: u64,
}

impl Model for Both {
    ghost use Rattle.std.specs.Prelude.{◌≤◌, length};
    ghost use Rattle.both_sides.specs.TwoEngines.{Joined, joined};
    ghost use Rattle.both_sides.specs.working.TwoEngines.{StandsForSome, IsWithin};

    ghost Value = { Joined };

    ghost view = { λ b. joined b.first b.second b.seconds b.fraction b.frames b.had };

    ghost invariant = { λ b. (b.had ≤ length b.frames)
        × IsWithin (joined b.first b.second b.seconds b.fraction b.frames b.had)
        × ∥ StandsForSome (joined b.first b.second b.seconds b.fraction b.frames b.had) ∥₁ };
}

impl Both {
    ghost use Rattle.std.specs.Prelude.{◌≡◌, ◌<◌, ◌≤◌, ◌-◌, ◌^◌, List, [], ◌∷◌, false, length, IfOk};
    ghost use Rattle.wire_base.specs.declared.address.Link.TheVariants.{Raw};
    ghost use Rattle.pcap_file.specs.Records.{Packet};
    ghost use Rattle.pcap_file.specs.RecordReading.{shown};
    ghost use Rattle.rule_book.specs.Entries.{plain};
    ghost use Rattle.norm_settings.specs.SettingValues.{plain_settings, AreInRange};
    ghost use Rattle.norm_engine.specs.Items.{Item};
    ghost use Rattle.norm_engine.specs.Trace.{item_of};
    ghost use Rattle.both_sides.specs.Traces.{mirrored, records_for};
    ghost use Rattle.both_sides.specs.TwoEngines.{StandsFor};

    /// Creates two engines for records of a raw link, before the first of them.
    pub fn open(alloc: Global, settings: Settings) -> Result<Both, NoMemory>
        requires range { AreInRange (plain_settings settings) }
        requires upright { settings.mirror ≡ false }
        ensures settings { IfOk result (λ both. both.first.settings ≡ plain_settings settings) }
        ensures link { IfOk result (λ both. both.first.link ≡ Raw) }
        ensures stands { IfOk result (λ both. StandsFor both [] []) }
    {
        let mut exchanged = settings.copied();
        exchanged.mirror = true;
        let first = Engine::open(alloc, settings)?;
        let second = Engine::open(alloc, exchanged)?;
        let frames = Outbox::open(alloc)?;
        Ok(Both {
            first,
            second,
            frames,
            had: 0,
            seconds: 0,
            fraction: 0,
            offset: 0,
        })
    }

    /// Sets the link type of the records. No record may precede this call.
    pub fn set_link(&mut self, link: Link)
        requires { self.old.first.records ≡ 0 }
        ensures linked { self.new ≡ record self.old { first = record self.old.first { link = link }; second = record self.old.second { link = link } } }
        ensures stands { StandsFor self.old [] [] → StandsFor self.new [] [] }
    {
        self.first.set_link(link);
        self.second.set_link(link);
    }

    /// Returns the number of records so far, without the frames that the second engine read.
    pub fn records(&self) -> u32
        ensures { result ≡ self.now.first.records }
    {
        self.first.records()
    }

    /// Returns the number of frames of the last record that the second engine has not read yet, at
    /// most two.
    pub fn pending(&self) -> usize
        ensures number { result ≡ length self.now.pending }
        ensures few { result ≤ 2 }
    {
        self.frames.frames() - self.had
    }

    /// Gives the record to the first engine and returns its entry; its frames are then pending.
    /// Allocates no memory.
    pub fn front(&mut self, input: &Record<'_>) -> Entry
        requires empty { length self.old.pending ≡ 0 }
        requires few { self.old.first.records < 2 ^ 31 - 1 }
        ensures settings { self.new.first.settings ≡ self.old.first.settings }
        ensures link { self.new.first.link ≡ self.old.first.link }
        ensures entry { (trace mirror : List Item) → StandsFor self.old trace mirror →
            plain result ≡ (item_of self.old.first.settings self.old.first.link trace (shown input.now)).entry }
        ensures pending { (trace mirror : List Item) → StandsFor self.old trace mirror →
            self.new.pending ≡ records_for (item_of self.old.first.settings self.old.first.link trace (shown input.now)) }
        ensures stands { (trace mirror : List Item) → StandsFor self.old trace mirror →
            StandsFor self.new (item_of self.old.first.settings self.old.first.link trace (shown input.now) ∷ trace) mirror }
    {
        items_are_counted();
        let entry = self.first.step(input, &mut self.frames);
        self.had = 0;
        self.seconds = input.seconds;
        self.fraction = input.fraction;
        self.offset = input.offset;
        entry
    }

    /// Gives the next pending frame to the second engine and returns its entry, whose number counts
    /// these frames. Replaces the frames in the outbox by those written for it. Allocates no
    /// memory.
    pub fn back(&mut self, out: &mut Outbox) -> Entry
        requires { 0 < length self.old.pending }
        ensures settings { self.new.first.settings ≡ self.old.first.settings }
        ensures link { self.new.first.link ≡ self.old.first.link }
        ensures entry { (trace mirror : List Item) (r : Packet) (more : List Packet) → StandsFor self.old trace mirror → self.old.pending ≡ r ∷ more →
            plain result ≡ (item_of (mirrored self.old.first.settings) self.old.first.link mirror r).entry }
        ensures frames { (trace mirror : List Item) (r : Packet) (more : List Packet) → StandsFor self.old trace mirror → self.old.pending ≡ r ∷ more →
            out.new ≡ (item_of (mirrored self.old.first.settings) self.old.first.link mirror r).frames }
        ensures stands { (trace mirror : List Item) (r : Packet) (more : List Packet) → StandsFor self.old trace mirror → self.old.pending ≡ r ∷ more →
            StandsFor self.new trace (item_of (mirrored self.old.first.settings) self.old.first.link mirror r ∷ mirror) }
        ensures pending { (r : Packet) (more : List Packet) → self.old.pending ≡ r ∷ more → self.new.pending ≡ more }
    {
        let _count = self.frames.frames();
        let frame = self.frames.frame(self.had);
        let record = Record::new(
            self.seconds,
            self.fraction,
            frame.len() as u32,
            self.offset,
            frame,
        );
        self.had += 1;
        self.second.step(&record, out)
    }
}
