//! What is shown of a run, event by event.
ghost use Rattle.std.specs.Prelude.{◌≡◌, [], ◌∷◌, List, ℕ, None, Some, map, OnErr, OnOk};
ghost use Rattle.std.specs.declared.option.Option.{Option};
ghost use Rattle.edge_io.specs.FaultCounts.{HasCause};
ghost use Rattle.run_view.specs.ShownEvents.{Event as PlainEvent, ShowCause, Shows, plain_event};

use edge_io::{Failed, Sink};
use std::alloc::Global;
use view_text::{Format, ShownLine, chosen_line, record_line};

/// What is shown.
#[derive(Debug, Drop)]
pub enum Event {
    /// All lines of a record that is chosen: that of the first engine before those of the second.
    Record(Vec<ShownLine>),
    /// How many records were chosen.
    Chosen(u64),
}

/// Why an event was not shown.
#[derive(Clone, Copy, Debug, PartialEq, Eq)]
pub enum Unshown {
    Failed,
    NoMemory,
}

/// What a view writes to: a list of events, and text that is no event.
pub trait Events {
    /// The events that were shown, the oldest first, if they are known.
    ghost shown: { Self → Option (List PlainEvent) };

    /// The number of failed calls.
    ghost fault_count: { Self → ℕ };

    /// Shows an event, which a printer writes in this format. Nothing of it is shown if this fails.
    fn show(&mut self, format: Format, event: Event) -> Result<(), Unshown>
        ensures shows { OnOk result (Shows (shown self.old) (shown self.new) (plain_event event ∷ [])) }
        ensures nothing { OnErr result (shown self.new ≡ shown self.old) }
        ensures cause { ShowCause (fault_count self.old) (fault_count self.new) result };

    /// Writes text that is no event: a heading, a summary, eras, notes or the line of a stop.
    fn write(&mut self, text: &[u8]) -> Result<(), Failed>
        ensures same { shown self.new ≡ shown self.old }
        ensures cause { HasCause (fault_count self.old) (fault_count self.new) result };

    /// Writes what is buffered.
    fn flush(&mut self) -> Result<(), Failed>
        ensures same { shown self.new ≡ shown self.old }
        ensures cause { HasCause (fault_count self.old) (fault_count self.new) result };

    /// Returns the number of failed calls; the count saturates at the last value of its type.
    fn faults(&self) -> u64
        ensures { result ≡ fault_count self.now };
}

/// A printer of events to a sink. Its events are not known.
#[derive(Drop)]
pub struct Printer<K> {
    alloc: Global,
    out: K,
}

impl<K: Drop> Printer<K> {
    /// Returns a printer to this sink.
    pub fn over(alloc: Global, out: K) -> Printer<K>
        ensures { result.out ≡ out }
    {
        Printer { alloc, out }
    }

    /// Returns the sink.
    pub fn sink(&self) -> &K
        ensures { result.now ≡ self.now.out }
    {
        &self.out
    }
}

impl<K: Sink> Printer<K> {
    // Writes a text, or returns that memory for it could not be allocated.
    fn put(&mut self, text: Option<String>) -> Result<(), Unshown>
        ensures cause { ShowCause (K.fault_count self.old.out) (K.fault_count self.new.out) result }
    {
        match text {
            Some(text) => match self.out.put(text.as_bytes()) {
                Ok(()) => Ok(()),
                Err(_) => Err(Unshown::Failed),
            },
            None => Err(Unshown::NoMemory),
        }
    }
}

// Returns the lines of a record; None if memory could not be allocated.
fn record_text(alloc: Global, format: Format, lines: &[ShownLine]) -> Option<String> {
    let mut text = String::new(alloc);
    for shown in lines {
        let line = record_line(alloc, format, shown).ok()?;
        if text.is_empty() {
            text = line;
        } else {
            text.push_str(line.as_str()).ok()?;
        }
    }
    Some(text)
}

impl<K: Sink + Drop> Events for Printer<K> {
    ghost shown = { λ _. None };

    ghost fault_count = { λ printer. K.fault_count printer.out };

    fn show(&mut self, format: Format, event: Event) -> Result<(), Unshown> {
        match event {
            Event::Record(lines) => {
                let text = record_text(self.alloc, format, lines.as_slice());
                self.put(text)
            }
            Event::Chosen(records) => {
                let text = chosen_line(self.alloc, format, records).ok();
                self.put(text)
            }
        }
    }

    fn write(&mut self, text: &[u8]) -> Result<(), Failed> {
        self.out.put(text)
    }

    fn flush(&mut self) -> Result<(), Failed> {
        self.out.flush()
    }

    fn faults(&self) -> u64 {
        self.out.faults()
    }
}

/// Events in memory, which are known. Text that is no event is left out, and a call fails only if
/// memory could not be allocated.
#[derive(Drop)]
pub struct MemEvents {
    pub events: Vec<Event>,
}

impl MemEvents {
    /// Returns that no event was shown.
    pub fn new(alloc: Global) -> MemEvents
        ensures { result.events.items ≡ [] }
    {
        MemEvents {
            events: Vec::new(alloc),
        }
    }
}

impl Events for MemEvents {
    ghost shown = { λ memory. Some (map plain_event memory.events.items) };

    ghost fault_count = { λ _. 0 };

    fn show(&mut self, _: Format, event: Event) -> Result<(), Unshown> {
        match self.events.push(event) {
            Ok(()) => Ok(()),
            Err(_) => Err(Unshown::NoMemory),
        }
    }

    fn write(&mut self, _: &[u8]) -> Result<(), Failed> {
        Ok(())
    }

    fn flush(&mut self) -> Result<(), Failed> {
        Ok(())
    }

    fn faults(&self) -> u64 {
        0
    }
}
