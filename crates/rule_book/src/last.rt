//! The last line of the report.
ghost use Rattle.std.specs.Prelude.{◌≡◌, ◌≤◌, length, take};
ghost use Rattle.rule_book.specs.Text.{last_text, stop_word};
ghost use Rattle.rule_book.specs.declared.last.StopKind.{StopKind};

use crate::line::Line;

/// The reason why a run stopped before the end of its capture.
#[derive(Clone, Copy, Debug, PartialEq, Eq)]
pub enum StopKind {
    /// The magic number of the capture is not read.
    Magic,
    /// The version of the capture is not read.
    Version,
    /// The link type of the capture is not read.
    Link,
    /// The captured length of a record is above 262,144 octets.
    Long,
    /// There are more than 4,294,967,295 records, or blocks of a pcapng file.
    Many,
    /// The capture ends inside its head or a record.
    Cut,
    /// Reading failed.
    ReadFault,
    /// Writing the capture failed.
    Capture,
    /// Memory could not be allocated.
    Memory,
    /// A block of the capture is malformed.
    Block,
}

/// The last line of a report: the numbers of records and of frames written, or the reason why the
/// run stopped and the offset in octets of the head or record at which it stopped.
#[derive(Clone, Copy, Debug, PartialEq, Eq)]
pub enum Last {
    End { records: u32, packets: u64 },
    Stop { kind: StopKind, offset: u64 },
}

impl StopKind {
    /// Returns the word of the report for this reason.
    fn word(self) -> &'static str
        ensures text { result.now ≡ stop_word self }
        ensures bound { length result.now ≤ 7 }
    {
        match self {
            StopKind::Magic => "magic",
            StopKind::Version => "version",
            StopKind::Link => "link",
            StopKind::Block => "block",
            StopKind::Long => "long",
            StopKind::Many => "many",
            StopKind::Cut => "cut",
            StopKind::ReadFault => "read",
            StopKind::Capture => "capture",
            StopKind::Memory => "memory",
        }
    }

    /// Returns the reason of a word; None if the word is no reason's.
    pub(crate) fn of_word(word: &[u8]) -> Option<StopKind>
        ensures { (kind : StopKind) → word.now ≡ stop_word kind → result ≡ Some kind }
    {
        match word {
            b"magic" => Some(StopKind::Magic),
            b"version" => Some(StopKind::Version),
            b"link" => Some(StopKind::Link),
            b"block" => Some(StopKind::Block),
            b"long" => Some(StopKind::Long),
            b"many" => Some(StopKind::Many),
            b"cut" => Some(StopKind::Cut),
            b"read" => Some(StopKind::ReadFault),
            b"capture" => Some(StopKind::Capture),
            b"memory" => Some(StopKind::Memory),
            _ => None,
        }
    }
}

/// Writes the last line, with its line feed. Returns its length in octets.
pub fn last_line(last: &Last, buf: &mut [u8]) -> usize
    requires { 64 ≤ length buf.old }
    ensures text { take result buf.new ≡ last_text last.now }
    ensures bound { result ≤ 64 }
{
    let mut line = Line::new(buf);
    match *last {
        Last::End { records, packets } => {
            line.text("end");
            line.part_number(records);
            line.part_long_number(packets);
        }
        Last::Stop { kind, offset } => {
            line.text("stop");
            line.part(kind.word());
            line.part_long_number(offset);
        }
    }
    line.octet(b'\n');
    line.len()
}
