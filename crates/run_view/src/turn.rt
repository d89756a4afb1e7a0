//! The content of a line of a report.
ghost use Rattle.std.specs.Prelude.{◌≡◌, ◌↔◌, ◌^◌, ◌<◌, IsTrue};
ghost use Rattle.rule_book.specs.declared.last.Last.TheVariants.{End};
ghost use Rattle.run_view.specs.working.LineContents.{IsLast, part_by};

use rule_book::{Last, read_last};

/// The position of the next line of a report.
#[derive(Clone, Copy)]
pub(crate) struct Turn {
    /// It is one of the second engine.
    pub(crate) second: bool,
    /// How many lines of its engine precede it.
    pub(crate) done: u64,
    /// How many frames the lines before it count.
    pub(crate) frames: u64,
}

/// Returns what the line of an entry by this engine has for the entry: all of it, or what follows
/// `/`, and nothing if it does not begin with that.
pub(crate) fn entry_part(text: &[u8], second: bool) -> &[u8]
    ensures { result.now ≡ part_by second text.now }
{
    if !second {
        return text;
    }
    match text {
        [b'/', rest @ ..] => rest,
        _ => &[],
    }
}

/// Returns whether a line is the last one of a run with as many records and frames as precede it.
pub(crate) fn is_last(text: &[u8], turn: Turn) -> bool
    requires few { turn.done < 2 ^ 32 }
    ensures { IsTrue result ↔ IsLast turn text.now }
{
    if turn.second {
        return false;
    }
    match read_last(text) {
        Some(last) => is_end(last, turn.done, turn.frames),
        None => false,
    }
}

// Returns whether a last line ends a run with this number of records and of frames.
fn is_end(last: Last, records: u64, frames: u64) -> bool
    ensures { IsTrue result ↔ last ≡ End records frames }
{
    match last {
        Last::End {
            records: told,
            packets,
        } => u64::from(told) == records && packets == frames,
        Last::Stop { .. } => false,
    }
}
