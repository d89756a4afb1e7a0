//! The lines of the summary of a load.
ghost use Rattle.std.specs.Prelude.{◌≡◌, ◌≤◌, length, take};
ghost use Rattle.rule_book.specs.LoadText.{load_text};

use crate::Rule;
use crate::line::Line;

/// A line of the summary of a load.
#[derive(Clone, Copy, Default)]
pub enum LoadLine {
    /// The seed of the load, and its number of records.
    Load { seed: u64, count: u32 },
    /// The number of records made.
    Records(u32),
    /// The number of frames that would be written.
    Packets(u64),
    /// The number of eras that began.
    Eras(u64),
    /// A rule, and the number of times that entries name it.
    Rule { rule: Rule, count: u64 },
    #[default]
    End,
}

/// Writes a line of the summary of a load, with its line feed. Returns its length in octets.
pub fn load_line(line: LoadLine, buf: &mut [u8]) -> usize
    requires { 64 ≤ length buf.old }
    ensures text { take result buf.new ≡ load_text line }
    ensures bound { result ≤ 64 }
{
    let mut text = Line::new(buf);
    match line {
        LoadLine::Load { seed, count } => {
            text.text("load");
            text.part_long_number(seed);
            text.part_number(count);
        }
        LoadLine::Records(number) => {
            text.text("records");
            text.part_number(number);
        }
        LoadLine::Packets(number) => {
            text.text("packets");
            text.part_long_number(number);
        }
        LoadLine::Eras(number) => {
            text.text("eras");
            text.part_long_number(number);
        }
        LoadLine::Rule { rule, count } => {
            text.text("rule");
            text.part(rule.name());
            text.part_long_number(count);
        }
        LoadLine::End => text.text("end"),
    }
    text.octet(b'\n');
    text.len()
}
