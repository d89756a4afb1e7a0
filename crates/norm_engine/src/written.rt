//! The report on what is written for a record with an MTU, and the change of its entry.
ghost use Rattle.std.specs.Prelude.{◌≡◌, ◌≤◌, ◌<◌, ◌+◌, ◌||◌, All, length};
ghost use Rattle.emit_mtu.specs.FrameParts.{AreOctets};
ghost use Rattle.norm_engine.specs.WrittenTrace as spec;
ghost use Rattle.rule_book.specs.Entries.{plain};
ghost use Rattle.rule_book.specs.declared.entry.TheConstants.{MAX_NAMED};

use edge_io::Outbox;
use rule_book::{Entry, Rule, Verdict};

/// Report on a frame, or on all frames of a record.
#[derive(Clone, Copy)]
pub struct Emitted {
    /// Number of frames written.
    pub packets: u8,
    /// A frame was cut.
    pub cut: bool,
    /// A frame was dropped.
    pub kept_back: bool,
}

/// Adds the report on one more frame.
pub fn joined(emitted: Emitted, one: Emitted) -> Emitted
    requires { emitted.packets + one.packets < 256 }
    ensures packets { result.packets ≡ emitted.packets + one.packets }
    ensures cut { result.cut ≡ (emitted.cut || one.cut) }
    ensures kept_back { result.kept_back ≡ (emitted.kept_back || one.kept_back) }
{
    Emitted {
        packets: emitted.packets + one.packets,
        cut: either(emitted.cut, one.cut),
        kept_back: either(emitted.kept_back, one.kept_back),
    }
}

fn either(a: bool, b: bool) -> bool
    ensures { result ≡ (a || b) }
{
    a || b
}

/// Enters the report on the record's frames in an entry.
pub fn tell_cut(emitted: Emitted, entry: &mut Entry)
    requires { length entry.old.rules.items ≤ MAX_NAMED }
    ensures { plain entry.new ≡ spec.entry_cut emitted.cut emitted.kept_back emitted.packets (plain entry.old) }
{
    entry.packets = emitted.packets;
    if emitted.cut {
        entry.rules.push(Rule::ECut);
        entry.verdict = Verdict::Fix;
    }
    if emitted.kept_back {
        entry.rules.push(Rule::EMtu);
        entry.verdict = Verdict::Drop;
    }
}

/// Proves that the octets of frames are below 256.
pub fn frames_have_octets(out: &Outbox)
    ensures { All AreOctets out.now }
{
    for index in 0..out.frames() {
        have_octets(out.frame(index));
    }
}

/// Proves that the octets of a buffer are below 256.
pub fn have_octets(bytes: &[u8])
    ensures { AreOctets bytes.now }
{
    let _octets = bytes;
}
