//! The octets of one cell, packed: 256 values, and one bit for each offset that has an octet.
ghost use Rattle.std.specs.Prelude.{◌≡◌, ◌↔◌, ◌+◌, ◌≤◌, length, IsTrue, IsNone, None, Some, replicate, slice_index_or, slice_set, ◌-◌, ◌*◌, ◌<◌};
ghost use Rattle.std.specs.List.{All};
ghost use Rattle.cell_pool.specs.ChainLists.{without_below, with_run, IsBlank, IsCovered, StandsFrom};
ghost use Rattle.cell_pool.specs.working.PackedOctets.{HasBitsFrom, HasOnesBetween, IsMask};

use std::marker::Model;

/// 256 offsets, each with an octet or nothing.
#[derive(Drop)]
pub(crate) struct Octets {
    values: [u8; 256],
    // One bit for each offset that has an octet.
    known: [u64; 4],
}

impl Model for Octets {
    ghost use Rattle.std.specs.Prelude.{ℕ, List, Option};
    ghost use Rattle.cell_pool.specs.working.PackedOctets.{octets_of};

    ghost Value = { List (Option ℕ) };

    ghost view = { λ o. octets_of o.values o.known };
}

impl Octets {
    /// Returns a value without octets.
    #[tactic(auto, unfolding(crate::specs::working::PackedOctets::octets_of))]
    pub(crate) fn empty() -> Octets
        ensures { result ≡ replicate 256 None }
    {
        Octets {
            values: [0; 256],
            known: [0; 4],
        }
    }

    /// Returns the octet at `at`, if there is one.
    #[tactic(auto, unfolding(crate::specs::working::PackedOctets::octets_of))]
    pub(crate) fn get(&self, at: u8) -> Option<u8>
        ensures value { result ≡ slice_index_or self.now at None }
        ensures size { length self.now ≡ 256 }
    {
        let place = usize::from(at);
        if (self.known[place / 64] >> (place % 64)) & 1 == 1 {
            Some(self.values[place])
        } else {
            None
        }
    }

    /// Writes an octet at `at`.
    pub(crate) fn set(&mut self, at: u8, octet: u8)
        ensures { self.new ≡ slice_set self.old at (Some octet) }
    {
        let place = usize::from(at);
        self.values[place] = octet;
        self.known[place / 64] |= 1 << (place % 64);
    }

    /// Removes the octets below `at`, and returns whether none is left.
    pub(crate) fn clear_below(&mut self, at: u16) -> bool
        ensures forgotten { self.new ≡ without_below at self.old }
        ensures none_left { IsTrue result ↔ All (λ o. IsNone o) self.new }
    {
        let place = usize::from(at);
        self.known = [
            bits_from(self.known[0], place),
            bits_from(self.known[1], place.saturating_sub(64)),
            bits_from(self.known[2], place.saturating_sub(128)),
            bits_from(self.known[3], place.saturating_sub(192)),
        ];
        self.known == [0; 4]
    }

    /// Removes all octets.
    pub(crate) fn clear(&mut self)
        ensures { self.new ≡ replicate 256 None }
    {
        self.known = [0; 4];
    }

    /// Returns whether none of the `len` offsets from `at` on has an octet.
    pub(crate) fn is_blank(&self, at: u8, len: usize) -> bool
        requires { at + len ≤ 256 }
        ensures value { IsTrue result ↔ IsBlank at len self.now }
        ensures size { length self.now ≡ 256 }
    {
        let first = usize::from(at);
        let places = mask(first, first + len);
        [
            self.known[0] & places[0],
            self.known[1] & places[1],
            self.known[2] & places[2],
            self.known[3] & places[3],
        ] == [0; 4]
    }

    /// Returns whether each of the `len` offsets from `at` on has an octet.
    pub(crate) fn is_covered(&self, at: u8, len: usize) -> bool
        requires { at + len ≤ 256 }
        ensures { IsTrue result ↔ IsCovered at len self.now }
    {
        let first = usize::from(at);
        let places = mask(first, first + len);
        [
            self.known[0] & places[0],
            self.known[1] & places[1],
            self.known[2] & places[2],
            self.known[3] & places[3],
        ] == [places[0], places[1], places[2], places[3]]
    }

    /// Returns whether the octets from `at` on are `octets`; each of those offsets must have an
    /// octet.
    pub(crate) fn has_run(&self, at: u8, octets: &[u8]) -> bool
        requires fits { at + length octets.now ≤ 256 }
        requires covered { IsCovered at (length octets.now) self.now }
        ensures { IsTrue result ↔ StandsFrom at octets.now self.now }
    {
        let first = usize::from(at);
        &self.values[first..first + octets.len()] == octets
    }

    /// Copies the octets from `at` on into `out`; each of those offsets must have an octet.
    pub(crate) fn copy_run(&self, at: u8, out: &mut [u8])
        requires fits { at + length out.old ≤ 256 }
        requires covered { IsCovered at (length out.old) self.now }
        ensures { StandsFrom at out.new self.now }
    {
        let first = usize::from(at);
        let end = first + out.len();
        out.copy_from_slice(&self.values[first..end]);
    }

    /// Writes octets from `at` on.
    pub(crate) fn set_run(&mut self, at: u8, octets: &[u8])
        requires { at + length octets.now ≤ 256 }
        ensures { self.new ≡ with_run at octets.now self.old }
    {
        let first = usize::from(at);
        let end = first + octets.len();
        let places = mask(first, end);
        self.known = [
            self.known[0] | places[0],
            self.known[1] | places[1],
            self.known[2] | places[2],
            self.known[3] | places[3],
        ];
        let run = &mut self.values[first..end];
        run.copy_from_slice(octets);
    }
}

// Clears the bits of `word` below `place`, which may be 64 or more.
fn bits_from(word: u64, place: usize) -> u64
    ensures { HasBitsFrom place word result }
{
    if place < 64 {
        word & (u64::MAX << place)
    } else {
        0
    }
}

// Returns four words with 1 at the bits of the offsets from `at` up to `end`.
fn mask(at: usize, end: usize) -> [u64; 4]
    requires order { at ≤ end }
    requires end { end ≤ 256 }
    ensures { IsMask at end result }
{
    [
        ones_between(at, end, 0),
        ones_between(at, end, 1),
        ones_between(at, end, 2),
        ones_between(at, end, 3),
    ]
}

// Returns a word of the mask of the offsets from `at` up to `end`.
fn ones_between(at: usize, end: usize, word: usize) -> u64
    requires order { at ≤ end }
    requires end { end ≤ 256 }
    requires word { word < 4 }
    ensures { HasOnesBetween (at - 64 * word) (end - 64 * word) result }
{
    ones_below(at, word) ^ ones_below(end, word)
}

// Returns a word of the mask of the offsets below `end`.
fn ones_below(end: usize, word: usize) -> u64
    requires end { end ≤ 256 }
    requires word { word < 4 }
    ensures { HasOnesBetween 0 (end - 64 * word) result }
{
    EDGES.as_flattened()[192 + end - 64 * word]
}

// The words of the fourth row have 1 at the bits below 0, 1, .. 63. Those before it have no ones,
// those after it nothing else.
static EDGES: [[u64; 64]; 8] = [
    [0; 64],
    [0; 64],
    [0; 64],
    [
        0,
        1,
        3,
        7,
        0xf,
        0x1f,
        0x3f,
        0x7f,
        0xff,
        0x1ff,
        0x3ff,
        0x7ff,
        0xfff,
        0x1fff,
        0x3fff,
        0x7fff,
        0xffff,
        0x1_ffff,
        0x3_ffff,
        0x7_ffff,
        0xf_ffff,
        0x1f_ffff,
        0x3f_ffff,
        0x7f_ffff,
        0xff_ffff,
        0x1ff_ffff,
        0x3ff_ffff,
        0x7ff_ffff,
        0xfff_ffff,
        0x1fff_ffff,
        0x3fff_ffff,
        0x7fff_ffff,
        0xffff_ffff,
        0x1_ffff_ffff,
        0x3_ffff_ffff,
        0x7_ffff_ffff,
        0xf_ffff_ffff,
        0x1f_ffff_ffff,
        0x3f_ffff_ffff,
        0x7f_ffff_ffff,
        0xff_ffff_ffff,
        0x1ff_ffff_ffff,
        0x3ff_ffff_ffff,
        0x7ff_ffff_ffff,
        0xfff_ffff_ffff,
        0x1fff_ffff_ffff,
        0x3fff_ffff_ffff,
        0x7fff_ffff_ffff,
        0xffff_ffff_ffff,
        0x1_ffff_ffff_ffff,
        0x3_ffff_ffff_ffff,
        0x7_ffff_ffff_ffff,
        0xf_ffff_ffff_ffff,
        0x1f_ffff_ffff_ffff,
        0x3f_ffff_ffff_ffff,
        0x7f_ffff_ffff_ffff,
        0xff_ffff_ffff_ffff,
        0x1ff_ffff_ffff_ffff,
        0x3ff_ffff_ffff_ffff,
        0x7ff_ffff_ffff_ffff,
        0xfff_ffff_ffff_ffff,
        0x1fff_ffff_ffff_ffff,
        0x3fff_ffff_ffff_ffff,
        0x7fff_ffff_ffff_ffff,
    ],
    [u64::MAX; 64],
    [u64::MAX; 64],
    [u64::MAX; 64],
    [u64::MAX; 64],
];
