//! The store compared with a plain map from chain and offset to octet.
ghost use Rattle.std.specs.Prelude.{◌≡◌, ◌+◌, ◌<◌, ◌≤◌, ◌^◌, length};

use retain_store::{ChainId, Retain};
use std::collections::BTreeMap;
use std::process::Abort;
use std::test::Fail;

// Returns the octets after two pieces that overlap, or None if a call gives another result.
fn overlapped(store: &mut Retain) -> Option<[u8; 5]>
    requires { length store.old.chains ≡ 2 }
{
    let chain = ChainId(1);
    let from = (1 << 62) + 254;
    if store.need(chain, from, 3) != 2 || store.free() != 3 || store.fresh(chain, from, 3) != 3 {
        return None;
    }
    store.place(chain, from, b"abc");
    if store.need(chain, from + 1, 4) != 0 || store.fresh(chain, from + 1, 4) != 2 {
        return None;
    }
    if store.place_counting(chain, from + 1, b"XYZW") != 2 || !store.covers(chain, from, 5) {
        return None;
    }
    let past = store.look(chain, from + 5, b"a");
    let first = store.look(chain, from, b"ab");
    if !past.ends || past.repeats || first.ends || !first.repeats {
        return None;
    }
    let mut octets = [0; 5];
    store.copy_out(chain, from, &mut octets);
    Some(octets)
}

#[test]
fn the_octet_that_came_first_stays(rt: HostRuntime) -> Result<(), Fail> {
    let mut store = Retain::open(rt.alloc(), 3, 2)?;
    assert!(rt; overlapped(&mut store) == Some(*b"abcZW"));
    Ok(())
}

// Pseudorandom numbers from a fixed seed.
#[derive(Drop)]
struct Pattern(u64);

impl Pattern {
    fn next(&mut self, below: u64) -> u64
        requires { 0 < below }
        ensures { result < below }
    {
        let mixed = self.0.wrapping_mul(6_364_136_223_846_793_005);
        self.0 = mixed.wrapping_add(1_442_695_040_888_963_407);
        (self.0 >> 33) % below
    }
}

// Plain map from chain and offset to octet, as the definition has it.
#[derive(Drop)]
struct Plain {
    octets: BTreeMap<(u32, u64), u8>,
}

impl Plain {
    fn octet_at(&self, chain: ChainId, offset: u64) -> Option<u8> {
        self.octets.get(&(chain.0, offset)).copied()
    }

    // Adds octets, and returns how many are new.
    fn place(&mut self, chain: ChainId, from: u64, bytes: &[u8]) -> Result<usize, Fail>
        requires { from + length bytes.now < 2 ^ 64 }
    {
        let before = self.octets.len();
        for (index, octet) in bytes.iter().enumerate() {
            let offset = from + index as u64;
            if self.octet_at(chain, offset).is_none() {
                self.octets.insert((chain.0, offset), *octet)?;
            }
        }
        Ok(self.octets.len().saturating_sub(before))
    }

    fn settle(&self, chain: ChainId, from: u64, bytes: &mut [u8])
        requires { from + length bytes.old < 2 ^ 64 }
    {
        for (index, octet) in bytes.iter_mut().enumerate() {
            *octet = self.octet_at(chain, from + index as u64).unwrap_or(*octet);
        }
    }

    fn forget_below(&mut self, chain: ChainId, at: u64) {
        self.octets.retain(|key, _| key.0 != chain.0 || key.1 >= at);
    }

    // Returns whether the block with this number has an octet.
    fn holds(&self, chain: ChainId, block: u64) -> bool {
        self.octets
            .keys()
            .any(|key| key.0 == chain.0 && key.1 / 256 == block)
    }
}

// The store and the plain map after the same calls.
#[derive(Drop)]
struct Both {
    store: Retain,
    plain: Plain,
    pattern: Pattern,
    ghost three: { length store.chains ≡ 3 },
}

// Returns the first offset used in a chain.
fn base_of(chain: ChainId) -> u64
    ensures { result + 5000 < 2 ^ 64 }
{
    match chain.0 {
        0 => 0,
        1 => (1 << 62) - 300,
        _ => u64::MAX - 5_000,
    }
}

impl Both {
    // Returns the number of missing blocks, and checks that both agree.
    fn need(&self, rt: &impl Abort, chain: ChainId, from: u64, len: u32) -> u32
        requires chain_in_range { chain.0 < 3 }
        requires offsets { from + len < 2 ^ 64 }
    {
        let mut plain: u32 = 0;
        let end = from + u64::from(len);
        if len > 0 {
            for block in from / 256..(end - 1) / 256 + 1 {
                if !self.plain.holds(chain, block) {
                    plain = plain.saturating_add(1);
                }
            }
        }
        let need = self.store.need(chain, from, len);
        assert_eq!(rt; need, plain);
        need
    }

    fn place(
        &mut self,
        rt: &impl Abort,
        chain: ChainId,
        from: u64,
        bytes: &[u8],
    ) -> Result<(), Fail>
        requires chain_in_range { chain.0 < 3 }
        requires offsets { from + length bytes.now < 2 ^ 64 }
        requires short { length bytes.now ≤ 600 }
    {
        let fits = self.need(rt, chain, from, bytes.len() as u32) <= self.store.free();
        assert_eq!(rt; self.store.has_room(chain, from, bytes.len() as u32), fits);
        if self.store.has_room(chain, from, bytes.len() as u32) {
            let plain = self.plain.place(chain, from, bytes)?;
            assert_eq!(rt;
                self.store.fresh(chain, from, bytes.len() as u32) as usize,
                plain
            );
            assert_eq!(rt; self.store.place_counting(chain, from, bytes), plain);
        }
        Ok(())
    }

    fn settle(&self, rt: &impl Abort, chain: ChainId, from: u64, bytes: &mut [u8])
        requires chain_in_range { chain.0 < 3 }
        requires offsets { from + length bytes.old < 2 ^ 64 }
        requires short { length bytes.old ≤ 600 }
    {
        let mut plain = [0; 600];
        let plain = &mut plain[..bytes.len()];
        plain.copy_from_slice(bytes);
        self.plain.settle(chain, from, plain);
        let changed = &*plain != &*bytes;
        assert_eq!(rt; self.store.settle(chain, from, bytes), changed);
        assert!(rt; &*plain == &*bytes);
    }

    // Checks that both have the same octets at the offsets of a chain.
    fn read(&self, rt: &impl Abort, chain: ChainId, from: u64, len: u32)
        requires chain_in_range { chain.0 < 3 }
        requires offsets { from + len < 2 ^ 64 }
    {
        let mut all = true;
        for index in 0..len {
            let offset = from + u64::from(index);
            let plain = self.plain.octet_at(chain, offset);
            assert_eq!(rt; self.store.covers(chain, offset, 1), plain.is_some());
            if self.store.covers(chain, offset, 1) {
                let mut out = [0];
                self.store.copy_out(chain, offset, &mut out);
                assert_eq!(rt; Some(out[0]), plain);
            }
            all = all && plain.is_some();
        }
        assert_eq!(rt; self.store.covers(chain, from, len), all);
    }

    fn forget(&mut self, chain: ChainId, at: u64, all: bool)
        requires { chain.0 < 3 }
    {
        if all {
            self.store.forget_all(chain);
            self.plain.forget_below(chain, u64::MAX);
        } else {
            self.store.forget_below(chain, at);
            self.plain.forget_below(chain, at);
        }
    }

    // Checks the number of blocks of each chain and the number of free cells.
    fn count(&self, rt: &impl Abort) {
        let mut held: u32 = 0;
        for number in 0..3 {
            let chain = ChainId(number);
            let first = base_of(chain) / 256;
            let mut plain: u32 = 0;
            for block in first..first + 19 {
                if self.plain.holds(chain, block) {
                    plain = plain.saturating_add(1);
                }
            }
            assert_eq!(rt; self.store.held(chain), plain);
            held = held.saturating_add(plain);
        }
        assert_eq!(rt; self.store.free().saturating_add(held), 40);
    }

    // Makes one more call of each of the two.
    fn step(&mut self, rt: &impl Abort) -> Result<(), Fail> {
        let chain = ChainId(self.pattern.next(3) as u32);
        let from = base_of(chain) + self.pattern.next(4_000);
        let mut octets = [0; 600];
        for octet in octets.iter_mut() {
            *octet = self.pattern.next(3) as u8;
        }
        let len = self.pattern.next(600);
        let piece = &mut octets[..len as usize];
        match self.pattern.next(16) {
            0..=8 => self.place(rt, chain, from, piece)?,
            9..=11 => self.settle(rt, chain, from, piece),
            12 => self.read(rt, chain, from, len as u32),
            13..=14 => self.forget(chain, from, false),
            _ => self.forget(chain, from, len < 60),
        }
        Ok(())
    }
}

#[test]
fn the_store_is_the_plain_map_after_thousands_of_calls(rt: HostRuntime) -> Result<(), Fail> {
    let mut both = Both {
        store: Retain::open(rt.alloc(), 40, 3)?,
        plain: Plain {
            octets: BTreeMap::new(rt.alloc()),
        },
        pattern: Pattern(1),
    };
    for _ in 0..40 {
        for _ in 0..100 {
            both.step(&rt)?;
        }
        both.count(&rt);
    }
    for number in 0..3 {
        both.read(&rt, ChainId(number), base_of(ChainId(number)), 4_700);
    }
    Ok(())
}
