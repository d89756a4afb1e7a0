//! Worked cases in the code: fragments that overlap, a clash, the longest datagram, one datagram at
//! a time, and time.
ghost use Rattle.std.specs.Prelude.{◌≡◌, ◌<◌, ◌≤◌, length, false};
ghost use Rattle.norm_settings.specs.SettingValues.{plain_settings, AreInRange};
ghost use Rattle.reassembly.specs.AssemblyState.{last_time};
ghost use Rattle.reassembly.specs.DatagramFragments.{fragment_of, IsPiece};
ghost use Rattle.wire_base.specs.declared.limits.TheConstants.{MAX_PAYLOAD};

use arrayvec::ArrayVec;
use norm_settings::Settings;
use reassembly::{Assembly, Offered, Piece, Whole};
use rule_book::Rule;
use std::alloc::Global;
use std::test::Fail;
use wire_base::{Addr, protocol};

// A UDP message: its header and 16 octets.
const WHOLE: [u8; 24] = [
    0x9c, 0x40, 0, 0x35, 0, 0x18, 0, 0, 97, 97, 97, 97, 97, 97, 97, 97, 97, 97, 97, 97, 97, 97, 97,
    97,
];

const EIGHT: [u8; 8] = [97; 8];

const OTHER: [u8; 8] = [98, 97, 97, 97, 97, 97, 97, 97];

// Returns a fragment with this TTL.
fn part(ident: u16, offset: u32, more: bool, ttl: u8, bytes: &[u8]) -> Piece<'_>
    requires part { more ≡ false → 0 < offset }
    requires offset { offset ≤ 65528 }
    requires short { length bytes.now ≤ MAX_PAYLOAD }
    ensures { IsPiece (fragment_of result) }
{
    Piece {
        src: Addr(0xc6336407),
        dst: Addr(0x0a000001),
        protocol: protocol::UDP,
        ident,
        offset,
        more,
        df: false,
        tos: 0,
        ttl,
        bytes,
    }
}

/// How the settings of an assembly differ from the standard ones.
#[derive(Clone, Copy)]
enum Limit {
    None,
    OneDatagram,
    FewestCells,
}

fn settings(limit: Limit) -> Settings
    ensures { AreInRange (plain_settings result) }
{
    let mut settings = Settings::standard(ArrayVec::new());
    match limit {
        Limit::None => {}
        Limit::OneDatagram => settings.frags = 1,
        Limit::FewestCells => settings.frag_cells = 256,
    }
    settings
}

// Offers a fragment. The contract of `offer` is long, and slow in a function with several calls.
fn offer(assembly: &mut Assembly, now: u32, piece: &Piece<'_>, buf: &mut [u8]) -> Offered
    requires piece { IsPiece (fragment_of piece.now) }
    requires buffer { MAX_PAYLOAD ≤ length buf.old }
    requires late { last_time assembly.old ≤ now }
    ensures { last_time assembly.new ≡ now }
{
    assembly.offer(now, piece, buf)
}

/// The datagram of 24 octets.
const DONE: Offered = Offered::Done(Whole {
    len: 24,
    tos: 0,
    ttl: 64,
    df: false,
});

fn agree(assembly: &mut Assembly, buf: &mut [u8]) -> bool
    requires buffer { MAX_PAYLOAD ≤ length buf.old }
    requires late { last_time assembly.old ≡ 0 }
{
    let first = offer(assembly, 0, &part(7, 0, true, 64, &WHOLE[..16]), buf);
    let second = offer(assembly, 0, &part(7, 8, true, 9, &EIGHT), buf);
    let held = (assembly.datagrams(), assembly.cells());
    let third = offer(assembly, 0, &part(7, 16, false, 9, &EIGHT), buf);
    let offered = (first, second, held, third) == (Offered::Held, Offered::Held, (1, 1), DONE);
    offered && buf.starts_with(&WHOLE)
}

fn clash(assembly: &mut Assembly, buf: &mut [u8]) -> bool
    requires buffer { MAX_PAYLOAD ≤ length buf.old }
    requires late { last_time assembly.old ≡ 0 }
{
    let first = offer(assembly, 0, &part(8, 0, true, 64, &WHOLE[..16]), buf);
    let other = offer(assembly, 0, &part(8, 8, true, 64, &OTHER), buf);
    let held = (assembly.datagrams(), assembly.cells());
    let last = offer(assembly, 0, &part(8, 16, false, 64, &EIGHT), buf);
    (first, other, held, last)
        == (
            Offered::Held,
            Offered::Drop(Rule::FClash),
            (0, 0),
            Offered::Held,
        )
}

fn end_at_65515(assembly: &mut Assembly, buf: &mut [u8]) -> bool
    requires buffer { MAX_PAYLOAD ≤ length buf.old }
    requires late { last_time assembly.old ≡ 0 }
{
    let longest = offer(assembly, 0, &part(7, 65_512, false, 64, &EIGHT[..3]), buf);
    let longer = offer(assembly, 0, &part(8, 65_512, false, 64, &EIGHT[..4]), buf);
    (longest, longer) == (Offered::Held, Offered::Drop(Rule::FBig))
}

fn take_turns(assembly: &mut Assembly, buf: &mut [u8]) -> bool
    requires buffer { MAX_PAYLOAD ≤ length buf.old }
    requires late { last_time assembly.old ≡ 0 }
{
    let first = offer(assembly, 0, &part(7, 0, true, 64, &EIGHT), buf);
    let other = offer(assembly, 0, &part(8, 0, true, 64, &EIGHT), buf);
    let later = offer(assembly, 20, &part(7, 8, true, 64, &EIGHT), buf);
    let expired = (assembly.expire(30), assembly.expire(31));
    let free = offer(assembly, 31, &part(8, 0, true, 64, &EIGHT), buf);
    let full = (first, other, later) == (Offered::Held, Offered::Drop(Rule::FMany), Offered::Held);
    full && expired == (0, 1) && free == Offered::Held
}

fn fill(assembly: &mut Assembly, buf: &mut [u8]) -> bool
    requires buffer { MAX_PAYLOAD ≤ length buf.old }
    requires late { last_time assembly.old ≡ 0 }
{
    let long = [97; 65_504];
    let first = offer(assembly, 0, &part(7, 0, true, 64, &long), buf);
    let cells = assembly.cells();
    let other = offer(assembly, 0, &part(8, 0, true, 64, &EIGHT), buf);
    (first, cells, other) == (Offered::Held, 256, Offered::Drop(Rule::FRoom))
}

fn begin_twice(assembly: &mut Assembly, buf: &mut [u8]) -> bool
    requires buffer { MAX_PAYLOAD ≤ length buf.old }
    requires late { last_time assembly.old ≡ 0 }
{
    let first = offer(assembly, 0, &part(7, 0, true, 64, &EIGHT), buf);
    let again = offer(assembly, 0, &part(7, 0, true, 9, &EIGHT), buf);
    let whole = Whole {
        len: 16,
        tos: 0,
        ttl: 64,
        df: false,
    };
    let last = offer(assembly, 0, &part(7, 8, false, 9, &EIGHT), buf);
    (first, again, last) == (Offered::Held, Offered::Held, Offered::Done(whole))
}

fn end_twice(assembly: &mut Assembly, buf: &mut [u8]) -> bool
    requires buffer { MAX_PAYLOAD ≤ length buf.old }
    requires late { last_time assembly.old ≡ 0 }
{
    let end = Offered::Drop(Rule::FEnd);
    let last = offer(assembly, 0, &part(7, 16, false, 64, &EIGHT), buf);
    let earlier = offer(assembly, 0, &part(7, 8, false, 64, &EIGHT), buf);
    let other = offer(assembly, 0, &part(8, 16, false, 64, &EIGHT), buf);
    let later = offer(assembly, 0, &part(8, 24, true, 64, &EIGHT), buf);
    let offered = (last, earlier, other, later) == (Offered::Held, end, Offered::Held, end);
    offered && assembly.datagrams() == 0
}

/// What fragments do in a new assembly.
#[derive(Clone, Copy)]
enum Case {
    Agree,
    Clash,
    EndAt65515,
    TakeTurns,
    Fill,
    BeginTwice,
    EndTwice,
}

fn holds(case: Case, assembly: &mut Assembly, buf: &mut [u8]) -> bool
    requires buffer { MAX_PAYLOAD ≤ length buf.old }
    requires late { last_time assembly.old ≡ 0 }
{
    match case {
        Case::Agree => agree(assembly, buf),
        Case::Clash => clash(assembly, buf),
        Case::EndAt65515 => end_at_65515(assembly, buf),
        Case::TakeTurns => take_turns(assembly, buf),
        Case::Fill => fill(assembly, buf),
        Case::BeginTwice => begin_twice(assembly, buf),
        Case::EndTwice => end_twice(assembly, buf),
    }
}

// Owns the assembly, which no other function does.
fn is_held(alloc: Global, limit: Limit, case: Case) -> Result<bool, Fail> {
    let mut buf = vec![in alloc; 0u8; 65_515]?;
    let mut assembly = Assembly::open(alloc, &settings(limit))?;
    Ok(holds(case, &mut assembly, &mut buf))
}

#[rattlefmt::skip]
const CASES: &[(Limit, Case)] = &[
    // Fragments that agree make a datagram.
    (Limit::None, Case::Agree),
    // An octet that differs ends a datagram.
    (Limit::None, Case::Clash),
    // The longest datagram ends at 65,515.
    (Limit::None, Case::EndAt65515),
    // One datagram at a time, and no longer than its time.
    (Limit::OneDatagram, Case::TakeTurns),
    // No fragment is held without a free cell.
    (Limit::FewestCells, Case::Fill),
    // The first fragment at offset 0 gives the header.
    (Limit::None, Case::BeginTwice),
    // A last fragment that ends elsewhere ends a datagram.
    (Limit::None, Case::EndTwice),
];

// Returns the first case that does not hold.
fn first_other(alloc: Global, cases: &[(Limit, Case)]) -> Result<Option<usize>, Fail> {
    for (index, (limit, case)) in cases.iter().enumerate() {
        if !is_held(alloc, *limit, *case)? {
            return Ok(Some(index));
        }
    }
    Ok(None)
}

#[test]
fn pieces_make_datagrams(rt: HostRuntime) -> Result<(), Fail> {
    assert_eq!(rt; first_other(rt.alloc(), CASES)?, None);
    Ok(())
}
