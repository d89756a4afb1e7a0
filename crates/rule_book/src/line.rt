//! A line of text in a buffer, written from its front.
ghost use Rattle.std.specs.Prelude.{◌≡◌, ◌+◌, ◌<◌, ◌≤◌, [], ◌∷◌, length, decimal};
ghost use Rattle.rule_book.specs.working.LineBuffers.{Adds, Puts};
ghost use Rattle.rule_book.specs.Text.{part};

use itoa::write_digits;

/// A line of text: the first `len` octets of a buffer.
#[derive(Drop)]
pub struct Line<'a> {
    buf: &'a mut [u8],
    len: usize,
}

impl<'a> Line<'a> {
    /// Returns an empty line in this buffer.
    pub fn new(buf: &'a mut [u8]) -> Line<'a>
        ensures same_buffer { result.buf.ghost_name ≡ buf.entry.ghost_name }
        ensures room { length result.buf.now ≡ length buf.old }
        ensures empty { result.len ≡ 0 }
    {
        Line { buf, len: 0 }
    }

    /// Returns the length of the line in octets.
    pub fn len(&self) -> usize
        ensures { result ≡ self.now.len }
    {
        self.len
    }

    /// Appends octets.
    pub fn octets(&mut self, piece: &[u8])
        requires { self.old.len + length piece.now ≤ length self.old.buf.now }
        ensures same_buffer { self.new.buf.ghost_name ≡ self.old.buf.ghost_name }
        ensures adds { Adds self.old self.new piece.now }
    {
        self.len = put(self.buf, self.len, piece);
    }

    /// Appends a text.
    pub fn text(&mut self, piece: &str)
        requires { self.old.len + length piece.now ≤ length self.old.buf.now }
        ensures same_buffer { self.new.buf.ghost_name ≡ self.old.buf.ghost_name }
        ensures adds { Adds self.old self.new piece.now }
    {
        self.octets(piece.as_bytes());
    }

    /// Appends one octet.
    pub fn octet(&mut self, octet: u8)
        requires { self.old.len < length self.old.buf.now }
        ensures same_buffer { self.new.buf.ghost_name ≡ self.old.buf.ghost_name }
        ensures adds { Adds self.old self.new (octet ∷ []) }
    {
        self.len = put_octet(self.buf, self.len, octet);
    }

    /// Appends an 8-bit number in decimal, at most 3 digits.
    #[tactic(auto, using(crate::proofs::Numbers::digit_counts))]
    pub fn small_number(&mut self, number: u8)
        requires { self.old.len + 4 ≤ length self.old.buf.now }
        ensures same_buffer { self.new.buf.ghost_name ≡ self.old.buf.ghost_name }
        ensures adds { Adds self.old self.new (decimal number) }
        ensures bound { self.new.len ≤ self.old.len + 3 }
    {
        if number < 10 {
            self.octet(b'0' + number);
        } else {
            self.len = put_decimal(self.buf, self.len, u64::from(number));
        }
    }

    /// Appends a 32-bit number in decimal, at most 10 digits.
    #[tactic(auto, using(crate::proofs::Numbers::digit_counts))]
    pub fn number(&mut self, number: u32)
        requires { self.old.len + 10 ≤ length self.old.buf.now }
        ensures same_buffer { self.new.buf.ghost_name ≡ self.old.buf.ghost_name }
        ensures adds { Adds self.old self.new (decimal number) }
        ensures bound { self.new.len ≤ self.old.len + 10 }
    {
        self.len = put_decimal(self.buf, self.len, u64::from(number));
    }

    /// Appends a 64-bit number in decimal, at most 20 digits.
    #[tactic(auto, using(crate::proofs::Numbers::digit_counts))]
    pub fn long_number(&mut self, number: u64)
        requires { self.old.len + 20 ≤ length self.old.buf.now }
        ensures same_buffer { self.new.buf.ghost_name ≡ self.old.buf.ghost_name }
        ensures adds { Adds self.old self.new (decimal number) }
        ensures bound { self.new.len ≤ self.old.len + 20 }
    {
        self.len = put_decimal(self.buf, self.len, number);
    }

    /// Appends a space and a text.
    #[inline(always)]
    pub fn part(&mut self, piece: &str)
        requires { self.old.len + 1 + length piece.now ≤ length self.old.buf.now }
        ensures same_buffer { self.new.buf.ghost_name ≡ self.old.buf.ghost_name }
        ensures adds { Adds self.old self.new (part piece.now) }
    {
        self.octet(b' ');
        self.len = put_word(self.buf, self.len, piece.as_bytes());
    }

    /// Appends a space and a 32-bit number in decimal, at most 10 digits.
    pub fn part_number(&mut self, number: u32)
        requires { self.old.len + 11 ≤ length self.old.buf.now }
        ensures same_buffer { self.new.buf.ghost_name ≡ self.old.buf.ghost_name }
        ensures adds { Adds self.old self.new (part (decimal number)) }
        ensures bound { self.new.len ≤ self.old.len + 11 }
    {
        self.octet(b' ');
        self.number(number);
    }

    /// Appends a space and a 64-bit number in decimal, at most 20 digits.
    pub fn part_long_number(&mut self, number: u64)
        requires { self.old.len + 21 ≤ length self.old.buf.now }
        ensures same_buffer { self.new.buf.ghost_name ≡ self.old.buf.ghost_name }
        ensures adds { Adds self.old self.new (part (decimal number)) }
        ensures bound { self.new.len ≤ self.old.len + 21 }
    {
        self.octet(b' ');
        self.long_number(number);
    }
}

// Writes octets from offset `at` on. Returns the offset after them.
#[inline]
fn put(buf: &mut [u8], at: usize, piece: &[u8]) -> usize
    requires { at + length piece.now ≤ length buf.old }
    ensures { Puts buf.old buf.new at result piece.now }
{
    let end = at + piece.len();
    buf[at..end].copy_from_slice(piece);
    end
}

// Writes one octet at offset `at`. Returns the offset after it.
#[inline]
fn put_octet(buf: &mut [u8], at: usize, octet: u8) -> usize
    requires { at < length buf.old }
    ensures { Puts buf.old buf.new at result (octet ∷ []) }
{
    buf[at] = octet;
    at + 1
}

// Writes a word from offset `at` on. Returns the offset after it. A word of 4 to 16 octets takes
// two copies of constant size and no call.
#[inline]
fn put_word(buf: &mut [u8], at: usize, word: &[u8]) -> usize
    requires { at + length word.now ≤ length buf.old }
    ensures { Puts buf.old buf.new at result word.now }
{
    match word.len() {
        4..=8 => put_by_ends(buf, at, word, 4),
        9..=16 => put_by_ends(buf, at, word, 8),
        _ => put(buf, at, word),
    }
}

// Writes the first `part` and the last `part` octets of a word, which may overlap. Returns the
// offset after the word.
#[inline(always)]
fn put_by_ends(buf: &mut [u8], at: usize, word: &[u8], part: usize) -> usize
    requires part { part ≤ length word.now }
    requires whole { length word.now ≤ part + part }
    requires room { at + length word.now ≤ length buf.old }
    ensures { Puts buf.old buf.new at result word.now }
{
    let rest = word.len() - part;
    put(buf, at, &word[..part]);
    put(buf, at + rest, &word[rest..])
}

// Writes the digits of a number from offset `at` on. Returns the offset after them.
fn put_decimal(buf: &mut [u8], at: usize, number: u64) -> usize
    requires { at + length (decimal number) ≤ length buf.old }
    ensures { Puts buf.old buf.new at result (decimal number) }
{
    let end = at + digits_of(number);
    write_digits(number, buf, end);
    end
}

// Returns how many decimal digits a number has.
#[tactic(auto, using(crate::proofs::Numbers::digit_counts))]
fn digits_of(number: u64) -> usize
    ensures { result ≡ length (decimal number) }
{
    if number < 10 {
        return 1;
    }
    number.ilog10() as usize + 1
}
