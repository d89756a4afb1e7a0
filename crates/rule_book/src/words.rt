//! Parsers of the words of a line.
ghost use Rattle.std.specs.Prelude.{◌≡◌, ℕ, ◌^◌, ◌<◌, ◌≤◌, ◌+◌, ◌==◌, length, decimal, IfSome};
ghost use Rattle.std.specs.List.{after_first, before_first, position_or_len};

use wire_base::read_number;

/// Cuts a text at the first octet with this value. Returns what precedes and what follows it, or
/// all of the text and nothing if no octet has it.
pub fn cut(text: &[u8], octet: u8) -> (&[u8], &[u8])
    ensures front { result.0.now ≡ before_first (λ other. other == octet) text.now }
    ensures behind { result.1.now ≡ after_first (λ other. other == octet) text.now }
{
    let at = place_of(text, octet);
    let end = (at + 1).min(text.len());
    (&text[..at], &text[end..])
}

/// Returns the index of the first octet with this value, or the length of the text if no octet has
/// it.
pub fn place_of(text: &[u8], octet: u8) -> usize
    ensures place { result ≡ position_or_len (λ other. other == octet) text.now }
    ensures within { result ≤ length text.now }
{
    text.iter()
        .position(|other| *other == octet)
        .unwrap_or(text.len())
}

/// Parses a decimal number of 64 bits.
#[tactic(auto, using(crate::proofs::Numbers::read_decimal))]
pub fn long_number_of(word: &[u8]) -> Option<u64>
    ensures value { (number : ℕ) → number < 2 ^ 64 → word.now ≡ decimal number → result ≡ Some number }
    ensures bound { IfSome result (λ number. number < 2 ^ 64) }
{
    u64::try_from(read_number(word, 20)?).ok()
}

/// Parses a decimal number of 32 bits.
pub fn number_of(word: &[u8]) -> Option<u32>
    ensures value { (number : ℕ) → number < 2 ^ 32 → word.now ≡ decimal number → result ≡ Some number }
    ensures bound { IfSome result (λ number. number < 2 ^ 32) }
{
    u32::try_from(long_number_of(word)?).ok()
}

/// Parses a decimal number of 8 bits.
pub fn short_number_of(word: &[u8]) -> Option<u8>
    ensures value { (number : ℕ) → number < 2 ^ 8 → word.now ≡ decimal number → result ≡ Some number }
    ensures bound { IfSome result (λ number. number < 2 ^ 8) }
{
    u8::try_from(long_number_of(word)?).ok()
}
